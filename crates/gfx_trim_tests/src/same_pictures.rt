//! Every file and each range of frames inside it: what is shown of the cut is what is shown of the range.

use gfx_outside::{Ended, Outside, PIXELS, trim};
use gfx_samples::files::{ONE_TEXEL, TWO_IMAGES, file_of, one_frame, three_frames};
use gfx_samples::scenes::all;
use gfx_samples::variants;
use std::process::Abort;
use std::test::Fail;

/// Cuts a range out of a file by the command of this word, compares what is shown of the cut with what is shown of the range, and answers how many bytes it has.
fn cut_by<'a>(
    rt: &(impl Abort + AllocGlobal),
    (word, range): (&'a str, &'a str),
    file: &'a [u8],
    whole: &Ended,
) -> Result<usize, Fail> {
    let words = [word, range];
    let cut = Outside::of(&words, file).run(rt.alloc())?;
    assert_eq!(rt; cut.status, 0, "{word} {range}");
    assert_eq!(rt; cut.left, whole.left, "{word} {range}");
    Outside::of(PIXELS, &cut.text).ends(rt.alloc(), 0, &whole.text, b"")?;
    Ok(cut.text.len())
}

/// Cuts a range out of a file, with all that is before it and lean. What is shown of both is what is shown of the range, and the lean cut is no longer.
fn assert_same<'a>(
    rt: &(impl Abort + AllocGlobal),
    file: &'a [u8],
    range: &'a str,
) -> Result<(), Fail> {
    let words = ["replay", "--pixels", "--frames", range];
    let whole = Outside::of(&words, file).run(rt.alloc())?;
    assert_eq!(rt; whole.status, 0, "of {range}");
    let all = cut_by(rt, ("trim", range), file, &whole)?;
    let lean = cut_by(rt, ("lean", range), file, &whole)?;
    assert!(rt; lean <= all, "of {range}");
    Ok(())
}

/// Compares the ranges that begin with this frame.
fn assert_from(
    rt: &(impl Abort + AllocGlobal),
    file: &[u8],
    first: u32,
    frames: u32,
) -> Result<(), Fail> {
    for last in first..=frames {
        let range = format!(in rt.alloc(); "{first}-{last}")?;
        assert_same(rt, file, &range)?;
    }
    Ok(())
}

/// Compares all ranges of a file of so many frames.
fn assert_all(rt: &(impl Abort + AllocGlobal), file: &[u8], frames: u32) -> Result<(), Fail> {
    for first in 1..=frames {
        assert_from(rt, file, first, frames)?;
    }
    let past = format!(in rt.alloc(); "1-{}", frames.saturating_add(1))?;
    assert_eq!(rt; trim(rt.alloc(), &past, file)?.status, 4);
    Ok(())
}

#[test]
fn a_cut_shows_what_the_whole_shows(rt: HostRuntime) -> Result<(), Fail> {
    let alloc = rt.alloc();
    assert_all(&rt, &file_of(alloc, 1, &ONE_TEXEL)?, 1)?;
    assert_all(&rt, &file_of(alloc, 2, &TWO_IMAGES)?, 1)?;
    assert_all(&rt, &one_frame(alloc)?, 1)?;
    assert_all(&rt, &three_frames(alloc)?, 3)?;
    assert_all(&rt, &variants::crossing(alloc)?, 3)?;
    assert_all(&rt, &variants::freed(alloc)?, 3)?;
    assert_all(&rt, &variants::bound_late(alloc)?, 3)?;
    assert_all(&rt, &variants::signalled(alloc)?, 3)?;
    assert_all(&rt, &variants::sized(alloc, 134_217_728)?, 3)?;
    assert_all(&rt, &variants::sized(alloc, 268_435_453)?, 3)?;
    assert_all(&rt, &variants::filled_twice(alloc)?, 3)
}

#[test]
fn a_cut_shows_what_commands_drew(rt: HostRuntime) -> Result<(), Fail> {
    let alloc = rt.alloc();
    for mut made in all(alloc)? {
        made.show()?;
        made.show_again()?;
        made.show_again()?;
        assert_all(&rt, made.bytes(), 3)?;
    }
    Ok(())
}
