//! Reads and writes of which one fails, each in turn.

use gfx_outside::{Ended, Outside};
use gfx_samples::files::{THREE_SHOWN, shown_before, three_frames};
use std::process::Abort;
use std::test::Fail;

/// A read failed, and what was shown before the block at which reading stopped is there, the first one that isn't whole in
/// what was given. Answers whether no read failed, and all is there.
fn was_read(rt: &impl Abort, length: usize, ended: &Ended, number: u64) -> bool {
    if ended.status == 0 {
        assert_all_shown(rt, ended);
        return true;
    }
    assert_eq!(rt;
        (ended.status, ended.notes.as_slice()),
        (5, b"read fault\n".as_slice())
    );
    let given = length.saturating_sub(ended.left);
    assert_eq!(rt;
        ended.text.as_slice(),
        shown_before(given),
        "at read {number}"
    );
    false
}

/// A write failed behind a prefix of the text. Answers whether none failed, and all is there.
fn was_written(rt: &impl Abort, ended: &Ended, number: u64) -> bool {
    if ended.status == 0 {
        assert_all_shown(rt, ended);
        return true;
    }
    assert_eq!(rt; (ended.status, ended.notes.len()), (6, 0));
    assert!(rt; THREE_SHOWN.starts_with(&ended.text), "at write {number}");
    assert!(rt; ended.text.len() < THREE_SHOWN.len());
    false
}

fn assert_all_shown(rt: &impl Abort, ended: &Ended) {
    assert_eq!(rt; ended.text.as_slice(), THREE_SHOWN);
    assert!(rt; ended.notes.is_empty());
}

/// Replays the file of three frames where the read with this number fails, and answers whether there is none.
fn is_past_the_reads(
    rt: &(impl Abort + AllocGlobal),
    file: &[u8],
    number: u64,
) -> Result<bool, Fail> {
    let outside = Outside {
        failing_reads: &[number],
        ..Outside::replay(file).at_most(7)
    };
    let ended = outside.run(rt.alloc())?;
    Ok(was_read(rt, file.len(), &ended, number))
}

/// Replays the file of three frames where the write with this number fails, and answers whether there is none.
fn is_past_the_writes(
    rt: &(impl Abort + AllocGlobal),
    file: &[u8],
    number: u64,
) -> Result<bool, Fail> {
    let outside = Outside {
        failing_writes: &[number],
        ..Outside::replay(file).at_most(5)
    };
    let ended = outside.run(rt.alloc())?;
    Ok(was_written(rt, &ended, number))
}

#[test]
fn a_failed_read_leaves_the_frames_before_it(rt: HostRuntime) -> Result<(), Fail> {
    let file = three_frames(rt.alloc())?;
    for number in 1..1000 {
        if is_past_the_reads(&rt, &file, number)? {
            // So many bytes don't come in fewer reads.
            assert!(rt; number > 1571 / 7);
            assert!(rt; is_past_the_reads(&rt, &file, number + 1)?);
            return Ok(());
        }
    }
    panic!(rt; "there are more reads")
}

#[test]
fn a_failed_write_leaves_a_front_of_the_text(rt: HostRuntime) -> Result<(), Fail> {
    let file = three_frames(rt.alloc())?;
    for number in 1..1000 {
        if is_past_the_writes(&rt, &file, number)? {
            // So many bytes don't go in fewer writes.
            assert!(rt; number > 264 / 5);
            assert!(rt; is_past_the_writes(&rt, &file, number + 1)?);
            return Ok(());
        }
    }
    panic!(rt; "there are more writes")
}

#[test]
fn a_note_that_cannot_be_written_is_a_failed_write(rt: HostRuntime) -> Result<(), Fail> {
    let file = three_frames(rt.alloc())?;
    let cut = &file[..1528.min(file.len())];
    for (words, input, text) in [
        (["info", "info"].as_slice(), cut, b"".as_slice()),
        (["trim", "2"].as_slice(), cut, b"".as_slice()),
        (["trim", "4-4"].as_slice(), &file, b"".as_slice()),
        (["replay"].as_slice(), cut, &THREE_SHOWN[..170]),
        (
            ["replay", "--frames", "4-4"].as_slice(),
            &file,
            b"".as_slice(),
        ),
    ] {
        let outside = Outside {
            failing_notes: &[1],
            ..Outside::of(words, input)
        };
        outside.ends(rt.alloc(), 6, text, b"")?;
    }
    Ok(())
}
