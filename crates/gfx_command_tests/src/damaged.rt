//! Files with numbers that were made to do harm.

use gfx_outside::Outside;
use gfx_samples::files::{NEXT_FRAME, THREE_SHOWN, append, one_frame, with_bytes};
use std::test::Fail;

#[test]
fn a_list_that_claims_more_than_there_is_is_bad_parameters(rt: HostRuntime) -> Result<(), Fail> {
    let mut file = one_frame(rt.alloc())?;
    append(rt.alloc(), &NEXT_FRAME[..1], &mut file)?;
    // The number of the fences that are reset.
    let file = with_bytes(file, 1163, &[255, 255, 255, 255]);
    let line = b"bad block 23 at 1131: 8 BadParams\n";
    Outside::replay(&file).ends(rt.alloc(), 3, &THREE_SHOWN[..85], line)
}

#[test]
fn a_list_without_items_is_a_bad_value(rt: HostRuntime) -> Result<(), Fail> {
    let mut file = one_frame(rt.alloc())?;
    file.extend_from_slice(
        b"\x18\0\0\0\0\0\0\0\x04\0\0\0\x24\0\0\0\0\0\0\0\0\0\0\0\x03\0\0\0\0\0\0\0\0\0\0\0",
    )?;
    let line = b"bad block 23 at 1131: 15 BadValue\n";
    Outside::replay(&file).ends(rt.alloc(), 3, &THREE_SHOWN[..85], line)
}

#[test]
fn a_large_size_over_no_bytes_is_truncated_or_too_large(rt: HostRuntime) -> Result<(), Fail> {
    // Frame markers of 134,217,728 and of 134,217,729 bytes, of which none is there.
    for (head, line) in [
        (
            b"\0\0\0\x08\0\0\0\0\x01\0\0\0",
            b"bad block 23 at 1131: 5 Truncated\n".as_slice(),
        ),
        (
            b"\x01\0\0\x08\0\0\0\0\x01\0\0\0",
            b"bad block 23 at 1131: 6 BlockTooLarge\n".as_slice(),
        ),
    ] {
        let mut file = one_frame(rt.alloc())?;
        file.extend_from_slice(head)?;
        Outside::replay(&file).ends(rt.alloc(), 3, &THREE_SHOWN[..85], line)?;
        Outside::info(&file).ends(rt.alloc(), 3, b"", line)?;
    }
    Ok(())
}

#[test]
fn an_offset_at_the_end_of_its_type_is_out_of_range(rt: HostRuntime) -> Result<(), Fail> {
    // The buffer's offset of the region that is copied.
    let file = with_bytes(one_frame(rt.alloc())?, 839, &[255; 8]);
    let line = b"bad block 17 at 783: 16 OutOfRange\n";
    Outside::replay(&file).ends(rt.alloc(), 3, b"", line)
}

#[test]
fn a_map_whose_end_would_wrap_is_out_of_range(rt: HostRuntime) -> Result<(), Fail> {
    // Offset 1 and a size of 2^64 - 2.
    let file = with_bytes(one_frame(rt.alloc())?, 424, &[1]);
    let file = with_bytes(file, 432, &[254]);
    let line = b"bad block 9 at 384: 16 OutOfRange\n";
    Outside::replay(&file).ends(rt.alloc(), 3, b"", line)
}
