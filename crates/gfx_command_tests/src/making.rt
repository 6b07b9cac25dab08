//! A capture that the program makes.

use gfx_outside::Outside;
use std::test::Fail;

#[test]
fn a_made_capture_and_its_cut_show_the_same_images(rt: HostRuntime) -> Result<(), Fail> {
    Outside::of(&["make", "3"], b"").ends(
        rt.alloc(),
        0,
        b"file frames 3 blocks 43\n\
        trim 1-2 frames 2\n\
        digest 80b17dbaac258a9c3641b5c3468554c83d836b680badf454bf59e00a35fd2f8e\n\
        digest 80b17dbaac258a9c3641b5c3468554c83d836b680badf454bf59e00a35fd2f8e\n",
        b"",
    )
}

#[test]
fn sixty_frames_have_their_digest_each_time(rt: HostRuntime) -> Result<(), Fail> {
    let text = b"file frames 60 blocks 385\n\
        trim 20-40 frames 21\n\
        digest 8ebe9a22ef4c423ccbe63be46fd4c3a5f45edb9919cdd88cf2ee36ef215f9221\n\
        digest 8ebe9a22ef4c423ccbe63be46fd4c3a5f45edb9919cdd88cf2ee36ef215f9221\n";
    for _ in 0..2 {
        Outside::of(&["make", "60"], b"").ends(rt.alloc(), 0, text, b"")?;
    }
    Ok(())
}
