//! The whole file.
ghost use Rattle.std.specs.Prelude.{◌≡◌, ◌≤◌, IfOk};
ghost use Rattle.gfx_make.specs.Made.{made_file};

use crate::frame::put_frames;
use crate::setup::put_setup;
use gfx_blocks::put_header;
use gfx_types::WantMemory;
use std::alloc::Global;

/// The capture file of so many frames.
pub fn make_file(alloc: Global, frames: u64) -> Result<Vec<u8>, WantMemory>
    requires { frames ≤ 1000 }
    ensures { IfOk result (λ file. file.items ≡ made_file frames) }
{
    let mut file = Vec::new(alloc);
    put_header(1, &mut file)?;
    put_setup(alloc, &mut file)?;
    put_frames(alloc, frames, &mut file)?;
    Ok(file)
}
