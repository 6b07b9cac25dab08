//! A range of frames that a file has, cut out and hashed.
ghost use Rattle.std.specs.Prelude.{◌≡◌, ◌≤◌, List, IfOk};
ghost use Rattle.gfx_types.specs.declared.frame.Frame.{Frame};
ghost use Rattle.gfx_player.specs.Faults.{IsUnwritten};
ghost use Rattle.gfx_trial.specs.Files.{HasFrames, digested};

use gfx_digest::{Digested, digest_frames};
use gfx_io::{MemSink, SliceSource};
use gfx_player::PlayFault;
use gfx_trim::trim;
use gfx_types::WantMemory;
use std::alloc::Global;

/// The file of a range of frames of a file that has them. It has the same frames.
pub(crate) fn cut_out(
    alloc: Global,
    first: u64,
    last: u64,
    file: &[u8],
) -> Result<Vec<u8>, WantMemory>
    requires ordered { first ≤ last }
    requires there { (shown : List Frame) × HasFrames first last file.now shown }
    ensures { IfOk result (λ out. (shown : List Frame) → HasFrames first last file.now shown → HasFrames first last out.items shown) }
{
    let mut source = SliceSource { rest: file };
    let mut sink = MemSink::new(alloc, usize::MAX, Vec::new(alloc));
    match trim(alloc, first, last, &mut source, &mut sink) {
        Ok(()) => Ok(sink.into_bytes()),
        Err(fault) => Err(lacking(fault)),
    }
}

/// The digest of a range of frames of a file that has them.
pub(crate) fn digest_of(
    alloc: Global,
    first: u64,
    last: u64,
    file: &[u8],
) -> Result<Digested, WantMemory>
    requires ordered { first ≤ last }
    requires there { (shown : List Frame) × HasFrames first last file.now shown }
    ensures { IfOk result (λ d. (shown : List Frame) → HasFrames first last file.now shown → d ≡ digested first last shown) }
{
    let mut source = SliceSource { rest: file };
    match digest_frames(alloc, first, last, &mut source) {
        Ok(digested) => Ok(digested),
        Err(fault) => Err(lacking(fault)),
    }
}

/// What was wanting where a file has the frames and its reads don't fail: memory, also of the sink.
fn lacking(fault: PlayFault) -> WantMemory
    requires { IsUnwritten fault }
{
    match fault {
        PlayFault::SinkFault => WantMemory,
        PlayFault::WantMemory => WantMemory,
        PlayFault::ReadFault => unreachable!(),
        PlayFault::NoSuchFrame { .. } => unreachable!(),
        PlayFault::Bad { .. } => unreachable!(),
    }
}
