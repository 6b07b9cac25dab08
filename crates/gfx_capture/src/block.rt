//! The blocks of a buffer: found, read, and written under a thread.
ghost use Rattle.std.specs.Prelude.{◌≡◌, ◌≤◌, ◌+◌, ◌++◌, length, take, drop, IfOk, OnOk, OnErr};
ghost use Rattle.gfx_model.specs.Events.{Event, event_of};
ghost use Rattle.gfx_model.specs.Blocks.{size_field};
ghost use Rattle.gfx_capture.specs.Entry.{IsVersion};
ghost use Rattle.gfx_capture.specs.ThreadBuffer.{IsPut, IsPutOf, with_thread};

use gfx_blocks::{BlockFault, Framing, read_payload};
use gfx_io::set_u64;
use gfx_params::{front_u32, front_u64};
use gfx_types::{Block, Effect, WantMemory};
use std::alloc::Global;

/// The bytes of a block before its payload: its size and its type.
const HEAD: usize = 12;

/// Where the thread is in a block: behind its head and its id.
const THREAD: usize = HEAD + 4;

/// The block at the start of the bytes, and what follows it.
pub(crate) fn split_block(bytes: &[u8]) -> (&[u8], &[u8])
    requires head { 12 ≤ length bytes.now }
    requires whole { 12 + size_field bytes.now ≤ length bytes.now }
    ensures block { result.0.now ≡ take (12 + size_field bytes.now) bytes.now }
    ensures rest { result.1.now ≡ drop (12 + size_field bytes.now) bytes.now }
{
    match front_u64(bytes) {
        Some((size, _)) => bytes.split_at(HEAD + size as usize),
        None => unreachable!(),
    }
}

/// The effect of a block that was put.
pub(crate) fn read_back(alloc: Global, minor: u32, block: &[u8]) -> Result<Effect<'_>, WantMemory>
    requires version { IsVersion minor }
    requires block { IsPut minor block.now }
    ensures { IfOk result (λ effect. (e : Event) → IsPutOf minor e block.now → event_of effect ≡ e) }
{
    let Some((_, behind)) = front_u64(block) else {
        unreachable!()
    };
    let Some((kind, payload)) = front_u32(behind) else {
        unreachable!()
    };
    let framing = Framing {
        size: payload.len() as u64,
        kind,
    };
    match read_payload(alloc, minor, framing, payload) {
        Ok(Block::Effect { thread: _, effect }) => Ok(effect),
        Ok(Block::Skip) => unreachable!(),
        Err(BlockFault::WantMemory) => Err(WantMemory),
        Err(BlockFault::Bad(_)) => unreachable!(),
    }
}

/// Appends a block under another thread. `out` is unchanged when out of memory.
pub(crate) fn put_with_thread(
    thread: u32,
    block: &[u8],
    out: &mut Vec<u8>,
) -> Result<(), WantMemory>
    requires { 24 ≤ length block.now }
    ensures ok { OnOk result (out.new.items ≡ out.old.items ++ with_thread thread block.now) }
    ensures err { OnErr result (out.new.items ≡ out.old.items) }
{
    let start = out.len();
    out.extend_from_slice(block)?;
    set_u64(out, start + THREAD, u64::from(thread));
    Ok(())
}
