//! One block of a section.
ghost use Rattle.std.specs.Prelude.{◌≡◌, ◌≤◌, ◌^◌, ◌∷◌, [], length};
ghost use Rattle.gfx_model.specs.Events.{event_of};
ghost use Rattle.gfx_model.specs.Events.Event.{FillMemory, InitImage};
ghost use Rattle.gfx_model.specs.Spelling.{HasSpelling, payload};
ghost use Rattle.gfx_state.specs.Written.{Wrote};
ghost use Rattle.gfx_model.specs.Limits.{max_image_size, max_payload};

use crate::StateFault;
use crate::room::Room;
use gfx_blocks::put_block;
use gfx_io::{Sink, write_whole};
use gfx_types::{Effect, Meta};

/// Writes the block of an effect under thread 0. The room for it is lent, and what is there is of no meaning.
pub(crate) fn write_effect<K: Sink>(
    sink: &mut K,
    room: &mut Room,
    effect: &Effect<'_>,
) -> Result<(), StateFault>
    requires spelled { HasSpelling 1 (event_of effect.now) }
    requires small { length (payload 1 0 (event_of effect.now)) ≤ max_payload }
    ensures { Wrote (K.taken sink.old) (K.taken sink.new) (K.faults sink.old) (K.faults sink.new) (event_of effect.now ∷ []) result }
{
    room.block.clear();
    put_block(1, 0, effect, &mut room.block)?;
    write_whole(sink, &room.block)?;
    Ok(())
}

/// Writes a piece of a memory's bytes.
pub(crate) fn write_fill_memory<K: Sink>(
    sink: &mut K,
    room: &mut Room,
    memory: u64,
    offset: u64,
    bytes: &[u8],
) -> Result<(), StateFault>
    requires { length bytes.now ≤ max_image_size }
    ensures { Wrote (K.taken sink.old) (K.taken sink.new) (K.faults sink.old) (K.faults sink.new) (FillMemory memory offset bytes.now ∷ []) result }
{
    let meta = Meta::FillMemory {
        memory,
        offset,
        bytes,
    };
    write_effect(sink, room, &Effect::Meta(meta))
}

/// Writes the layout of an image, and its bytes where they are its own.
pub(crate) fn write_init_image<K: Sink>(
    sink: &mut K,
    room: &mut Room,
    image: u64,
    layout: u32,
    bytes: &[u8],
) -> Result<(), StateFault>
    requires { length bytes.now ≤ max_image_size }
    ensures { Wrote (K.taken sink.old) (K.taken sink.new) (K.faults sink.old) (K.faults sink.new) (InitImage image layout bytes.now ∷ []) result }
{
    let meta = Meta::InitImage {
        image,
        layout,
        bytes,
    };
    write_effect(sink, room, &Effect::Meta(meta))
}
