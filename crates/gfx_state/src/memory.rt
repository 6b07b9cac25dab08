//! The blocks of a memory.
ghost use Rattle.std.specs.Prelude.{◌≡◌, ◌+◌, ◌≤◌, ◌∷◌, ◌++◌, [], Some, length, flat_map, option_map, IsSomeAnd};
ghost use Rattle.std.specs.Option.{option_map_or};
ghost use Rattle.gfx_types.specs.declared.op.Place.TheVariants as place;
ghost use Rattle.gfx_model.specs.Events.Event.{AllocateMemory, MapMemory};
ghost use Rattle.gfx_model.specs.Questions.{range_of};
ghost use Rattle.gfx_feature_model.specs.Lean.{kept_block};
ghost use Rattle.gfx_state.specs.Known.{bytes_in};
ghost use Rattle.gfx_state.specs.Filled.{fill_event, fills_written};
ghost use Rattle.gfx_state.specs.Written.{Wrote};
ghost use Rattle.gfx_model.specs.Limits.{page_size};

use crate::StateFault;
use crate::keep::Keep;
use crate::owned::Owned;
use crate::piece::piece_of;
use crate::room::Room;
use crate::writer::{write_effect, write_fill_memory};
use gfx_device::StateBytes;
use gfx_io::Sink;
use gfx_pages::Span;
use gfx_types::{Call, Effect, MapRange, Place};

// Writes the bytes of a fill, where it is kept.
fn write_fill<B: StateBytes, P: Keep, K: Sink>(
    sink: &mut K,
    room: &mut Room,
    bytes: &B,
    keep: &P,
    memory: u64,
    fill: Span,
) -> Result<(), StateFault>
    requires inside { IsSomeAnd (B.bytes bytes.now (place.Memory memory)) (λ all. fill.at + fill.length ≤ length all) }
    requires short { fill.length ≤ page_size }
    ensures { Wrote (K.taken sink.old) (K.taken sink.new) (K.faults sink.old) (K.faults sink.new)
        (kept_block (P.kept keep.now) (fill_event memory (bytes_in (B.bytes bytes.now) (place.Memory memory)) fill)) result }
{
    if !keep.keeps_fill(memory, fill) {
        return Ok(());
    }
    let piece = piece_of(
        room.alloc,
        bytes,
        Place::Memory(memory),
        fill.at,
        fill.length,
    )?;
    write_fill_memory(sink, room, memory, fill.at, &piece)
}

// Writes the kept fills of a memory of so many bytes.
fn write_fills<B: StateBytes, P: Keep, K: Sink>(
    sink: &mut K,
    room: &mut Room,
    bytes: &B,
    keep: &P,
    memory: u64,
    _size: u64,
) -> Result<(), StateFault>
    requires { option_map length (B.bytes bytes.now (place.Memory memory)) ≡ Some _size }
    ensures { Wrote (K.taken sink.old) (K.taken sink.new) (K.faults sink.old) (K.faults sink.new)
        (flat_map (kept_block (P.kept keep.now)) (fills_written memory (bytes_in (B.bytes bytes.now) (place.Memory memory)))) result }
{
    let mut after = 0;
    'fills: while let Some(fill) = bytes.next_fill(Place::Memory(memory), after) {
        write_fill(sink, room, bytes, keep, memory, fill)?;
        after = fill.at + 1;
    }
    Ok(())
}

// Writes the map of a memory, where it has one.
#[tactic(auto, using(gfx_section_law::proofs::Sizes::fixed_small), unfolding(gfx_model::specs::Spelling::fields_of))]
fn write_map<K: Sink>(
    sink: &mut K,
    room: &mut Room,
    device: u64,
    memory: u64,
    mapped: Option<MapRange>,
) -> Result<(), StateFault>
    ensures { Wrote (K.taken sink.old) (K.taken sink.new) (K.faults sink.old) (K.faults sink.new)
        (option_map_or (λ r. MapMemory device memory r.offset r.length ∷ []) (option_map range_of mapped) []) result }
{
    match mapped {
        Some(MapRange { offset, length }) => {
            let call = Call::MapMemory {
                device,
                memory,
                offset,
                size: length,
            };
            write_effect(sink, room, &Effect::Call(call))
        }
        None => Ok(()),
    }
}

/// Writes a memory with its kept fills and its map.
#[tactic(auto, using(gfx_section_law::proofs::Sizes::fixed_small), unfolding(gfx_model::specs::Spelling::fields_of))]
pub(crate) fn write_memory<B: StateBytes, P: Keep, K: Sink>(
    sink: &mut K,
    room: &mut Room,
    bytes: &B,
    keep: &P,
    owned: Owned,
    size: u64,
    mapped: Option<MapRange>,
) -> Result<(), StateFault>
    requires { option_map length (B.bytes bytes.now (place.Memory owned.id)) ≡ Some size }
    ensures { Wrote (K.taken sink.old) (K.taken sink.new) (K.faults sink.old) (K.faults sink.new)
        (AllocateMemory owned.parent owned.id size
        ∷ flat_map (kept_block (P.kept keep.now)) (fills_written owned.id (bytes_in (B.bytes bytes.now) (place.Memory owned.id)))
        ++ option_map_or (λ r. MapMemory owned.parent owned.id r.offset r.length ∷ []) (option_map range_of mapped) []) result }
{
    let call = Call::AllocateMemory {
        device: owned.parent,
        memory: owned.id,
        size,
    };
    write_effect(sink, room, &Effect::Call(call))?;
    write_fills(sink, room, bytes, keep, owned.id, size)?;
    write_map(sink, room, owned.parent, owned.id, mapped)
}
