//! The whole section.
ghost use Rattle.std.specs.Prelude.{◌≡◌, ◌≤◌, ◌==◌, ◌∷◌, [], false, List, Err, flat_map, map as each, IfOk, OnOk, OnErr};
ghost use Rattle.std.specs.Io.KnownBytes.{Appends};
ghost use Rattle.gfx_io.specs.Causes.{Rose};
ghost use Rattle.gfx_io.specs.Pieces.{AppendsPart};
ghost use Rattle.gfx_model.specs.Events.Event.{BeginSection, EndSection};
ghost use Rattle.gfx_model.specs.Spelling.{encoding};
ghost use Rattle.std.specs.Option.{option_map_or};
ghost use Rattle.gfx_model.specs.Steps.{Change, kind_number};
ghost use Rattle.gfx_commands.specs.Recordings.{buffers};
ghost use Rattle.gfx_state.specs.Parts.{answers_in};
ghost use Rattle.gfx_state.specs.Pools.{CommandsFit};
ghost use Rattle.gfx_state.specs.Sections.{kind_at, kept_at, kept_group, kept_by};
ghost use Rattle.gfx_state.specs.Stored.{HasPlaces, IsStored};
ghost use Rattle.gfx_state.specs.Written.{Wrote, Counted};

use crate::StateFault;
use crate::keep::Keep;
use crate::object::write_kept;
use crate::parts::Parts;
use crate::room::Room;
use crate::writer::write_effect;
use gfx_device::StateBytes;
use gfx_io::Sink;
use gfx_types::{Effect, Kind};
use std::alloc::{AllocError, Global};

/// The kinds in the order of a section. An image of a swapchain and a command buffer are with their parents.
const ORDER: [Kind; 11] = [
    Kind::Instance,
    Kind::Surface,
    Kind::Device,
    Kind::Queue,
    Kind::Memory,
    Kind::Buffer,
    Kind::Image,
    Kind::Swapchain,
    Kind::Fence,
    Kind::Semaphore,
    Kind::Pool,
];

// Writes what is kept of the live object of an id, where there is one.
fn write_at<B: StateBytes, P: Keep, K: Sink>(
    sink: &mut K,
    room: &mut Room,
    parts: &Parts<'_>,
    bytes: &B,
    keep: &P,
    id: u64,
) -> Result<(), StateFault>
    requires fit { CommandsFit (buffers parts.now.recordings.now) }
    requires places { HasPlaces (answers_in parts.now) (B.bytes bytes.now) }
    ensures written { (es : List Change) → IsStored (answers_in parts.now) (B.bytes bytes.now) es → Wrote (K.taken sink.old) (K.taken sink.new) (K.faults sink.old) (K.faults sink.new)
        (kept_at (P.kept keep.now) (record { answers = answers_in parts.now; es = es }) id) result }
    ensures counts { Counted (K.faults sink.old) (K.faults sink.new) result }
{
    match parts.objects.get(id) {
        Some(object) => write_kept(sink, room, parts, bytes, keep, id, *object),
        None => Ok(()),
    }
}

// The kind of the live object of an id, where there is one.
fn kind_of(parts: &Parts<'_>, id: u64) -> Option<Kind>
    ensures { result ≡ kind_at (answers_in parts.now) id }
{
    match parts.objects.get(id) {
        Some(object) => Some(object.kind),
        None => None,
    }
}

// The kinds of the live objects of these ids, where there are such.
fn kinds_of(alloc: Global, parts: &Parts<'_>, ids: &[u64]) -> Result<Vec<Option<Kind>>, AllocError>
    ensures { IfOk result (λ kinds. kinds.items ≡ each (kind_at (answers_in parts.now)) ids.now) }
{
    let mut kinds = Vec::new(alloc);
    'ids: for id in ids {
        kinds.push(kind_of(parts, *id))?;
    }
    Ok(kinds)
}

// Whether what was found is of the kind.
fn is_of(found: Option<Kind>, kind: Kind) -> bool
    ensures { result ≡ option_map_or (λ k. kind_number k == kind_number kind) found false }
{
    found == Some(kind)
}

// Writes what is kept of those of the live objects that are of a kind.
fn write_kind<B: StateBytes, P: Keep, K: Sink>(
    sink: &mut K,
    room: &mut Room,
    parts: &Parts<'_>,
    bytes: &B,
    keep: &P,
    ids: &[u64],
    found: &[Option<Kind>],
    kind: Kind,
) -> Result<(), StateFault>
    requires ids { ids.now ≡ (answers_in parts.now).ids }
    requires found { found.now ≡ each (kind_at (answers_in parts.now)) ids.now }
    requires fit { CommandsFit (buffers parts.now.recordings.now) }
    requires places { HasPlaces (answers_in parts.now) (B.bytes bytes.now) }
    ensures written { (es : List Change) → IsStored (answers_in parts.now) (B.bytes bytes.now) es → Wrote (K.taken sink.old) (K.taken sink.new) (K.faults sink.old) (K.faults sink.new)
        (kept_group (P.kept keep.now) (record { answers = answers_in parts.now; es = es }) kind) result }
    ensures counts { Counted (K.faults sink.old) (K.faults sink.new) result }
{
    'ids: for at in 0..ids.len() {
        if is_of(found[at], kind) {
            write_at(sink, room, parts, bytes, keep, ids[at])?;
        }
    }
    Ok(())
}

// Writes what is kept of the live objects of some kinds, kind by kind.
fn write_kinds<B: StateBytes, P: Keep, K: Sink>(
    sink: &mut K,
    room: &mut Room,
    parts: &Parts<'_>,
    bytes: &B,
    keep: &P,
    ids: &[u64],
    found: &[Option<Kind>],
    kinds: &[Kind],
) -> Result<(), StateFault>
    requires ids { ids.now ≡ (answers_in parts.now).ids }
    requires found { found.now ≡ each (kind_at (answers_in parts.now)) ids.now }
    requires fit { CommandsFit (buffers parts.now.recordings.now) }
    requires places { HasPlaces (answers_in parts.now) (B.bytes bytes.now) }
    ensures written { (es : List Change) → IsStored (answers_in parts.now) (B.bytes bytes.now) es → Wrote (K.taken sink.old) (K.taken sink.new) (K.faults sink.old) (K.faults sink.new)
        (flat_map (kept_group (P.kept keep.now) (record { answers = answers_in parts.now; es = es })) kinds.now) result }
    ensures counts { Counted (K.faults sink.old) (K.faults sink.new) result }
{
    'kinds: for kind in kinds {
        write_kind(sink, room, parts, bytes, keep, ids, found, *kind)?;
    }
    Ok(())
}

// Writes the begin marker.
#[tactic(auto, using(gfx_section_law::proofs::Sizes::fixed_small), unfolding(gfx_model::specs::Spelling::fields_of))]
fn write_begin<K: Sink>(sink: &mut K, room: &mut Room, frame: u64) -> Result<(), StateFault>
    ensures { Wrote (K.taken sink.old) (K.taken sink.new) (K.faults sink.old) (K.faults sink.new) (BeginSection frame ∷ []) result }
{
    write_effect(sink, room, &Effect::Marker { begin: true, frame })
}

// Writes the end marker.
#[tactic(auto, using(gfx_section_law::proofs::Sizes::fixed_small), unfolding(gfx_model::specs::Spelling::fields_of))]
fn write_end<K: Sink>(sink: &mut K, room: &mut Room, frame: u64) -> Result<(), StateFault>
    ensures { Wrote (K.taken sink.old) (K.taken sink.new) (K.faults sink.old) (K.faults sink.new) (EndSection frame ∷ []) result }
{
    write_effect(
        sink,
        room,
        &Effect::Marker {
            begin: false,
            frame,
        },
    )
}

// Writes the markers and what is kept between them.
fn write_all<B: StateBytes, P: Keep, K: Sink>(
    sink: &mut K,
    room: &mut Room,
    parts: &Parts<'_>,
    bytes: &B,
    keep: &P,
    frame: u64,
) -> Result<(), StateFault>
    requires fit { CommandsFit (buffers parts.now.recordings.now) }
    requires places { HasPlaces (answers_in parts.now) (B.bytes bytes.now) }
    ensures written { (es : List Change) → IsStored (answers_in parts.now) (B.bytes bytes.now) es → Wrote (K.taken sink.old) (K.taken sink.new) (K.faults sink.old) (K.faults sink.new)
        (kept_by (P.kept keep.now) (record { answers = answers_in parts.now; es = es }) frame) result }
    ensures counts { Counted (K.faults sink.old) (K.faults sink.new) result }
{
    let ids = parts.objects.ids(room.alloc)?;
    let found = kinds_of(room.alloc, parts, &ids)?;
    write_begin(sink, room, frame)?;
    write_kinds(sink, room, parts, bytes, keep, &ids, &found, &ORDER)?;
    write_end(sink, room, frame)
}

/// Writes what is kept of the state section for the frame of this number, block by block, with both markers.
pub(crate) fn write_section<B: StateBytes, P: Keep, K: Sink>(
    alloc: Global,
    parts: &Parts<'_>,
    bytes: &B,
    frame: u64,
    keep: &P,
    sink: &mut K,
) -> Result<(), StateFault>
    // the block of each command that is kept fits in a file
    requires fit { CommandsFit (buffers parts.now.recordings.now) }
    // each live memory and each fetched image of a live swapchain has a place of the right length
    requires places { HasPlaces (answers_in parts.now) (B.bytes bytes.now) }
    ensures ok { (es : List Change) → IsStored (answers_in parts.now) (B.bytes bytes.now) es
        → OnOk result (Appends (K.taken sink.old) (K.taken sink.new) (flat_map (encoding 1 0) (kept_by (P.kept keep.now) (record { answers = answers_in parts.now; es = es }) frame))) }

    // After an error the sink took a prefix of it.
    ensures err { (es : List Change) → IsStored (answers_in parts.now) (B.bytes bytes.now) es
        → OnErr result (AppendsPart (K.taken sink.old) (K.taken sink.new) (flat_map (encoding 1 0) (kept_by (P.kept keep.now) (record { answers = answers_in parts.now; es = es }) frame))) }
    ensures later { K.faults sink.old ≤ K.faults sink.new }
    ensures cause { result ≡ Err StateFault.SinkFault → Rose (K.faults sink.old) (K.faults sink.new) }
{
    let mut room = Room {
        alloc,
        block: Vec::new(alloc),
    };
    write_all(sink, &mut room, parts, bytes, keep, frame)
}
