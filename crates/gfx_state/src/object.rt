//! The blocks of one live object.
ghost use Rattle.std.specs.Prelude.{◌≡◌, List, Some, true, if◌then◌else◌};
ghost use Rattle.std.specs.FinMap as map;
ghost use Rattle.gfx_types.specs.declared.names.Kind.TheVariants as kind;
ghost use Rattle.gfx_model.specs.Steps.{Change, kind_of};
ghost use Rattle.gfx_model.specs.Section as section;
ghost use Rattle.gfx_objects.specs.Object.{detail_of, is_within};
ghost use Rattle.gfx_commands.specs.Recordings.{buffers};
ghost use Rattle.gfx_state.specs.Parts.{answers_in};
ghost use Rattle.gfx_state.specs.Pools.{CommandsFit};
ghost use Rattle.gfx_state.specs.Sections.{kept_object, kept_under};
ghost use Rattle.gfx_state.specs.Stored.{HasPlacesOf, IsStoredOf};
ghost use Rattle.gfx_state.specs.Written.{Wrote, Counted};

use crate::StateFault;
use crate::keep::Keep;
use crate::made::{
    mark, write_device, write_fence, write_instance, write_queue, write_semaphore, write_surface,
};
use crate::memory::write_memory;
use crate::owned::Owned;
use crate::parts::Parts;
use crate::pool::{write_pool, write_recorded};
use crate::resource::{write_buffer, write_image};
use crate::room::Room;
use crate::shape::Shape;
use crate::swapchain::{Chain, write_swapchain};
use gfx_device::StateBytes;
use gfx_io::Sink;
use gfx_objects::{Detail, Object};

// Writes an image anew, and nothing of one that belongs to a swapchain.
fn write_own_image<K: Sink>(
    sink: &mut K,
    room: &mut Room,
    parts: &Parts<'_>,
    id: u64,
    object: Object,
) -> Result<(), StateFault>
    requires { kind_of (detail_of object.detail) ≡ kind.Image }
    ensures written { (es : List Change) → Wrote (K.taken sink.old) (K.taken sink.new) (K.faults sink.old) (K.faults sink.new)
        (section.object_events (record { answers = answers_in parts.now; es = es }) id object.parent (detail_of object.detail)) result }
    ensures counts { Counted (K.faults sink.old) (K.faults sink.new) result }
{
    let owned = Owned {
        parent: object.parent,
        id,
    };
    match object.detail {
        Detail::Image {
            format,
            width,
            height,
            usage,
            index,
            ..
        } => {
            let shape = Shape {
                format,
                width,
                height,
                usage,
            };
            match index {
                None => write_image(sink, room, parts.objects, owned, shape),
                Some(_) => Ok(()),
            }
        }
        _ => unreachable!(),
    }
}

// Writes a swapchain anew.
fn write_chain<B: StateBytes, K: Sink>(
    sink: &mut K,
    room: &mut Room,
    parts: &Parts<'_>,
    bytes: &B,
    id: u64,
    object: Object,
) -> Result<(), StateFault>
    requires is { kind_of (detail_of object.detail) ≡ kind.Swapchain }
    requires row { map.get parts.now.objects.now.rows id ≡ Some object }
    requires within { is_within (detail_of object.detail) ≡ true }
    requires places { HasPlacesOf (answers_in parts.now) (B.bytes bytes.now) id (detail_of object.detail) }
    ensures written { (es : List Change) → IsStoredOf (answers_in parts.now) (B.bytes bytes.now) es id (detail_of object.detail) → Wrote (K.taken sink.old) (K.taken sink.new) (K.faults sink.old) (K.faults sink.new)
        (section.object_events (record { answers = answers_in parts.now; es = es }) id object.parent (detail_of object.detail)) result }
    ensures counts { Counted (K.faults sink.old) (K.faults sink.new) result }
{
    let owned = Owned {
        parent: object.parent,
        id,
    };
    match object.detail {
        Detail::Swapchain {
            surface,
            images,
            format,
            width,
            height,
            usage,
        } => {
            let shape = Shape {
                format,
                width,
                height,
                usage,
            };
            let chain = Chain {
                surface,
                images,
                shape,
            };
            write_swapchain(sink, room, parts, bytes, owned, chain)
        }
        _ => unreachable!(),
    }
}

// Writes the blocks that make a kept live object anew.
fn write_object<B: StateBytes, P: Keep, K: Sink>(
    sink: &mut K,
    room: &mut Room,
    parts: &Parts<'_>,
    bytes: &B,
    keep: &P,
    id: u64,
    object: Object,
) -> Result<(), StateFault>
    requires row { map.get parts.now.objects.now.rows id ≡ Some object }
    requires within { is_within (detail_of object.detail) ≡ true }
    requires fit { CommandsFit (buffers parts.now.recordings.now) }
    requires places { HasPlacesOf (answers_in parts.now) (B.bytes bytes.now) id (detail_of object.detail) }
    ensures written { (es : List Change) → IsStoredOf (answers_in parts.now) (B.bytes bytes.now) es id (detail_of object.detail) → Wrote (K.taken sink.old) (K.taken sink.new) (K.faults sink.old) (K.faults sink.new)
        (kept_object (P.kept keep.now) (record { answers = answers_in parts.now; es = es }) id object.parent (detail_of object.detail)) result }
    ensures counts { Counted (K.faults sink.old) (K.faults sink.new) result }
{
    let parent = object.parent;
    let owned = Owned { parent, id };
    match object.detail {
        Detail::Instance { api } => write_instance(sink, room, id, api),
        Detail::Surface => write_surface(sink, room, parent, id),
        Detail::Device => write_device(sink, room, parent, id),
        Detail::Queue => write_queue(sink, room, parent, id),
        Detail::Memory { size, mapped } => {
            write_memory(sink, room, bytes, keep, owned, size, mapped)
        }
        Detail::Buffer { size, usage, .. } => {
            write_buffer(sink, room, parts.objects, owned, size, usage)
        }
        Detail::Image { .. } => write_own_image(sink, room, parts, id, object),
        Detail::Pool { flags } => write_pool(
            sink,
            room,
            parts.objects,
            parts.recordings,
            keep,
            owned,
            flags,
        ),
        Detail::CommandBuffer => Ok(()),
        Detail::Fence => write_fence(sink, room, parent, id, mark(parts.signals.status(id))),
        Detail::Semaphore => write_semaphore(sink, room, parent, id, parts.signals.status(id)),
        Detail::Swapchain { .. } => write_chain(sink, room, parts, bytes, id, object),
    }
}

// Writes what stays of an object that isn't kept: of a pool what is recorded in kept buffers.
fn write_under<P: Keep, K: Sink>(
    sink: &mut K,
    room: &mut Room,
    parts: &Parts<'_>,
    keep: &P,
    id: u64,
    object: Object,
) -> Result<(), StateFault>
    requires { CommandsFit (buffers parts.now.recordings.now) }
    ensures written { (es : List Change) → Wrote (K.taken sink.old) (K.taken sink.new) (K.faults sink.old) (K.faults sink.new)
        (kept_under (P.kept keep.now) (record { answers = answers_in parts.now; es = es }) id (detail_of object.detail)) result }
    ensures counts { Counted (K.faults sink.old) (K.faults sink.new) result }
{
    match object.detail {
        Detail::Pool { .. } => {
            write_recorded(sink, room, parts.objects, parts.recordings, keep, id)
        }
        _ => Ok(()),
    }
}

/// Writes what is kept of the blocks that make a live object anew.
pub(crate) fn write_kept<B: StateBytes, P: Keep, K: Sink>(
    sink: &mut K,
    room: &mut Room,
    parts: &Parts<'_>,
    bytes: &B,
    keep: &P,
    id: u64,
    object: Object,
) -> Result<(), StateFault>
    requires row { map.get parts.now.objects.now.rows id ≡ Some object }
    requires within { is_within (detail_of object.detail) ≡ true }
    requires fit { CommandsFit (buffers parts.now.recordings.now) }
    requires places { HasPlacesOf (answers_in parts.now) (B.bytes bytes.now) id (detail_of object.detail) }
    ensures written { (es : List Change) → IsStoredOf (answers_in parts.now) (B.bytes bytes.now) es id (detail_of object.detail) → Wrote (K.taken sink.old) (K.taken sink.new) (K.faults sink.old) (K.faults sink.new)
        (if (P.kept keep.now).id id
        then kept_object (P.kept keep.now) (record { answers = answers_in parts.now; es = es }) id object.parent (detail_of object.detail)
        else kept_under (P.kept keep.now) (record { answers = answers_in parts.now; es = es }) id (detail_of object.detail)) result }
    ensures counts { Counted (K.faults sink.old) (K.faults sink.new) result }
{
    if keep.keeps(id) {
        write_object(sink, room, parts, bytes, keep, id, object)
    } else {
        write_under(sink, room, parts, keep, id, object)
    }
}
