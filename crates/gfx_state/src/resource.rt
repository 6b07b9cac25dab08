//! The blocks of buffers and images.
ghost use Rattle.std.specs.Prelude.{◌≡◌, ◌∷◌, ◌++◌, None, option_map, if◌then◌else◌};
ghost use Rattle.gfx_model.specs.Events.Event.{CreateBuffer, CreateImage, BindBufferMemory, BindImageMemory};
ghost use Rattle.gfx_model.specs.Views as view;
ghost use Rattle.gfx_model.specs.Section.{bind_event, layout_event};
ghost use Rattle.gfx_objects.specs.Object.{binding_of, bound_of, layout_of as layout_in};
ghost use Rattle.gfx_objects.specs.Objects.{answers};
ghost use Rattle.gfx_state.specs.Known.{plain};
ghost use Rattle.gfx_state.specs.Written.{Wrote};

use crate::StateFault;
use crate::owned::Owned;
use crate::room::Room;
use crate::shape::Shape;
use crate::writer::{write_effect, write_init_image};
use gfx_io::Sink;
use gfx_objects::{Binding, Detail, Objects};
use gfx_types::{Call, Effect};

// Where the resource of these parameters is bound.
fn bound_in(detail: &Detail) -> Option<Binding>
    ensures { option_map binding_of result ≡ bound_of detail.now }
{
    match detail {
        Detail::Buffer { bound, .. } | Detail::Image { bound, .. } => *bound,
        _ => None,
    }
}

// The binding of a usable resource.
fn binding(objects: &Objects, id: u64) -> Option<Binding>
    ensures { option_map binding_of result ≡ (if view.is_usable (answers objects.now) id then (answers objects.now).bound id else None) }
{
    let _window = objects.window(id)?;
    let object = objects.get(id)?;
    bound_in(&object.detail)
}

// The layout of an image with these parameters, UNDEFINED of anything else.
fn layout_in(detail: &Detail) -> u32
    ensures { result ≡ layout_in detail.now }
{
    match detail {
        Detail::Image { layout, .. } => *layout,
        _ => 0,
    }
}

/// The layout of a live image, UNDEFINED of anything else.
pub(crate) fn layout_of(objects: &Objects, image: u64) -> u32
    ensures { result ≡ (answers objects.now).layout image }
{
    match objects.get(image) {
        Some(object) => layout_in(&object.detail),
        None => 0,
    }
}

// Writes the binding of a usable buffer.
#[tactic(auto, using(gfx_section_law::proofs::Sizes::fixed_small), unfolding(gfx_model::specs::Spelling::fields_of))]
fn write_buffer_binding<K: Sink>(
    sink: &mut K,
    room: &mut Room,
    objects: &Objects,
    device: u64,
    buffer: u64,
) -> Result<(), StateFault>
    ensures { Wrote (K.taken sink.old) (K.taken sink.new) (K.faults sink.old) (K.faults sink.new)
        (bind_event (plain (answers objects.now)) (BindBufferMemory device buffer) buffer) result }
{
    match binding(objects, buffer) {
        Some(Binding { memory, offset }) => {
            let call = Call::BindBufferMemory {
                device,
                buffer,
                memory,
                offset,
            };
            write_effect(sink, room, &Effect::Call(call))
        }
        None => Ok(()),
    }
}

// Writes the binding of a usable image.
#[tactic(auto, using(gfx_section_law::proofs::Sizes::fixed_small), unfolding(gfx_model::specs::Spelling::fields_of))]
fn write_image_binding<K: Sink>(
    sink: &mut K,
    room: &mut Room,
    objects: &Objects,
    device: u64,
    image: u64,
) -> Result<(), StateFault>
    ensures { Wrote (K.taken sink.old) (K.taken sink.new) (K.faults sink.old) (K.faults sink.new)
        (bind_event (plain (answers objects.now)) (BindImageMemory device image) image) result }
{
    match binding(objects, image) {
        Some(Binding { memory, offset }) => {
            let call = Call::BindImageMemory {
                device,
                image,
                memory,
                offset,
            };
            write_effect(sink, room, &Effect::Call(call))
        }
        None => Ok(()),
    }
}

// Writes the layout of a usable image, where it isn't UNDEFINED.
fn write_layout<K: Sink>(
    sink: &mut K,
    room: &mut Room,
    objects: &Objects,
    image: u64,
) -> Result<(), StateFault>
    ensures { Wrote (K.taken sink.old) (K.taken sink.new) (K.faults sink.old) (K.faults sink.new)
        (layout_event (plain (answers objects.now)) image) result }
{
    let layout = layout_of(objects, image);
    if layout == 0 {
        return Ok(());
    }
    match objects.window(image) {
        Some(_) => write_init_image(sink, room, image, layout, &[]),
        None => Ok(()),
    }
}

/// Writes a buffer, and its binding where it is usable.
#[tactic(auto, using(gfx_section_law::proofs::Sizes::fixed_small), unfolding(gfx_model::specs::Spelling::fields_of))]
pub(crate) fn write_buffer<K: Sink>(
    sink: &mut K,
    room: &mut Room,
    objects: &Objects,
    owned: Owned,
    size: u64,
    usage: u32,
) -> Result<(), StateFault>
    ensures { Wrote (K.taken sink.old) (K.taken sink.new) (K.faults sink.old) (K.faults sink.new)
        (CreateBuffer owned.parent owned.id size usage ∷ bind_event (plain (answers objects.now)) (BindBufferMemory owned.parent owned.id) owned.id) result }
{
    let call = Call::CreateBuffer {
        device: owned.parent,
        buffer: owned.id,
        size,
        usage,
    };
    write_effect(sink, room, &Effect::Call(call))?;
    write_buffer_binding(sink, room, objects, owned.parent, owned.id)
}

/// Writes an image, and its binding and its layout where it is usable.
#[tactic(auto, using(gfx_section_law::proofs::Sizes::fixed_small), unfolding(gfx_model::specs::Spelling::fields_of))]
pub(crate) fn write_image<K: Sink>(
    sink: &mut K,
    room: &mut Room,
    objects: &Objects,
    owned: Owned,
    shape: Shape,
) -> Result<(), StateFault>
    ensures { Wrote (K.taken sink.old) (K.taken sink.new) (K.faults sink.old) (K.faults sink.new)
        (CreateImage owned.parent owned.id shape.format shape.width shape.height shape.usage
        ∷ bind_event (plain (answers objects.now)) (BindImageMemory owned.parent owned.id) owned.id
        ++ layout_event (plain (answers objects.now)) owned.id) result }
{
    let call = Call::CreateImage {
        device: owned.parent,
        image: owned.id,
        format: shape.format,
        width: shape.width,
        height: shape.height,
        usage: shape.usage,
    };
    write_effect(sink, room, &Effect::Call(call))?;
    write_image_binding(sink, room, objects, owned.parent, owned.id)?;
    write_layout(sink, room, objects, owned.id)
}
