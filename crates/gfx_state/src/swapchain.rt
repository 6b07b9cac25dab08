//! The blocks of a swapchain and its images.
ghost use Rattle.std.specs.Prelude.{◌≡◌, ◌≤◌, ◌∷◌, ◌++◌, [], true, length, map, IfOk};
ghost use Rattle.std.specs.List.{AllByRecursion};
ghost use Rattle.gfx_model.specs.Events.Event.{CreateSwapchainKHR, SetSwapchainState};
ghost use Rattle.gfx_model.specs.Steps.Detail.{a_swapchain};
ghost use Rattle.gfx_model.specs.Questions as asked;
ghost use Rattle.gfx_model.specs.Views as view;
ghost use Rattle.gfx_model.specs.Section as section;
ghost use Rattle.gfx_objects.specs.Object.{is_within};
ghost use Rattle.gfx_objects.specs.Objects.{answers};
ghost use Rattle.gfx_swap.specs.Acquired.{is_acquired};
ghost use Rattle.gfx_state.specs.Images.{marks_in, picture, IsPicture};
ghost use Rattle.gfx_state.specs.Written.{Wrote};
ghost use Rattle.gfx_model.specs.Limits.{max_image_size, max_live_objects, max_swapchain_images};

use crate::StateFault;
use crate::ids::{fetched, ids_of};
use crate::made::mark;
use crate::owned::Owned;
use crate::parts::Parts;
use crate::piece::piece_of;
use crate::resource::layout_of;
use crate::room::Room;
use crate::shape::Shape;
use crate::writer::{write_effect, write_init_image};
use gfx_device::StateBytes;
use gfx_io::Sink;
use gfx_objects::Objects;
use gfx_swap::Swaps;
use gfx_types::{Call, Effect, Meta, Numbers, Place, image_size};
use std::alloc::{AllocError, Global};

// The acquired marks of a swapchain, by index.
fn marks_of(
    alloc: Global,
    swaps: &Swaps,
    swapchain: u64,
    images: u32,
) -> Result<Vec<u32>, AllocError>
    ensures { IfOk result (λ marks. marks.items ≡ marks_in (is_acquired swaps.now swapchain) images) }
{
    let mut marks = Vec::new(alloc);
    'images: for index in 0..images {
        marks.push(mark(swaps.acquired(swapchain, index)))?;
    }
    Ok(marks)
}

// Writes the acquired marks of a swapchain.
fn write_marks<K: Sink>(
    sink: &mut K,
    room: &mut Room,
    swaps: &Swaps,
    swapchain: u64,
    images: u32,
) -> Result<(), StateFault>
    requires { images ≤ max_swapchain_images }
    ensures { Wrote (K.taken sink.old) (K.taken sink.new) (K.faults sink.old) (K.faults sink.new)
        (SetSwapchainState swapchain (marks_in (is_acquired swaps.now swapchain) images) ∷ []) result }
{
    let meta = Meta::SetSwapchainState {
        swapchain,
        acquired: Numbers::of(marks_of(room.alloc, swaps, swapchain, images)?),
    };
    write_effect(sink, room, &Effect::Meta(meta))
}

// Writes the fetch of a swapchain's images, where they were fetched.
fn write_fetch<K: Sink>(
    sink: &mut K,
    room: &mut Room,
    device: u64,
    swapchain: u64,
    images: &[u64],
) -> Result<(), StateFault>
    requires { length images.now ≤ max_live_objects }
    ensures { Wrote (K.taken sink.old) (K.taken sink.new) (K.faults sink.old) (K.faults sink.new)
        (section.fetch_event device swapchain images.now) result }
{
    match images {
        [] => Ok(()),
        [_, ..] => {
            let call = Call::GetSwapchainImagesKHR {
                device,
                swapchain,
                images: ids_of(room.alloc, images)?,
            };
            write_effect(sink, room, &Effect::Call(call))
        }
    }
}

// Writes the layout and the bytes of a fetched image.
fn write_picture<B: StateBytes, K: Sink>(
    sink: &mut K,
    room: &mut Room,
    objects: &Objects,
    bytes: &B,
    image: u64,
    size: u64,
) -> Result<(), StateFault>
    requires small { size ≤ max_image_size }
    requires place { IsPicture (B.bytes bytes.now) size image }
    ensures { Wrote (K.taken sink.old) (K.taken sink.new) (K.faults sink.old) (K.faults sink.new)
        (picture (answers objects.now) (B.bytes bytes.now) image ∷ []) result }
{
    let piece = piece_of(room.alloc, bytes, Place::Image(image), 0, size)?;
    write_init_image(sink, room, image, layout_of(objects, image), &piece)
}

// Writes the layouts and the bytes of fetched images of one size.
fn write_pictures<B: StateBytes, K: Sink>(
    sink: &mut K,
    room: &mut Room,
    objects: &Objects,
    bytes: &B,
    images: &[u64],
    size: u64,
) -> Result<(), StateFault>
    requires small { size ≤ max_image_size }
    requires places { AllByRecursion (IsPicture (B.bytes bytes.now) size) images.now }
    ensures { Wrote (K.taken sink.old) (K.taken sink.new) (K.faults sink.old) (K.faults sink.new)
        (map (picture (answers objects.now) (B.bytes bytes.now)) images.now) result }
{
    'images: for image in images {
        write_picture(sink, room, objects, bytes, *image, size)?;
    }
    Ok(())
}

/// The images of a swapchain: how many, and the bytes of each.
#[derive(Clone, Copy)]
struct Images {
    count: u32,
    size: u64,
}

// Writes what follows the creation of a swapchain with these images: their fetch, the acquired marks, and the layout
// and the bytes of each fetched image.
fn write_images<B: StateBytes, K: Sink>(
    sink: &mut K,
    room: &mut Room,
    parts: &Parts<'_>,
    bytes: &B,
    owned: Owned,
    images: Images,
) -> Result<(), StateFault>
    requires few { images.count ≤ max_swapchain_images }
    requires own { images.count ≡ view.images_in (answers parts.now.objects.now) owned.id }
    requires small { images.size ≤ max_image_size }
    requires places { AllByRecursion (IsPicture (B.bytes bytes.now) images.size) (view.fetched (answers parts.now.objects.now) owned.id) }
    ensures { Wrote (K.taken sink.old) (K.taken sink.new) (K.faults sink.old) (K.faults sink.new)
        (section.fetch_event owned.parent owned.id (view.fetched (answers parts.now.objects.now) owned.id)
        ++ SetSwapchainState owned.id (marks_in (is_acquired parts.now.images.now owned.id) images.count)
        ∷ map (picture (answers parts.now.objects.now) (B.bytes bytes.now)) (view.fetched (answers parts.now.objects.now) owned.id)) result }
{
    let ids = fetched(room.alloc, parts.objects, owned.id, images.count)?;
    write_fetch(sink, room, owned.parent, owned.id, &ids)?;
    write_marks(sink, room, parts.images, owned.id, images.count)?;
    write_pictures(sink, room, parts.objects, bytes, &ids, images.size)
}

/// What a swapchain is made with: its surface, and how many images of which shape.
#[derive(Clone, Copy)]
pub(crate) struct Chain {
    pub(crate) surface: u64,
    pub(crate) images: u32,
    pub(crate) shape: Shape,
}

// Writes the creation of a swapchain.
#[tactic(auto, using(gfx_section_law::proofs::Sizes::fixed_small), unfolding(gfx_model::specs::Spelling::fields_of))]
fn write_creation<K: Sink>(
    sink: &mut K,
    room: &mut Room,
    owned: Owned,
    chain: Chain,
) -> Result<(), StateFault>
    ensures { let shape = chain.shape in
        Wrote (K.taken sink.old) (K.taken sink.new) (K.faults sink.old) (K.faults sink.new)
        (CreateSwapchainKHR owned.parent owned.id chain.surface chain.images shape.format shape.width shape.height shape.usage ∷ []) result }
{
    let call = Call::CreateSwapchainKHR {
        device: owned.parent,
        swapchain: owned.id,
        surface: chain.surface,
        images: chain.images,
        format: chain.shape.format,
        width: chain.shape.width,
        height: chain.shape.height,
        usage: chain.shape.usage,
    };
    write_effect(sink, room, &Effect::Call(call))
}

/// Writes a swapchain with its images and their bytes.
pub(crate) fn write_swapchain<B: StateBytes, K: Sink>(
    sink: &mut K,
    room: &mut Room,
    parts: &Parts<'_>,
    bytes: &B,
    owned: Owned,
    chain: Chain,
) -> Result<(), StateFault>
    requires within { let shape = chain.shape in is_within (a_swapchain chain.surface chain.images shape.format shape.width shape.height shape.usage) ≡ true }
    requires own { chain.images ≡ view.images_in (answers parts.now.objects.now) owned.id }
    requires places { let shape = chain.shape in
        AllByRecursion (IsPicture (B.bytes bytes.now) (asked.image_size shape.format shape.width shape.height)) (view.fetched (answers parts.now.objects.now) owned.id) }
    ensures { let shape = chain.shape in let ids = view.fetched (answers parts.now.objects.now) owned.id in
        Wrote (K.taken sink.old) (K.taken sink.new) (K.faults sink.old) (K.faults sink.new)
        (CreateSwapchainKHR owned.parent owned.id chain.surface chain.images shape.format shape.width shape.height shape.usage
        ∷ section.fetch_event owned.parent owned.id ids
        ++ SetSwapchainState owned.id (marks_in (is_acquired parts.now.images.now owned.id) chain.images)
        ∷ map (picture (answers parts.now.objects.now) (B.bytes bytes.now)) ids) result }
{
    let size = image_size(chain.shape.format, chain.shape.width, chain.shape.height);
    let images = Images {
        count: chain.images,
        size,
    };
    write_creation(sink, room, owned, chain)?;
    write_images(sink, room, parts, bytes, owned, images)
}
