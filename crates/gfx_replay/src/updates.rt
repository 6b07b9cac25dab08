//! The places that effects make and end.
ghost use Rattle.std.specs.Prelude.{◌≡◌, ℕ, true, false, is_some, None, IfOk, OnOk, ◌∷◌, []};
ghost use Rattle.gfx_types.specs.declared.names.Kind.TheVariants as kind;
ghost use Rattle.gfx_types.specs.declared.op.Place.TheVariants as place;
ghost use Rattle.gfx_model.specs.Events.{event_of, event_of_call};
ghost use Rattle.gfx_model.specs.Views.{is_live};
ghost use Rattle.gfx_model.specs.Checks.{is_among};
ghost use Rattle.gfx_objects.specs.Objects.{answers};
ghost use Rattle.gfx_replay.specs.Maps.{IsSame, IsSet, IsGiven, IsKept};
ghost use Rattle.gfx_replay.specs.Places.{bytes_in};
ghost use Rattle.gfx_replay.specs.Updates.{AreUpdated, AreEndedBy, HoldEnded, IsVacantFor, zeros_of};

use crate::places::Places;
use gfx_device::StateBytes;
use gfx_objects::Objects;
use gfx_types::{Call, Effect, Kind, Place, WantMemory};
use std::alloc::Global;

/// Makes the places that an effect made, and ends those that it ended. The objects are those after it; the images that it
/// ended are among `ending`.
pub fn update(
    places: &mut Places,
    objects: &Objects,
    effect: &Effect<'_>,
    ending: &[u64],
) -> Result<(), WantMemory>
    requires vacant { IsVacantFor (event_of effect.now) (bytes_in places.old) }
    requires ending { HoldEnded (answers objects.now) (event_of effect.now) (bytes_in places.old) ending.now }
    ensures { OnOk result (AreUpdated (answers objects.now) (event_of effect.now) (bytes_in places.old) (bytes_in places.new)) }
{
    match effect {
        Effect::Call(call) => update_for_call(places, objects, call, ending),
        _ => Ok(()),
    }
}

fn update_for_call(
    places: &mut Places,
    objects: &Objects,
    call: &Call<'_>,
    ending: &[u64],
) -> Result<(), WantMemory>
    requires vacant { IsVacantFor (event_of_call call.now) (bytes_in places.old) }
    requires ending { HoldEnded (answers objects.now) (event_of_call call.now) (bytes_in places.old) ending.now }
    ensures { OnOk result (AreUpdated (answers objects.now) (event_of_call call.now) (bytes_in places.old) (bytes_in places.new)) }
{
    match call {
        Call::AllocateMemory { memory, size, .. } => places.add(Place::Memory(*memory), *size),
        Call::FreeMemory { memory, .. } => {
            places.remove(Place::Memory(*memory));
            Ok(())
        }
        Call::GetSwapchainImagesKHR { images, .. } => add_images(places, objects, images.items()),
        Call::DestroySwapchainKHR { .. } => {
            drop_ended_images(places, objects, ending);
            Ok(())
        }
        _ => Ok(()),
    }
}

// Images that have no place yet get one of zeros.
fn add_images(places: &mut Places, objects: &Objects, images: &[u64]) -> Result<(), WantMemory>
    ensures { OnOk result (IsGiven (bytes_in places.old) (bytes_in places.new) images.now (zeros_of (answers objects.now))) }
{
    for image in images {
        add_image(places, objects, *image)?;
    }
    Ok(())
}

// An image that has no place yet gets one of zeros.
fn add_image(places: &mut Places, objects: &Objects, image: u64) -> Result<(), WantMemory>
    ensures { OnOk result (IsGiven (bytes_in places.old) (bytes_in places.new) (image ∷ []) (zeros_of (answers objects.now))) }
{
    let place = Place::Image(image);
    if places.length(place).is_some() {
        return Ok(());
    }
    match objects.window(image) {
        Some(window) => places.add(place, window.length),
        None => Ok(()),
    }
}

// Drops the places of those of these images that are not live.
fn drop_ended_images(places: &mut Places, objects: &Objects, images: &[u64])
    requires { (x : ℕ) → is_live (answers objects.now) kind.Image x ≡ false → is_some (bytes_in places.old (place.Image x)) ≡ true → is_among x images.now ≡ true }
    ensures { IsKept (bytes_in places.old) (bytes_in places.new) (is_live (answers objects.now) kind.Image) }
{
    'images: for image in images {
        if !objects.is_live(Kind::Image, *image) {
            places.remove(Place::Image(*image));
        }
    }
}

/// The images that an effect ends: those of a swapchain that is destroyed. The objects are those before it.
pub fn ending_images(
    alloc: Global,
    objects: &Objects,
    effect: &Effect<'_>,
) -> Result<Vec<u64>, WantMemory>
    ensures { IfOk result (λ ids. AreEndedBy (answers objects.now) (event_of effect.now) ids.items) }
{
    match effect {
        Effect::Call(Call::DestroySwapchainKHR { swapchain, .. }) => {
            Ok(Vec::from_slice(alloc, objects.owned(*swapchain))?)
        }
        _ => Ok(Vec::new(alloc)),
    }
}
