//! The images that a present shows.
ghost use Rattle.std.specs.Prelude.{◌≡◌, IfOk, filter_map};
ghost use Rattle.gfx_model.specs.Events.{event_of, event_of_call};
ghost use Rattle.gfx_tracker.specs.Tracker.{answers};
ghost use Rattle.gfx_replay.specs.Shown.{shown_by, IsShownOf};

use crate::shown::{ShownFrame, ShownPicture};
use gfx_objects::Detail;
use gfx_tracker::Tracker;
use gfx_types::{Call, Effect, Format, Place, Present, WantMemory};
use std::alloc::Global;

/// What the effect shows, where it is a present. The tracker is before it.
pub fn shown_frame(
    alloc: Global,
    tracker: &Tracker,
    effect: &Effect<'_>,
) -> Result<Option<ShownFrame>, WantMemory>
    ensures { IfOk result (IsShownOf (answers tracker.now) (event_of effect.now)) }
{
    match effect {
        Effect::Call(call) => frame_of_call(alloc, tracker, call),
        _ => Ok(None),
    }
}

fn frame_of_call(
    alloc: Global,
    tracker: &Tracker,
    call: &Call<'_>,
) -> Result<Option<ShownFrame>, WantMemory>
    ensures { IfOk result (IsShownOf (answers tracker.now) (event_of_call call.now)) }
{
    match call {
        Call::QueuePresentKHR { presents, .. } => {
            let pictures = shown_pictures(alloc, tracker, presents.items())?;
            Ok(Some(ShownFrame {
                number: tracker.next_frame(),
                pictures,
            }))
        }
        _ => Ok(None),
    }
}

fn shown_pictures(
    alloc: Global,
    tracker: &Tracker,
    presents: &[Present],
) -> Result<Vec<ShownPicture>, WantMemory>
    ensures { IfOk result (λ pictures. pictures.items ≡ filter_map (shown_by (answers tracker.now)) presents.now) }
{
    let mut pictures = Vec::new(alloc);
    for present in presents {
        if let Some(picture) = shown_picture(tracker, *present) {
            pictures.push(picture)?;
        }
    }
    Ok(pictures)
}

// The image that is presented, where its swapchain is live and the image fetched.
fn shown_picture(tracker: &Tracker, present: Present) -> Option<ShownPicture>
    ensures { result ≡ shown_by (answers tracker.now) present }
{
    let swapchain = tracker.objects().get(present.swapchain)?;
    let image = tracker.image_at(present.swapchain, present.index);
    match swapchain.detail {
        Detail::Swapchain {
            format,
            width,
            height,
            ..
        } => Some(ShownPicture {
            width,
            height,
            format: Format::of(format)?,
            place: Place::Image(image?),
        }),
        _ => None,
    }
}
