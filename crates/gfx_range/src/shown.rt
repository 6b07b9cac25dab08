//! The images that effects show.
ghost use Rattle.std.specs.Prelude.{◌≡◌, ◌++◌, flat_map, OnOk};
ghost use Rattle.gfx_model.specs.Events.{event_of};
ghost use Rattle.gfx_model.specs.Views as view;
ghost use Rattle.gfx_asked.specs.Accesses.{shown_by};
ghost use Rattle.gfx_tracker.specs.Tracker.{answers};
ghost use Rattle.gfx_range.specs.Shown.{shown_present};

use gfx_asked::Accesses;
use gfx_tracker::Tracker;
use gfx_types::{Call, Effect, Present, WantMemory};

/// Adds the images that an effect shows, where it is taken next.
pub(crate) fn push_shown(
    accesses: &mut Accesses,
    tracker: &Tracker,
    effect: &Effect<'_>,
) -> Result<(), WantMemory>
    ensures { OnOk result (accesses.new ≡ accesses.old ++ shown_by (answers tracker.now) (event_of effect.now)) }
{
    match effect {
        Effect::Call(Call::QueuePresentKHR { presents, .. }) => {
            push_presents(accesses, tracker, presents.items())
        }
        _ => Ok(()),
    }
}

// Adds the images of presents.
fn push_presents(
    accesses: &mut Accesses,
    tracker: &Tracker,
    presents: &[Present],
) -> Result<(), WantMemory>
    ensures { OnOk result (accesses.new ≡ accesses.old ++ flat_map (shown_present (answers tracker.now)) presents.now) }
{
    'presents: for present in presents {
        push_present(accesses, tracker, present)?;
    }
    Ok(())
}

// Adds the image of a present, where it was fetched.
fn push_present(
    accesses: &mut Accesses,
    tracker: &Tracker,
    present: &Present,
) -> Result<(), WantMemory>
    ensures { OnOk result (accesses.new ≡ accesses.old ++ shown_present (answers tracker.now) present.now) }
{
    match tracker.image_at(present.swapchain, present.index) {
        Some(image) => accesses.push_shown(image, size_of(tracker, image)),
        None => Ok(()),
    }
}

// The bytes of a memory, a buffer or an image.
fn size_of(tracker: &Tracker, id: u64) -> u64
    ensures { result ≡ view.size_of (answers tracker.now) id }
{
    match tracker.objects().get(id) {
        Some(object) => object.detail.size(),
        None => 0,
    }
}
