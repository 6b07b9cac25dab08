//! Objects that are sought among the live ones.
ghost use Rattle.std.specs.Prelude.{◌≡◌, ℕ, ◌==◌, ◌&&◌, ◌++◌, List, true, Some, slice_get, find, IfOk, IfErr};
ghost use Rattle.gfx_model.specs.Steps as steps;
ghost use Rattle.gfx_model.specs.Questions as asked;
ghost use Rattle.gfx_model.specs.Views as view;
ghost use Rattle.gfx_objects.specs.Object.{made};
ghost use Rattle.gfx_objects.specs.Objects.{answers};

use gfx_objects::{Object, Objects};

/// What is sought among the live objects.
#[derive(Clone, Copy)]
pub(crate) enum Sought {
    /// The queues of a device.
    QueueOf(u64),
    /// The images of a swapchain at an index.
    ImageAt(u64, u32),
}

impl Sought {
    ghost use Rattle.gfx_tracker.specs.Sought.{is_sought, sought_in};

    // The object that owns all that are sought.
    fn owner(self) -> u64
        ensures { (o : steps.Object) → is_sought self o ≡ true → (asked.is_owned o.detail && result == o.parent) ≡ true }
    {
        match self {
            Sought::QueueOf(device) => device,
            Sought::ImageAt(swapchain, _) => swapchain,
        }
    }

    // Whether the object is one of those.
    fn is_met_by(self, object: &Object) -> bool
        ensures { result ≡ is_sought self (made object.now) }
    {
        match self {
            Sought::QueueOf(device) => object.parent == device && object.detail.is_queue(),
            Sought::ImageAt(swapchain, index) => {
                object.parent == swapchain && object.detail.has_index(index)
            }
        }
    }

    // Whether the live object of this id is one of those.
    fn is_met_at(self, objects: &Objects, id: u64) -> bool
        ensures { result ≡ view.is_one (answers objects.now) (is_sought self) id }
    {
        match objects.get(id) {
            Some(object) => self.is_met_by(object),
            None => false,
        }
    }

    /// The id at a place among those that are live, by rising ids; where there are too few, what is left of the place
    /// behind them all.
    pub(crate) fn at(self, objects: &Objects, place: usize) -> Result<u64, usize>
        ensures found { IfOk result (λ id. (more : List ℕ) → slice_get (sought_in (answers objects.now) self ++ more) place ≡ Some id) }
        ensures passed { IfErr result (λ left. (more : List ℕ) → slice_get (sought_in (answers objects.now) self ++ more) place ≡ slice_get more left) }
    {
        let owner = self.owner();
        let mut left = place;
        let mut after = 0;
        'ids: while let Some(id) = objects.next_owned(owner, after) {
            if self.is_met_at(objects, id) {
                if left == 0 {
                    return Ok(id);
                }
                left -= 1;
            }
            after = id;
        }
        Err(left)
    }

    /// The least live id of those.
    pub(crate) fn first(self, objects: &Objects) -> Option<u64>
        ensures { result ≡ find (view.is_one (answers objects.now) (is_sought self)) (answers objects.now).ids }
    {
        self.at(objects, 0).ok()
    }
}

/// The queue of a device, where it was fetched.
pub(crate) fn queue_of(objects: &Objects, device: u64) -> Option<u64>
    ensures { result ≡ view.queue_of (answers objects.now) device }
{
    Sought::QueueOf(device).first(objects)
}

/// The fetched image of a swapchain at a place.
pub(crate) fn fetched_at(objects: &Objects, swapchain: u64, place: usize) -> Option<u64>
    ensures { result ≡ slice_get (view.fetched (answers objects.now) swapchain) place }
{
    let images = objects.images(swapchain);
    let mut left = place;
    'indices: for index in 0..images {
        match Sought::ImageAt(swapchain, index).at(objects, left) {
            Ok(id) => return Some(id),
            Err(behind) => left = behind,
        }
    }
    None
}
