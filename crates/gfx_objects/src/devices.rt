//! Which device an object is of.
//!
//! Checks ask it again and again for one object, so the device of one object is kept at hand until an object changes.
ghost use Rattle.std.specs.Prelude.{◌≡◌, IfSome};
ghost use Rattle.gfx_model.specs.Views as view;
ghost use Rattle.gfx_objects.specs.Objects.{answers};

use crate::kinds::number_of;
use crate::objects::Objects;
use gfx_types::Kind;

/// An object, and the device that its parents lead to.
#[derive(Clone, Copy)]
pub(crate) struct Noted {
    id: u64,
    device: u64,
}

impl Objects {
    /// The device that the parents of an object lead to, 0 where there is none.
    pub fn device_of(&self, id: u64) -> u64
        ensures { result ≡ view.device_of (answers self.now) id }
    {
        match self.noted_device(id) {
            Some(device) => device,
            None => self.climb(3, id),
        }
    }

    // The first device up the parents in so many steps, 0 where there is none.
    fn climb(&self, steps: u32, id: u64) -> u64
        ensures { result ≡ view.climb steps (answers self.now) id }
    {
        if steps == 0 {
            return 0;
        }
        let parent = match self.get(id) {
            Some(object) => {
                if number_of(object.kind) == number_of(Kind::Device) {
                    return id;
                }
                object.parent
            }
            None => 0,
        };
        self.climb(steps - 1, parent)
    }

    /// Keeps the device of an object at hand, until objects change.
    pub fn note_device(&mut self, id: u64)
        ensures { self.new ≡ self.old }
    {
        let device = self.device_of(id);
        self.noted = Some(Noted { id, device });
    }

    // The device of the object, where it is at hand.
    fn noted_device(&self, id: u64) -> Option<u64>
        ensures { IfSome result (λ device. device ≡ view.device_of (answers self.now) id) }
    {
        let noted = self.noted?;
        if noted.id == id {
            Some(noted.device)
        } else {
            None
        }
    }
}
