//! Layouts that the command buffers of a call set.
//!
//! Without it each command buffer would be sought among those before it: up to 1,024 looks for an image. The check has
//! no answer for a lack of memory, so a walk takes the table's place where there is none.
ghost use Rattle.std.specs.Prelude.{◌≡◌, ◌≤◌, ℕ, false, length};
ghost use Rattle.gfx_objects.specs.Objects.{answers};
ghost use Rattle.gfx_commands.specs.Laid.{IsLaid, laid_by, left_after, left_by};

use crate::uses::Uses;
use gfx_objects::Objects;
use gfx_table::Dense;
use std::alloc::Global;

/// The layouts that the command buffers of a call so far set, by their images. They are all there as long as memory for them is found.
#[derive(Drop)]
pub(crate) struct Laid {
    table: Dense<u32>,
    pub(crate) is_whole: bool,
}

impl Laid {
    /// No layout was set.
    pub(crate) fn new(alloc: Global) -> Laid
        ensures { (layout : ℕ → ℕ) → IsLaid result layout layout }
    {
        Laid {
            table: Dense::new(alloc),
            is_whole: true,
        }
    }

    /// The layout of an image by now, where all that were set are there.
    pub(crate) fn layout(&self, image: u64, objects: &Objects) -> u32
        ensures { result ≡ laid_by self.now.table.map (answers objects.now).layout image }
    {
        match self.table.get(image) {
            Some(layout) => *layout,
            None => objects.layout(image),
        }
    }

    /// Sets the layouts in which a command buffer with these uses leaves images.
    pub(crate) fn leave(&mut self, uses: &Uses)
        ensures { (layout : ℕ → ℕ) → (now : ℕ → ℕ) → IsLaid self.old layout now → IsLaid self.new layout (left_after uses.now.table.map now) }
    {
        if !self.is_whole {
            return;
        }
        let ids = uses.ids();
        if self.table.reserve(ids.len()).is_err() {
            self.is_whole = false;
            return;
        }
        self.set_left(uses, ids);
    }

    // Sets the layouts in which these images are left. There is room for them.
    fn set_left(&mut self, uses: &Uses, ids: &[u64])
        requires { length ids.now ≤ self.old.table.spare }
        ensures whole { self.new.is_whole ≡ self.old.is_whole }
        ensures set { (layout : ℕ → ℕ) → laid_by self.new.table.map layout ≡ left_by uses.now.table.map (laid_by self.old.table.map layout) ids.now }
    {
        'images: for image in ids {
            if let Some(layout) = uses.get(*image).left {
                self.table.set(*image, layout);
            }
        }
    }
}
