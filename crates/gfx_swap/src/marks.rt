//! The marks of one swapchain's images.
ghost use Rattle.std.specs.Prelude.{◌≡◌, ◌<◌, ◌^◌, false, not, length, replicate, position, slice_get, slice_set, unwrap_or, [], IfOk, IfSome};

use std::alloc::{AllocError, Global};
use std::marker::Model;

/// Which images of a swapchain are acquired, by their index.
#[derive(Drop)]
pub(crate) struct Marks {
    marks: Vec<bool>,
}

impl Model for Marks {
    ghost use Rattle.std.specs.Prelude.{List, Bool, length, ◌<◌, ◌^◌};

    ghost Value = { List Bool };

    ghost view = { λ m. m.marks.items };

    ghost invariant = { λ m. length m.marks.items < 2 ^ 32 };
}

impl Marks {
    /// No images. It takes no memory.
    pub(crate) fn none(alloc: Global) -> Self
        ensures { result ≡ [] }
    {
        Marks {
            marks: Vec::new(alloc),
        }
    }

    /// So many images, none of them acquired.
    pub(crate) fn new(alloc: Global, images: u32) -> Result<Self, AllocError>
        ensures { IfOk result (λ marks. marks ≡ replicate images false) }
    {
        let marks = vec![in alloc; false; images as usize]?;
        Ok(Marks { marks })
    }

    /// Whether the image is acquired; false past the last.
    pub(crate) fn get(&self, index: u32) -> bool
        ensures { result ≡ unwrap_or (slice_get self.now index) false }
    {
        self.marks.get(index as usize).copied().unwrap_or(false)
    }

    /// Marks an image.
    pub(crate) fn set(&mut self, index: u32, acquired: bool)
        requires { index < length self.old }
        ensures { self.new ≡ slice_set self.old index acquired }
    {
        self.marks[index as usize] = acquired;
    }

    /// The least index that isn't acquired.
    pub(crate) fn first_free(&self) -> Option<u32>
        ensures { result ≡ position (λ acquired. not acquired) self.now }
    {
        match first_false(&self.marks) {
            Some(index) => Some(index as u32),
            None => None,
        }
    }
}

// The place of the first mark that isn't set.
fn first_false(marks: &[bool]) -> Option<usize>
    ensures first { result ≡ position (λ acquired. not acquired) marks.now }
    ensures bound { IfSome result (λ index. index < length marks.now) }
{
    marks.iter().position(|acquired| !*acquired)
}
