//! Presented frames.

ghost use Rattle.std.specs.Prelude.{◌≡◌, List};

use crate::names::Format;
use crate::op::Piece;
use std::marker::Model;

/// A presented image: its extent in texels, its format, and its rows of texels from the top, tightly packed.
#[derive(Debug, Drop)]
pub struct Picture {
    pub width: u32,
    pub height: u32,
    pub format: Format,
    pub pixels: Piece,
}

/// A list of presented images.
#[derive(Debug, Drop)]
pub struct Pictures {
    items: Vec<Picture>,
}

impl Model for Pictures {
    ghost use Rattle.std.specs.Prelude.{List};
    ghost use Rattle.gfx_types.specs.declared.frame.Picture.{Picture};

    ghost Value = { List Picture };

    ghost view = { λ s. s.items.items };
}

impl Pictures {
    /// The list of these items. Takes no memory.
    pub fn of(items: Vec<Picture>) -> Self
        ensures { result ≡ items.items }
    {
        Pictures { items }
    }

    /// The items, in order.
    pub fn items(&self) -> &[Picture]
        ensures { result.now ≡ self.now }
    {
        self.items.as_slice()
    }
}

/// What one present shows, under the number of the frame.
#[derive(Debug, Drop)]
pub struct Frame {
    pub number: u64,
    pub pictures: Pictures,
}
