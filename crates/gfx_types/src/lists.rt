//! The lists in the fields of calls.

ghost use Rattle.std.specs.Prelude.{◌≡◌, List, ℕ};

use std::marker::Model;

/// A region of a copy between buffers, in bytes.
#[derive(Clone, Copy, Debug, PartialEq, Eq)]
pub struct BufferRegion {
    pub from: u64,
    pub to: u64,
    pub size: u64,
}

/// A region of a copy between images, in texels.
#[derive(Clone, Copy, Debug, PartialEq, Eq)]
pub struct ImageRegion {
    pub from_x: u32,
    pub from_y: u32,
    pub to_x: u32,
    pub to_y: u32,
    pub width: u32,
    pub height: u32,
}

/// A region of a copy between a buffer and an image. The offset is in bytes; all else is in texels, and a
/// `row` or `rows` of 0 means as many as the region has.
#[derive(Clone, Copy, Debug, PartialEq, Eq)]
pub struct MixedRegion {
    pub offset: u64,
    pub row: u32,
    pub rows: u32,
    pub x: u32,
    pub y: u32,
    pub width: u32,
    pub height: u32,
}

/// A change of an image's layout. The image has layout `before` then; 0, UNDEFINED, allows any.
#[derive(Clone, Copy, Debug, PartialEq, Eq)]
pub struct Barrier {
    pub image: u64,
    pub before: u32,
    pub after: u32,
}

/// An image of a swapchain that is presented.
#[derive(Clone, Copy, Debug, PartialEq, Eq)]
pub struct Present {
    pub swapchain: u64,
    pub index: u32,
}

/// The waits, command buffers and signals of a submit.
#[derive(Debug, Drop)]
pub struct Submit {
    pub waits: Ids,
    pub cbs: Ids,
    pub signals: Ids,
}

/// A list of ids.
#[derive(Debug, Drop)]
pub struct Ids {
    items: Vec<u64>,
}

impl Model for Ids {
    ghost Value = { List ℕ };

    ghost view = { λ s. s.items.items };
}

impl Ids {
    /// The list of these items. Takes no memory.
    pub fn of(items: Vec<u64>) -> Self
        ensures { result ≡ items.items }
    {
        Ids { items }
    }

    /// The items, in order.
    pub fn items(&self) -> &[u64]
        ensures { result.now ≡ self.now }
    {
        self.items.as_slice()
    }
}

/// A list of numbers.
#[derive(Debug, Drop)]
pub struct Numbers {
    items: Vec<u32>,
}

impl Model for Numbers {
    ghost Value = { List ℕ };

    ghost view = { λ s. s.items.items };
}

impl Numbers {
    /// The list of these items. Takes no memory.
    pub fn of(items: Vec<u32>) -> Self
        ensures { result ≡ items.items }
    {
        Numbers { items }
    }

    /// The items, in order.
    pub fn items(&self) -> &[u32]
        ensures { result.now ≡ self.now }
    {
        self.items.as_slice()
    }
}

/// A list of regions of a copy between buffers.
#[derive(Debug, Drop)]
pub struct BufferRegions {
    items: Vec<BufferRegion>,
}

impl Model for BufferRegions {
    ghost use Rattle.std.specs.Prelude.{List};
    ghost use Rattle.gfx_types.specs.declared.lists.BufferRegion.{BufferRegion};

    ghost Value = { List BufferRegion };

    ghost view = { λ s. s.items.items };
}

impl BufferRegions {
    /// The list of these items. Takes no memory.
    pub fn of(items: Vec<BufferRegion>) -> Self
        ensures { result ≡ items.items }
    {
        BufferRegions { items }
    }

    /// The items, in order.
    pub fn items(&self) -> &[BufferRegion]
        ensures { result.now ≡ self.now }
    {
        self.items.as_slice()
    }
}

/// A list of regions of a copy between images.
#[derive(Debug, Drop)]
pub struct ImageRegions {
    items: Vec<ImageRegion>,
}

impl Model for ImageRegions {
    ghost use Rattle.std.specs.Prelude.{List};
    ghost use Rattle.gfx_types.specs.declared.lists.ImageRegion.{ImageRegion};

    ghost Value = { List ImageRegion };

    ghost view = { λ s. s.items.items };
}

impl ImageRegions {
    /// The list of these items. Takes no memory.
    pub fn of(items: Vec<ImageRegion>) -> Self
        ensures { result ≡ items.items }
    {
        ImageRegions { items }
    }

    /// The items, in order.
    pub fn items(&self) -> &[ImageRegion]
        ensures { result.now ≡ self.now }
    {
        self.items.as_slice()
    }
}

/// A list of regions of a copy between a buffer and an image.
#[derive(Debug, Drop)]
pub struct MixedRegions {
    items: Vec<MixedRegion>,
}

impl Model for MixedRegions {
    ghost use Rattle.std.specs.Prelude.{List};
    ghost use Rattle.gfx_types.specs.declared.lists.MixedRegion.{MixedRegion};

    ghost Value = { List MixedRegion };

    ghost view = { λ s. s.items.items };
}

impl MixedRegions {
    /// The list of these items. Takes no memory.
    pub fn of(items: Vec<MixedRegion>) -> Self
        ensures { result ≡ items.items }
    {
        MixedRegions { items }
    }

    /// The items, in order.
    pub fn items(&self) -> &[MixedRegion]
        ensures { result.now ≡ self.now }
    {
        self.items.as_slice()
    }
}

/// A list of submits of one call.
#[derive(Debug, Drop)]
pub struct Submits {
    items: Vec<Submit>,
}

impl Model for Submits {
    ghost use Rattle.std.specs.Prelude.{List};
    ghost use Rattle.gfx_types.specs.declared.lists.Submit.{Submit};

    ghost Value = { List Submit };

    ghost view = { λ s. s.items.items };
}

impl Submits {
    /// The list of these items. Takes no memory.
    pub fn of(items: Vec<Submit>) -> Self
        ensures { result ≡ items.items }
    {
        Submits { items }
    }

    /// The items, in order.
    pub fn items(&self) -> &[Submit]
        ensures { result.now ≡ self.now }
    {
        self.items.as_slice()
    }
}

/// A list of barriers of one call.
#[derive(Debug, Drop)]
pub struct Barriers {
    items: Vec<Barrier>,
}

impl Model for Barriers {
    ghost use Rattle.std.specs.Prelude.{List};
    ghost use Rattle.gfx_types.specs.declared.lists.Barrier.{Barrier};

    ghost Value = { List Barrier };

    ghost view = { λ s. s.items.items };
}

impl Barriers {
    /// The list of these items. Takes no memory.
    pub fn of(items: Vec<Barrier>) -> Self
        ensures { result ≡ items.items }
    {
        Barriers { items }
    }

    /// The items, in order.
    pub fn items(&self) -> &[Barrier]
        ensures { result.now ≡ self.now }
    {
        self.items.as_slice()
    }
}

/// A list of presents of one call.
#[derive(Debug, Drop)]
pub struct Presents {
    items: Vec<Present>,
}

impl Model for Presents {
    ghost use Rattle.std.specs.Prelude.{List};
    ghost use Rattle.gfx_types.specs.declared.lists.Present.{Present};

    ghost Value = { List Present };

    ghost view = { λ s. s.items.items };
}

impl Presents {
    /// The list of these items. Takes no memory.
    pub fn of(items: Vec<Present>) -> Self
        ensures { result ≡ items.items }
    {
        Presents { items }
    }

    /// The items, in order.
    pub fn items(&self) -> &[Present]
        ensures { result.now ≡ self.now }
    {
        self.items.as_slice()
    }
}
