//! Operations on the bytes and layouts of a device.

ghost use Rattle.std.specs.Prelude.{◌≡◌, ◌∷◌, [], ◌++◌, List, ℕ, length, take, ◌≤◌, OnOk, OnErr};

use crate::WantMemory;
use std::marker::Model;

/// A list of bytes.
#[derive(Debug, Drop)]
pub struct Piece {
    items: Vec<u8>,
}

impl Model for Piece {
    ghost Value = { List ℕ };

    ghost view = { λ s. s.items.items };
}

impl Piece {
    /// The list of these items. Takes no memory.
    pub fn of(items: Vec<u8>) -> Self
        ensures { result ≡ items.items }
    {
        Piece { items }
    }

    /// The items, in order.
    pub fn items(&self) -> &[u8]
        ensures { result.now ≡ self.now }
    {
        self.items.as_slice()
    }
}

/// Where bytes stand: a memory, or an image of a swapchain, by its id.
#[derive(Clone, Copy, Debug, PartialEq, Eq)]
pub enum Place {
    Memory(u64),
    Image(u64),
}

/// One change of bytes, or of an image's layout. Offsets, lengths and steps are in bytes.
#[derive(Debug, Drop)]
pub enum Op {
    Put {
        place: Place,
        offset: u64,
        bytes: Piece,
    },
    /// Puts the bytes of the effect itself, which are lent.
    PutGiven {
        place: Place,
        offset: u64,
    },
    /// Repeats a word of four bytes, the least significant first.
    Fill {
        place: Place,
        offset: u64,
        length: u64,
        word: u32,
    },
    /// Copies rows of `length` bytes in order, each one step further on both sides and read whole before it is written.
    Copy {
        to: Place,
        to_offset: u64,
        to_step: u64,
        from: Place,
        from_offset: u64,
        from_step: u64,
        length: u64,
        rows: u64,
    },
    SetLayout {
        image: u64,
        layout: u32,
    },
}

/// A list of operations.
#[derive(Debug, Drop)]
pub struct OpList {
    items: Vec<Op>,
}

impl Model for OpList {
    ghost use Rattle.std.specs.Prelude.{List};
    ghost use Rattle.gfx_types.specs.declared.op.Op.{Op};

    ghost Value = { List Op };

    ghost view = { λ s. s.items.items };
}

impl OpList {
    /// The list of these items. Takes no memory.
    pub fn of(items: Vec<Op>) -> Self
        ensures { result ≡ items.items }
    {
        OpList { items }
    }

    /// The items, in order.
    pub fn items(&self) -> &[Op]
        ensures { result.now ≡ self.now }
    {
        self.items.as_slice()
    }

    /// Adds an operation at the end. When out of memory the list is as it was.
    pub fn push(&mut self, op: Op) -> Result<(), WantMemory>
        ensures ok { OnOk result (self.new ≡ self.old ++ op ∷ []) }
        ensures err { OnErr result (self.new ≡ self.old) }
    {
        Ok(self.items.push(op)?)
    }

    /// Keeps the first `length` operations, of which there have to be so many. Takes no memory.
    pub fn cut(&mut self, length: usize)
        requires { length ≤ Rattle.std.specs.Prelude.length self.old }
        ensures { self.new ≡ take length self.old }
    {
        self.items.truncate(length);
    }
}
