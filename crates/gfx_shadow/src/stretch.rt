//! Bytes at offsets that follow one another.
ghost use Rattle.std.specs.Prelude.{◌+◌, ◌≤◌, length};
ghost use Rattle.gfx_shadow.specs.Writes.{memory_limit};

/// The bytes at the offsets from `start` on up to `end`, and room for more on both sides: the first place is for the
/// offset `base`.
#[derive(Drop)]
pub(crate) struct Stretch {
    base: usize,
    bytes: Vec<u8>,
    pub(crate) start: usize,
    pub(crate) end: usize,
    ghost begins: { base ≤ start },
    ghost forward: { start ≤ end },
    ghost inside: { end ≤ base + length bytes.items },
    ghost below: { base + length bytes.items ≤ memory_limit },
}

/// Bytes that follow one another, from an offset on.
#[derive(Clone, Copy)]
pub(crate) struct Piece<'a> {
    pub(crate) offset: usize,
    pub(crate) bytes: &'a [u8],
}

mod part;
mod room;
mod run;
