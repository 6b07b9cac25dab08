//! Captures that are made effect by effect, up to the end of their recording.

use crate::made::{Made, PLAIN, Scene};
use gfx_types::BufferRegion;
use std::alloc::Global;
use std::test::Fail;

/// The captures here, up to the end of their recording.
pub fn all(alloc: Global) -> Result<[Made; 5], Fail> {
    Ok([
        copied(alloc)?,
        filled(alloc)?,
        updated(alloc)?,
        rows(alloc)?,
        cleared(alloc)?,
    ])
}

/// The prefix of a buffer goes up in it, and then down again.
pub fn copied(alloc: Global) -> Result<Made, Fail> {
    let scene = Scene {
        width: 8,
        usage: 3,
        bytes: b"abcdefgh",
        ..PLAIN
    };
    let mut made = Made::of(alloc, scene)?;
    let up = BufferRegion {
        from: 0,
        to: 2,
        size: 4,
    };
    let down = BufferRegion {
        from: 2,
        to: 0,
        size: 4,
    };
    made.copy_twice(up, down)?;
    made.copy_to_image(8, 1)?;
    Ok(made)
}

/// A buffer of 10 bytes is filled.
pub fn filled(alloc: Global) -> Result<Made, Fail> {
    let scene = Scene {
        width: 10,
        buffer: 10,
        usage: 3,
        bytes: b"\0\0\0",
        ..PLAIN
    };
    let mut made = Made::of(alloc, scene)?;
    made.fill(0x0102_0304)?;
    made.copy_to_image(10, 1)?;
    Ok(made)
}

/// A scene whose buffer has 131,072 bytes.
pub const LARGE: Scene<'static> = Scene {
    memory: 131_072,
    buffer: 131_072,
    usage: 3,
    ..PLAIN
};

/// The first half of a large buffer is updated.
pub fn updated(alloc: Global) -> Result<Made, Fail> {
    let mut made = Made::of(alloc, LARGE)?;
    made.update(&[b'z'; 65_536])?;
    made.copy_to_image(3, 1)?;
    Ok(made)
}

/// An image of two rows and four bytes a texel.
pub fn rows(alloc: Global) -> Result<Made, Fail> {
    let scene = Scene {
        format: 44,
        width: 7,
        height: 2,
        buffer: 56,
        bytes: b"abcdbcdecdefdefgefghfghighijhijkijkljklmklmnlmnomnopnopq",
        ..PLAIN
    };
    let mut made = Made::of(alloc, scene)?;
    made.copy_to_image(7, 2)?;
    Ok(made)
}

/// An image of one texel is cleared.
pub fn cleared(alloc: Global) -> Result<Made, Fail> {
    let mut made = Made::of(alloc, Scene { width: 1, ..PLAIN })?;
    made.clear(256)?;
    Ok(made)
}
