//! Fills, updates and clears, as operations.
ghost use Rattle.std.specs.Prelude.{◌≡◌, ◌+◌, ◌<◌, ◌^◌, ◌++◌, OnOk, OnErr};
ghost use Rattle.gfx_types.specs.declared.op.Op.TheVariants as op;
ghost use Rattle.gfx_model.specs.Events.Event.{CmdFillBuffer, CmdUpdateBuffer, CmdClearColorImage};
ghost use Rattle.gfx_model.specs.Effects as effects;
ghost use Rattle.gfx_laws.specs.Lawful.{CommandPasses};
ghost use Rattle.gfx_objects.specs.Objects.{answers};
ghost use Rattle.gfx_ops.specs.Operations.{ops_of_command};

use gfx_objects::{Objects, Window};
use gfx_types::{Op, OpList, Piece, WantMemory};
use std::alloc::Global;

/// A fill of a buffer with a word; WHOLE_SIZE goes to the end of the buffer, rounded down to whole words.
pub(crate) fn cmd_fill_buffer(
    _cb: u64,
    buffer: u64,
    offset: u64,
    size: u64,
    word: u32,
    objects: &Objects,
    ops: &mut OpList,
) -> Result<(), WantMemory>
    requires passes { CommandPasses (answers objects.now) (CmdFillBuffer _cb buffer offset size word) }
    ensures ok { OnOk result (ops.new ≡ ops.old ++ ops_of_command (answers objects.now) (CmdFillBuffer _cb buffer offset size word)) }
    ensures err { OnErr result (ops.new ≡ ops.old) }
{
    let Some(window) = objects.window(buffer) else {
        return Ok(());
    };
    ops.push(fill_op(window, offset, size, word))
}

/// A fill in the window of a buffer.
pub(crate) fn fill_op(window: Window, offset: u64, size: u64, word: u32) -> Op
    requires { window.offset + offset < 2 ^ 64 }
    ensures { result ≡ op.Fill window.place (window.offset + offset) (effects.fill_size window.length offset size) word }
{
    Op::Fill {
        place: window.place,
        offset: window.offset + offset,
        length: fill_size(window.length, offset, size),
        word,
    }
}

// The bytes of a fill.
fn fill_size(buffer_size: u64, offset: u64, size: u64) -> u64
    ensures { result ≡ effects.fill_size buffer_size offset size }
{
    if size == u64::MAX {
        buffer_size.saturating_sub(offset) / 4 * 4
    } else {
        size
    }
}

/// An update of a buffer with bytes.
pub(crate) fn cmd_update_buffer(
    alloc: Global,
    _cb: u64,
    buffer: u64,
    offset: u64,
    bytes: &[u8],
    objects: &Objects,
    ops: &mut OpList,
) -> Result<(), WantMemory>
    requires passes { CommandPasses (answers objects.now) (CmdUpdateBuffer _cb buffer offset bytes.now) }
    ensures ok { OnOk result (ops.new ≡ ops.old ++ ops_of_command (answers objects.now) (CmdUpdateBuffer _cb buffer offset bytes.now)) }
    ensures err { OnErr result (ops.new ≡ ops.old) }
{
    let Some(window) = objects.window(buffer) else {
        return Ok(());
    };
    let bytes = Vec::from_slice(alloc, bytes)?;
    ops.push(update_op(window, offset, Piece::of(bytes)))
}

/// An update in the window of a buffer.
pub(crate) fn update_op(window: Window, from: u64, bytes: Piece) -> Op
    requires { window.offset + from < 2 ^ 64 }
    ensures { result ≡ op.Put window.place (window.offset + from) bytes }
{
    Op::Put {
        place: window.place,
        offset: window.offset + from,
        bytes,
    }
}

/// A clear of an image: one fill of all its bytes.
pub(crate) fn cmd_clear_color_image(
    _cb: u64,
    image: u64,
    _layout: u32,
    c0: u32,
    c1: u32,
    c2: u32,
    c3: u32,
    objects: &Objects,
    ops: &mut OpList,
) -> Result<(), WantMemory>
    ensures ok { OnOk result (ops.new ≡ ops.old ++ ops_of_command (answers objects.now) (CmdClearColorImage _cb image _layout c0 c1 c2 c3)) }
    ensures err { OnErr result (ops.new ≡ ops.old) }
{
    let Some(window) = objects.window(image) else {
        return Ok(());
    };
    ops.push(Op::Fill {
        place: window.place,
        offset: window.offset,
        length: window.length,
        word: clear_word(objects.format(image), c0, c1, c2, c3),
    })
}

// The word that clears an image of this format.
fn clear_word(format: u32, c0: u32, c1: u32, c2: u32, c3: u32) -> u32
    ensures { result ≡ effects.clear_word format c0 c1 c2 c3 }
{
    if format == 13 {
        c0 % 256 * 16_843_009
    } else if format == 41 {
        c0 % 256 + 256 * (c1 % 256) + 65_536 * (c2 % 256) + 16_777_216 * (c3 % 256)
    } else {
        c0
    }
}
