//! The rows of an image in hexadecimal.
ghost use Rattle.std.specs.Prelude.{◌≡◌, ◌*◌, ◌≤◌, IfOk, OnOk, length, string_bytes, ℕ, List};
ghost use Rattle.std.specs.Io.KnownBytes.{Appends};
ghost use Rattle.gfx_io.specs.Causes.{Rose};
ghost use Rattle.gfx_io.specs.Pieces.{AppendsPart};
ghost use Rattle.gfx_types.specs.Names.{texel_of};
ghost use Rattle.gfx_model.specs.Text.{line, hex_text};
ghost use Rattle.gfx_replay.specs.Shown.{IsThere};
ghost use Rattle.gfx_frames.specs.Texts.{rows_of};
ghost use Rattle.gfx_model.specs.Limits.{max_extent};

use crate::lines::PrintFault;
use gfx_device::StateBytes;
use gfx_io::{Sink, write_whole};
use gfx_replay::ShownPicture;
use std::alloc::{AllocError, Global};

/// Writes a line for each row of an image. Each row goes through the buffer.
pub(crate) fn write_rows<B: StateBytes, K: Sink>(
    alloc: Global,
    picture: &ShownPicture,
    bytes: &B,
    buffer: &mut [u8],
    sink: &mut K,
) -> Result<(), PrintFault>
    requires there { IsThere (B.bytes bytes.now) picture.now }
    requires room { picture.now.width * texel_of picture.now.format ≤ length buffer.old }
    ensures ok { OnOk result (Appends (K.taken sink.old) (K.taken sink.new) (rows_of (B.bytes bytes.now) picture.now)) }
    ensures front { AppendsPart (K.taken sink.old) (K.taken sink.new) (rows_of (B.bytes bytes.now) picture.now) }
    ensures later { K.faults sink.old ≤ K.faults sink.new }
    ensures cause { result ≡ Err PrintFault.SinkFault → Rose (K.faults sink.old) (K.faults sink.new) }
{
    let size = row_bytes(picture);
    let row = &mut buffer[..size];
    'rows: for k in 0..picture.height {
        bytes.read(picture.place, u64::from(k) * size as u64, row);
        let text = row_line(alloc, row)?;
        write_whole(sink, text.as_bytes())?;
    }
    Ok(())
}

/// The bytes of a row of an image.
pub(crate) fn row_bytes(picture: &ShownPicture) -> usize
    requires { picture.now.width ≤ max_extent }
    ensures { result ≡ picture.now.width * texel_of picture.now.format }
{
    picture.width as usize * picture.format.texel() as usize
}

/// A row in lower-case hexadecimal.
fn row_line(alloc: Global, row: &[u8]) -> Result<String, AllocError>
    ensures { IfOk result (λ text. string_bytes text ≡ line (hex_text row.now)) }
{
    let mut text = hex::encode(alloc, row)?;
    text.push('\n')?;
    Ok(text)
}
