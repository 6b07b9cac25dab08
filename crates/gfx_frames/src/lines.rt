//! The lines of a frame.
ghost use Rattle.std.specs.Prelude.{◌≡◌, ◌⊎◌, ◌*◌, ◌≤◌, ◌<◌, ◌^◌, ◌++◌, ◌+◌, IfOk, OnOk, length, codes, decimal, string_bytes, ℕ, List, if◌then◌else◌};
ghost use Rattle.std.specs.List.{AllByRecursion};
ghost use Rattle.std.specs.Io.KnownBytes.{Appends};
ghost use Rattle.gfx_io.specs.Causes.{Rose};
ghost use Rattle.gfx_io.specs.Pieces.{AppendsPart};
ghost use Rattle.gfx_model.specs.Text.{hex_text, title_of};
ghost use Rattle.gfx_frames.specs.declared.lines.PrintFault.TheVariants.{SinkFault, WantMemory};
ghost use Rattle.gfx_replay.specs.Shown.{IsThere};
ghost use Rattle.gfx_frames.specs.Texts.{digest_line, extent_text, first_line, lines_of, text_of};

use crate::digest::digest_of;
use crate::rows::{row_bytes, write_rows};
use gfx_device::StateBytes;
use gfx_io::{Failed, Sink, write_whole};
use gfx_replay::{ShownFrame, ShownPicture};
use std::alloc::{AllocError, Global};

/// How frames are listed: in which minor version of the file, and whether with the rows of their images.
#[derive(Clone, Copy, Debug, PartialEq, Eq)]
pub struct Listing {
    pub minor: u32,
    pub pixels: bool,
}

/// Why a frame was not written whole.
#[derive(Clone, Copy, Debug, PartialEq, Eq)]
pub enum PrintFault {
    /// A write failed.
    SinkFault,
    /// No memory was found.
    WantMemory,
}

impl From<Failed> for PrintFault {
    ghost from_gives = { λ _ e. e ≡ SinkFault };

    fn from(_: Failed) -> Self {
        PrintFault::SinkFault
    }
}

impl From<AllocError> for PrintFault {
    ghost from_gives = { λ _ e. e ≡ WantMemory };

    fn from(_: AllocError) -> Self {
        PrintFault::WantMemory
    }
}

// How many bytes of an image are looked at in one piece; no row has more.
const PIECE: usize = 65_536;

/// Writes the lines of a frame, whose bytes are read in pieces. After a fault the sink took a prefix of them.
pub fn write_frame<B: StateBytes, K: Sink>(
    alloc: Global,
    listing: Listing,
    frame: &ShownFrame,
    bytes: &B,
    sink: &mut K,
) -> Result<(), PrintFault>
    requires { AllByRecursion (IsThere (B.bytes bytes.now)) frame.now.pictures.items }
    ensures ok { OnOk result (Appends (K.taken sink.old) (K.taken sink.new) (text_of (B.bytes bytes.now) listing frame.now)) }
    ensures front { AppendsPart (K.taken sink.old) (K.taken sink.new) (text_of (B.bytes bytes.now) listing frame.now) }
    ensures later { K.faults sink.old ≤ K.faults sink.new }
    ensures cause { result ≡ Err PrintFault.SinkFault → Rose (K.faults sink.old) (K.faults sink.new) }
{
    let mut buffer = vec![in alloc; 0; PIECE]?;
    write_pictures(alloc, listing, frame, bytes, buffer.as_mut_slice(), sink)
}

/// Writes the lines of all images of a frame.
fn write_pictures<B: StateBytes, K: Sink>(
    alloc: Global,
    listing: Listing,
    frame: &ShownFrame,
    bytes: &B,
    buffer: &mut [u8],
    sink: &mut K,
) -> Result<(), PrintFault>
    requires there { AllByRecursion (IsThere (B.bytes bytes.now)) frame.now.pictures.items }
    requires room { length buffer.old ≡ PIECE }
    ensures ok { OnOk result (Appends (K.taken sink.old) (K.taken sink.new) (text_of (B.bytes bytes.now) listing frame.now)) }
    ensures front { AppendsPart (K.taken sink.old) (K.taken sink.new) (text_of (B.bytes bytes.now) listing frame.now) }
    ensures later { K.faults sink.old ≤ K.faults sink.new }
    ensures cause { result ≡ Err PrintFault.SinkFault → Rose (K.faults sink.old) (K.faults sink.new) }
{
    let pictures = frame.pictures.as_slice();
    'pictures: for index in 0..pictures.len() {
        let title = title_at(alloc, listing.minor, frame.number, index)?;
        let picture = &pictures[index];
        write_picture(
            alloc,
            listing.pixels,
            title.as_str(),
            picture,
            bytes,
            buffer,
            sink,
        )?;
    }
    Ok(())
}

/// The title of an image by its index, from 0 on: the number of its frame, and in minor version 2 that of the image, counted
/// from 1.
pub fn title_at(alloc: Global, minor: u32, number: u64, index: usize) -> Result<String, AllocError>
    requires { index < 2 ^ 63 }
    ensures { IfOk result (λ text. string_bytes text ≡ title_of minor number (1 + index)) }
{
    if minor == 2 {
        picture_title(alloc, number, 1 + index as u64)
    } else {
        frame_title(alloc, number)
    }
}

/// The number of a frame.
fn frame_title(alloc: Global, number: u64) -> Result<String, AllocError>
    ensures { IfOk result (λ text. string_bytes text ≡ decimal number) }
{
    format!(in alloc; "{number}")
}

/// The number of a frame, and that of an image in it.
fn picture_title(alloc: Global, number: u64, k: u64) -> Result<String, AllocError>
    ensures { IfOk result (λ text. string_bytes text ≡ decimal number ++ (codes "." ++ decimal k)) }
{
    format!(in alloc; "{number}.{k}")
}

/// Writes the lines of an image under its title.
fn write_picture<B: StateBytes, K: Sink>(
    alloc: Global,
    pixels: bool,
    title: &str,
    picture: &ShownPicture,
    bytes: &B,
    buffer: &mut [u8],
    sink: &mut K,
) -> Result<(), PrintFault>
    requires there { IsThere (B.bytes bytes.now) picture.now }
    requires room { length buffer.old ≡ PIECE }
    ensures ok { OnOk result (Appends (K.taken sink.old) (K.taken sink.new) (lines_of (B.bytes bytes.now) pixels title.now picture.now)) }
    ensures front { AppendsPart (K.taken sink.old) (K.taken sink.new) (lines_of (B.bytes bytes.now) pixels title.now picture.now) }
    ensures later { K.faults sink.old ≤ K.faults sink.new }
    ensures cause { result ≡ Err PrintFault.SinkFault → Rose (K.faults sink.old) (K.faults sink.new) }
{
    write_digest(alloc, title, picture, bytes, buffer, sink)?;
    if !pixels {
        return Ok(());
    }
    write_rows(alloc, picture, bytes, buffer, sink)
}

/// Writes the line of an image with the digest of its bytes.
fn write_digest<B: StateBytes, K: Sink>(
    alloc: Global,
    title: &str,
    picture: &ShownPicture,
    bytes: &B,
    buffer: &mut [u8],
    sink: &mut K,
) -> Result<(), PrintFault>
    requires there { IsThere (B.bytes bytes.now) picture.now }
    requires room { length buffer.old ≡ PIECE }
    ensures ok { OnOk result (Appends (K.taken sink.old) (K.taken sink.new) (first_line (B.bytes bytes.now) title.now picture.now)) }
    ensures front { AppendsPart (K.taken sink.old) (K.taken sink.new) (first_line (B.bytes bytes.now) title.now picture.now) }
    ensures later { K.faults sink.old ≤ K.faults sink.new }
    ensures cause { result ≡ Err PrintFault.SinkFault → Rose (K.faults sink.old) (K.faults sink.new) }
{
    let size = u64::from(picture.height) * row_bytes(picture) as u64;
    let digest = digest_of(bytes, picture.place, size, buffer);
    let text = picture_line(alloc, title, picture, &digest)?;
    write_whole(sink, text.as_bytes())?;
    Ok(())
}

/// The line of an image: its title, extent, format and digest.
pub fn picture_line(
    alloc: Global,
    title: &str,
    picture: &ShownPicture,
    digest: &[u8; 32],
) -> Result<String, AllocError>
    ensures { IfOk result (λ text. string_bytes text ≡ digest_line title.now picture.now (hex_text digest.now)) }
{
    let hex = hex::encode(alloc, digest.as_slice())?;
    digest_line(alloc, title, picture, hex.as_str())
}

/// The line of an image, with the text of its digest.
#[tactic(auto, unfolding(crate::specs::Texts::digest_line))]
fn digest_line(
    alloc: Global,
    title: &str,
    picture: &ShownPicture,
    hex: &str,
) -> Result<String, AllocError>
    ensures { IfOk result (λ text. string_bytes text ≡ digest_line title.now picture.now hex.now) }
{
    let extent = extent_of(alloc, picture)?;
    let extent = extent.as_str();
    let name = picture.format.name();
    format!(in alloc; "frame {title} {extent} {name} {hex}\n")
}

/// The extent of an image in texels.
fn extent_of(alloc: Global, picture: &ShownPicture) -> Result<String, AllocError>
    ensures { IfOk result (λ text. string_bytes text ≡ extent_text picture.now) }
{
    let width = picture.width;
    let height = picture.height;
    format!(in alloc; "{width}x{height}")
}
