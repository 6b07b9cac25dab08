//! Images that were shown.
ghost use Rattle.std.specs.Prelude.{◌≡◌, ◌≤◌, IfErr, OnOk, Err, string_bytes};
ghost use Rattle.std.specs.Io.KnownBytes.{Appends};
ghost use Rattle.gfx_io.specs.Causes.{Rose};
ghost use Rattle.gfx_io.specs.Pieces.{AppendsPart};
ghost use Rattle.gfx_model.specs.Text.{hex_text};
ghost use Rattle.gfx_frames.specs.Texts.{digest_line};
ghost use Rattle.gfx_player.specs.Faults.{IsUnwritten};

use crate::digest::{Digest, Pixels};
use gfx_frames::picture_line;
use gfx_io::{Sink, write_whole};
use gfx_pages::Bytes;
use gfx_player::PlayFault;
use gfx_replay::ShownPicture;
use std::alloc::Global;

/// What is written of an image beside its digest.
#[derive(Drop)]
pub(crate) struct Caption {
    pub title: String,
    pub shown: ShownPicture,
}

impl Caption {
    /// Writes the line of an image with this digest.
    pub(crate) fn write<K: Sink>(
        &self,
        alloc: Global,
        digest: &Digest,
        sink: &mut K,
    ) -> Result<(), PlayFault>
        ensures ok { OnOk result (Appends (K.taken sink.old) (K.taken sink.new) (digest_line (string_bytes self.now.title) self.now.shown (hex_text digest.now))) }
        ensures front { AppendsPart (K.taken sink.old) (K.taken sink.new) (digest_line (string_bytes self.now.title) self.now.shown (hex_text digest.now)) }
        ensures err { IfErr result IsUnwritten }
        ensures later { K.faults sink.old ≤ K.faults sink.new }
        ensures cause { result ≡ Err PlayFault.SinkFault → Rose (K.faults sink.old) (K.faults sink.new) }
    {
        let text = picture_line(alloc, self.title.as_str(), &self.shown, digest)?;
        write_whole(sink, text.as_bytes())?;
        Ok(())
    }
}

/// An image with its bytes. Their pages are shared with the place where they stand, until it is written.
#[derive(Drop)]
pub(crate) struct Shown {
    pub caption: Caption,
    pub pixels: Bytes,
}

impl Pixels for Shown {
    ghost pixels = { λ shown. shown.pixels };

    fn digest(&self) -> Digest {
        self.pixels.digest()
    }
}
