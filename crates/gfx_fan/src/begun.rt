//! Images that are being digested.
ghost use Rattle.std.specs.Prelude.{◌≡◌, ◌≤◌, IfErr, OnOk, Err};
ghost use Rattle.std.specs.Io.KnownBytes.{Appends};
ghost use Rattle.gfx_io.specs.Causes.{Rose};
ghost use Rattle.gfx_io.specs.Pieces.{AppendsPart};
ghost use Rattle.gfx_player.specs.Faults.{IsUnwritten};
ghost use Rattle.gfx_fan.specs.Kept.{image_line, of_begun, of_shown};

use crate::hashing::Hashing;
use crate::shown::{Caption, Shown};
use gfx_io::Sink;
use gfx_player::PlayFault;
use std::alloc::Global;
use std::thread::Threads;

/// An image whose digest is being found.
#[derive(Drop)]
pub(crate) struct Begun {
    caption: Caption,
    hashing: Hashing,
}

impl Begun {
    /// Begins to digest an image.
    pub(crate) fn new<R: Threads>(rt: &R, shown: Shown) -> Begun
        ensures { of_begun result ≡ of_shown shown }
    {
        let Shown { caption, pixels } = shown;
        Begun {
            caption,
            hashing: Hashing::begin(rt, pixels),
        }
    }

    /// Writes the line of the image, once its digest is found.
    pub(crate) fn write<R: Threads, K: Sink>(
        self,
        rt: &R,
        alloc: Global,
        sink: &mut K,
    ) -> Result<(), PlayFault>
        ensures ok { OnOk result (Appends (K.taken sink.old) (K.taken sink.new) (image_line (of_begun self))) }
        ensures front { AppendsPart (K.taken sink.old) (K.taken sink.new) (image_line (of_begun self)) }
        ensures err { IfErr result IsUnwritten }
        ensures later { K.faults sink.old ≤ K.faults sink.new }
        ensures cause { result ≡ Err PlayFault.SinkFault → Rose (K.faults sink.old) (K.faults sink.new) }
    {
        let Begun { caption, hashing } = self;
        let digest = hashing.end(rt);
        caption.write(alloc, &digest, sink)
    }
}
