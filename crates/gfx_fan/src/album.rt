//! Images that were shown and aren't written yet.
//!
//! The next present may write over an image, so its pages are shared and copied only once they are written.
ghost use Rattle.std.specs.Prelude.{◌≡◌, ◌≢◌, ◌⊎◌, ◌||◌, ◌+◌, ◌≤◌, ◌<◌, ◌^◌, ◌++◌, [], Err, IfErr, OnOk, false, drop, length, map, nat_le};
ghost use Rattle.std.specs.List.{AllByRecursion};
ghost use Rattle.std.specs.Io.KnownBytes.{Appends};
ghost use Rattle.gfx_io.specs.Causes.{Rose};
ghost use Rattle.gfx_io.specs.Pieces.{AppendsPart};
ghost use Rattle.gfx_frames.proofs.SoFar.{SoFar};
ghost use Rattle.sha2.specs.Sha256.{sha256};
ghost use Rattle.gfx_frames.specs.Texts.{text_of};
ghost use Rattle.gfx_replay.specs.Replayer.{bytes_of};
ghost use Rattle.gfx_replay.specs.Shown.{IsThere};
ghost use Rattle.gfx_player.specs.Faults.{IsUnwritten};
ghost use Rattle.gfx_fan.specs.Kept.{IsBare, IsHeld, IsListed, IsSmall, TakesFrame, image_line, images, kept_lines, line_of, lines_of, newer, of_shown, plain};

use crate::begun::Begun;
use crate::digest::{Digest, digest_all};
use crate::shown::{Caption, Shown};
use gfx_frames::{Listing, title_at};
use gfx_io::Sink;
use gfx_play::Screen;
use gfx_player::{Asked, PlayFault};
use gfx_replay::{Replayer, ShownFrame};
use std::alloc::{AllocError, Global};
use std::collections::VecDeque;
use std::thread::Threads;

// Threads begin to digest the newer images once they are so many, or once they have so many bytes, before a further one is taken.
// Then the older ones are waited for, so at most 64 images are kept, and 2^28 bytes.
const MOST_PICTURES: usize = 32;

const MOST_BYTES: u64 = 1 << 26;

/// The images that were shown and aren't written yet, and the screen that they are written to. The older ones are digested while the
/// newer ones are shown.
#[derive(Drop)]
pub(crate) struct Album {
    pub screen: Screen,
    begun: VecDeque<Begun>,
    shown: VecDeque<Shown>,
    // how many bytes the newer images have
    size: u64,
    alloc: Global,
}

impl Album {
    /// An album without images, for a file in this minor version.
    pub(crate) fn new(alloc: Global, minor: u32) -> Album
        ensures asked { result.screen.asked ≡ Asked.All }
        ensures listing { result.screen.listing ≡ plain minor }
        ensures count { result.screen.count ≡ 0 }
        ensures bare { IsBare result }
    {
        Album {
            screen: Screen {
                asked: Asked::All,
                listing: Listing {
                    minor,
                    pixels: false,
                },
                count: 0,
            },
            begun: VecDeque::new(alloc),
            shown: VecDeque::new(alloc),
            size: 0,
            alloc,
        }
    }

    /// Keeps the images of a frame, one after another. Where enough are kept the lines of the older ones are written.
    pub(crate) fn show<R: Threads + Sync, K: Sink>(
        &mut self,
        rt: &R,
        frame: &ShownFrame,
        replayer: &Replayer,
        sink: &mut K,
    ) -> Result<(), PlayFault>
        requires there { AllByRecursion (IsThere (bytes_of replayer.now)) frame.now.pictures.items }
        requires ready { IsListed self.old }
        requires room { self.old.screen.count + 1 < 2 ^ 64 }
        ensures ok { OnOk result (TakesFrame self.old self.new (text_of (bytes_of replayer.now) self.old.screen.listing frame.now) (K.taken sink.old) (K.taken sink.new)) }
        ensures front { AppendsPart (K.taken sink.old) (K.taken sink.new) (kept_lines self.old ++ text_of (bytes_of replayer.now) self.old.screen.listing frame.now) }
        ensures err { IfErr result IsUnwritten }
        ensures later { K.faults sink.old ≤ K.faults sink.new }
        ensures cause { result ≡ Err PlayFault.SinkFault → Rose (K.faults sink.old) (K.faults sink.new) }
    {
        let pictures = frame.pictures.as_slice();
        let minor = self.screen.listing.minor;
        'pictures: for index in 0..pictures.len() {
            let title = title_at(self.alloc, minor, frame.number, index)?;
            let shown = pictures[index];
            self.take(rt, Caption { title, shown }, replayer, sink)?;
        }
        self.screen.count += 1;
        Ok(())
    }

    /// Keeps an image. Where enough are kept the lines of the older ones are written.
    fn take<R: Threads + Sync, K: Sink>(
        &mut self,
        rt: &R,
        caption: Caption,
        replayer: &Replayer,
        sink: &mut K,
    ) -> Result<(), PlayFault>
        requires there { IsThere (bytes_of replayer.now) caption.shown }
        requires small { IsSmall self.old }
        ensures screen { self.new.screen ≡ self.old.screen }
        ensures small { OnOk result (IsSmall self.new) }
        ensures ok { OnOk result (SoFar (K.taken sink.old) (K.taken sink.new) (kept_lines self.old ++ line_of (bytes_of replayer.now) caption) (kept_lines self.new)) }
        ensures front { AppendsPart (K.taken sink.old) (K.taken sink.new) (kept_lines self.old ++ line_of (bytes_of replayer.now) caption) }
        ensures err { IfErr result IsUnwritten }
        ensures later { K.faults sink.old ≤ K.faults sink.new }
        ensures cause { result ≡ Err PlayFault.SinkFault → Rose (K.faults sink.old) (K.faults sink.new) }
    {
        let pixels = replayer.share(caption.shown.place)?;
        self.keep(Shown { caption, pixels })?;
        if !self.is_full() {
            return Ok(());
        }
        self.turn(rt, sink)
    }

    /// Keeps an image with its bytes.
    fn keep(&mut self, shown: Shown) -> Result<(), AllocError>
        requires small { IsSmall self.old }
        requires few { length shown.pixels ≤ 2 ^ 26 }
        ensures screen { self.new.screen ≡ self.old.screen }
        ensures held { OnOk result (IsHeld self.new) }
        ensures lines { OnOk result (kept_lines self.new ≡ kept_lines self.old ++ image_line (of_shown shown)) }
    {
        self.size += shown.pixels.length();
        self.shown.push_back(shown)?;
        Ok(())
    }

    /// Whether the newer images are to be digested now.
    fn is_full(&self) -> bool
        ensures { result ≡ (nat_le MOST_PICTURES (length self.now.shown.items) || nat_le MOST_BYTES self.now.size) }
    {
        MOST_PICTURES <= self.shown.len() || MOST_BYTES <= self.size
    }

    /// Begins to digest the newer images, and writes the lines of the older ones.
    fn turn<R: Threads + Sync, K: Sink>(&mut self, rt: &R, sink: &mut K) -> Result<(), PlayFault>
        requires { IsHeld self.old }
        ensures screen { self.new.screen ≡ self.old.screen }
        ensures small { OnOk result (IsSmall self.new) }
        ensures ok { OnOk result (SoFar (K.taken sink.old) (K.taken sink.new) (kept_lines self.old) (kept_lines self.new)) }
        ensures front { AppendsPart (K.taken sink.old) (K.taken sink.new) (kept_lines self.old) }
        ensures err { IfErr result IsUnwritten }
        ensures later { K.faults sink.old ≤ K.faults sink.new }
        ensures cause { result ≡ Err PlayFault.SinkFault → Rose (K.faults sink.old) (K.faults sink.new) }
    {
        let count = self.begun.len();
        self.begin(rt)?;
        self.write_begun(rt, count, sink)
    }

    /// Begins to digest the newer images.
    fn begin<R: Threads + Sync>(&mut self, rt: &R) -> Result<(), AllocError>
        ensures screen { self.new.screen ≡ self.old.screen }
        ensures images { OnOk result (images self.new ≡ images self.old) }
        ensures shown { OnOk result (self.new.shown.items ≡ []) }
        ensures size { OnOk result (self.new.size ≡ 0) }
    {
        'images: while let Some(shown) = self.shown.pop_front() {
            self.begun.push_back(Begun::new(rt, shown))?;
        }
        self.size = 0;
        Ok(())
    }

    /// Writes the lines of the oldest images, so many of which are being digested.
    fn write_begun<R: Threads + Sync, K: Sink>(
        &mut self,
        rt: &R,
        count: usize,
        sink: &mut K,
    ) -> Result<(), PlayFault>
        ensures screen { self.new.screen ≡ self.old.screen }
        ensures shown { self.new.shown ≡ self.old.shown }
        ensures size { self.new.size ≡ self.old.size }
        ensures begun { OnOk result (self.new.begun.items ≡ drop count self.old.begun.items) }
        ensures ok { OnOk result (SoFar (K.taken sink.old) (K.taken sink.new) (kept_lines self.old) (kept_lines self.new)) }
        ensures front { AppendsPart (K.taken sink.old) (K.taken sink.new) (kept_lines self.old) }
        ensures err { IfErr result IsUnwritten }
        ensures later { K.faults sink.old ≤ K.faults sink.new }
        ensures cause { result ≡ Err PlayFault.SinkFault → Rose (K.faults sink.old) (K.faults sink.new) }
    {
        'images: for _index in 0..count {
            if let Some(begun) = self.begun.pop_front() {
                begun.write(rt, self.alloc, sink)?;
            }
        }
        Ok(())
    }

    /// Writes the lines of the newer images, which have these digests.
    fn write_shown<K: Sink>(&self, digests: &[Digest], sink: &mut K) -> Result<(), PlayFault>
        requires { digests.now ≡ map (λ s. sha256 s.pixels) self.now.shown.items }
        ensures ok { OnOk result (Appends (K.taken sink.old) (K.taken sink.new) (lines_of (newer self.now.shown.items))) }
        ensures front { AppendsPart (K.taken sink.old) (K.taken sink.new) (lines_of (newer self.now.shown.items)) }
        ensures err { IfErr result IsUnwritten }
        ensures later { K.faults sink.old ≤ K.faults sink.new }
        ensures cause { result ≡ Err PlayFault.SinkFault → Rose (K.faults sink.old) (K.faults sink.new) }
    {
        'images: for index in 0..self.shown.len() {
            self.shown[index]
                .caption
                .write(self.alloc, &digests[index], sink)?;
        }
        Ok(())
    }

    /// Digests the newer images, writes the lines of all, and drops them.
    pub(crate) fn flush<R: Threads + Sync, K: Sink>(
        &mut self,
        rt: &R,
        sink: &mut K,
    ) -> Result<(), PlayFault>
        ensures screen { self.new.screen ≡ self.old.screen }
        ensures bare { OnOk result (IsBare self.new) }
        ensures ok { OnOk result (Appends (K.taken sink.old) (K.taken sink.new) (kept_lines self.old)) }
        ensures front { AppendsPart (K.taken sink.old) (K.taken sink.new) (kept_lines self.old) }
        ensures err { IfErr result IsUnwritten }
        ensures later { K.faults sink.old ≤ K.faults sink.new }
        ensures cause { result ≡ Err PlayFault.SinkFault → Rose (K.faults sink.old) (K.faults sink.new) }
    {
        let digests = digest_all(rt, self.alloc, self.shown.make_contiguous())?;
        let count = self.begun.len();
        self.write_begun(rt, count, sink)?;
        self.write_shown(digests.as_slice(), sink)?;
        self.shown.clear();
        self.size = 0;
        Ok(())
    }

    /// Writes the lines of what is kept before this fault is answered, and gives it, or why they weren't written.
    pub(crate) fn stop<R: Threads + Sync, K: Sink>(
        &mut self,
        rt: &R,
        sink: &mut K,
        why: PlayFault,
    ) -> PlayFault
        ensures told { ((result ≡ why) × Appends (K.taken sink.old) (K.taken sink.new) (kept_lines self.old))
            ⊎ (IsUnwritten result × AppendsPart (K.taken sink.old) (K.taken sink.new) (kept_lines self.old)) }
        ensures later { K.faults sink.old ≤ K.faults sink.new }
        ensures cause { result ≡ PlayFault.SinkFault → why ≢ PlayFault.SinkFault → Rose (K.faults sink.old) (K.faults sink.new) }
    {
        match self.flush(rt, sink) {
            Ok(()) => why,
            Err(fault) => fault,
        }
    }
}
