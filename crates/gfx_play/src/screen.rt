//! The frames of a capture, written as they are shown.
ghost use Rattle.std.specs.Prelude.{◌≡◌, ◌≤◌, ◌<◌, ◌+◌, ◌-◌, ◌^◌, ◌++◌, ℕ, [], Err, IfOk, IfErr, OnOk, if◌then◌else◌, codes, decimal, string_bytes};
ghost use Rattle.std.specs.List.{AllByRecursion};
ghost use Rattle.std.specs.Io.KnownBytes.{Appends};
ghost use Rattle.gfx_io.specs.Causes.{Rose};
ghost use Rattle.gfx_io.specs.Pieces.{AppendsPart};
ghost use Rattle.gfx_model.specs.Text.{count_line};
ghost use Rattle.gfx_replay.specs.Replayer.{bytes_of};
ghost use Rattle.gfx_replay.specs.Shown.{IsThere};
ghost use Rattle.gfx_player.specs.Asked.{is_asked, is_last};
ghost use Rattle.gfx_player.specs.Faults.{IsUnwritten};
ghost use Rattle.gfx_player.specs.Walks.{first_frame_of, next_frame_of};
ghost use Rattle.gfx_play.specs.Faults.{of_printer};
ghost use Rattle.gfx_play.specs.Screens.{text_by};
ghost use Rattle.gfx_play.specs.Shows.{EndsOnly};

use gfx_frames::{Listing, PrintFault, write_frame};
use gfx_io::{Sink, write_whole};
use gfx_player::{Asked, PlayFault, Player};
use gfx_replay::ShownFrame;
use std::alloc::{AllocError, Global};

/// Which frames are written and how, and how many were.
#[derive(Drop)]
pub struct Screen {
    pub asked: Asked,
    pub listing: Listing,
    pub count: u64,
}

impl Screen {
    /// Writes the frame that the player shows, where it is asked for. Answers whether no later frame is asked for.
    pub fn show<K: Sink>(
        &mut self,
        alloc: Global,
        frame: &ShownFrame,
        player: &Player,
        sink: &mut K,
    ) -> Result<bool, PlayFault>
        requires there { AllByRecursion (IsThere (bytes_of player.now.replayer)) frame.now.pictures.items }
        requires room { self.old.count < 2 ^ 63 }
        ensures asked { self.new.asked ≡ self.old.asked }
        ensures listing { self.new.listing ≡ self.old.listing }
        ensures count { OnOk result (self.new.count ≡ self.old.count + (if is_asked self.old.asked (first_frame_of player.now) frame.now.number then 1 else 0)) }
        ensures last { IfOk result (λ last. last ≡ is_last self.old.asked (first_frame_of player.now) frame.now.number) }
        ensures ok { OnOk result (Appends (K.taken sink.old) (K.taken sink.new) (text_by self.old player.now frame.now)) }
        ensures front { AppendsPart (K.taken sink.old) (K.taken sink.new) (text_by self.old player.now frame.now) }
        ensures err { IfErr result IsUnwritten }
        ensures later { K.faults sink.old ≤ K.faults sink.new }
        ensures cause { result ≡ Err PlayFault.SinkFault → Rose (K.faults sink.old) (K.faults sink.new) }
    {
        let first = player.first_frame();
        let is_last = self.asked.ends_with(first, frame.number);
        if !self.asked.asks_for(first, frame.number) {
            return Ok(is_last);
        }
        if let Err(fault) = write_frame(alloc, self.listing, frame, player.replayer(), sink) {
            return Err(print_fault(fault));
        }
        self.count += 1;
        Ok(is_last)
    }

    /// Writes the line with the number of frames.
    pub fn finish<K: Sink>(&self, alloc: Global, sink: &mut K) -> Result<(), PlayFault>
        ensures ok { OnOk result (Appends (K.taken sink.old) (K.taken sink.new) (count_line (codes "frames") self.now.count)) }
        ensures front { AppendsPart (K.taken sink.old) (K.taken sink.new) (count_line (codes "frames") self.now.count) }
        ensures err { IfErr result IsUnwritten }
        ensures later { K.faults sink.old ≤ K.faults sink.new }
        ensures cause { result ≡ Err PlayFault.SinkFault → Rose (K.faults sink.old) (K.faults sink.new) }
    {
        let line = frames_line(alloc, self.count)?;
        write_whole(sink, line.as_bytes())?;
        Ok(())
    }

    /// Ends at the clean end of the file: all frames were asked for, or one that is asked for isn't there.
    pub fn end<K: Sink>(
        &self,
        alloc: Global,
        player: &Player,
        sink: &mut K,
    ) -> Result<(), PlayFault>
        ensures ok { OnOk result ((self.now.asked ≡ Asked.All) × Appends (K.taken sink.old) (K.taken sink.new) (count_line (codes "frames") self.now.count)) }
        ensures without { (first : ℕ) → (last : ℕ) → result ≡ Err (PlayFault.NoSuchFrame first last) → (sink.new ≡ sink.old)
            × (first ≡ first_frame_of player.now) × (last ≡ next_frame_of player.now - 1) }
        ensures front { AppendsPart (K.taken sink.old) (K.taken sink.new) (count_line (codes "frames") self.now.count) }
        ensures err { IfErr result (EndsOnly self.now.asked) }
        ensures later { K.faults sink.old ≤ K.faults sink.new }
        ensures cause { result ≡ Err PlayFault.SinkFault → Rose (K.faults sink.old) (K.faults sink.new) }
    {
        match self.asked {
            Asked::All => self.finish(alloc, sink),
            Asked::Between { .. } => Err(player.no_such_frame()),
        }
    }
}

/// A printer's fault, passed on.
fn print_fault(fault: PrintFault) -> PlayFault
    ensures { result ≡ of_printer fault }
{
    match fault {
        PrintFault::SinkFault => PlayFault::SinkFault,
        PrintFault::WantMemory => PlayFault::WantMemory,
    }
}

/// The line with a number of frames.
fn frames_line(alloc: Global, count: u64) -> Result<String, AllocError>
    ensures { IfOk result (λ text. string_bytes text ≡ codes "frames " ++ (decimal count ++ codes "\n")) }
{
    format!(in alloc; "frames {count}\n")
}
