//! The frames of a file, decoded and digested by several threads as it is read.
ghost use Rattle.std.specs.Prelude.{◌≡◌, ◌≤◌, ◌<◌, ℕ, List, [], Ok, Err, IfOk, IfErr, false};
ghost use Rattle.std.specs.declared.option.Option.{Option as Maybe};
ghost use Rattle.gfx_types.specs.declared.frame.Frame.{Frame};
ghost use Rattle.gfx_io.specs.Causes.{Rose};
ghost use Rattle.gfx_io.specs.Told.{IfTold};
ghost use Rattle.gfx_decode.specs.Reachable.{blocks_ahead};
ghost use Rattle.gfx_player.specs.Ends.{IsStopped};
ghost use Rattle.gfx_player.specs.Faults.{of_decoder};
ghost use Rattle.gfx_player.specs.Walks.{HasAll, IsAtBlock};
ghost use Rattle.gfx_play.specs.Shows.{Answers, EndsOnly, MayMiss};
ghost use Rattle.gfx_fan.specs.Gathered.{Gathering, IsFeedFault};
ghost use Rattle.gfx_fan.specs.Kept.{IsBare, plain};
ghost use Rattle.gfx_fan.specs.Walked.{Came, IsReady};

use crate::album::Album;
use crate::feed::feed_group;
use crate::group::{Ending, Group};
use gfx_decode::DecodeFault;
use gfx_io::{Sink, Source};
use gfx_player::{Asked, PlayFault, Player};
use std::alloc::Global;
use std::thread::Threads;

/// Shows all frames of a file and then their number, as `gfx_play::show_frames` does without the rows of images. What was read
/// before a bad block or a failed read is dealt with first.
pub fn digests<R: Threads + Sync, S: Source, K: Sink>(
    rt: &R,
    alloc: Global,
    source: &mut S,
    sink: &mut K,
) -> Result<(), PlayFault>
    ensures told { IfTold (S.left source.old) (S.left source.new) (Answers Asked.All false (K.taken sink.old) (K.taken sink.new) result) }
    ensures misses { IfErr result (MayMiss Asked.All) }
    ensures read_fault { result ≡ Err PlayFault.ReadFault → Rose (S.faults source.old) (S.faults source.new) }
    ensures sink_fault { result ≡ Err PlayFault.SinkFault → Rose (K.faults sink.old) (K.faults sink.new) }
    ensures later { (S.faults source.old ≤ S.faults source.new) × (K.faults sink.old ≤ K.faults sink.new) }
{
    let player = Player::open(alloc, source)?;
    let mut walk = Walk::new(alloc, player);
    let ran = walk.run(rt, source, sink);
    drop(walk);
    ran
}

/// A file that is read, replayed and shown group by group.
#[derive(Drop)]
struct Walk {
    player: Player,
    album: Album,
    group: Group,
    buffer: Vec<u8>,
    alloc: Global,
}

impl Walk {
    /// Goes on where the player stands, which has shown no frame.
    fn new(alloc: Global, player: Player) -> Walk
        ensures player { result.player ≡ player }
        ensures asked { result.album.screen.asked ≡ Asked.All }
        ensures listing { result.album.screen.listing ≡ plain player.minor }
        ensures count { result.album.screen.count ≡ 0 }
        ensures bare { IsBare result.album }
    {
        let album = Album::new(alloc, player.minor());
        Walk {
            player,
            album,
            group: Group::new(alloc),
            buffer: Vec::new(alloc),
            alloc,
        }
    }

    /// Goes on to the end of the file. The loop only borrows the walk: each exit of an owner drops it field by field,
    /// which takes long to prove.
    fn run<R: Threads + Sync, S: Source, K: Sink>(
        &mut self,
        rt: &R,
        source: &mut S,
        sink: &mut K,
    ) -> Result<(), PlayFault>
        requires place { IsAtBlock self.old.player }
        requires gathering { (file : Maybe (List ℕ)) × Gathering self.old.player self.old.album [] file (S.left source.old) (K.taken sink.old) (K.taken sink.old) }
        ensures told { (file : Maybe (List ℕ)) → Gathering self.old.player self.old.album [] file (S.left source.old) (K.taken sink.old) (K.taken sink.old)
            → IfTold file (S.left source.new) (Answers Asked.All false (K.taken sink.old) (K.taken sink.new) result) }
        ensures misses { IfErr result (MayMiss Asked.All) }
        ensures read_fault { result ≡ Err PlayFault.ReadFault → Rose (S.faults source.old) (S.faults source.new) }
        ensures sink_fault { result ≡ Err PlayFault.SinkFault → Rose (K.faults sink.old) (K.faults sink.new) }
        ensures later { (S.faults source.old ≤ S.faults source.new) × (K.faults sink.old ≤ K.faults sink.new) }
    {
        'groups: loop {
            let ending = self.next_group(rt, source, sink)?;
            match ending {
                Ending::Full => (),
                Ending::Clean => return self.end(rt, sink),
                Ending::Stopped(why) => return Err(self.stop(rt, sink, why)),
            }
        }
    }

    /// Reads the next group and replays its blocks, and keeps or writes the frames that they show.
    fn next_group<R: Threads + Sync, S: Source, K: Sink>(
        &mut self,
        rt: &R,
        source: &mut S,
        sink: &mut K,
    ) -> Result<Ending, PlayFault>
        requires { IsReady self.old.player self.old.album }
        ensures ok { IfOk result (λ ending. (shown : List Frame) → (file : Maybe (List ℕ)) → (before : Maybe (List ℕ))
            → Gathering self.old.player self.old.album shown file (S.left source.old) before (K.taken sink.old)
            → (more : List Frame) × Came ending self.new.player self.new.album more file (S.left source.new) before (K.taken sink.new)) }
        ensures err { IfErr result (λ why. (shown : List Frame) → (file : Maybe (List ℕ)) → (before : Maybe (List ℕ))
            → Gathering self.old.player self.old.album shown file (S.left source.old) before (K.taken sink.old)
            → IfTold file (S.left source.new) (Answers Asked.All false before (K.taken sink.new) (Err why))) }
        ensures kind { IfErr result IsFeedFault }
        ensures place { result ≡ Ok Ending.Full → IsAtBlock self.new.player }
        ensures fewer { result ≡ Ok Ending.Full → blocks_ahead self.new.player.decoder < blocks_ahead self.old.player.decoder }
        ensures later { (S.faults source.old ≤ S.faults source.new) × (K.faults sink.old ≤ K.faults sink.new) }
        ensures read_fault { result ≡ Ok (Ending.Stopped DecodeFault.ReadFault) → Rose (S.faults source.old) (S.faults source.new) }
        ensures sink_fault { result ≡ Err PlayFault.SinkFault → Rose (K.faults sink.old) (K.faults sink.new) }
    {
        let ending = self.group.fill(&mut self.player, source, &mut self.buffer)?;
        feed_group(
            rt,
            self.alloc,
            &self.group,
            &mut self.player,
            &mut self.album,
            sink,
        )?;
        Ok(ending)
    }

    /// Writes the lines of what is kept at the clean end of the file, and the number of frames.
    fn end<R: Threads + Sync, K: Sink>(&mut self, rt: &R, sink: &mut K) -> Result<(), PlayFault>
        ensures told { (was : Player) → (shown : List Frame) → (file : Maybe (List ℕ)) → (middle : Maybe (List ℕ)) → (rest : Maybe (List ℕ)) → (before : Maybe (List ℕ))
            → Gathering was self.old.album shown file middle before (K.taken sink.old) → IfTold file rest (HasAll self.old.player shown)
            → IfTold file rest (Answers Asked.All false before (K.taken sink.new) result) }
        ensures kind { IfErr result (EndsOnly self.old.album.screen.asked) }
        ensures later { K.faults sink.old ≤ K.faults sink.new }
        ensures cause { result ≡ Err PlayFault.SinkFault → Rose (K.faults sink.old) (K.faults sink.new) }
    {
        self.album.flush(rt, sink)?;
        self.album.screen.end(self.alloc, &self.player, sink)
    }

    /// Writes the lines of what is kept before the next block's fault is answered, and gives it, or why they weren't written.
    fn stop<R: Threads + Sync, K: Sink>(
        &mut self,
        rt: &R,
        sink: &mut K,
        why: DecodeFault,
    ) -> PlayFault
        ensures told { (was : Player) → (shown : List Frame) → (file : Maybe (List ℕ)) → (middle : Maybe (List ℕ)) → (rest : Maybe (List ℕ)) → (before : Maybe (List ℕ))
            → Gathering was self.old.album shown file middle before (K.taken sink.old) → IfTold file rest (IsStopped shown (of_decoder why))
            → IfTold file rest (Answers Asked.All false before (K.taken sink.new) (Err result)) }
        ensures misses { MayMiss Asked.All result }
        ensures reading { result ≡ PlayFault.ReadFault → why ≡ DecodeFault.ReadFault }
        ensures later { K.faults sink.old ≤ K.faults sink.new }
        ensures cause { result ≡ PlayFault.SinkFault → Rose (K.faults sink.old) (K.faults sink.new) }
    {
        self.album.stop(rt, sink, decode_fault(why))
    }
}

/// A decoder's fault, passed on.
fn decode_fault(why: DecodeFault) -> PlayFault
    ensures { result ≡ of_decoder why }
{
    PlayFault::from(why)
}
