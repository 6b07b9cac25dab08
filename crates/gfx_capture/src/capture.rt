//! The capture: each call and each batch has its place in one history.
ghost use Rattle.std.specs.Prelude.{◌≡◌, ◌⊎◌, ◌<◌, ◌≤◌, ◌^◌, [], ◌∷◌, length, map, All, IfOk};
ghost use mathlib.Core.List.{IsPrefix};
ghost use Rattle.gfx_model.specs.Events.{event_of};
ghost use Rattle.gfx_seats.specs.declared.stage.Stage.TheVariants.{Idle};
ghost use Rattle.gfx_seats.specs.Entries.{times, AreAmong};
ghost use Rattle.gfx_seats.specs.Hand.{fresh_from, with_id, with_known, after_meeting};
ghost use Rattle.gfx_seats.specs.Seat.{hand, desk_of};
ghost use Rattle.gfx_seats.specs.Desk.{desk_id, seats_of, Closes};
ghost use Rattle.gfx_capture.specs.Entry.{IsVersion, entry_thread, event_ids, named_ids};
ghost use Rattle.gfx_capture.specs.ThreadBuffer.{CanBePut};
ghost use Rattle.gfx_capture.specs.Pass.{Keeps, Tells, AreNew, IsNotTaken};

use crate::answer::{AppendFault, Receipt};
use crate::log::Log;
use crate::thread_buffer::ThreadBuffer;
use gfx_seats::{Desk, Seat};
use gfx_types::{Effect, WantMemory};
use std::alloc::Global;
use std::sync::Wait;

/// What one thread calls with: its number, the ids that it drew, what it has seen of the history, and its own entries there.
pub type Pass = Seat<Log>;

/// One log, to which several threads append in turns through a shared reference.
#[derive(Drop)]
pub struct Capture {
    desk: Desk<Log>,
}

impl Capture {
    /// A capture with an empty log of this minor version, and a pass for each thread. Threads are numbered from 0 on.
    pub fn new(alloc: Global, minor: u32, threads: u32) -> Result<(Self, Vec<Pass>), WantMemory>
        requires version { IsVersion minor }
        requires threads { (1 ≤ threads) × (threads ≤ 64) }
        ensures count { IfOk result (λ t. (seats_of t.0.desk ≡ threads) × (length t.1.items ≡ threads)) }
        ensures capture { IfOk result (λ t. All (λ p. desk_of p ≡ desk_id t.0.desk) t.1.items) }
        ensures passes { IfOk result (λ t. map hand t.1.items ≡ fresh_from minor 0 threads) }
    {
        let log = Log::new(alloc, minor)?;
        match Desk::new(alloc, threads, log) {
            Ok((desk, passes)) => Ok((Capture { desk }, passes)),
            Err(_) => Err(WantMemory),
        }
    }

    /// The next id: another one for each call at this capture, with whatever pass. It takes no memory and never waits.
    pub fn draw(&self, pass: &mut Pass) -> u64
        requires capture { desk_of pass.old ≡ desk_id self.now.desk }
        requires few { length (hand pass.old).drawn < 2 ^ 32 }
        ensures capture { desk_of pass.new ≡ desk_of pass.old }
        ensures positive { 1 ≤ result }
        ensures new_id { times result (hand pass.old).drawn ≡ 0 }
        ensures pass { hand pass.new ≡ with_id (hand pass.old) result }
    {
        self.desk.draw(pass)
    }

    /// Appends an effect, or is refused for the history that the pass has seen then. The buffer is room for its block: it is
    /// empty before and after, and a thread lends one buffer to all its calls. It may wait for other threads.
    pub fn call<R: Wait>(
        &self,
        rt: &R,
        pass: &mut Pass,
        buffer: &mut ThreadBuffer,
        effect: &Effect<'_>,
    ) -> Result<Receipt, AppendFault>
        requires capture { desk_of pass.old ≡ desk_id self.now.desk }
        requires idle { (hand pass.old).stage ≡ Idle }
        requires buffer { (buffer.old.minor ≡ (hand pass.old).kind) × (buffer.old.events ≡ []) }
        requires fits { CanBePut (hand pass.old).kind (event_of effect.now) }
        requires drew { AreAmong (event_ids (event_of effect.now)) (hand pass.old).drawn }
        ensures capture { desk_of pass.new ≡ desk_of pass.old }
        ensures keeps { Keeps (hand pass.old) (hand pass.new) }
        ensures tells { Tells (hand pass.old) (event_of effect.now ∷ []) result (hand pass.new) }
        ensures new_ids { AreNew (hand pass.old) (event_of effect.now ∷ []) → IsNotTaken result }
        ensures buffer { (buffer.new.minor ≡ buffer.old.minor) × (buffer.new.events ≡ []) }
    {
        if buffer.put(effect).is_err() {
            return Err(AppendFault::WantMemory { done: 0 });
        }
        let answer = self.batch(rt, pass, buffer);
        buffer.clear();
        answer
    }

    /// Appends the effects of the buffer in order, in one turn, up to the first that is refused. It may wait for other threads.
    pub fn batch<R: Wait>(
        &self,
        rt: &R,
        pass: &mut Pass,
        buffer: &ThreadBuffer,
    ) -> Result<Receipt, AppendFault>
        requires capture { desk_of pass.old ≡ desk_id self.now.desk }
        requires idle { (hand pass.old).stage ≡ Idle }
        requires buffer { buffer.now.minor ≡ (hand pass.old).kind }
        requires drew { AreAmong (named_ids buffer.now.events) (hand pass.old).drawn }
        ensures capture { desk_of pass.new ≡ desk_of pass.old }
        ensures keeps { Keeps (hand pass.old) (hand pass.new) }
        ensures tells { Tells (hand pass.old) buffer.now.events result (hand pass.new) }
        ensures new_ids { AreNew (hand pass.old) buffer.now.events → IsNotTaken result }
    {
        let mut turn = self.desk.turn(rt, pass);
        let answer = turn.append(&self.desk, pass, buffer);
        turn.leave(&self.desk, pass);
        answer
    }

    /// How many blocks the log has at least. It takes no memory and never waits.
    pub fn written(&self, pass: &mut Pass) -> u64
        requires capture { desk_of pass.old ≡ desk_id self.now.desk }
        ensures capture { desk_of pass.new ≡ desk_of pass.old }
        ensures known { (hand pass.old).known ≤ result }
        ensures seen { length (hand pass.old).seen ≤ result }
        ensures pass { hand pass.new ≡ with_known (hand pass.old) result }
    {
        self.desk.written(pass)
    }

    /// From then on both passes have seen the longer of their two histories. It takes no memory and never waits.
    pub fn meet(&self, one: &mut Pass, other: &mut Pass)
        requires one_capture { desk_of one.old ≡ desk_id self.now.desk }
        requires other_capture { desk_of other.old ≡ desk_id self.now.desk }
        ensures one_capture { desk_of one.new ≡ desk_of one.old }
        ensures other_capture { desk_of other.new ≡ desk_of other.old }
        ensures one { hand one.new ≡ after_meeting (hand one.old) (hand other.old) (hand one.new).seen }
        ensures other { hand other.new ≡ after_meeting (hand other.old) (hand one.old) (hand one.new).seen }
        ensures one_before { IsPrefix (hand one.old).seen (hand one.new).seen }
        ensures other_before { IsPrefix (hand other.old).seen (hand one.new).seen }
        ensures longer { ((hand one.new).seen ≡ (hand one.old).seen) ⊎ ((hand one.new).seen ≡ (hand other.old).seen) }
    {
        self.desk.meet(one, other);
    }

    /// The log, once all passes are given back.
    pub fn close(self, passes: Vec<Pass>) -> Log
        requires capture { All (λ p. desk_of p ≡ desk_id self.desk) passes.items }
        requires all { length passes.items ≡ seats_of self.desk }
        requires idle { All (λ p. (hand p).stage ≡ Idle) passes.items }
        ensures closed { Closes (λ log. log.entries) entry_thread (λ log. log.minor) (map hand passes.items) result }
    {
        let Some(log) = self.desk.close(passes) else {
            unreachable!()
        };
        log
    }
}
