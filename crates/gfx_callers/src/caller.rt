//! One thread at a capture.
ghost use Rattle.std.specs.Prelude.{◌≡◌, [], length};
ghost use Rattle.gfx_seats.specs.declared.stage.Stage.TheVariants.{Idle};
ghost use Rattle.gfx_seats.specs.Seat.{hand};
ghost use Rattle.gfx_capture.specs.Entry.{named_ids};

use crate::effects::{Creation, Use};
use gfx_capture::{AppendFault, Capture, Pass, Receipt, ThreadBuffer};
use gfx_types::{Effect, WantMemory};
use std::alloc::Global;
use std::sync::Wait;

/// No memory was found.
const WANT_MEMORY: AppendFault = AppendFault::WantMemory { done: 0 };

/// The most effects that wait.
const MAX_WAITING: u32 = 256;

/// A thread at a capture of minor version 1: its pass, room for the block of a call, and effects that wait for a batch.
#[derive(Drop)]
pub struct Caller {
    pub(crate) pass: Pass,
    room: ThreadBuffer,
    waiting: ThreadBuffer,
    draws: u32,
    ghost idle: { (hand pass).stage ≡ Idle },
    ghost kind: { (hand pass).kind ≡ 1 },
    ghost drawn: { length (hand pass).drawn ≡ draws },
    ghost room_kind: { room.minor ≡ 1 },
    ghost empty: { room.events ≡ [] },
    ghost waiting_kind: { waiting.minor ≡ 1 },
    ghost none_created: { named_ids waiting.events ≡ [] },
}

impl Caller {
    ghost use Rattle.std.specs.Prelude.{◌<◌, ◌∷◌, IfSome};
    ghost use Rattle.gfx_model.specs.Events.{event_of};
    ghost use Rattle.gfx_seats.specs.Entries.{times};
    ghost use Rattle.gfx_capture.specs.Entry.{event_ids};
    ghost use Rattle.gfx_capture.specs.ThreadBuffer.{CanBePut};
    ghost use Rattle.gfx_callers.specs.Caller.{CallsAt, IsReady};

    pub(crate) fn new(alloc: Global, pass: Pass) -> Self
        requires { IsReady (hand pass) }
        ensures { result.pass ≡ pass }
    {
        Caller {
            pass,
            room: ThreadBuffer::new(alloc, 1),
            waiting: ThreadBuffer::new(alloc, 1),
            draws: 0,
        }
    }

    pub(crate) fn into_pass(self) -> Pass
        ensures pass { result ≡ self.pass }
        ensures idle { (hand result).stage ≡ Idle }
    {
        self.pass
    }

    /// The number of its thread.
    pub fn thread(&self) -> u32 {
        self.pass.thread()
    }

    /// A new id. None where it drew as many as a u32 counts.
    fn draw(&mut self, capture: &Capture) -> Option<u64>
        requires { CallsAt self.old capture.now }
        ensures capture { CallsAt self.new capture.now }
        ensures drew { IfSome result (λ id. 0 < times id (hand self.new.pass).drawn) }
    {
        if self.draws == u32::MAX {
            return None;
        }
        self.draws += 1;
        Some(capture.draw(&mut self.pass))
    }

    /// Makes a call that creates this id alone.
    fn call_creating<R: Wait>(
        &mut self,
        rt: &R,
        capture: &Capture,
        effect: &Effect<'_>,
        id: u64,
    ) -> Result<Receipt, AppendFault>
        requires capture { CallsAt self.old capture.now }
        requires fits { CanBePut 1 (event_of effect.now) }
        requires ids { event_ids (event_of effect.now) ≡ id ∷ [] }
        requires drew { 0 < times id (hand self.old.pass).drawn }
        ensures { CallsAt self.new capture.now }
    {
        capture.call(rt, &mut self.pass, &mut self.room, effect)
    }

    /// Makes a call that creates nothing.
    fn call_using<R: Wait>(
        &mut self,
        rt: &R,
        capture: &Capture,
        effect: &Effect<'_>,
    ) -> Result<Receipt, AppendFault>
        requires capture { CallsAt self.old capture.now }
        requires fits { CanBePut 1 (event_of effect.now) }
        requires ids { event_ids (event_of effect.now) ≡ [] }
        ensures { CallsAt self.new capture.now }
    {
        capture.call(rt, &mut self.pass, &mut self.room, effect)
    }

    /// Creates an object under a new id.
    pub fn create<R: Wait>(
        &mut self,
        rt: &R,
        alloc: Global,
        capture: &Capture,
        creation: Creation,
    ) -> Result<(u64, Receipt), AppendFault>
        requires { CallsAt self.old capture.now }
        ensures { CallsAt self.new capture.now }
    {
        let Some(id) = self.draw(capture) else {
            return Err(WANT_MEMORY);
        };
        let Ok(effect) = creation.effect(alloc, id) else {
            return Err(WANT_MEMORY);
        };
        match self.call_creating(rt, capture, &effect, id) {
            Ok(receipt) => Ok((id, receipt)),
            Err(fault) => Err(fault),
        }
    }

    /// Makes a call that creates nothing.
    pub fn make<R: Wait>(
        &mut self,
        rt: &R,
        alloc: Global,
        capture: &Capture,
        call: Use,
    ) -> Result<Receipt, AppendFault>
        requires { CallsAt self.old capture.now }
        ensures { CallsAt self.new capture.now }
    {
        match call.effect(alloc) {
            Ok(effect) => self.call_using(rt, capture, &effect),
            Err(_) => Err(WANT_MEMORY),
        }
    }

    /// Lets an effect that creates nothing wait. It is refused where 256 wait.
    pub(crate) fn put(&mut self, effect: &Effect<'_>) -> Result<(), WantMemory>
        requires fits { CanBePut 1 (event_of effect.now) }
        requires ids { event_ids (event_of effect.now) ≡ [] }
        ensures { self.new.pass ≡ self.old.pass }
    {
        if self.waiting.len() >= MAX_WAITING {
            return Err(WantMemory);
        }
        self.waiting.put(effect)
    }

    /// Appends what waits in one turn. Nothing waits then.
    pub fn send<R: Wait>(&mut self, rt: &R, capture: &Capture) -> Result<Receipt, AppendFault>
        requires { CallsAt self.old capture.now }
        ensures { CallsAt self.new capture.now }
    {
        let answer = capture.batch(rt, &mut self.pass, &self.waiting);
        self.waiting.clear();
        answer
    }

    /// How many blocks the log has at least.
    pub fn written(&mut self, capture: &Capture) -> u64
        requires { CallsAt self.old capture.now }
        ensures { CallsAt self.new capture.now }
    {
        capture.written(&mut self.pass)
    }

    /// From then on both have seen the longer of their two histories.
    pub fn meet(&mut self, capture: &Capture, other: &mut Caller)
        requires capture { CallsAt self.old capture.now }
        requires other { CallsAt other.old capture.now }
        ensures capture { CallsAt self.new capture.now }
        ensures other { CallsAt other.new capture.now }
    {
        capture.meet(&mut self.pass, &mut other.pass);
    }
}
