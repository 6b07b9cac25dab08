//! What a handle owns: a log, and a buffer for the block of one call.
ghost use Rattle.std.specs.Prelude.{◌≡◌, [], ◌≤◌, length, IfOk};
ghost use Rattle.gfx_model.specs.Events.{event_of};
ghost use Rattle.gfx_capture.specs.Entry.{IsVersion};
ghost use Rattle.gfx_capture.specs.ThreadBuffer.{CanBePut};
ghost use Rattle.gfx_log_c.specs.Answers.{Answered, AnsweredBy, read_fields};

use crate::answer::Answer;
use crate::fields::{are_bytes, effect_of};
use gfx_capture::{Log, ThreadBuffer};
use gfx_params::ParamFault;
use gfx_types::{Effect, WantMemory};
use std::alloc::Global;

/// The most bytes of fields: a payload has 2^27 at most, of which 12 are id and thread.
const MAX_FIELDS: usize = (1 << 27) - 12;

/// A log of a minor version, and a buffer for the block of one call.
#[derive(Drop)]
pub struct State {
    pub minor: u32,
    pub log: Log,
    buffer: ThreadBuffer,
    alloc: Global,
    pub ghost low: { 1 ≤ minor },
    pub ghost high: { minor ≤ 2 },
    pub ghost log_kind: { log.minor ≡ minor },
    pub ghost buffer_kind: { buffer.minor ≡ minor },
}

impl State {
    /// A log without blocks.
    pub(crate) fn new(alloc: Global, minor: u32) -> Result<Self, WantMemory>
        requires { IsVersion minor }
        ensures minor { IfOk result (λ state. state.minor ≡ minor) }
        ensures empty { IfOk result (λ state. state.log.entries ≡ []) }
    {
        Ok(State {
            minor,
            log: Log::new(alloc, minor)?,
            buffer: ThreadBuffer::new(alloc, minor),
            alloc,
        })
    }

    /// Appends the call or metadata block of this id that the fields spell.
    #[tactic(auto, using(crate::proofs::Answering::is_version, crate::proofs::Answering::can_be_put, crate::proofs::Answering::answered))]
    pub(crate) fn append(&mut self, thread: u32, kind: u32, id: u32, fields: &[u8]) -> Answer
        ensures minor { self.new.minor ≡ self.old.minor }
        ensures answered { Answered self.old.minor self.old.log.entries thread fields.now (read_fields self.old.minor kind id fields.now) result self.new.log.entries }
    {
        if fields.len() > MAX_FIELDS {
            return Answer::BadFields;
        }
        are_bytes(fields);
        match effect_of(self.alloc, self.minor, kind, id, fields) {
            Ok(effect) => self.append_effect(thread, &effect),
            Err(ParamFault::BadParams) => Answer::BadFields,
            Err(ParamFault::WantMemory) => Answer::WantMemory,
        }
    }

    // Appends one effect.
    #[tactic(auto, using(crate::proofs::Answering::answered_by))]
    fn append_effect(&mut self, thread: u32, effect: &Effect<'_>) -> Answer
        requires { CanBePut self.old.minor (event_of effect.now) }
        ensures minor { self.new.minor ≡ self.old.minor }
        ensures answered { AnsweredBy self.old.minor self.old.log.entries thread (event_of effect.now) result self.new.log.entries }
    {
        self.buffer.clear();
        match self.buffer.put(effect) {
            Ok(()) => Answer::of(self.log.append(thread, &self.buffer)),
            Err(_) => Answer::WantMemory,
        }
    }
}
