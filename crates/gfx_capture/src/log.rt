//! The log: one file of the blocks of all threads.
//!
//! A block is copied to the end, then the tracker takes its effect, and then it is counted. Where the tracker refuses,
//! the copy is cut off, which takes no memory.
ghost use Rattle.std.specs.Prelude.{◌≡◌, ℕ, [], ◌++◌, ◌≤◌, length, IfOk};
ghost use Rattle.gfx_model.specs.Events.{Event};
ghost use Rattle.gfx_model.specs.Limits.{max_log};
ghost use Rattle.gfx_model.specs.Spelling.{header};
ghost use Rattle.gfx_model.specs.Blocks.{clean};
ghost use Rattle.gfx_model.specs.Frames.{frames};
ghost use Rattle.gfx_model.specs.Meaning.{Means};
ghost use Rattle.gfx_script_model.specs.Runs.{history, log_bytes};
ghost use Rattle.gfx_tracker.specs.Tracker.{answers};
ghost use Rattle.gfx_capture.specs.Entry.{IsVersion};
ghost use Rattle.gfx_capture.specs.ThreadBuffer.{IsPut, IsPutOf};
ghost use Rattle.gfx_capture.specs.Log.{IsSound};
ghost use Rattle.gfx_capture.specs.Append.{Appends, AnswersOne, Took, refusal_of, ended};

use crate::answer::{AppendFault, BlockFault, Receipt};
use crate::block::{put_with_thread, read_back, split_block};
use crate::entry::Entry;
use crate::thread_buffer::ThreadBuffer;
use gfx_blocks::put_header;
use gfx_seats::Grows;
use gfx_tracker::{ApplyFault, Tracker};
use gfx_types::WantMemory;
use gfx_types::limits::MAX_LOG;
use std::alloc::Global;
use std::marker::Model;

/// A file of blocks that break no rule, each under its thread, and the tracker that stands for them.
#[derive(Drop)]
pub struct Log {
    minor: u32,
    count: u64,
    bytes: Vec<u8>,
    tracker: Tracker,
    alloc: Global,
}

impl Model for Log {
    ghost use Rattle.gfx_capture.specs.Log.{Logged};

    ghost Value = { Logged };

    ghost use Rattle.gfx_tracker.specs.Tracker.{answers};
    ghost use Rattle.gfx_capture.specs.Log.{logged, IsLog};

    ghost view = { λ s. logged s.minor s.count s.bytes.items };

    ghost invariant = { λ s. IsLog s.minor s.count s.bytes.items (answers s.tracker) };
}

impl Log {
    /// A log without blocks.
    pub fn new(alloc: Global, minor: u32) -> Result<Self, WantMemory>
        requires { IsVersion minor }
        ensures minor { IfOk result (λ log. log.minor ≡ minor) }
        ensures empty { IfOk result (λ log. log.entries ≡ []) }
    {
        let mut bytes = Vec::new(alloc);
        put_header(minor, &mut bytes)?;
        Ok(Log {
            minor,
            count: 0,
            bytes,
            tracker: Tracker::new(alloc),
            alloc,
        })
    }

    /// The bytes of the file. It takes no memory.
    pub fn bytes(&self) -> &[u8]
        ensures bytes { result.now ≡ header self.now.minor ++ log_bytes self.now.minor self.now.entries }

        // As a file they end cleanly and show the frames of the history.
        ensures file { Means result.now (frames (history self.now.entries)) clean }
        ensures sound { IsSound self.now.minor self.now.entries }
    {
        self.bytes.as_slice()
    }

    /// How many blocks it has. It takes no memory.
    pub fn blocks(&self) -> u64
        ensures count { result ≡ length self.now.entries }
        ensures few { result ≤ max_log }
        ensures sound { IsSound self.now.minor self.now.entries }
    {
        self.count
    }

    /// Appends the effects of the buffer in order, under the thread, up to the first that can't be appended. Whether its
    /// block fits is asked before the rules. After a refusal the effects before it stand, and nothing else changed.
    pub fn append(&mut self, thread: u32, buffer: &ThreadBuffer) -> Result<Receipt, AppendFault>
        requires { buffer.now.minor ≡ self.old.minor }
        ensures minor { self.new.minor ≡ self.old.minor }
        ensures appends { Appends self.old.minor self.old.entries thread buffer.now.events result self.new.entries }
    {
        let from = self.blocks();
        let count = buffer.len();
        let mut rest = buffer.blocks();
        'effects: for done in 0..count {
            let (block, behind) = split_block(rest);
            if let Err(fault) = self.append_block(thread, block) {
                return Err(end_at(fault, from, done));
            }
            rest = behind;
        }
        Ok(Receipt { from, count })
    }

    /// Appends one block under the thread, or leaves all as it was.
    fn append_block(&mut self, thread: u32, block: &[u8]) -> Result<(), BlockFault>
        requires { IsPut self.old.minor block.now }
        ensures minor { self.new.minor ≡ self.old.minor }
        ensures answers { (e : Event) → IsPutOf self.old.minor e block.now → AnswersOne self.old.minor self.old.entries thread e result self.new.entries }
        ensures sound { IsSound self.new.minor self.new.entries }
    {
        let length = self.bytes.len();
        let wanted = block.len();
        if MAX_LOG < length as u64 + wanted as u64 {
            return Err(BlockFault::LogFull {
                length: length as u64,
                wanted: wanted as u64,
            });
        }
        put_with_thread(thread, block, &mut self.bytes)?;
        match take_block(self.alloc, self.minor, block, &mut self.tracker) {
            Ok(()) => {
                self.count += 1;
                Ok(())
            }
            Err(fault) => {
                self.bytes.truncate(length);
                Err(refusal(fault))
            }
        }
    }
}

/// Has the tracker take the effect of a block. Nothing asks for its operations.
fn take_block(
    alloc: Global,
    minor: u32,
    block: &[u8],
    tracker: &mut Tracker,
) -> Result<(), ApplyFault>
    requires version { IsVersion minor }
    requires block { IsPut minor block.now }
    ensures { Took minor block.now (answers tracker.old) result (answers tracker.new) }
{
    let Ok(effect) = read_back(alloc, minor, block) else {
        return Err(ApplyFault::WantMemory);
    };
    if let Some(fault) = tracker.fault_of(&effect) {
        return Err(ApplyFault::Rule(fault));
    }
    tracker.take(&effect)?;
    Ok(())
}

fn refusal(fault: ApplyFault) -> BlockFault
    ensures { result ≡ refusal_of fault }
{
    match fault {
        ApplyFault::Rule(fault) => BlockFault::Refused(fault),
        ApplyFault::WantMemory => BlockFault::WantMemory,
    }
}

/// What is answered where the append ends `done` effects behind the block at `from`.
fn end_at(fault: BlockFault, from: u64, done: u32) -> AppendFault
    requires { from ≤ max_log }
    ensures { result ≡ ended fault from done }
{
    match fault {
        BlockFault::Refused(fault) => AppendFault::Refused {
            fault,
            at: from + u64::from(done),
            done,
        },
        BlockFault::LogFull { length, wanted } => AppendFault::LogFull {
            length,
            wanted,
            done,
        },
        BlockFault::WantMemory => AppendFault::WantMemory { done },
    }
}

impl Grows for Log {
    ghost use Rattle.gfx_capture.specs.Entry.{entry_thread, entry_ids, named_ids};
    ghost use Rattle.gfx_capture.specs.Append.{Appends};

    type Entry = Entry;

    type Work = ThreadBuffer;

    type Done = Receipt;

    type Refusal = AppendFault;

    ghost entries = { λ log. log.entries };

    ghost thread_of = { entry_thread };

    ghost ids_of = { entry_ids };

    ghost kind = { λ log. log.minor };

    ghost work_kind = { λ buffer. buffer.minor };

    ghost named = { λ buffer. named_ids buffer.events };

    ghost grown = { λ before thread buffer answer after. Appends buffer.minor before thread buffer.events answer after };

    fn length(&self) -> u64 {
        self.blocks()
    }

    fn grow(&mut self, thread: u32, work: &ThreadBuffer) -> Result<Receipt, AppendFault> {
        self.append(thread, work)
    }
}
