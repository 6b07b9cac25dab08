ghost use Rattle.std.specs.Prelude.{◌≡◌, ℕ, ◌++◌, [], ◌∷◌, IfOk, length, map, take};
ghost use Rattle.gfx_seats_tests.specs.Journal.{entry, entry_thread, entry_ids, named_ids, Grew};

use gfx_seats::Grows;
use std::alloc::Global;

/// What can be done with an id.
#[derive(Clone, Copy, Debug, PartialEq, Eq)]
pub enum Event {
    Make(u64),
    End(u64),
}

#[derive(Clone, Copy, Debug, PartialEq, Eq)]
pub struct Entry {
    pub thread: u32,
    pub event: Event,
}

/// The events that are appended in one turn.
#[derive(Drop)]
pub struct Batch {
    pub events: Vec<Event>,
}

/// From where on the events are in the journal, and how many they are.
#[derive(Clone, Copy, Debug, PartialEq, Eq)]
pub struct Receipt {
    pub from: u64,
    pub count: u64,
}

#[derive(Clone, Copy, Debug, PartialEq, Eq)]
pub enum Refused {
    /// What the event at `done` would end is not there, after `at` entries.
    NotLive { at: u64, done: u64 },
    WantMemory,
}

/// Events under their threads. What isn't there can't be ended.
#[derive(Drop)]
pub struct Journal {
    entries: Vec<Entry>,
}

impl Journal {
    pub fn new(alloc: Global) -> Journal
        ensures { result.entries.items ≡ [] }
    {
        Journal {
            entries: Vec::new(alloc),
        }
    }

    pub fn entries(&self) -> &[Entry]
        ensures { result.now ≡ self.now.entries.items }
    {
        &self.entries
    }

    fn is_live(&self, id: u64) -> bool {
        let mut live = false;
        for entry in &self.entries {
            match entry.event {
                Event::Make(made) => live |= made == id,
                Event::End(ended) => live &= ended != id,
            }
        }
        live
    }

    fn may_follow(&self, event: Event) -> bool {
        match event {
            Event::Make(_) => true,
            Event::End(id) => self.is_live(id),
        }
    }

    #[tactic(auto, using(crate::proofs::Journals::one_more))]
    fn append(&mut self, thread: u32, events: &[Event]) -> Result<Receipt, Refused>
        ensures { Grew self.old.entries.items thread events.now result self.new.entries.items }
    {
        let from = self.entries.len() as u64;
        for (i, event) in events.iter().enumerate() {
            if !self.may_follow(*event) {
                return Err(Refused::NotLive {
                    at: self.entries.len() as u64,
                    done: i as u64,
                });
            }
            let entry = Entry {
                thread,
                event: *event,
            };
            if self.entries.push(entry).is_err() {
                return Err(Refused::WantMemory);
            }
        }
        Ok(Receipt {
            from,
            count: events.len() as u64,
        })
    }
}

impl Grows for Journal {
    type Entry = Entry;

    type Work = Batch;

    type Done = Receipt;

    type Refusal = Refused;

    ghost entries = { λ j. j.entries.items };

    ghost thread_of = { entry_thread };

    ghost ids_of = { entry_ids };

    ghost kind = { λ _. 1 };

    ghost work_kind = { λ _. 1 };

    ghost named = { λ b. named_ids b.events.items };

    ghost grown = { λ before thread work answer after. Grew before thread work.events.items answer after };

    fn length(&self) -> u64 {
        self.entries.len() as u64
    }

    fn grow(&mut self, thread: u32, work: &Batch) -> Result<Receipt, Refused> {
        self.append(thread, &work.events)
    }
}
