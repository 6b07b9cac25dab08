ghost use Rattle.std.specs.Prelude.{◌≡◌, ℕ, List, length, Result};
ghost use Rattle.gfx_seats.specs.Entries.{Adds};

/// A value with a list of entries, its history, which only grows. Each entry has a thread and the ids that it creates.
pub trait Grows {
    type Entry;

    type Work;

    type Done;

    type Refusal;

    ghost entries: { Self → List Self.Entry };

    ghost thread_of: { Self.Entry → ℕ };

    // The ids that an entry creates.
    ghost ids_of: { Self.Entry → List ℕ };

    // A number that stays, as the version of a format. A piece of work is for values of its kind.
    ghost kind: { Self → ℕ };

    ghost work_kind: { Self.Work → ℕ };

    // The ids that a piece of work names as new.
    ghost named: { Self.Work → List ℕ };

    // What holds of the entries before, the thread, the work, the answer and the entries after.
    ghost grown: { List Self.Entry → ℕ → Self.Work → Result Self.Done Self.Refusal → List Self.Entry → Type 0 };

    /// The number of entries.
    fn length(&self) -> u64
        ensures { result ≡ length (entries self.now) };

    /// Adds entries of this thread at the end, and answers for the work.
    fn grow(&mut self, thread: u32, work: &Self::Work) -> Result<Self::Done, Self::Refusal>
        requires { kind self.old ≡ work_kind work.now }
        ensures kind { kind self.new ≡ kind self.old }
        ensures added { Adds thread_of ids_of (entries self.old) thread (named work.now) (entries self.new) }
        ensures grown { grown (entries self.old) thread work.now result (entries self.new) };
}
