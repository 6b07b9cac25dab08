//! The lines of a thread in a phase, and how many threads a script has.
ghost use Rattle.std.specs.Prelude.{◌≡◌, ◌≤◌, ℕ, false, map};
ghost use Rattle.std.specs.List.{AllByRecursion};
ghost use Rattle.gfx_script_model.specs.Runs.{lines_in};
ghost use Rattle.gfx_script_model.specs.Scripts.{has_thread};
ghost use Rattle.gfx_script.specs.Line.{line_of, part_of, phase_of, phases_of};

use gfx_script::{Line, Part, Phase};

/// The lines of a thread, of which there are none where it has no part.
pub(crate) fn lines_of(phase: &Phase, thread: u32) -> &[Line]
    ensures { map line_of result.now ≡ lines_in thread (phase_of phase.now) }
{
    'parts: for part in phase.threads.items() {
        if part.thread == thread {
            return part.lines.items();
        }
    }
    &[]
}

/// The greatest number of a thread plus 1, or 1 where no phase has a thread.
pub(crate) fn thread_count(phases: &[Phase]) -> u32
    requires { AllByRecursion (AllByRecursion (λ p. p.thread ≤ 63)) (phases_of phases.now) }
    ensures some { 1 ≤ result }
    ensures few { result ≤ 64 }
    ensures above { (t : ℕ) → result ≤ t → AllByRecursion (λ phase. has_thread t phase ≡ false) (phases_of phases.now) }
{
    let mut count = 1;
    'phases: for phase in phases {
        count = threads_through(phase.threads.items(), count);
    }
    count
}

// The greater of `count` and the greatest number of a thread of these parts plus 1.
fn threads_through(parts: &[Part], count: u32) -> u32
    requires few { AllByRecursion (λ p. p.thread ≤ 63) (map part_of parts.now) }
    requires count { count ≤ 64 }
    ensures more { count ≤ result }
    ensures few { result ≤ 64 }
    ensures above { (t : ℕ) → result ≤ t → has_thread t (map part_of parts.now) ≡ false }
{
    let mut greatest = count;
    'parts: for part in parts {
        greatest = greatest.max(part.thread + 1);
    }
    greatest
}
