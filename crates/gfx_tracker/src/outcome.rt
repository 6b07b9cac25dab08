//! How the application of an effect ends.

ghost use Rattle.std.specs.Prelude.{◌≡◌};
ghost use Rattle.gfx_tracker.specs.declared.outcome.ApplyFault.TheVariants.{WantMemory as NoMemory};
ghost use Rattle.gfx_model.specs.Events.{event_of, event_of_call};
ghost use Rattle.gfx_tracker.specs.Outcome.{outcome_of};

use gfx_types::{Call, Effect, Fault, WantMemory};

/// What an effect that was taken shows.
#[derive(Clone, Copy, Debug, PartialEq, Eq)]
pub enum Outcome {
    /// A present: a frame is shown.
    Presented,
    /// Any other effect.
    Nothing,
}

/// Why an effect was not taken.
#[derive(Clone, Copy, Debug, PartialEq, Eq)]
pub enum ApplyFault {
    /// The effect breaks a check of its row, this one first.
    Rule(Fault),
    /// No memory was found.
    WantMemory,
}

impl From<WantMemory> for ApplyFault {
    ghost from_gives = { λ _ e. e ≡ NoMemory };

    fn from(_: WantMemory) -> Self {
        ApplyFault::WantMemory
    }
}

/// A present shows a frame.
pub(crate) fn outcome_of(effect: &Effect<'_>) -> Outcome
    ensures { result ≡ outcome_of (event_of effect.now) }
{
    match effect {
        Effect::Call(call) => outcome_of_call(call),
        _ => Outcome::Nothing,
    }
}

// A present shows a frame.
fn outcome_of_call(call: &Call<'_>) -> Outcome
    ensures { result ≡ outcome_of (event_of_call call.now) }
{
    match call {
        Call::QueuePresentKHR { .. } => Outcome::Presented,
        _ => Outcome::Nothing,
    }
}
