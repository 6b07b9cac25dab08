//! What is kept of a section.
//!
//! Whether kept ids hang together is up to the caller: each block that is kept is one of the section's, and has a
//! spelling and room in any case.
ghost use Rattle.std.specs.Prelude.{◌≡◌};
ghost use Rattle.gfx_state.specs.Sections.{everything};

use gfx_pages::Span;

/// What is kept of a section: the blocks of these ids, and of the memories among them these fills.
pub trait Keep {
    ghost use Rattle.gfx_feature_model.specs.Lean as lean;

    /// Both answers, as a record.
    ghost kept: { Self → lean.Keep };

    /// Whether the blocks of this id are kept.
    fn keeps(&self, id: u64) -> bool
        ensures { result ≡ (kept self.now).id id };

    /// Whether the fill of these bytes of a memory is kept, where the memory is.
    fn keeps_fill(&self, memory: u64, span: Span) -> bool
        ensures { result ≡ (kept self.now).fill memory span.at span.length };
}

/// Keeps all.
#[derive(Clone, Copy)]
pub(crate) struct Everything;

impl Keep for Everything {
    ghost kept = { λ _. everything };

    fn keeps(&self, _: u64) -> bool {
        true
    }

    fn keeps_fill(&self, _: u64, _: Span) -> bool {
        true
    }
}
