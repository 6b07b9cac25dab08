//! What a range needs of the state before it.
ghost use Rattle.gfx_range.specs.Range.{kept_by};

use gfx_asked::Asked;
use gfx_needed::NeededIds;
use gfx_pages::Span;
use gfx_state::Keep;

/// What a range needs of the state before it: the objects, and of their bytes those that its frames ask for.
#[derive(Drop)]
pub struct RangeKeep {
    pub(crate) needed: NeededIds,
    pub(crate) asked: Asked,
}

impl Keep for RangeKeep {
    ghost kept = { kept_by };

    fn keeps(&self, id: u64) -> bool {
        self.needed.contains(id)
    }

    fn keeps_fill(&self, memory: u64, span: Span) -> bool {
        self.asked.any(memory, span.at, span.length)
    }
}
