//! Ranges of frames on the command line.
ghost use Rattle.std.specs.Prelude.{◌≡◌, ◌≢◌, IfSome, IsNone};

use crate::number::number_of;

/// Frames from a first to a last number.
#[derive(Clone, Copy, Debug, PartialEq, Eq)]
pub struct FrameRange {
    pub first: u64,
    pub last: u64,
}

impl FrameRange {
    ghost use Rattle.gfx_words.specs.declared.range.FrameRange.{FrameRange};
    ghost use Rattle.gfx_words.specs.Words.{range_text, FitsRange};

    /// The range that the text spells, as two numbers with a hyphen between them, the first not above the last.
    pub(crate) fn of(text: &str) -> Option<FrameRange>
        ensures some { IfSome result (λ r. (text.now ≡ range_text r) × FitsRange r) }
        ensures none { IsNone result → (r : FrameRange) → FitsRange r → text.now ≢ range_text r }
    {
        let (first, last) = text.split_once('-')?;
        let first = number_of(first)?;
        let last = number_of(last)?;
        if first <= last {
            Some(FrameRange { first, last })
        } else {
            None
        }
    }
}
