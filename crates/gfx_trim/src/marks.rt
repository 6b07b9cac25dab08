//! Which blocks begin a section, and behind which blocks a frame begins.
ghost use Rattle.std.specs.Prelude.{◌≡◌, List, false};
ghost use Rattle.gfx_model.specs.Events.{Event};
ghost use Rattle.gfx_model.specs.Trimmed.{content_begins, cuts_before};
ghost use Rattle.gfx_blocks.specs.Payloads.{content_of};
ghost use Rattle.gfx_trim.specs.Cutters.{is_number, number_by, number_of};
ghost use Rattle.gfx_trim.specs.Marks.{ends_at};

use gfx_replay::ShownFrame;
use gfx_types::{Block, Effect};

/// Whether the block begins a section.
pub fn begins_section(block: &Block<'_>) -> bool
    ensures { result ≡ content_begins (content_of block.now) false }
{
    match block {
        Block::Skip => false,
        Block::Effect { effect, .. } => match effect {
            Effect::Marker { begin, .. } => *begin,
            Effect::Call(_) | Effect::Meta(_) => false,
        },
    }
}

/// Whether the block ends a section before frame `first`.
fn ends_section(first: u64, block: &Block<'_>) -> bool
    ensures { result ≡ ends_at first (content_of block.now) }
{
    match block {
        Block::Skip => false,
        Block::Effect { effect, .. } => match effect {
            Effect::Marker { begin, frame } => !*begin && *frame == first,
            Effect::Call(_) | Effect::Meta(_) => false,
        },
    }
}

/// Whether frame `first` begins right behind the block, which shows the frame of this number, if it shows one.
pub fn begins_behind(first: u64, block: &Block<'_>, number: Option<u64>) -> bool
    ensures { (h : List Event) → number ≡ number_by h (content_of block.now) → result ≡ cuts_before first h (content_of block.now) }
{
    match number {
        Some(number) => number < first && first - number == 1,
        None => ends_section(first, block),
    }
}

/// Whether the frame that is shown, if one is, has this number.
pub fn shows_frame(last: u64, number: Option<u64>) -> bool
    ensures { result ≡ is_number last number }
{
    match number {
        Some(number) => number == last,
        None => false,
    }
}

/// The number of a frame that is shown, if one is.
pub(crate) fn shown_number(shown: Option<ShownFrame>) -> Option<u64>
    ensures { result ≡ number_of shown }
{
    match shown {
        Some(frame) => Some(frame.number),
        None => None,
    }
}
