//! The numbers of the names that a line may use.
//!
//! A name that a line may not use is read as a number that no name has, since a bad line is to be answered first.
ghost use Rattle.std.specs.Prelude.{◌≡◌, true};
ghost use Rattle.gfx_text_grammar.specs.Styles.{named};
ghost use Rattle.gfx_text.specs.Renumbered.{renumbered};
ghost use Rattle.gfx_script.specs.Resolved.{number_for};

use crate::names::Names;
use crate::words::{is_name, is_word};
use gfx_text::ReadId;

/// Stands for a name that a line may not use. No name has this number.
pub(crate) const UNKNOWN: u64 = u64::MAX;

/// The names that a line of a thread in a phase may use.
#[derive(Clone, Copy)]
pub(crate) struct Resolver<'n, 't> {
    pub names: &'n Names<'t>,
    pub phase: usize,
    pub thread: u32,
}

impl<'n, 't> ReadId for Resolver<'n, 't> {
    ghost style = { λ r. renumbered (number_for r.phase r.thread r.names.now) named };

    fn apart(&self) -> bool {
        true
    }

    fn id(&self, word: &[u8]) -> Option<u64> {
        if !is_name(word) {
            return None;
        }
        match self.names.number(word, self.phase, self.thread) {
            Some(number) => Some(number),
            None => Some(UNKNOWN),
        }
    }

    fn maybe(&self, word: &[u8]) -> Option<u64> {
        if is_word(word, b"0") {
            return Some(0);
        }
        self.id(word)
    }
}
