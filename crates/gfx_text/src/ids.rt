// How ids are read and shown.
//
// How ids are written is a parameter of reading and showing, so each field, record and row is proved once for scripts
// and for listings.
ghost use Rattle.std.specs.Prelude.{◌≡◌, ℕ, Bool};
ghost use Rattle.gfx_text_grammar.specs.Reading.{Style};
ghost use Rattle.gfx_text_grammar.specs.Styles.{numbered};

use crate::words::number_of;

/// How ids are read.
pub trait ReadId {
    /// The style of their texts, in which each id is read as the number that the program has for it.
    ghost style: { Self → Style };

    /// Whether the ids that a call makes are written apart, left of its fields.
    fn apart(&self) -> bool
        ensures { result ≡ (style self.now).ids.apart };

    /// The id of a word.
    fn id(&self, word: &[u8]) -> Option<u64>
        ensures { result ≡ (style self.now).read word.now };

    /// The id of a word in a field that may name none.
    fn maybe(&self, word: &[u8]) -> Option<u64>
        ensures { result ≡ (style self.now).read_maybe word.now };
}

/// The ids of a listing: numbers in decimal, which are among the fields.
#[derive(Clone, Copy, Debug, PartialEq, Eq)]
pub struct Numbered;

impl ReadId for Numbered {
    ghost style = { λ _. numbered };

    fn apart(&self) -> bool {
        false
    }

    fn id(&self, word: &[u8]) -> Option<u64> {
        number_of(word)
    }

    fn maybe(&self, word: &[u8]) -> Option<u64> {
        number_of(word)
    }
}
