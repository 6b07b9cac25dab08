// Values at the start of a text.
ghost use Rattle.std.specs.Prelude.{◌≡◌, ℕ, List, IfOk};
ghost use Rattle.gfx_grammar.specs.Reading.{Reader};
ghost use Rattle.gfx_text_grammar.specs.Reading.{Style, read_word, read_id, read_maybe, read_u32, read_u64, read_raw, read_between, ◌⊗◌};
ghost use Rattle.gfx_text_grammar.specs.FieldReading.{whole};
ghost use Rattle.gfx_text.specs.Gives.{Reads};

use crate::ids::ReadId;
use crate::words::{behind, bytes_of, cut_word, number_of, short_number_of};
use std::alloc::{AllocError, Global};

/// A value, as texts have it.
pub(crate) trait ReadValue: Sized + Drop {
    /// What contracts see of it.
    ghost Seen: { Type 0 };

    ghost seen: { Self → Seen };

    /// How the grammar reads it.
    ghost reader: { Style → Reader Seen };

    /// The value at the start of the text, and the text behind it. None where no value is there.
    fn read<'t, I: ReadId>(
        alloc: Global,
        ids: &I,
        text: &'t [u8],
    ) -> Result<Option<(Self, &'t [u8])>, AllocError>
        ensures { IfOk result (λ read. Reads read (λ x. (seen x.0, x.1.now)) (reader (I.style ids.now) text.now)) };
}

/// The value that the text is, all of it.
#[tactic(auto, unfolding(gfx_text_grammar::specs::FieldReading::whole))]
pub(crate) fn read_all<T: ReadValue, I: ReadId>(
    alloc: Global,
    ids: &I,
    text: &[u8],
) -> Result<Option<T>, AllocError>
    ensures { IfOk result (λ read. Reads read T.seen (whole (T.reader (I.style ids.now)) text.now)) }
{
    let Some((value, rest)) = T::read(alloc, ids, text)? else {
        return Ok(None);
    };
    if rest.is_empty() {
        Ok(Some(value))
    } else {
        Ok(None)
    }
}

/// The values of a record, between parentheses.
#[tactic(auto, unfolding(gfx_text_grammar::specs::Reading::read_between))]
pub(crate) fn read_record<'t, T: ReadValue, I: ReadId>(
    alloc: Global,
    ids: &I,
    text: &'t [u8],
) -> Result<Option<(T, &'t [u8])>, AllocError>
    ensures { IfOk result (λ read. Reads read (λ x. (T.seen x.0, x.1.now)) (read_between 40 41 (T.reader (I.style ids.now)) text.now)) }
{
    let Some(inside) = behind(b'(', text) else {
        return Ok(None);
    };
    let Some((value, after)) = T::read(alloc, ids, inside)? else {
        return Ok(None);
    };
    match behind(b')', after) {
        Some(rest) => Ok(Some((value, rest))),
        None => Ok(None),
    }
}

/// An id, or what stands for none.
#[derive(Clone, Copy)]
pub(crate) struct Maybe(pub(crate) u64);

/// A number of eight bytes that is no id.
#[derive(Clone, Copy)]
pub(crate) struct Wide(pub(crate) u64);

/// Bytes.
#[derive(Drop)]
pub(crate) struct Bytes(pub(crate) Vec<u8>);

// An id.
impl ReadValue for u64 {
    ghost Seen = { ℕ };

    ghost seen = { λ id. id };

    ghost reader = { read_id };

    #[tactic(auto, unfolding(gfx_text_grammar::specs::Reading::read_word))]
    fn read<'t, I: ReadId>(
        _: Global,
        ids: &I,
        text: &'t [u8],
    ) -> Result<Option<(Self, &'t [u8])>, AllocError> {
        let (word, rest) = cut_word(text);
        match ids.id(word) {
            Some(id) => Ok(Some((id, rest))),
            None => Ok(None),
        }
    }
}

impl ReadValue for Maybe {
    ghost Seen = { ℕ };

    ghost seen = { λ id. id.0 };

    ghost reader = { read_maybe };

    #[tactic(auto, unfolding(gfx_text_grammar::specs::Reading::read_word))]
    fn read<'t, I: ReadId>(
        _: Global,
        ids: &I,
        text: &'t [u8],
    ) -> Result<Option<(Self, &'t [u8])>, AllocError> {
        let (word, rest) = cut_word(text);
        match ids.maybe(word) {
            Some(id) => Ok(Some((Maybe(id), rest))),
            None => Ok(None),
        }
    }
}

impl ReadValue for Wide {
    ghost Seen = { ℕ };

    ghost seen = { λ n. n.0 };

    ghost reader = { λ _. read_u64 };

    #[tactic(auto, unfolding(gfx_text_grammar::specs::Reading::read_word))]
    fn read<'t, I: ReadId>(
        _: Global,
        _: &I,
        text: &'t [u8],
    ) -> Result<Option<(Self, &'t [u8])>, AllocError> {
        let (word, rest) = cut_word(text);
        match number_of(word) {
            Some(number) => Ok(Some((Wide(number), rest))),
            None => Ok(None),
        }
    }
}

impl ReadValue for u32 {
    ghost Seen = { ℕ };

    ghost seen = { λ n. n };

    ghost reader = { λ _. read_u32 };

    #[tactic(auto, unfolding(gfx_text_grammar::specs::Reading::read_word))]
    fn read<'t, I: ReadId>(
        _: Global,
        _: &I,
        text: &'t [u8],
    ) -> Result<Option<(Self, &'t [u8])>, AllocError> {
        let (word, rest) = cut_word(text);
        match short_number_of(word) {
            Some(number) => Ok(Some((number, rest))),
            None => Ok(None),
        }
    }
}

impl ReadValue for Bytes {
    ghost Seen = { List ℕ };

    ghost seen = { λ bytes. bytes.0.items };

    ghost reader = { λ _. read_raw };

    #[tactic(auto, unfolding(gfx_text_grammar::specs::Reading::read_word))]
    fn read<'t, I: ReadId>(
        alloc: Global,
        _: &I,
        text: &'t [u8],
    ) -> Result<Option<(Self, &'t [u8])>, AllocError> {
        let (word, rest) = cut_word(text);
        match bytes_of(alloc, word)? {
            Some(bytes) => Ok(Some((Bytes(bytes), rest))),
            None => Ok(None),
        }
    }
}

impl<A: ReadValue, B: ReadValue> ReadValue for (A, B) {
    ghost Seen = { A.Seen × B.Seen };

    ghost seen = { λ both. (A.seen both.0, B.seen both.1) };

    ghost reader = { λ style. A.reader style ⊗ B.reader style };

    #[tactic(auto, unfolding(gfx_text_grammar::specs::Reading::read_comma))]
    fn read<'t, I: ReadId>(
        alloc: Global,
        ids: &I,
        text: &'t [u8],
    ) -> Result<Option<(Self, &'t [u8])>, AllocError> {
        let Some((first, after)) = A::read(alloc, ids, text)? else {
            return Ok(None);
        };
        let Some(other) = behind(b',', after) else {
            return Ok(None);
        };
        match B::read(alloc, ids, other)? {
            Some((second, rest)) => Ok(Some(((first, second), rest))),
            None => Ok(None),
        }
    }
}
