// Fields of a line: the ids that are written apart, and tokens `field=value`.
ghost use Rattle.std.specs.Prelude.{◌≡◌, ℕ, List, IfOk, ◌&&◌};
ghost use Rattle.gfx_script_model.specs.Statements.{is_empty};
ghost use Rattle.gfx_text_grammar.specs.Reading.{Style, read_id, read_ids};
ghost use Rattle.gfx_text_grammar.specs.FieldReading.{FieldReader, named_value, one_apart, each_apart, ◌⊛◌};
ghost use Rattle.gfx_text.specs.Gives.{Reads, GivesWhole};
ghost use Rattle.gfx_text.specs.Fields.{left_of, field_named, made_named};

use crate::fault::TextFault;
use crate::ids::ReadId;
use crate::values::{ReadValue, read_all};
use crate::words::{behind, without_front};
use gfx_types::Ids;
use std::alloc::{AllocError, Global};

/// What is not read yet of a line: the texts of ids that are written apart, and the fields.
#[derive(Clone, Copy)]
pub struct Left<'t> {
    pub made: &'t [&'t [u8]],
    pub fields: &'t [&'t [u8]],
}

/// A field of a line, or several in order.
pub(crate) trait ReadFields: Sized + Drop {
    /// The names of the fields.
    type Names: Copy;

    /// What contracts see of the values.
    ghost Seen: { Type 0 };

    ghost seen: { Self → Seen };

    /// How the grammar reads them.
    ghost reader: { Self.Names → Style → FieldReader Seen };

    /// The values of the first fields, and the others. None where they have another name or no such value.
    fn read<'t, I: ReadId>(
        alloc: Global,
        ids: &I,
        names: &Self::Names,
        left: Left<'t>,
    ) -> Result<Option<(Self, Left<'t>)>, AllocError>
        ensures { IfOk result (λ read. Reads read (λ x. (seen x.0, left_of x.1)) (reader names.now (I.style ids.now) (left_of left.entry))) };
}

/// The values of the fields, all of them. Bad where they have another name, no such value, or others follow.
#[tactic(auto, unfolding(gfx_text_grammar::specs::Rows::exactly))]
pub(crate) fn read_whole<T: ReadFields, I: ReadId>(
    alloc: Global,
    ids: &I,
    names: &T::Names,
    left: Left<'_>,
) -> Result<T, TextFault>
    ensures { GivesWhole result T.seen (T.reader names.now (I.style ids.now)) (left_of left.entry) }
{
    let Some((fields, rest)) = T::read(alloc, ids, names, left)? else {
        return Err(TextFault::Bad);
    };
    if is_nothing(rest) {
        Ok(fields)
    } else {
        Err(TextFault::Bad)
    }
}

fn is_nothing(left: Left<'_>) -> bool
    ensures { result ≡ (is_empty (left_of left.entry).0 && is_empty (left_of left.entry).1) }
{
    left.made.is_empty() && left.fields.is_empty()
}

/// The value of a token `field=value`.
fn read_token<T: ReadValue, I: ReadId>(
    alloc: Global,
    ids: &I,
    name: &str,
    token: &[u8],
) -> Result<Option<T>, AllocError>
    ensures { IfOk result (λ read. Reads read T.seen (named_value name.now (T.reader (I.style ids.now)) token.now)) }
{
    let Some(after) = without_front(name.as_bytes(), token) else {
        return Ok(None);
    };
    let Some(value) = behind(b'=', after) else {
        return Ok(None);
    };
    read_all(alloc, ids, value)
}

/// A field with this value, which the call does not make.
#[derive(Drop)]
pub(crate) struct Field<T>(pub(crate) T);

/// The id that the call makes.
#[derive(Drop)]
pub(crate) struct Made(pub(crate) u64);

/// The ids that the call makes.
#[derive(Drop)]
pub(crate) struct MadeEach(pub(crate) Ids);

impl<T: ReadValue> ReadFields for Field<T> {
    type Names = &'static str;

    ghost Seen = { T.Seen };

    ghost seen = { λ field. T.seen field.0 };

    ghost reader = { λ name style. field_named name.now (T.reader style) };

    fn read<'t, I: ReadId>(
        alloc: Global,
        ids: &I,
        names: &&'static str,
        left: Left<'t>,
    ) -> Result<Option<(Self, Left<'t>)>, AllocError> {
        let Some((token, fields)) = left.fields.split_first() else {
            return Ok(None);
        };
        let made = left.made;
        match read_token::<T, I>(alloc, ids, *names, *token)? {
            Some(value) => Ok(Some((Field(value), Left { made, fields }))),
            None => Ok(None),
        }
    }
}

impl ReadFields for Made {
    type Names = &'static str;

    ghost Seen = { ℕ };

    ghost seen = { λ made. made.0 };

    ghost reader = { λ name style. made_named style name.now (read_id style) (one_apart style) };

    fn read<'t, I: ReadId>(
        alloc: Global,
        ids: &I,
        names: &&'static str,
        left: Left<'t>,
    ) -> Result<Option<(Self, Left<'t>)>, AllocError> {
        if !ids.apart() {
            return match Field::<u64>::read(alloc, ids, names, left)? {
                Some((Field(id), rest)) => Ok(Some((Made(id), rest))),
                None => Ok(None),
            };
        }
        let Some((text, made)) = left.made.split_first() else {
            return Ok(None);
        };
        let fields = left.fields;
        match read_all::<u64, I>(alloc, ids, *text)? {
            Some(id) => Ok(Some((Made(id), Left { made, fields }))),
            None => Ok(None),
        }
    }
}

impl ReadFields for MadeEach {
    type Names = &'static str;

    ghost Seen = { List ℕ };

    ghost seen = { λ made. made.0 };

    ghost reader = { λ name style. made_named style name.now (read_ids style) (each_apart style) };

    fn read<'t, I: ReadId>(
        alloc: Global,
        ids: &I,
        names: &&'static str,
        left: Left<'t>,
    ) -> Result<Option<(Self, Left<'t>)>, AllocError> {
        if !ids.apart() {
            return match Field::<Ids>::read(alloc, ids, names, left)? {
                Some((Field(each), rest)) => Ok(Some((MadeEach(each), rest))),
                None => Ok(None),
            };
        }
        let Some((text, made)) = left.made.split_first() else {
            return Ok(None);
        };
        let fields = left.fields;
        match read_apart(alloc, ids, *text)? {
            Some(each) => Ok(Some((MadeEach(each), Left { made, fields }))),
            None => Ok(None),
        }
    }
}

/// The ids with a comma between each two, one at least: a list without its brackets.
fn read_apart<I: ReadId>(alloc: Global, ids: &I, text: &[u8]) -> Result<Option<Ids>, AllocError>
    ensures { IfOk result (λ read. Reads read (λ each. each) (each_apart (I.style ids.now) text.now)) }
{
    let mut list = Vec::new(alloc);
    list.push(b'[')?;
    list.extend_from_slice(text)?;
    list.push(b']')?;
    match read_all::<Ids, I>(alloc, ids, list.as_slice())? {
        Some(each) if !each.items().is_empty() => Ok(Some(each)),
        _ => Ok(None),
    }
}

impl<A: ReadFields, B: ReadFields> ReadFields for (A, B) {
    type Names = (A::Names, B::Names);

    ghost Seen = { A.Seen × B.Seen };

    ghost seen = { λ both. (A.seen both.0, B.seen both.1) };

    ghost reader = { λ names style. A.reader names.0 style ⊛ B.reader names.1 style };

    #[tactic(auto, unfolding(gfx_text_grammar::specs::FieldReading::read_both))]
    fn read<'t, I: ReadId>(
        alloc: Global,
        ids: &I,
        names: &(A::Names, B::Names),
        left: Left<'t>,
    ) -> Result<Option<(Self, Left<'t>)>, AllocError> {
        let Some((first, behind)) = A::read(alloc, ids, &names.0, left)? else {
            return Ok(None);
        };
        match B::read(alloc, ids, &names.1, behind)? {
            Some((second, rest)) => Ok(Some(((first, second), rest))),
            None => Ok(None),
        }
    }
}
