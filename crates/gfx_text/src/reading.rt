// The calls and metadata that lines spell.
ghost use Rattle.std.specs.Prelude.{◌≡◌, ◌≤◌, ◌∷◌, [], ℕ, IfOk};
ghost use Rattle.gfx_model.specs.Events.{event_of_call, event_of_meta};
ghost use Rattle.gfx_text_grammar.specs.FieldReading.{◌⊛◌};
ghost use Rattle.gfx_text_grammar.specs.Rows.{read_event, calls, metas, present_row, exactly, with_one, id_field, ids_field, short_field};
ghost use Rattle.gfx_text.specs.Gives.{Gives};
ghost use Rattle.gfx_text.specs.Fields.{left_of};
ghost use Rattle.gfx_text.specs.Places.{row_at};

use crate::fault::TextFault;
use crate::fields::{Field, Left, Made, MadeEach, read_whole};
use crate::ids::ReadId;
use crate::names::{call_row, meta_row};
use crate::values::{Bytes, Maybe, Wide};
use gfx_types::{Call, Ids, Meta, Numbers, Present, Presents, Submits, calls, in_order, metas};
use std::alloc::{AllocError, Global};

/// The section of this name, passed on.
macro_rules! section {
    (devices $to:tt; devices { $($rows:tt)* } $($others:tt)*) => { rows! { $to $($rows)* } };
    (memory $to:tt; memory { $($rows:tt)* } $($others:tt)*) => { rows! { $to $($rows)* } };
    (pools $to:tt; pools { $($rows:tt)* } $($others:tt)*) => { rows! { $to $($rows)* } };
    (commands $to:tt; commands { $($rows:tt)* } $($others:tt)*) => { rows! { $to $($rows)* } };
    (signals $to:tt; signals { $($rows:tt)* } $($others:tt)*) => { rows! { $to $($rows)* } };
    (swapchains $to:tt; swapchains { $($rows:tt)* } $($others:tt)*) => { rows! { $to $($rows)* } };
    (metas $to:tt; metas { $($rows:tt)* } $($others:tt)*) => { rows! { $to $($rows)* } };
    ($wanted:ident $to:tt; $section:ident { $($rows:tt)* } $($others:tt)*) => { section! { $wanted $to; $($others)* } };
}

/// What a line spells by the rows of a section.
macro_rules! rows {
    (($row:expr, $of:ident, $i:ident, $alloc:expr, $ids:expr, $left:expr, $room:ident) $($number:literal $name:ident $method:ident($($field:ident: $mark:ident),+);)+) => {
        match $row {
            $($number => match read_whole::<kinds!($($mark),+), $i>($alloc, $ids, &named!($($field),+), $left) {
                Ok(in_order!($($field),+)) => Ok($of::$name { $($field: value!($mark $room $field)),+ }),
                Err(fault) => Err(fault),
            },)+
            _ => unreachable!(),
        }
    };
}

/// The types of fields by their marks.
macro_rules! kinds {
    ($mark:ident) => { kind!($mark) };
    ($mark:ident, $($behind:ident),+) => { (kind!($mark), kinds!($($behind),+)) };
}

/// The type of a field by its mark.
macro_rules! kind {
    (names) => { Field<u64> };
    (makes) => { Made };
    (maybe) => { Field<Maybe> };
    (wide) => { Field<Wide> };
    (short) => { Field<u32> };
    (raw) => { Field<Bytes> };
    (names_each) => { Field<Ids> };
    (makes_each) => { MadeEach };
    (shorts) => { Field<Numbers> };
    (records) => { Field<_> };
    (submitted) => { Field<Submits> };
}

/// The names of fields.
macro_rules! named {
    ($field:ident) => { stringify!($field) };
    ($field:ident, $($behind:ident),+) => { (stringify!($field), named!($($behind),+)) };
}

/// The value of a field as it was read; bytes are kept by the caller.
macro_rules! value {
    (raw $room:ident $field:ident) => { keep($room, $field.0.0) };
    (wide $room:ident $field:ident) => { $field.0.0 };
    (maybe $room:ident $field:ident) => { $field.0.0 };
    ($mark:ident $room:ident $field:ident) => { $field.0 };
}

/// The bytes, where the caller keeps them.
fn keep(room: &mut Vec<u8>, bytes: Vec<u8>) -> &[u8]
    ensures { result.now ≡ bytes.items }
{
    *room = bytes;
    room.as_slice()
}

/// The call of this name whose fields these are. Bad exactly where they are the fields of none. The bytes of a call
/// are kept in `room`; after an error that is as it was.
#[tactic(auto, unfolding(gfx_text_grammar::specs::Rows::read_event))]
pub fn read_call<'a, I: ReadId>(
    alloc: Global,
    ids: &I,
    minor: u32,
    name: &[u8],
    left: Left<'_>,
    room: &'a mut Vec<u8>,
) -> Result<Call<'a>, TextFault>
    ensures { Gives result event_of_call (read_event (I.style ids.now) minor 4 name.now (left_of left.entry)) }
{
    let Some(row) = call_row(name) else {
        return Err(TextFault::Bad);
    };
    read_row(alloc, ids, minor, row, left, room)
}

/// The call of this row.
#[tactic(auto, unfolding(crate::specs::Places::row_at))]
fn read_row<'a, I: ReadId>(
    alloc: Global,
    ids: &I,
    minor: u32,
    row: usize,
    left: Left<'_>,
    room: &'a mut Vec<u8>,
) -> Result<Call<'a>, TextFault>
    requires { (1 ≤ row) × (row ≤ 48) }
    ensures { Gives result event_of_call (row_at 1 (calls (I.style ids.now) minor) row (left_of left.entry)) }
{
    match row {
        1..=7 => read_devices(alloc, ids, minor, row, left),
        8..=17 => read_memory(alloc, ids, minor, row, left),
        18..=25 => read_pools(alloc, ids, minor, row, left),
        26..=33 => read_command(alloc, ids, minor, row, left, room),
        34..=40 => read_signals(alloc, ids, minor, row, left),
        41..=47 => read_swapchains(alloc, ids, minor, row, left),
        48 => read_present(alloc, ids, minor, left),
        _ => unreachable!(),
    }
}

#[tactic(auto, unfolding(crate::specs::Places::row_at, gfx_text_grammar::specs::FieldReading::read_field, gfx_text_grammar::specs::FieldReading::read_made))]
fn read_devices<'a, I: ReadId>(
    alloc: Global,
    ids: &I,
    minor: u32,
    row: usize,
    left: Left<'_>,
) -> Result<Call<'a>, TextFault>
    requires { (1 ≤ row) × (row ≤ 7) }
    ensures { Gives result event_of_call (row_at 1 (calls (I.style ids.now) minor) row (left_of left.entry)) }
{
    calls!(section, devices(row, Call, I, alloc, ids, left, room))
}

#[tactic(auto, unfolding(crate::specs::Places::row_at, gfx_text_grammar::specs::FieldReading::read_field, gfx_text_grammar::specs::FieldReading::read_made))]
fn read_memory<'a, I: ReadId>(
    alloc: Global,
    ids: &I,
    minor: u32,
    row: usize,
    left: Left<'_>,
) -> Result<Call<'a>, TextFault>
    requires { (8 ≤ row) × (row ≤ 17) }
    ensures { Gives result event_of_call (row_at 1 (calls (I.style ids.now) minor) row (left_of left.entry)) }
{
    calls!(section, memory(row, Call, I, alloc, ids, left, room))
}

#[tactic(auto, unfolding(crate::specs::Places::row_at, gfx_text_grammar::specs::FieldReading::read_field, gfx_text_grammar::specs::FieldReading::read_made))]
fn read_pools<'a, I: ReadId>(
    alloc: Global,
    ids: &I,
    minor: u32,
    row: usize,
    left: Left<'_>,
) -> Result<Call<'a>, TextFault>
    requires { (18 ≤ row) × (row ≤ 25) }
    ensures { Gives result event_of_call (row_at 1 (calls (I.style ids.now) minor) row (left_of left.entry)) }
{
    calls!(section, pools(row, Call, I, alloc, ids, left, room))
}

#[tactic(auto, unfolding(crate::specs::Places::row_at, gfx_text_grammar::specs::FieldReading::read_field, gfx_text_grammar::specs::FieldReading::read_made))]
fn read_command<'a, I: ReadId>(
    alloc: Global,
    ids: &I,
    minor: u32,
    row: usize,
    left: Left<'_>,
    room: &'a mut Vec<u8>,
) -> Result<Call<'a>, TextFault>
    requires { (26 ≤ row) × (row ≤ 33) }
    ensures { Gives result event_of_call (row_at 1 (calls (I.style ids.now) minor) row (left_of left.entry)) }
{
    calls!(section, commands(row, Call, I, alloc, ids, left, room))
}

#[tactic(auto, unfolding(crate::specs::Places::row_at, gfx_text_grammar::specs::FieldReading::read_field, gfx_text_grammar::specs::FieldReading::read_made))]
fn read_signals<'a, I: ReadId>(
    alloc: Global,
    ids: &I,
    minor: u32,
    row: usize,
    left: Left<'_>,
) -> Result<Call<'a>, TextFault>
    requires { (34 ≤ row) × (row ≤ 40) }
    ensures { Gives result event_of_call (row_at 1 (calls (I.style ids.now) minor) row (left_of left.entry)) }
{
    calls!(section, signals(row, Call, I, alloc, ids, left, room))
}

#[tactic(auto, unfolding(crate::specs::Places::row_at, gfx_text_grammar::specs::FieldReading::read_field, gfx_text_grammar::specs::FieldReading::read_made))]
fn read_swapchains<'a, I: ReadId>(
    alloc: Global,
    ids: &I,
    minor: u32,
    row: usize,
    left: Left<'_>,
) -> Result<Call<'a>, TextFault>
    requires { (41 ≤ row) × (row ≤ 47) }
    ensures { Gives result event_of_call (row_at 1 (calls (I.style ids.now) minor) row (left_of left.entry)) }
{
    calls!(section, swapchains(row, Call, I, alloc, ids, left, room))
}

/// A present: version 1 has one swapchain and one index, version 2 a list of them.
#[tactic(auto, unfolding(gfx_text_grammar::specs::Rows::present_row, gfx_text_grammar::specs::FieldReading::read_field))]
fn read_present<'a, I: ReadId>(
    alloc: Global,
    ids: &I,
    minor: u32,
    left: Left<'_>,
) -> Result<Call<'a>, TextFault>
    ensures { Gives result event_of_call (present_row (I.style ids.now) minor (left_of left.entry)) }
{
    if minor == 1 {
        return read_present_of_one(alloc, ids, left);
    }
    match read_whole::<(Field<u64>, (Field<Ids>, Field<Presents>)), I>(
        alloc,
        ids,
        &named!(queue, waits, presents),
        left,
    ) {
        Ok((Field(queue), (Field(waits), Field(presents)))) => Ok(Call::QueuePresentKHR {
            queue,
            waits,
            presents,
        }),
        Err(fault) => Err(fault),
    }
}

/// A present of version 1.
#[tactic(auto, unfolding(gfx_text_grammar::specs::FieldReading::read_field))]
fn read_present_of_one<'a, I: ReadId>(
    alloc: Global,
    ids: &I,
    left: Left<'_>,
) -> Result<Call<'a>, TextFault>
    ensures { Gives result event_of_call (exactly with_one (id_field (I.style ids.now) "queue" ⊛ ids_field (I.style ids.now) "waits" ⊛ id_field (I.style ids.now) "swapchain" ⊛ short_field "index") (left_of left.entry)) }
{
    match read_whole::<(Field<u64>, (Field<Ids>, (Field<u64>, Field<u32>))), I>(
        alloc,
        ids,
        &named!(queue, waits, swapchain, index),
        left,
    ) {
        Ok((Field(queue), (Field(waits), (Field(swapchain), Field(index))))) => {
            let presents = one_present(alloc, swapchain, index)?;
            Ok(Call::QueuePresentKHR {
                queue,
                waits,
                presents,
            })
        }
        Err(fault) => Err(fault),
    }
}

/// The presents of one image.
fn one_present(alloc: Global, swapchain: u64, index: u32) -> Result<Presents, AllocError>
    ensures { IfOk result (λ presents. presents ≡ record { swapchain = swapchain; index = index } ∷ []) }
{
    let mut presents = Vec::new(alloc);
    presents.push(Present { swapchain, index })?;
    Ok(Presents::of(presents))
}

/// The metadata of this name whose fields these are. Bad exactly where they are the fields of none. Its bytes are kept
/// in `room`; after an error that is as it was.
#[tactic(auto, unfolding(gfx_text_grammar::specs::Rows::read_event))]
pub fn read_meta<'a, I: ReadId>(
    alloc: Global,
    ids: &I,
    name: &[u8],
    left: Left<'_>,
    room: &'a mut Vec<u8>,
) -> Result<Meta<'a>, TextFault>
    ensures { (m : ℕ) → Gives result event_of_meta (read_event (I.style ids.now) m 3 name.now (left_of left.entry)) }
{
    let Some(row) = meta_row(name) else {
        return Err(TextFault::Bad);
    };
    read_meta_row(alloc, ids, row, left, room)
}

#[tactic(auto, unfolding(crate::specs::Places::row_at, gfx_text_grammar::specs::FieldReading::read_field))]
fn read_meta_row<'a, I: ReadId>(
    alloc: Global,
    ids: &I,
    row: usize,
    left: Left<'_>,
    room: &'a mut Vec<u8>,
) -> Result<Meta<'a>, TextFault>
    requires { (2 ≤ row) × (row ≤ 5) }
    ensures { Gives result event_of_meta (row_at 2 (metas (I.style ids.now)) row (left_of left.entry)) }
{
    metas!(section, metas(row, Meta, I, alloc, ids, left, room))
}
