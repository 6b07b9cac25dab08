//! Calls with other ids, by the rows of the table of calls.
ghost use Rattle.std.specs.Prelude.{◌≡◌, ◌++◌, length, IfOk, OnOk, IsTrue};
ghost use Rattle.gfx_model.specs.Events.{event_of_call};
ghost use Rattle.gfx_model.specs.Spelling.{id_of};
ghost use Rattle.gfx_script_model.specs.Ids.{uses_of, defines_of};
ghost use Rattle.gfx_script.specs.Puts.{HasIds, is_between};

use crate::marks::{End, Makes, MakesEach, Names, NamesEach, PutIds, put_all};
use gfx_params::call_id;
use gfx_types::{Call, calls};
use std::alloc::{AllocError, Global};

/// Those fields that a call lends which have ids or records, by their marks, as pairs of a field and the fields behind it.
macro_rules! marked {
    () => { End };
    ($field:ident: names $(, $($behind:tt)*)?) => { (Names(*$field), marked!($($($behind)*)?)) };
    ($field:ident: maybe $(, $($behind:tt)*)?) => { (Names(*$field), marked!($($($behind)*)?)) };
    ($field:ident: makes $(, $($behind:tt)*)?) => { (Makes(*$field), marked!($($($behind)*)?)) };
    ($field:ident: names_each $(, $($behind:tt)*)?) => { (NamesEach($field), marked!($($($behind)*)?)) };
    ($field:ident: makes_each $(, $($behind:tt)*)?) => { (MakesEach($field), marked!($($($behind)*)?)) };
    ($field:ident: records $(, $($behind:tt)*)?) => { ($field, marked!($($($behind)*)?)) };
    ($field:ident: submitted $(, $($behind:tt)*)?) => { ($field, marked!($($($behind)*)?)) };
    ($field:ident: $mark:ident $(, $($behind:tt)*)?) => { marked!($($($behind)*)?) };
}

/// The fields of an owned call that have ids or records, as a pattern.
macro_rules! owned {
    () => { _ };
    ($field:ident: wide $(, $($behind:tt)*)?) => { owned!($($($behind)*)?) };
    ($field:ident: short $(, $($behind:tt)*)?) => { owned!($($($behind)*)?) };
    ($field:ident: raw $(, $($behind:tt)*)?) => { owned!($($($behind)*)?) };
    ($field:ident: $mark:ident $(, $($behind:tt)*)?) => { ($field, owned!($($($behind)*)?)) };
}

/// A field of the new call: a number or bytes are as they were.
macro_rules! value {
    ($field:ident wide) => { *$field };
    ($field:ident short) => { *$field };
    ($field:ident raw) => { *$field };
    ($field:ident $mark:ident) => { $field };
}

/// The section of this name, passed on.
macro_rules! section {
    (devices $rows:ident $to:tt; devices { $($row:tt)* } $($others:tt)*) => { $rows! { $to $($row)* } };
    (memory $rows:ident $to:tt; memory { $($row:tt)* } $($others:tt)*) => { $rows! { $to $($row)* } };
    (pools $rows:ident $to:tt; pools { $($row:tt)* } $($others:tt)*) => { $rows! { $to $($row)* } };
    (commands $rows:ident $to:tt; commands { $($row:tt)* } $($others:tt)*) => { $rows! { $to $($row)* } };
    (signals $rows:ident $to:tt; signals { $($row:tt)* } $($others:tt)*) => { $rows! { $to $($row)* } };
    (swapchains $rows:ident $to:tt; swapchains { $($row:tt)* } $($others:tt)*) => { $rows! { $to $($row)* } };
    ($wanted:ident $rows:ident $to:tt; $section:ident { $($row:tt)* } $($others:tt)*) => { section! { $wanted $rows $to; $($others)* } };
}

/// Calls with other ids, by their rows.
macro_rules! put {
    (($call:expr, $alloc:expr, $named:expr, $made:expr, { $($other:tt)* }) $($row:literal $name:ident $method:ident($($field:ident: $mark:ident),+);)+) => {
        match $call {
            $(Call::$name { $($field),+ } => match put_all($alloc, &marked!($($field: $mark),+), $named, $made) {
                Ok(owned!($($field: $mark),+)) => Ok(Call::$name { $($field: value!($field $mark)),+ }),
                Err(fault) => Err(fault),
            },)+
            $($other)*
        }
    };
}

/// Appends the ids that a call names, by its row.
macro_rules! collect {
    (($call:expr, $ids:expr, { $($other:tt)* }) $($row:literal $name:ident $method:ident($($field:ident: $mark:ident),+);)+) => {
        match $call {
            $(Call::$name { $($field),+ } => marked!($($field: $mark),+).collect($ids),)+
            $($other)*
        }
    };
}

/// Appends the ids that a call names, in order.
#[tactic(auto, using(crate::proofs::Numbers::call_number))]
pub(crate) fn collect_ids(call: &Call<'_>, ids: &mut Vec<u64>) -> Result<(), AllocError>
    ensures { OnOk result (ids.new.items ≡ ids.old.items ++ uses_of 2 (event_of_call call.now)) }
{
    match call_id(call) {
        1..=7 => collect_devices(call, ids),
        8..=17 => collect_memory(call, ids),
        18..=25 => collect_pools(call, ids),
        26..=33 => collect_commands(call, ids),
        34..=40 => collect_signals(call, ids),
        _ => collect_swapchains(call, ids),
    }
}

#[tactic(auto, unfolding(gfx_script_model::specs::Ids::uses_of, gfx_model::specs::Spelling::id_of))]
fn collect_devices(call: &Call<'_>, ids: &mut Vec<u64>) -> Result<(), AllocError>
    requires { IsTrue (is_between 1 7 (id_of (event_of_call call.now))) }
    ensures { OnOk result (ids.new.items ≡ ids.old.items ++ uses_of 2 (event_of_call call.now)) }
{
    calls!(section, devices collect(call, ids, { _ => unreachable!(), }))
}

#[tactic(auto, unfolding(gfx_script_model::specs::Ids::uses_of, gfx_model::specs::Spelling::id_of))]
fn collect_memory(call: &Call<'_>, ids: &mut Vec<u64>) -> Result<(), AllocError>
    requires { IsTrue (is_between 8 17 (id_of (event_of_call call.now))) }
    ensures { OnOk result (ids.new.items ≡ ids.old.items ++ uses_of 2 (event_of_call call.now)) }
{
    calls!(section, memory collect(call, ids, { _ => unreachable!(), }))
}

#[tactic(auto, unfolding(gfx_script_model::specs::Ids::uses_of, gfx_model::specs::Spelling::id_of))]
fn collect_pools(call: &Call<'_>, ids: &mut Vec<u64>) -> Result<(), AllocError>
    requires { IsTrue (is_between 18 25 (id_of (event_of_call call.now))) }
    ensures { OnOk result (ids.new.items ≡ ids.old.items ++ uses_of 2 (event_of_call call.now)) }
{
    calls!(section, pools collect(call, ids, { _ => unreachable!(), }))
}

#[tactic(auto, unfolding(gfx_script_model::specs::Ids::uses_of, gfx_model::specs::Spelling::id_of))]
fn collect_commands(call: &Call<'_>, ids: &mut Vec<u64>) -> Result<(), AllocError>
    requires { IsTrue (is_between 26 33 (id_of (event_of_call call.now))) }
    ensures { OnOk result (ids.new.items ≡ ids.old.items ++ uses_of 2 (event_of_call call.now)) }
{
    calls!(section, commands collect(call, ids, { _ => unreachable!(), }))
}

#[tactic(auto, unfolding(gfx_script_model::specs::Ids::uses_of, gfx_model::specs::Spelling::id_of))]
fn collect_signals(call: &Call<'_>, ids: &mut Vec<u64>) -> Result<(), AllocError>
    requires { IsTrue (is_between 34 40 (id_of (event_of_call call.now))) }
    ensures { OnOk result (ids.new.items ≡ ids.old.items ++ uses_of 2 (event_of_call call.now)) }
{
    calls!(section, signals collect(call, ids, { _ => unreachable!(), }))
}

#[tactic(auto, unfolding(gfx_script_model::specs::Ids::uses_of, gfx_model::specs::Spelling::id_of))]
fn collect_swapchains(call: &Call<'_>, ids: &mut Vec<u64>) -> Result<(), AllocError>
    requires { IsTrue (is_between 41 48 (id_of (event_of_call call.now))) }
    ensures { OnOk result (ids.new.items ≡ ids.old.items ++ uses_of 2 (event_of_call call.now)) }
{
    calls!(section, swapchains collect(call, ids, {
        Call::QueuePresentKHR { queue, waits, presents } => {
            marked!(queue: names, waits: names_each, presents: records).collect(ids)
        }
        _ => unreachable!(),
    }))
}

/// The call with these ids in place of those that it names and of those that it makes, in order.
#[tactic(auto, using(crate::proofs::Numbers::call_number))]
pub(crate) fn with_ids<'c>(
    alloc: Global,
    call: &Call<'c>,
    named: &[u64],
    made: &[u64],
) -> Result<Call<'c>, AllocError>
    requires named { length named.now ≡ length (uses_of 2 (event_of_call call.now)) }
    requires made { length made.now ≡ length (defines_of 2 (event_of_call call.now)) }
    ensures { IfOk result (λ out. HasIds (event_of_call call.now) named.now made.now (event_of_call out)) }
{
    match call_id(call) {
        1..=7 => put_devices(alloc, call, named, made),
        8..=17 => put_memory(alloc, call, named, made),
        18..=25 => put_pools(alloc, call, named, made),
        26..=33 => put_commands(alloc, call, named, made),
        34..=40 => put_signals(alloc, call, named, made),
        _ => put_swapchains(alloc, call, named, made),
    }
}

#[tactic(auto, unfolding(gfx_script_model::specs::Ids::uses_of, gfx_script_model::specs::Ids::defines_of, gfx_script_model::specs::Ids::map_ids, gfx_model::specs::Spelling::id_of))]
fn put_devices<'c>(
    alloc: Global,
    call: &Call<'c>,
    named: &[u64],
    made: &[u64],
) -> Result<Call<'c>, AllocError>
    requires section { IsTrue (is_between 1 7 (id_of (event_of_call call.now))) }
    requires named { length named.now ≡ length (uses_of 2 (event_of_call call.now)) }
    requires made { length made.now ≡ length (defines_of 2 (event_of_call call.now)) }
    ensures { IfOk result (λ out. HasIds (event_of_call call.now) named.now made.now (event_of_call out)) }
{
    calls!(section, devices put(call, alloc, named, made, { _ => unreachable!(), }))
}

#[tactic(auto, unfolding(gfx_script_model::specs::Ids::uses_of, gfx_script_model::specs::Ids::defines_of, gfx_script_model::specs::Ids::map_ids, gfx_model::specs::Spelling::id_of))]
fn put_memory<'c>(
    alloc: Global,
    call: &Call<'c>,
    named: &[u64],
    made: &[u64],
) -> Result<Call<'c>, AllocError>
    requires section { IsTrue (is_between 8 17 (id_of (event_of_call call.now))) }
    requires named { length named.now ≡ length (uses_of 2 (event_of_call call.now)) }
    requires made { length made.now ≡ length (defines_of 2 (event_of_call call.now)) }
    ensures { IfOk result (λ out. HasIds (event_of_call call.now) named.now made.now (event_of_call out)) }
{
    calls!(section, memory put(call, alloc, named, made, { _ => unreachable!(), }))
}

#[tactic(auto, unfolding(gfx_script_model::specs::Ids::uses_of, gfx_script_model::specs::Ids::defines_of, gfx_script_model::specs::Ids::map_ids, gfx_model::specs::Spelling::id_of))]
fn put_pools<'c>(
    alloc: Global,
    call: &Call<'c>,
    named: &[u64],
    made: &[u64],
) -> Result<Call<'c>, AllocError>
    requires section { IsTrue (is_between 18 25 (id_of (event_of_call call.now))) }
    requires named { length named.now ≡ length (uses_of 2 (event_of_call call.now)) }
    requires made { length made.now ≡ length (defines_of 2 (event_of_call call.now)) }
    ensures { IfOk result (λ out. HasIds (event_of_call call.now) named.now made.now (event_of_call out)) }
{
    calls!(section, pools put(call, alloc, named, made, { _ => unreachable!(), }))
}

#[tactic(auto, unfolding(gfx_script_model::specs::Ids::uses_of, gfx_script_model::specs::Ids::defines_of, gfx_script_model::specs::Ids::map_ids, gfx_model::specs::Spelling::id_of))]
fn put_commands<'c>(
    alloc: Global,
    call: &Call<'c>,
    named: &[u64],
    made: &[u64],
) -> Result<Call<'c>, AllocError>
    requires section { IsTrue (is_between 26 33 (id_of (event_of_call call.now))) }
    requires named { length named.now ≡ length (uses_of 2 (event_of_call call.now)) }
    requires made { length made.now ≡ length (defines_of 2 (event_of_call call.now)) }
    ensures { IfOk result (λ out. HasIds (event_of_call call.now) named.now made.now (event_of_call out)) }
{
    calls!(section, commands put(call, alloc, named, made, { _ => unreachable!(), }))
}

#[tactic(auto, unfolding(gfx_script_model::specs::Ids::uses_of, gfx_script_model::specs::Ids::defines_of, gfx_script_model::specs::Ids::map_ids, gfx_model::specs::Spelling::id_of))]
fn put_signals<'c>(
    alloc: Global,
    call: &Call<'c>,
    named: &[u64],
    made: &[u64],
) -> Result<Call<'c>, AllocError>
    requires section { IsTrue (is_between 34 40 (id_of (event_of_call call.now))) }
    requires named { length named.now ≡ length (uses_of 2 (event_of_call call.now)) }
    requires made { length made.now ≡ length (defines_of 2 (event_of_call call.now)) }
    ensures { IfOk result (λ out. HasIds (event_of_call call.now) named.now made.now (event_of_call out)) }
{
    calls!(section, signals put(call, alloc, named, made, { _ => unreachable!(), }))
}

#[tactic(auto, unfolding(gfx_script_model::specs::Ids::uses_of, gfx_script_model::specs::Ids::defines_of, gfx_script_model::specs::Ids::map_ids, gfx_model::specs::Spelling::id_of))]
fn put_swapchains<'c>(
    alloc: Global,
    call: &Call<'c>,
    named: &[u64],
    made: &[u64],
) -> Result<Call<'c>, AllocError>
    requires section { IsTrue (is_between 41 48 (id_of (event_of_call call.now))) }
    requires named { length named.now ≡ length (uses_of 2 (event_of_call call.now)) }
    requires made { length made.now ≡ length (defines_of 2 (event_of_call call.now)) }
    ensures { IfOk result (λ out. HasIds (event_of_call call.now) named.now made.now (event_of_call out)) }
{
    calls!(section, swapchains put(call, alloc, named, made, { 
        Call::QueuePresentKHR { queue, waits, presents } => {
            let fields = marked!(queue: names, waits: names_each, presents: records);
            match put_all(alloc, &fields, named, made) {
                Ok(owned!(queue: names, waits: names_each, presents: records)) => Ok(Call::QueuePresentKHR { queue, waits, presents }),
                Err(fault) => Err(fault),
            }
        }
        _ => unreachable!(),
     }))
}
