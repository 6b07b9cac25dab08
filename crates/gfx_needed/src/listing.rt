//! The ids that effects name or create.
ghost use Rattle.std.specs.Prelude.{◌≡◌, [], ◌++◌, ◌&&◌, nat_le, IsTrue, OnOk, IfOk};
ghost use Rattle.gfx_model.specs.Events.{event_of, event_of_call, event_of_meta};
ghost use Rattle.gfx_model.specs.Spelling.{id_of};
ghost use Rattle.gfx_needed.specs.Fields.{ids_in};

use crate::fields::{End, HasIds, Id};
use gfx_params::call_id;
use gfx_types::{Call, Effect, Meta, calls, metas};
use std::alloc::{AllocError, Global};

/// The fields with ids, by their marks, as pairs of a field and the fields behind it.
macro_rules! marked {
    ($field:ident: names $($behind:tt)*) => { (Id(*$field), behind!($($behind)*)) };
    ($field:ident: maybe $($behind:tt)*) => { (Id(*$field), behind!($($behind)*)) };
    ($field:ident: makes $($behind:tt)*) => { (Id(*$field), behind!($($behind)*)) };
    ($field:ident: names_each $($behind:tt)*) => { ($field, behind!($($behind)*)) };
    ($field:ident: makes_each $($behind:tt)*) => { ($field, behind!($($behind)*)) };
    ($field:ident: records $($behind:tt)*) => { ($field, behind!($($behind)*)) };
    ($field:ident: submitted $($behind:tt)*) => { ($field, behind!($($behind)*)) };
    ($field:ident: $mark:ident $($behind:tt)*) => { behind!($($behind)*) };
}

/// The fields behind a comma, or the end.
macro_rules! behind {
    () => { End };
    (, $($fields:tt)*) => { marked!($($fields)*) };
}

/// The section of this name, passed on.
macro_rules! section {
    (devices $to:tt; devices { $($rows:tt)* } $($others:tt)*) => { rows! { $to $($rows)* } };
    (memory $to:tt; memory { $($rows:tt)* } $($others:tt)*) => { rows! { $to $($rows)* } };
    (pools $to:tt; pools { $($rows:tt)* } $($others:tt)*) => { rows! { $to $($rows)* } };
    (commands $to:tt; commands { $($rows:tt)* } $($others:tt)*) => { rows! { $to $($rows)* } };
    (signals $to:tt; signals { $($rows:tt)* } $($others:tt)*) => { rows! { $to $($rows)* } };
    (swapchains $to:tt; swapchains { $($rows:tt)* } $($others:tt)*) => { rows! { $to $($rows)* } };
    (metas $to:tt; metas { $($rows:tt)* } $($others:tt)*) => { rows! { $to $($rows)* } };
    ($wanted:ident $to:tt; $section:ident { $($rows:tt)* } $($others:tt)*) => { section! { $wanted $to; $($others)* } };
}

/// Appends the ids of a value by the rows of a section.
macro_rules! rows {
    (($value:expr, $of:ident, $ids:expr, { $($other:tt)* }) $($row:literal $name:ident $method:ident($($field:ident: $mark:ident),+);)+) => {
        match $value {
            $($of::$name { $($field),+ } => marked!($($field: $mark),+).list($ids),)+
            $($other)*
        }
    };
}

/// The ids that an effect names or creates, field by field.
#[tactic(auto, unfolding(crate::specs::Fields::ids_in))]
pub(crate) fn ids_of(alloc: Global, effect: &Effect<'_>) -> Result<Vec<u64>, AllocError>
    ensures { IfOk result (λ ids. ids.items ≡ ids_in (event_of effect.now)) }
{
    let mut ids = Vec::new(alloc);
    match effect {
        Effect::Call(call) => list_call(call, &mut ids)?,
        Effect::Meta(meta) => list_meta(meta, &mut ids)?,
        Effect::Marker { .. } => {}
    }
    Ok(ids)
}

/// Appends the ids that a call names or creates, field by field.
pub(crate) fn list_call(call: &Call<'_>, ids: &mut Vec<u64>) -> Result<(), AllocError>
    ensures { OnOk result (ids.new.items ≡ ids.old.items ++ ids_in (event_of_call call.now)) }
{
    match call_id(call) {
        0..=7 => list_devices(call, ids),
        8..=17 => list_memory(call, ids),
        18..=25 => list_pools(call, ids),
        26..=33 => list_commands(call, ids),
        34..=40 => list_signals(call, ids),
        _ => list_swapchains(call, ids),
    }
}

#[tactic(auto, unfolding(crate::specs::Fields::ids_in, gfx_model::specs::Spelling::id_of))]
fn list_devices(call: &Call<'_>, ids: &mut Vec<u64>) -> Result<(), AllocError>
    requires { IsTrue (nat_le (id_of (event_of_call call.now)) 7) }
    ensures { OnOk result (ids.new.items ≡ ids.old.items ++ ids_in (event_of_call call.now)) }
{
    calls!(section, devices(call, Call, ids, { _ => unreachable!(), }))
}

#[tactic(auto, unfolding(crate::specs::Fields::ids_in, gfx_model::specs::Spelling::id_of))]
fn list_memory(call: &Call<'_>, ids: &mut Vec<u64>) -> Result<(), AllocError>
    requires { IsTrue (nat_le 8 (id_of (event_of_call call.now)) && nat_le (id_of (event_of_call call.now)) 17) }
    ensures { OnOk result (ids.new.items ≡ ids.old.items ++ ids_in (event_of_call call.now)) }
{
    calls!(section, memory(call, Call, ids, { _ => unreachable!(), }))
}

#[tactic(auto, unfolding(crate::specs::Fields::ids_in, gfx_model::specs::Spelling::id_of))]
fn list_pools(call: &Call<'_>, ids: &mut Vec<u64>) -> Result<(), AllocError>
    requires { IsTrue (nat_le 18 (id_of (event_of_call call.now)) && nat_le (id_of (event_of_call call.now)) 25) }
    ensures { OnOk result (ids.new.items ≡ ids.old.items ++ ids_in (event_of_call call.now)) }
{
    calls!(section, pools(call, Call, ids, { _ => unreachable!(), }))
}

#[tactic(auto, unfolding(crate::specs::Fields::ids_in, gfx_model::specs::Spelling::id_of))]
fn list_commands(call: &Call<'_>, ids: &mut Vec<u64>) -> Result<(), AllocError>
    requires { IsTrue (nat_le 26 (id_of (event_of_call call.now)) && nat_le (id_of (event_of_call call.now)) 33) }
    ensures { OnOk result (ids.new.items ≡ ids.old.items ++ ids_in (event_of_call call.now)) }
{
    calls!(section, commands(call, Call, ids, { _ => unreachable!(), }))
}

#[tactic(auto, unfolding(crate::specs::Fields::ids_in, gfx_model::specs::Spelling::id_of))]
fn list_signals(call: &Call<'_>, ids: &mut Vec<u64>) -> Result<(), AllocError>
    requires { IsTrue (nat_le 34 (id_of (event_of_call call.now)) && nat_le (id_of (event_of_call call.now)) 40) }
    ensures { OnOk result (ids.new.items ≡ ids.old.items ++ ids_in (event_of_call call.now)) }
{
    calls!(section, signals(call, Call, ids, { _ => unreachable!(), }))
}

#[tactic(auto, unfolding(crate::specs::Fields::ids_in, gfx_model::specs::Spelling::id_of))]
fn list_swapchains(call: &Call<'_>, ids: &mut Vec<u64>) -> Result<(), AllocError>
    requires { IsTrue (nat_le 41 (id_of (event_of_call call.now))) }
    ensures { OnOk result (ids.new.items ≡ ids.old.items ++ ids_in (event_of_call call.now)) }
{
    calls!(section, swapchains(call, Call, ids, {
        Call::QueuePresentKHR { queue, waits, presents } => {
            marked!(queue: names, waits: names_each, presents: records).list(ids)
        }
        _ => unreachable!(),
    }))
}

// Appends the ids that a metadata names.
#[tactic(auto, unfolding(crate::specs::Fields::ids_in))]
fn list_meta(meta: &Meta<'_>, ids: &mut Vec<u64>) -> Result<(), AllocError>
    ensures { OnOk result (ids.new.items ≡ ids.old.items ++ ids_in (event_of_meta meta.now)) }
{
    metas!(section, metas(meta, Meta, ids, {}))
}
