// The text of calls and metadata.
ghost use Rattle.std.specs.Prelude.{◌≡◌, ◌++◌, ℕ, length, nat_le, take, ◌&&◌, IsTrue, OnOk, OnErr};
ghost use Rattle.gfx_model.specs.Events.{event_of_call, event_of_meta};
ghost use Rattle.gfx_model.specs.Events.Event.{QueuePresentKHR};
ghost use Rattle.gfx_model.specs.Fields.{named_fields};
ghost use Rattle.gfx_model.specs.Spelling.{id_of};
ghost use Rattle.gfx_text_grammar.specs.FieldReading.{with_fields, nothing};
ghost use Rattle.gfx_text_writer.specs.Shown.{behind_spaces, tokens_text};

use crate::show_fields::{New, ShowFields};
use crate::show_items::{Maybe, Wide};
use crate::shown::ShowId;
use gfx_params::call_id;
use gfx_types::{Call, Ids, Meta, Presents, WantMemory, calls, metas};
use std::alloc::AllocError;

/// The section of this name, passed on.
macro_rules! section {
    (devices $to:tt; devices { $($rows:tt)* } $($others:tt)*) => { rows! { $to $($rows)* } };
    (memory $to:tt; memory { $($rows:tt)* } $($others:tt)*) => { rows! { $to $($rows)* } };
    (pools $to:tt; pools { $($rows:tt)* } $($others:tt)*) => { rows! { $to $($rows)* } };
    (commands $to:tt; commands { $($rows:tt)* } $($others:tt)*) => { rows! { $to $($rows)* } };
    (signals $to:tt; signals { $($rows:tt)* } $($others:tt)*) => { rows! { $to $($rows)* } };
    (swapchains $to:tt; swapchains { $($rows:tt)* } $($others:tt)*) => { rows! { $to $($rows)* } };
    (metas $to:tt; metas { $($rows:tt)* } $($others:tt)*) => { rows! { $to $($rows)* } };
    ($wanted:ident $to:tt; $section:ident { $($rows:tt)* } $($others:tt)*) => { section! { $wanted $to; $($others)* } };
}

/// Appends the fields of a value by the rows of a section.
macro_rules! rows {
    (($value:expr, $of:ident, $ids:expr, $out:expr, { $($other:tt)* }) $($row:literal $name:ident $method:ident($($field:ident: $mark:ident),+);)+) => {
        match $value {
            $($of::$name { $($field),+ } => fields!($($mark $field),+).show(&named!($($field),+), $ids, $out),)+
            $($other)*
        }
    };
}

/// The names of fields.
macro_rules! named {
    ($field:ident) => { stringify!($field) };
    ($field:ident, $($behind:ident),+) => { (stringify!($field), named!($($behind),+)) };
}

/// The fields that a call lends, by their marks.
macro_rules! fields {
    ($mark:ident $field:ident) => { lent!($mark $field) };
    ($mark:ident $field:ident, $($behind:tt)+) => { (lent!($mark $field), fields!($($behind)+)) };
}

/// A field by its mark.
macro_rules! lent {
    (makes $field:ident) => { New($field) };
    (makes_each $field:ident) => { New($field) };
    (maybe $field:ident) => { &Maybe(*$field) };
    (wide $field:ident) => { &Wide(*$field) };
    ($mark:ident $field:ident) => { $field };
}

/// Appends the fields of a call in this minor version, ` field=value` for each but for those that are written apart. After
/// a lack of memory `out` is as it was.
#[tactic(auto, using(crate::proofs::Grown::tokens_left))]
pub fn show_call<W: ShowId>(
    ids: &W,
    minor: u32,
    call: &Call<'_>,
    out: &mut Vec<u8>,
) -> Result<(), WantMemory>
    ensures ok { OnOk result (out.new.items ≡ out.old.items ++ behind_spaces (with_fields (W.style ids.now) (named_fields minor (event_of_call call.now)) nothing).1) }
    ensures err { OnErr result (out.new.items ≡ out.old.items) }
{
    let front = out.len();
    match put_call(ids, minor, call, out) {
        Ok(()) => Ok(()),
        Err(AllocError) => {
            out.truncate(front);
            Err(WantMemory)
        }
    }
}

/// Appends the fields of a metadata, which are alike in both versions.
#[tactic(auto, using(crate::proofs::Grown::meta_left))]
pub fn show_meta<W: ShowId>(ids: &W, meta: &Meta<'_>, out: &mut Vec<u8>) -> Result<(), WantMemory>
    ensures ok { OnOk result ((m : ℕ) → out.new.items ≡ out.old.items ++ behind_spaces (with_fields (W.style ids.now) (named_fields m (event_of_meta meta.now)) nothing).1) }
    ensures err { OnErr result (out.new.items ≡ out.old.items) }
{
    let front = out.len();
    match put_meta(ids, meta, out) {
        Ok(()) => Ok(()),
        Err(AllocError) => {
            out.truncate(front);
            Err(WantMemory)
        }
    }
}

/// Appends the fields of a call. When out of memory some of them may follow the old text.
fn put_call<W: ShowId>(
    ids: &W,
    minor: u32,
    call: &Call<'_>,
    out: &mut Vec<u8>,
) -> Result<(), AllocError>
    ensures ok { OnOk result (out.new.items ≡ out.old.items ++ tokens_text (W.style ids.now) (named_fields minor (event_of_call call.now))) }
    ensures err { OnErr result (take (length out.old.items) out.new.items ≡ out.old.items) }
{
    match call_id(call) {
        0..=7 => put_devices(ids, minor, call, out),
        8..=17 => put_memory(ids, minor, call, out),
        18..=25 => put_pools(ids, minor, call, out),
        26..=33 => put_commands(ids, minor, call, out),
        34..=40 => put_signals(ids, minor, call, out),
        _ => put_swapchains(ids, minor, call, out),
    }
}

#[tactic(auto, unfolding(gfx_model::specs::Spelling::id_of))]
fn put_devices<W: ShowId>(
    ids: &W,
    minor: u32,
    call: &Call<'_>,
    out: &mut Vec<u8>,
) -> Result<(), AllocError>
    requires { IsTrue (nat_le (id_of (event_of_call call.now)) 7) }
    ensures ok { OnOk result (out.new.items ≡ out.old.items ++ tokens_text (W.style ids.now) (named_fields minor (event_of_call call.now))) }
    ensures err { OnErr result (take (length out.old.items) out.new.items ≡ out.old.items) }
{
    calls!(section, devices(call, Call, ids, out, { _ => unreachable!(), }))
}

#[tactic(auto, unfolding(gfx_model::specs::Spelling::id_of))]
fn put_memory<W: ShowId>(
    ids: &W,
    minor: u32,
    call: &Call<'_>,
    out: &mut Vec<u8>,
) -> Result<(), AllocError>
    requires { IsTrue (nat_le 8 (id_of (event_of_call call.now)) && nat_le (id_of (event_of_call call.now)) 17) }
    ensures ok { OnOk result (out.new.items ≡ out.old.items ++ tokens_text (W.style ids.now) (named_fields minor (event_of_call call.now))) }
    ensures err { OnErr result (take (length out.old.items) out.new.items ≡ out.old.items) }
{
    calls!(section, memory(call, Call, ids, out, { _ => unreachable!(), }))
}

#[tactic(auto, unfolding(gfx_model::specs::Spelling::id_of))]
fn put_pools<W: ShowId>(
    ids: &W,
    minor: u32,
    call: &Call<'_>,
    out: &mut Vec<u8>,
) -> Result<(), AllocError>
    requires { IsTrue (nat_le 18 (id_of (event_of_call call.now)) && nat_le (id_of (event_of_call call.now)) 25) }
    ensures ok { OnOk result (out.new.items ≡ out.old.items ++ tokens_text (W.style ids.now) (named_fields minor (event_of_call call.now))) }
    ensures err { OnErr result (take (length out.old.items) out.new.items ≡ out.old.items) }
{
    calls!(section, pools(call, Call, ids, out, { _ => unreachable!(), }))
}

#[tactic(auto, unfolding(gfx_model::specs::Spelling::id_of))]
fn put_commands<W: ShowId>(
    ids: &W,
    minor: u32,
    call: &Call<'_>,
    out: &mut Vec<u8>,
) -> Result<(), AllocError>
    requires { IsTrue (nat_le 26 (id_of (event_of_call call.now)) && nat_le (id_of (event_of_call call.now)) 33) }
    ensures ok { OnOk result (out.new.items ≡ out.old.items ++ tokens_text (W.style ids.now) (named_fields minor (event_of_call call.now))) }
    ensures err { OnErr result (take (length out.old.items) out.new.items ≡ out.old.items) }
{
    calls!(section, commands(call, Call, ids, out, { _ => unreachable!(), }))
}

#[tactic(auto, unfolding(gfx_model::specs::Spelling::id_of))]
fn put_signals<W: ShowId>(
    ids: &W,
    minor: u32,
    call: &Call<'_>,
    out: &mut Vec<u8>,
) -> Result<(), AllocError>
    requires { IsTrue (nat_le 34 (id_of (event_of_call call.now)) && nat_le (id_of (event_of_call call.now)) 40) }
    ensures ok { OnOk result (out.new.items ≡ out.old.items ++ tokens_text (W.style ids.now) (named_fields minor (event_of_call call.now))) }
    ensures err { OnErr result (take (length out.old.items) out.new.items ≡ out.old.items) }
{
    calls!(section, signals(call, Call, ids, out, { _ => unreachable!(), }))
}

#[tactic(auto, unfolding(gfx_model::specs::Spelling::id_of))]
fn put_swapchains<W: ShowId>(
    ids: &W,
    minor: u32,
    call: &Call<'_>,
    out: &mut Vec<u8>,
) -> Result<(), AllocError>
    requires { IsTrue (nat_le 41 (id_of (event_of_call call.now))) }
    ensures ok { OnOk result (out.new.items ≡ out.old.items ++ tokens_text (W.style ids.now) (named_fields minor (event_of_call call.now))) }
    ensures err { OnErr result (take (length out.old.items) out.new.items ≡ out.old.items) }
{
    calls!(section, swapchains(call, Call, ids, out, {
        Call::QueuePresentKHR { queue, waits, presents } => put_present(ids, minor, queue, waits, presents, out),
        _ => unreachable!(),
    }))
}

/// Appends the fields of a present: version 1 has one swapchain and one index, version 2 a list of them.
fn put_present<W: ShowId>(
    ids: &W,
    minor: u32,
    queue: &u64,
    waits: &Ids,
    presents: &Presents,
    out: &mut Vec<u8>,
) -> Result<(), AllocError>
    ensures ok { OnOk result (out.new.items ≡ out.old.items ++ tokens_text (W.style ids.now) (named_fields minor (QueuePresentKHR queue.now waits.now presents.now))) }
    ensures err { OnErr result (take (length out.old.items) out.new.items ≡ out.old.items) }
{
    if minor != 1 {
        return (queue, (waits, presents)).show(&named!(queue, waits, presents), ids, out);
    }
    match presents.items() {
        [present] => {
            let (swapchain, index) = (&present.swapchain, &present.index);
            (queue, (waits, (swapchain, index))).show(
                &named!(queue, waits, swapchain, index),
                ids,
                out,
            )
        }
        _ => (queue, waits).show(&named!(queue, waits), ids, out),
    }
}

/// Appends the fields of a metadata. When out of memory some of them may follow the old text.
fn put_meta<W: ShowId>(ids: &W, meta: &Meta<'_>, out: &mut Vec<u8>) -> Result<(), AllocError>
    ensures ok { OnOk result (out.new.items ≡ out.old.items ++ tokens_text (W.style ids.now) (named_fields 1 (event_of_meta meta.now))) }
    ensures err { OnErr result (take (length out.old.items) out.new.items ≡ out.old.items) }
{
    metas!(section, metas(meta, Meta, ids, out, {}))
}
