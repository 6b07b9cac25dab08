// The fields that values are spelled by.
ghost use Rattle.std.specs.Prelude.{◌≡◌, ◌⊎◌, ◌<◌, ◌≤◌, ◌+◌, ◌^◌, ◌++◌, length, min, replicate, OnOk, OnErr};
ghost use Rattle.gfx_model.specs.Events.{event_of_call, event_of_meta};
ghost use Rattle.gfx_model.specs.Events.Event.{QueuePresentKHR};
ghost use Rattle.gfx_model.specs.Spelling.{HasSpelling, spelling};
ghost use Rattle.gfx_params.specs.Writes.{written};

use crate::write::WriteFields;
use gfx_types::{Call, Ids, Meta, Presents, WantMemory, calls, in_order, metas};

/// Puts the fields of a value by its row at a place.
macro_rules! written {
    ($value:expr, $of:ident, $out:expr, $at:expr, { $($other:tt)* }; $($section:ident { $($row:literal $name:ident $method:ident($($field:ident: $mark:ident),+);)+ })+) => {
        match $value {
            $($($of::$name { $($field),+ } => {
                in_order!($($field),+).write($out, $at);
            })+)+
            $($other)*
        }
    };
}

/// How many bytes the fields of a value take by its row.
macro_rules! measured {
    ($value:expr, $of:ident, { $($other:tt)* }; $($section:ident { $($row:literal $name:ident $method:ident($($field:ident: $mark:ident),+);)+ })+) => {
        match $value {
            $($($of::$name { $($field),+ } => in_order!($($field),+).length(),)+)+
            $($other)*
        }
    };
}

/// Appends the fields of a call in this minor version. When out of memory `out` is as it was.
pub fn encode(minor: u32, call: &Call<'_>, out: &mut Vec<u8>) -> Result<(), WantMemory>
    requires version { (minor ≡ 1) ⊎ (minor ≡ 2) }
    requires fits { HasSpelling minor (event_of_call call.now) }
    ensures ok { OnOk result (out.new.items ≡ out.old.items ++ spelling minor (event_of_call call.now)) }
    ensures err { OnErr result (out.new.items ≡ out.old.items) }
{
    let front = out.len();
    make_room(out, call_length(minor, call))?;
    write_call(minor, call, out, front);
    Ok(())
}

/// Appends the fields of a metadata, which are the same in both versions. When out of memory `out` is as it was.
pub fn encode_meta(meta: &Meta<'_>, out: &mut Vec<u8>) -> Result<(), WantMemory>
    requires { HasSpelling 1 (event_of_meta meta.now) }
    ensures ok { OnOk result (out.new.items ≡ out.old.items ++ spelling 1 (event_of_meta meta.now)) }
    ensures err { OnErr result (out.new.items ≡ out.old.items) }
{
    let front = out.len();
    make_room(out, meta_length(meta))?;
    write_meta(meta, out, front);
    Ok(())
}

/// How many bytes the fields of a call take in this minor version.
pub fn length(minor: u32, call: &Call<'_>) -> u64
    requires version { (minor ≡ 1) ⊎ (minor ≡ 2) }
    requires fits { HasSpelling minor (event_of_call call.now) }
    requires room { length (spelling minor (event_of_call call.now)) < 2 ^ 64 }
    ensures { result ≡ length (spelling minor (event_of_call call.now)) }
{
    call_length(minor, call)
}

/// Appends so many zeros. When out of memory `out` is as it was.
fn make_room(out: &mut Vec<u8>, size: u64) -> Result<(), WantMemory>
    ensures ok { OnOk result (out.new.items ≡ out.old.items ++ replicate size 0) }
    ensures few { OnOk result (size < 18446744073709551615) }
    ensures err { OnErr result (out.new.items ≡ out.old.items) }
{
    let end = out.len().saturating_add(size as usize);
    Ok(out.resize(end, 0)?)
}

/// How many bytes the fields of a call take in this minor version, or 2^64 - 1 where these are more.
#[tactic(auto, using(crate::proofs::Presented::one_spelled), unfolding(gfx_model::specs::Spelling::fields_of, gfx_model::specs::Spelling::spelling))]
fn call_length(minor: u32, call: &Call<'_>) -> u64
    requires version { (minor ≡ 1) ⊎ (minor ≡ 2) }
    requires fits { HasSpelling minor (event_of_call call.now) }
    ensures { result ≡ min (length (spelling minor (event_of_call call.now))) 18446744073709551615 }
{
    calls!(measured, call, Call, {
        Call::QueuePresentKHR { queue, waits, presents } => {
            if minor == 2 {
                return (queue, (waits, presents)).length();
            }
            match presents.items() {
                [present] => (queue, (waits, present)).length(),
                _ => unreachable!(),
            }
        }
    })
}

/// How many bytes the fields of a metadata take, or 2^64 - 1 where these are more.
#[tactic(auto, unfolding(gfx_model::specs::Spelling::fields_of, gfx_model::specs::Spelling::spelling))]
fn meta_length(meta: &Meta<'_>) -> u64
    ensures { result ≡ min (length (spelling 1 (event_of_meta meta.now))) 18446744073709551615 }
{
    metas!(measured, meta, Meta, {})
}

/// Puts the fields of a call at a place.
#[tactic(auto, unfolding(gfx_model::specs::Spelling::fields_of, gfx_model::specs::Spelling::spelling))]
fn write_call(minor: u32, call: &Call<'_>, out: &mut Vec<u8>, at: usize)
    requires version { (minor ≡ 1) ⊎ (minor ≡ 2) }
    requires fits { HasSpelling minor (event_of_call call.now) }
    requires room { at + length (spelling minor (event_of_call call.now)) ≤ length out.old.items }
    ensures { out.new.items ≡ written out.old.items at (spelling minor (event_of_call call.now)) }
{
    calls!(written, call, Call, out, at, {
        Call::QueuePresentKHR { queue, waits, presents } => {
            write_present(minor, *queue, waits, presents, out, at)
        }
    })
}

/// Puts the fields of a present at a place: version 1 has one swapchain and one index, version 2 a list of them.
#[tactic(auto, using(crate::proofs::Presented::one_spelled), unfolding(gfx_model::specs::Spelling::fields_of, gfx_model::specs::Spelling::spelling))]
fn write_present(
    minor: u32,
    queue: u64,
    waits: &Ids,
    presents: &Presents,
    out: &mut Vec<u8>,
    at: usize,
)
    requires version { (minor ≡ 1) ⊎ (minor ≡ 2) }
    requires fits { HasSpelling minor (QueuePresentKHR queue waits.now presents.now) }
    requires room { at + length (spelling minor (QueuePresentKHR queue waits.now presents.now)) ≤ length out.old.items }
    ensures { out.new.items ≡ written out.old.items at (spelling minor (QueuePresentKHR queue waits.now presents.now)) }
{
    if minor == 2 {
        (queue, (waits, presents)).write(out, at);
        return;
    }
    match presents.items() {
        [present] => {
            (queue, (waits, present)).write(out, at);
        }
        _ => unreachable!(),
    }
}

/// Puts the fields of a metadata at a place.
#[tactic(auto, unfolding(gfx_model::specs::Spelling::fields_of, gfx_model::specs::Spelling::spelling))]
fn write_meta(meta: &Meta<'_>, out: &mut Vec<u8>, at: usize)
    requires fits { HasSpelling 1 (event_of_meta meta.now) }
    requires room { at + length (spelling 1 (event_of_meta meta.now)) ≤ length out.old.items }
    ensures { out.new.items ≡ written out.old.items at (spelling 1 (event_of_meta meta.now)) }
{
    metas!(written, meta, Meta, out, at, {})
}
