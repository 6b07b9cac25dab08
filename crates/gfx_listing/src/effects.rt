//! The line of an effect.
ghost use Rattle.std.specs.Prelude.{◌≡◌, ◌++◌, length, take, codes, decimal, OnOk, OnErr};
ghost use Rattle.gfx_model.specs.Events.{event_of, event_of_call, event_of_meta};
ghost use Rattle.gfx_feature_model.specs.Listing.{event_text};

use crate::names::{call_name, meta_name};
use gfx_text::Numbered;
use gfx_text_writer::{put_number, show_call, show_meta};
use gfx_types::{Call, Effect, Meta, WantMemory};
use std::alloc::AllocError;

/// Appends the line of an effect under this thread, without its line feed. When out of memory `out` is as it was.
pub(crate) fn put_effect(
    minor: u32,
    thread: u64,
    effect: &Effect<'_>,
    out: &mut Vec<u8>,
) -> Result<(), WantMemory>
    ensures ok { OnOk result (out.new.items ≡ out.old.items ++ event_text minor thread (event_of effect.now)) }
    ensures err { OnErr result (out.new.items ≡ out.old.items) }
{
    let front = out.len();
    match write_effect(minor, thread, effect, out) {
        Ok(()) => Ok(()),
        Err(AllocError) => {
            out.truncate(front);
            Err(WantMemory)
        }
    }
}

/// Appends the line of an effect. When out of memory a part of the line may follow the old text.
#[tactic(auto, unfolding(gfx_script_model::specs::EventNames::event_name, gfx_model::specs::Spelling::type_of))]
fn write_effect(
    minor: u32,
    thread: u64,
    effect: &Effect<'_>,
    out: &mut Vec<u8>,
) -> Result<(), AllocError>
    ensures ok { OnOk result (out.new.items ≡ out.old.items ++ event_text minor thread (event_of effect.now)) }
    ensures err { OnErr result (take (length out.old.items) out.new.items ≡ out.old.items) }
{
    match effect {
        Effect::Call(call) => write_call(minor, thread, call, out),
        Effect::Meta(meta) => write_meta(minor, thread, meta, out),
        Effect::Marker { begin: true, frame } => write_marker("begin", *frame, out),
        Effect::Marker {
            begin: false,
            frame,
        } => write_marker("end", *frame, out),
    }
}

/// Appends the line of a call.
fn write_call(minor: u32, thread: u64, call: &Call<'_>, out: &mut Vec<u8>) -> Result<(), AllocError>
    ensures ok { OnOk result (out.new.items ≡ out.old.items ++ event_text minor thread (event_of_call call.now)) }
    ensures err { OnErr result (take (length out.old.items) out.new.items ≡ out.old.items) }
{
    write_thread(thread, out)?;
    out.extend_from_slice(b" vk")?;
    out.extend_from_slice(call_name(call).as_bytes())?;
    match show_call(&Numbered, minor, call, out) {
        Ok(()) => Ok(()),
        Err(WantMemory) => Err(AllocError),
    }
}

/// Appends the line of a metadata.
fn write_meta(minor: u32, thread: u64, meta: &Meta<'_>, out: &mut Vec<u8>) -> Result<(), AllocError>
    ensures ok { OnOk result (out.new.items ≡ out.old.items ++ event_text minor thread (event_of_meta meta.now)) }
    ensures err { OnErr result (take (length out.old.items) out.new.items ≡ out.old.items) }
{
    write_thread(thread, out)?;
    out.push(b' ')?;
    out.extend_from_slice(meta_name(meta).as_bytes())?;
    match show_meta(&Numbered, meta, out) {
        Ok(()) => Ok(()),
        Err(WantMemory) => Err(AllocError),
    }
}

/// Appends the word of a thread.
fn write_thread(thread: u64, out: &mut Vec<u8>) -> Result<(), AllocError>
    ensures ok { OnOk result (out.new.items ≡ out.old.items ++ (codes "thread=" ++ decimal thread)) }
    ensures err { OnErr result (take (length out.old.items) out.new.items ≡ out.old.items) }
{
    out.extend_from_slice(b"thread=")?;
    put_number(thread, out)
}

/// Appends the line of a marker.
fn write_marker(name: &str, frame: u64, out: &mut Vec<u8>) -> Result<(), AllocError>
    ensures ok { OnOk result (out.new.items ≡ out.old.items ++ (name.now ++ codes " frame=" ++ decimal frame)) }
    ensures err { OnErr result (take (length out.old.items) out.new.items ≡ out.old.items) }
{
    out.extend_from_slice(name.as_bytes())?;
    out.extend_from_slice(b" frame=")?;
    put_number(frame, out)
}
