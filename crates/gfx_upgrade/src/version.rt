//! The header and the blocks of a file in version 2.
ghost use Rattle.std.specs.Prelude.{◌≡◌, ◌++◌, ◌⊎◌, IfOk, OnErr, true};
ghost use Rattle.gfx_model.specs.Events.{event_of, event_of_call};
ghost use Rattle.gfx_model.specs.Blocks.{effect as in_file};
ghost use Rattle.gfx_grammar.specs.Framing.{IsBlock};
ghost use Rattle.gfx_rewrite.specs.Puts.{PutsBlock};
ghost use Rattle.gfx_upgrade.specs.Upgraded.{in_version_two, upgraded_event, is_present};

use gfx_blocks::Header;
use gfx_decode::{MOST_HEADER, Raw};
use gfx_rewrite::{Rewriter, Written};
use gfx_types::{Block, Call, Effect, WantMemory};

const VERSION: u32 = 2;

/// A file in version 2, without options.
#[derive(Clone, Copy)]
pub(crate) struct VersionTwo;

impl Rewriter for VersionTwo {
    ghost texts = { λ _. in_version_two };

    fn put_header(
        &self,
        _: Header,
        _: &[u8; MOST_HEADER],
        out: &mut Vec<u8>,
    ) -> Result<(), WantMemory> {
        gfx_blocks::put_header(VERSION, out)
    }

    fn put_block(
        &self,
        minor: u32,
        raw: &Raw<'_>,
        out: &mut Vec<u8>,
    ) -> Result<Written, WantMemory> {
        match &raw.block {
            Block::Effect { thread, effect } => put_effect(minor, *thread, effect, raw.bytes, out),
            Block::Skip => Ok(Written::Same),
        }
    }
}

/// Appends the block of an effect where it is a present, and finds that another stands as it is.
fn put_effect(
    minor: u32,
    thread: u64,
    effect: &Effect<'_>,
    bytes: &[u8],
    out: &mut Vec<u8>,
) -> Result<Written, WantMemory>
    requires version { (minor ≡ 1) ⊎ (minor ≡ 2) }
    requires block { IsBlock minor bytes.now (in_file thread (event_of effect.now)) }
    ensures ok { IfOk result (PutsBlock (upgraded_event bytes.now thread (event_of effect.now)) bytes.now out.old.items out.new.items) }
    ensures err { OnErr result (out.new.items ≡ out.old.items) }
{
    if !is_present(effect) {
        return Ok(Written::Same);
    }
    put_anew(minor, thread, effect, bytes, out)
}

/// Appends the block of a present in version 2, of which these are the bytes in its file.
fn put_anew(
    _minor: u32,
    thread: u64,
    effect: &Effect<'_>,
    _bytes: &[u8],
    out: &mut Vec<u8>,
) -> Result<Written, WantMemory>
    requires version { (_minor ≡ 1) ⊎ (_minor ≡ 2) }
    requires block { IsBlock _minor _bytes.now (in_file thread (event_of effect.now)) }
    requires present { is_present (event_of effect.now) ≡ true }
    ensures ok { IfOk result (PutsBlock (upgraded_event _bytes.now thread (event_of effect.now)) _bytes.now out.old.items out.new.items) }
    ensures err { OnErr result (out.new.items ≡ out.old.items) }
{
    gfx_blocks::put_block(VERSION, thread, effect, out)?;
    Ok(Written::Anew)
}

/// Whether the effect is a present.
fn is_present(effect: &Effect<'_>) -> bool
    ensures { result ≡ is_present (event_of effect.now) }
{
    match effect {
        Effect::Call(call) => presents(call),
        Effect::Meta(_) => false,
        Effect::Marker { .. } => false,
    }
}

/// Whether the call is QueuePresentKHR.
fn presents(call: &Call<'_>) -> bool
    ensures { result ≡ is_present (event_of_call call.now) }
{
    match call {
        Call::QueuePresentKHR { .. } => true,
        _ => false,
    }
}
