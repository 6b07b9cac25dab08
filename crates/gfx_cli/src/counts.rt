// What `info` counts.
ghost use Rattle.std.specs.Prelude.{◌≡◌, ◌<◌, ◌≤◌, ◌+◌, ◌^◌, ◌==◌, ℕ, IfOk, IfSome, Some, string_bytes};
ghost use Rattle.gfx_io.specs.Causes.{Rose};
ghost use Rattle.gfx_io.specs.Told.{IfTold};
ghost use Rattle.gfx_blocks.specs.Payloads.{content_of};
ghost use Rattle.gfx_model.specs.Events.{event_of, event_of_call};
ghost use Rattle.gfx_model.specs.Blocks.{effect as in_file};
ghost use Rattle.gfx_model.specs.Spelling.{id_of};
ghost use Rattle.gfx_model.specs.Text.{count_lines};
ghost use Rattle.gfx_cli.specs.Counts.{CountsAll, with_block};

use gfx_decode::{DecodeFault, Decoder, Raw};
use gfx_io::Source;
use gfx_types::{Block, Call, Effect};
use std::alloc::{AllocError, Global};

/// How many blocks, calls and frames a file has.
#[derive(Clone, Copy, Debug, PartialEq, Eq)]
pub struct Counts {
    pub minor: u32,
    pub blocks: u64,
    pub calls: u64,
    pub frames: u64,
}

/// Whether the call ends a frame.
fn ends_frame(call: &Call<'_>) -> bool
    ensures { result ≡ (id_of (event_of_call call.now) == 48) }
{
    match call {
        Call::QueuePresentKHR { .. } => true,
        _ => false,
    }
}

impl Counts {
    /// Counts one block more, and drops it.
    fn add(self, raw: Raw<'_>) -> Self
        requires { (self.blocks < 2 ^ 34) × (self.calls ≤ self.blocks) × (self.frames ≤ self.blocks) }
        ensures { result ≡ with_block self (content_of raw.entry.block) }
    {
        let Raw { block, .. } = raw;
        self.with(&block)
    }

    /// The counts with one block more.
    fn with(self, block: &Block<'_>) -> Self
        requires { (self.blocks < 2 ^ 34) × (self.calls ≤ self.blocks) × (self.frames ≤ self.blocks) }
        ensures { result ≡ with_block self (content_of block.now) }
    {
        match block {
            Block::Effect { effect, .. } => self.with_effect(effect),
            Block::Skip => Counts {
                blocks: self.blocks + 1,
                ..self
            },
        }
    }

    /// The counts with a block of this effect more.
    fn with_effect(self, effect: &Effect<'_>) -> Self
        requires { (self.blocks < 2 ^ 34) × (self.calls ≤ self.blocks) × (self.frames ≤ self.blocks) }
        ensures { (thread : ℕ) → result ≡ with_block self (in_file thread (event_of effect.now)) }
    {
        let blocks = self.blocks + 1;
        match effect {
            Effect::Call(call) => Counts {
                blocks,
                calls: self.calls + 1,
                frames: self.frames + u64::from(ends_frame(call)),
                ..self
            },
            Effect::Meta(_) => Counts { blocks, ..self },
            Effect::Marker { .. } => Counts { blocks, ..self },
        }
    }

    /// The lines that `info` prints.
    pub fn text(&self, alloc: Global) -> Result<String, AllocError>
        ensures { IfOk result (λ text. string_bytes text ≡ count_lines self.now.minor self.now.blocks self.now.calls self.now.frames) }
    {
        let Counts {
            minor,
            blocks,
            calls,
            frames,
        } = *self;
        format!(in alloc; "version 1000.{minor}\nblocks {blocks}\ncalls {calls}\nframes {frames}\n")
    }
}

/// Counts all blocks of a source.
pub fn count<S: Source>(alloc: Global, source: &mut S) -> Result<Counts, DecodeFault>
    ensures told { IfTold (S.left source.old) (S.left source.new) (CountsAll result) }
    ensures later { S.faults source.old ≤ S.faults source.new }
    ensures cause { result ≡ Err DecodeFault.ReadFault → Rose (S.faults source.old) (S.faults source.new) }
{
    let mut decoder = Decoder::new(alloc);
    let header = decoder.header(source)?;
    let mut counts = Counts {
        minor: header.minor,
        blocks: 0,
        calls: 0,
        frames: 0,
    };
    let mut buffer = Vec::new(alloc);
    while let Some(raw) = decoder.next(source, &mut buffer)? {
        counts = counts.add(raw);
    }
    Ok(counts)
}
