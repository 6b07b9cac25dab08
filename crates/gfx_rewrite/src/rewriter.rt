//! What is written of a header and of blocks.
//!
//! `Same` says that a block stays unchanged, so that a long block is not copied.
ghost use Rattle.std.specs.Prelude.{◌≡◌, ◌≤◌, ◌⊎◌, ◌+◌, ◌*◌, ◌++◌, take, IfOk, OnOk, OnErr};
ghost use Rattle.gfx_grammar.specs.Framing.{IsBlock};
ghost use Rattle.gfx_blocks.specs.Payloads.{content_of};
ghost use Rattle.gfx_decode.specs.Decoding.{item_of};
ghost use Rattle.gfx_decode.specs.Reading.{IsHeader};

use gfx_blocks::Header;
use gfx_decode::{MOST_HEADER, Raw};
use gfx_types::WantMemory;

/// Whether a block is written unchanged, or as it was appended.
#[derive(Clone, Copy, Debug, PartialEq, Eq)]
pub enum Written {
    Same,
    Anew,
}

/// What is written of a file's header and of its blocks.
pub trait Rewriter {
    ghost use Rattle.gfx_rewrite.specs.Texts.{Texts};
    ghost use Rattle.gfx_rewrite.specs.Puts.{PutsBlock};

    /// The texts of both.
    ghost texts: { Self → Texts };

    /// Appends the text of a header, whose bytes are at the start.
    fn put_header(
        &self,
        header: Header,
        bytes: &[u8; MOST_HEADER],
        out: &mut Vec<u8>,
    ) -> Result<(), WantMemory>
        requires header { IsHeader header (take (16 + 8 * header.options) bytes.now) }
        requires few { header.options ≤ 16 }
        ensures ok { OnOk result (out.new.items ≡ out.old.items ++ (texts self.now).of_header (take (16 + 8 * header.options) bytes.now)) }
        ensures err { OnErr result (out.new.items ≡ out.old.items) };

    /// Appends the text of a block of a file in this minor version, or finds that it is the block's own bytes.
    fn put_block(&self, minor: u32, raw: &Raw<'_>, out: &mut Vec<u8>) -> Result<Written, WantMemory>
        requires version { (minor ≡ 1) ⊎ (minor ≡ 2) }
        requires block { IsBlock minor raw.now.bytes.now (content_of raw.now.block) }
        ensures ok { IfOk result (PutsBlock ((texts self.now).of_block minor (item_of raw.now)) raw.now.bytes.now out.old.items out.new.items) }
        ensures err { OnErr result (out.new.items ≡ out.old.items) };
}
