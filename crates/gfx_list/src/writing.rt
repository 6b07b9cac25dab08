//! The lines of a listing, whole.
ghost use Rattle.std.specs.Prelude.{◌≡◌, ◌≤◌, ◌++◌, ◌∷◌, [], length, take, OnOk, OnErr};
ghost use Rattle.gfx_model.specs.Text.{line};
ghost use Rattle.gfx_grammar.specs.Framing.{IsBlock};
ghost use Rattle.gfx_blocks.specs.Payloads.{content_of};
ghost use Rattle.gfx_feature_model.specs.Listing.{block_text};
ghost use Rattle.gfx_list.specs.Lists.{in_listing};

use gfx_blocks::Header;
use gfx_decode::{MOST_HEADER, Raw};
use gfx_listing::{put_head, put_line};
use gfx_rewrite::{Rewriter, Written};
use gfx_types::WantMemory;

/// The listing of a file.
#[derive(Clone, Copy)]
pub(crate) struct Listing;

impl Rewriter for Listing {
    ghost texts = { λ _. in_listing };

    fn put_header(
        &self,
        header: Header,
        bytes: &[u8; MOST_HEADER],
        out: &mut Vec<u8>,
    ) -> Result<(), WantMemory> {
        let front = out.len();
        put_head(&bytes[..16 + 8 * header.options as usize], out)?;
        end_line(front, out)
    }

    fn put_block(
        &self,
        minor: u32,
        raw: &Raw<'_>,
        out: &mut Vec<u8>,
    ) -> Result<Written, WantMemory> {
        put_block_line(minor, raw, out)?;
        Ok(Written::Anew)
    }
}

/// Appends the line of a block. When out of memory the text is as it was.
fn put_block_line(minor: u32, raw: &Raw<'_>, text: &mut Vec<u8>) -> Result<(), WantMemory>
    requires { IsBlock minor raw.now.bytes.now (content_of raw.now.block) }
    ensures ok { OnOk result (text.new.items ≡ text.old.items ++ line (block_text minor raw.now.bytes.now (content_of raw.now.block))) }
    ensures err { OnErr result (text.new.items ≡ text.old.items) }
{
    let front = text.len();
    put_line(minor, raw, text)?;
    end_line(front, text)
}

/// Ends a line that begins at a place. When out of memory it is dropped.
fn end_line(front: usize, text: &mut Vec<u8>) -> Result<(), WantMemory>
    requires { front ≤ length text.old.items }
    ensures ok { OnOk result (text.new.items ≡ text.old.items ++ 10 ∷ []) }
    ensures err { OnErr result (text.new.items ≡ take front text.old.items) }
{
    match text.extend_from_slice(b"\n") {
        Ok(()) => Ok(()),
        Err(_) => {
            text.truncate(front);
            Err(WantMemory)
        }
    }
}
