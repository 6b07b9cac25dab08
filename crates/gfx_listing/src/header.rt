//! The line of a header, written and read.
ghost use Rattle.std.specs.Prelude.{◌≡◌, ◌⊎◌, ◌+◌, ◌++◌, ◌∷◌, ◌≤◌, ℕ, List, length, take, map, flat_map, OnOk, OnErr, IfOk, IfErr};
ghost use Rattle.gfx_model.specs.Blocks.{option_count, minor_of};
ghost use Rattle.gfx_grammar.specs.Framing.{IsHeader};
ghost use Rattle.gfx_feature_model.specs.Listing.{header_text, option_texts};
ghost use Rattle.gfx_text_grammar.specs.FieldReading.{whole};
ghost use Rattle.gfx_text_grammar.specs.Splits.{each_read};
ghost use Rattle.gfx_text_grammar.specs.Listings.{read_header, read_pair, option_bytes, header_of_tokens};
ghost use Rattle.gfx_text_writer.specs.Shown.{behind_spaces};
ghost use Rattle.gfx_listing.specs.Answers.{AppendsRead, AppendsHeader};
ghost use Rattle.gfx_listing.specs.Lines.{header_by, option_text, start_of};

use crate::fault::LineFault;
use crate::number::u32_at;
use crate::tokens::tokens;
use crate::words::{cut, is_word, short_behind, short_number_of};
use gfx_blocks::{put_header, read_header};
use gfx_io::{put_u32, set_u32};
use gfx_text_writer::put_number;
use gfx_types::WantMemory;
use std::alloc::AllocError;

const MINOR: usize = 8;

const OPTION_COUNT: usize = 12;

/// The bytes of the count of options, which ends the first part of a header.
const COUNT_LENGTH: usize = 4;

const OPTIONS: usize = 16;

const OPTION_LENGTH: usize = 8;

/// Appends the line of a header, without its line feed. When out of memory `out` is as it was.
pub fn put_head(header: &[u8], out: &mut Vec<u8>) -> Result<(), WantMemory>
    requires { IsHeader header.now }
    ensures ok { OnOk result (out.new.items ≡ out.old.items ++ header_text header.now) }
    ensures err { OnErr result (out.new.items ≡ out.old.items) }
{
    let front = out.len();
    match write_head(header, out) {
        Ok(()) => Ok(()),
        Err(AllocError) => {
            out.truncate(front);
            Err(WantMemory)
        }
    }
}

/// Appends the line of a header. When out of memory some of it may follow the old text.
fn write_head(header: &[u8], out: &mut Vec<u8>) -> Result<(), AllocError>
    requires { IsHeader header.now }
    ensures ok { OnOk result (out.new.items ≡ out.old.items ++ header_text header.now) }
    ensures err { OnErr result (take (length out.old.items) out.new.items ≡ out.old.items) }
{
    out.extend_from_slice(b"gfxr 1000.")?;
    put_number(u64::from(u32_at(header, MINOR)), out)?;
    write_options(header, out)
}

/// Appends the options of a header, each behind a space.
fn write_options(header: &[u8], out: &mut Vec<u8>) -> Result<(), AllocError>
    requires { IsHeader header.now }
    ensures ok { OnOk result (out.new.items ≡ out.old.items ++ behind_spaces (option_texts header.now 16 (option_count header.now))) }
    ensures err { OnErr result (take (length out.old.items) out.new.items ≡ out.old.items) }
{
    let count = u32_at(header, OPTION_COUNT) as usize;
    'options: for index in 0..count {
        write_option(header, OPTIONS + OPTION_LENGTH * index, out)?;
    }
    Ok(())
}

/// Appends the option at a place, behind a space.
fn write_option(header: &[u8], at: usize, out: &mut Vec<u8>) -> Result<(), AllocError>
    requires { at + 8 ≤ length header.now }
    ensures ok { OnOk result (out.new.items ≡ out.old.items ++ (32 ∷ option_text header.now at)) }
    ensures err { OnErr result (take (length out.old.items) out.new.items ≡ out.old.items) }
{
    out.push(b' ')?;
    put_number(u64::from(u32_at(header, at)), out)?;
    out.push(b'=')?;
    put_number(u64::from(u32_at(header, at + 4)), out)
}

/// Appends the header that has this line, without its line feed, and tells its minor version. BadLine where none has it.
/// After a fault `out` is as it was.
pub fn read_head(line: &[u8], out: &mut Vec<u8>) -> Result<u32, LineFault>
    ensures ok { IfOk result (λ minor. (bytes : List ℕ) × (read_header line.now ≡ Some bytes) × (out.new.items ≡ out.old.items ++ bytes) × (minor ≡ minor_of bytes)) }
    ensures version { IfOk result (λ minor. (minor ≡ 1) ⊎ (minor ≡ 2)) }
    ensures bad { IfErr result (λ fault. fault ≡ LineFault.BadLine → read_header line.now ≡ None) }
    ensures err { OnErr result (out.new.items ≡ out.old.items) }
{
    let start = out.len();
    match append_header(line, out) {
        Ok(minor) => Ok(minor),
        Err(fault) => {
            out.truncate(start);
            Err(fault)
        }
    }
}

/// Appends the header that has this line. After a fault some of it may follow the old bytes.
fn append_header(line: &[u8], out: &mut Vec<u8>) -> Result<u32, LineFault>
    ensures { AppendsHeader result (read_header line.now) out.old.items out.new.items }
{
    let Some(tokens) = tokens(*out.allocator(), line)? else {
        return Err(LineFault::BadLine);
    };
    header_of_tokens(&tokens, out)
}

/// Appends the header of a line with these tokens.
fn header_of_tokens(tokens: &[&[u8]], out: &mut Vec<u8>) -> Result<u32, LineFault>
    requires { length tokens.now ≤ 18 }
    ensures { AppendsHeader result (header_of_tokens (map (λ t. t.now) tokens.now)) out.old.items out.new.items }
{
    let [name, version, options @ ..] = tokens else {
        return Err(LineFault::BadLine);
    };
    if !is_word(name, b"gfxr") {
        return Err(LineFault::BadLine);
    }
    let Some(minor) = short_behind(b"1000.", version) else {
        return Err(LineFault::BadLine);
    };
    header_of(minor, options, out)
}

/// Appends the header of this minor version with these options.
fn header_of(minor: u32, options: &[&[u8]], out: &mut Vec<u8>) -> Result<u32, LineFault>
    requires { length options.now ≤ 16 }
    ensures { AppendsHeader result (header_by minor (map (λ t. t.now) options.now)) out.old.items out.new.items }
{
    let start = out.len();
    begin_header(minor, options.len() as u32, out)?;
    append_options(options, out)?;
    match read_header(&out[start..]) {
        Ok(header) => Ok(header.minor),
        Err(_) => Err(LineFault::BadLine),
    }
}

/// Appends the first sixteen bytes of a header of this minor version with so many options.
fn begin_header(minor: u32, count: u32, out: &mut Vec<u8>) -> Result<(), WantMemory>
    ensures ok { OnOk result (out.new.items ≡ out.old.items ++ start_of minor count) }
    ensures err { OnErr result (take (length out.old.items) out.new.items ≡ out.old.items) }
{
    put_header(minor, out)?;
    let place = out.len() - COUNT_LENGTH;
    set_u32(out, place, count);
    Ok(())
}

/// Appends the keys and values of options.
fn append_options(options: &[&[u8]], out: &mut Vec<u8>) -> Result<(), LineFault>
    ensures { AppendsRead result (each_read (whole read_pair) (map (λ t. t.now) options.now)) (flat_map option_bytes) out.old.items out.new.items }
{
    'options: for option in options {
        append_option(option, out)?;
    }
    Ok(())
}

/// Appends the key and the value of an option.
fn append_option(text: &[u8], out: &mut Vec<u8>) -> Result<(), LineFault>
    ensures { AppendsRead result (whole read_pair text.now) option_bytes out.old.items out.new.items }
{
    let Some((key, value)) = option_of(text) else {
        return Err(LineFault::BadLine);
    };
    put_u32(out, key)?;
    put_u32(out, value)?;
    Ok(())
}

/// The key and the value of an option.
fn option_of(text: &[u8]) -> Option<(u32, u32)>
    ensures { result ≡ whole read_pair text.now }
{
    let (key, value) = cut(b'=', text)?;
    Some((short_number_of(key)?, short_number_of(value)?))
}
