//! Effects of tables as effects: their fields are spelled, and then read.

use crate::entry::{Kind, Numbers, shape_of};
use gfx_params::{ParamFault, decode, decode_meta};
use gfx_types::Effect;
use std::alloc::Global;
use std::test::Fail;

fn put_word(number: u64, out: &mut Vec<u8>) -> Result<(), Fail> {
    let word = (number & 0xffff_ffff) as u32;
    Ok(out.extend_from_slice(&word.to_le_bytes())?)
}

fn put_long(number: u64, out: &mut Vec<u8>) -> Result<(), Fail> {
    Ok(out.extend_from_slice(&number.to_le_bytes())?)
}

/// Spells a record of fields of one width each.
fn put_record(widths: &[u8], numbers: &mut Numbers<'_>, out: &mut Vec<u8>) -> Result<(), Fail> {
    'widths: for width in widths {
        let number = numbers.next()?;
        if *width == b'q' {
            put_long(number, out)?;
        } else {
            put_word(number, out)?;
        }
    }
    Ok(())
}

/// Spells a list of records.
fn put_list(widths: &[u8], numbers: &mut Numbers<'_>, out: &mut Vec<u8>) -> Result<(), Fail> {
    let count = numbers.next()?;
    put_word(count, out)?;
    'records: for _ in 0..count {
        put_record(widths, numbers, out)?;
    }
    Ok(())
}

fn put_bytes(numbers: &mut Numbers<'_>, out: &mut Vec<u8>) -> Result<(), Fail> {
    let count = numbers.next()?;
    put_long(count, out)?;
    'bytes: for _ in 0..count {
        let number = numbers.next()?;
        out.push((number & 0xff) as u8)?;
    }
    Ok(())
}

fn put_submits(numbers: &mut Numbers<'_>, out: &mut Vec<u8>) -> Result<(), Fail> {
    let count = numbers.next()?;
    put_word(count, out)?;
    'submits: for _ in 0..count {
        put_list(b"q", numbers, out)?;
        put_list(b"q", numbers, out)?;
        put_list(b"q", numbers, out)?;
    }
    Ok(())
}

fn put_field(letter: u8, numbers: &mut Numbers<'_>, out: &mut Vec<u8>) -> Result<(), Fail> {
    match letter {
        b'q' => put_record(b"q", numbers, out),
        b'd' => put_record(b"d", numbers, out),
        b'Q' => put_list(b"q", numbers, out),
        b'D' => put_list(b"d", numbers, out),
        b'b' => put_list(b"qdd", numbers, out),
        b'r' => put_list(b"qqq", numbers, out),
        b'i' => put_list(b"dddddd", numbers, out),
        b'm' => put_list(b"qdddddd", numbers, out),
        b'p' => put_list(b"qd", numbers, out),
        b'S' => put_submits(numbers, out),
        _ => put_bytes(numbers, out),
    }
}

/// The fields of an effect as a file of minor version 2 spells them.
pub fn fields_of(alloc: Global, effect: &str) -> Result<Vec<u8>, Fail> {
    let (_, widths) = shape_of(effect)?;
    let mut out = Vec::new(alloc);
    let mut numbers = Numbers::of(effect);
    'fields: for letter in widths.as_bytes() {
        put_field(*letter, &mut numbers, &mut out)?;
    }
    Ok(out)
}

fn read<T>(found: Result<T, ParamFault>) -> Result<T, Fail> {
    match found {
        Ok(value) => Ok(value),
        Err(ParamFault::BadParams) => Err("an effect has no spelling")?,
        Err(ParamFault::WantMemory) => Err("no memory")?,
    }
}

/// The effect with these fields.
fn effect_of<'a>(alloc: Global, effect: &str, bytes: &'a [u8]) -> Result<Effect<'a>, Fail> {
    match shape_of(effect)?.0 {
        Kind::Marker { begin } => Ok(Effect::Marker {
            begin,
            frame: Numbers::of(effect).next()?,
        }),
        Kind::Meta { id } => Ok(Effect::Meta(read(decode_meta(alloc, id, bytes))?)),
        Kind::Call { id } => Ok(Effect::Call(read(decode(alloc, 2, id, bytes))?)),
    }
}

/// The fields of the effects of a text, a line each, spelled.
pub fn spelled(alloc: Global, text: &str) -> Result<Vec<Vec<u8>>, Fail> {
    let mut all = Vec::new(alloc);
    'lines: for line in text.lines() {
        all.push(fields_of(alloc, line)?)?;
    }
    Ok(all)
}

/// The effects of a text, with these fields.
pub fn effects_of<'a>(
    alloc: Global,
    text: &str,
    fields: &'a [Vec<u8>],
) -> Result<Vec<Effect<'a>>, Fail> {
    let mut all = Vec::new(alloc);
    'lines: for (line, bytes) in text.lines().zip(fields.iter()) {
        all.push(effect_of(alloc, line, bytes.as_slice())?)?;
    }
    Ok(all)
}
