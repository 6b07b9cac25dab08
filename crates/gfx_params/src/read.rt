// Reads the fields of a payload.
//
// `skip` goes over the whole spelling before `read` makes lists, so bad fields are never answered by a lack of memory.
ghost use Rattle.std.specs.Prelude.{◌≡◌, ◌<◌, ℕ, List, Some, None, IfOk, IsSome, MatchOption};
ghost use Rattle.std.specs.Int.{w32, w64};
ghost use Rattle.gfx_grammar.specs.Reading.{Reader, read_number, read_raw, ◌⊗◌};
ghost use Rattle.gfx_params.specs.Gives.{GivesWhole, StandsBehind};

use crate::ParamFault;
use gfx_io::{take_u32, take_u64};
use std::alloc::{AllocError, Global};

/// A field of a payload, or several in order.
pub trait ReadFields<'a>: Sized + Drop {
    /// What contracts see of it.
    ghost Seen: { Type 0 };

    ghost seen: { Self → Seen };

    /// How the grammar reads it.
    ghost reader: { Reader Seen };

    /// What follows the fields at the start of the bytes, None where the bytes don't begin with them.
    fn skip(bytes: &'a [u8]) -> Option<&'a [u8]>
        ensures { MatchOption result (reader bytes.now ≡ None) (λ rest. StandsBehind (reader bytes.now) rest.now) };

    /// The fields at the start of the bytes, and what follows them.
    fn read(alloc: Global, bytes: &'a [u8]) -> Result<(Self, &'a [u8]), AllocError>
        requires { IsSome (reader bytes.now) }
        ensures { IfOk result (λ read. reader bytes.now ≡ Some (seen read.0, read.1.now)) };
}

/// The fields that the bytes are, and nothing else. Before they are known to be, no memory is taken.
#[tactic(auto, unfolding(gfx_grammar::specs::Rows::exactly))]
pub fn read_whole<'a, T: ReadFields<'a>>(alloc: Global, bytes: &'a [u8]) -> Result<T, ParamFault>
    ensures { GivesWhole T.seen T.reader bytes.now result }
{
    match T::skip(bytes) {
        Some([]) => {
            let (fields, _) = T::read(alloc, bytes)?;
            Ok(fields)
        }
        _ => Err(ParamFault::BadParams),
    }
}

/// The number in the first four bytes, and what follows them.
#[tactic(auto, unfolding(gfx_grammar::specs::Reading::read_number))]
pub fn front_u32(bytes: &[u8]) -> Option<(u32, &[u8])>
    ensures { MatchOption result (read_number w32 bytes.now ≡ None) (λ read. read_number w32 bytes.now ≡ Some (read.0, read.1.now)) }
{
    let number = take_u32(bytes, 0)?;
    Some((number, &bytes[4..]))
}

/// The number in the first eight bytes, and what follows them.
#[tactic(auto, unfolding(gfx_grammar::specs::Reading::read_number))]
pub fn front_u64(bytes: &[u8]) -> Option<(u64, &[u8])>
    ensures { MatchOption result (read_number w64 bytes.now ≡ None) (λ read. read_number w64 bytes.now ≡ Some (read.0, read.1.now)) }
{
    let number = take_u64(bytes, 0)?;
    Some((number, &bytes[8..]))
}

impl<'a> ReadFields<'a> for u32 {
    ghost Seen = { ℕ };

    ghost seen = { λ n. n };

    ghost reader = { read_number w32 };

    fn skip(bytes: &'a [u8]) -> Option<&'a [u8]> {
        match front_u32(bytes) {
            Some((_, rest)) => Some(rest),
            None => None,
        }
    }

    fn read(_: Global, bytes: &'a [u8]) -> Result<(Self, &'a [u8]), AllocError> {
        match front_u32(bytes) {
            Some((number, rest)) => Ok((number, rest)),
            None => unreachable!(),
        }
    }
}

impl<'a> ReadFields<'a> for u64 {
    ghost Seen = { ℕ };

    ghost seen = { λ n. n };

    ghost reader = { read_number w64 };

    fn skip(bytes: &'a [u8]) -> Option<&'a [u8]> {
        match front_u64(bytes) {
            Some((_, rest)) => Some(rest),
            None => None,
        }
    }

    fn read(_: Global, bytes: &'a [u8]) -> Result<(Self, &'a [u8]), AllocError> {
        match front_u64(bytes) {
            Some((number, rest)) => Ok((number, rest)),
            None => unreachable!(),
        }
    }
}

impl<'a> ReadFields<'a> for &'a [u8] {
    ghost Seen = { List ℕ };

    ghost seen = { λ bytes. bytes.now };

    ghost reader = { read_raw };

    #[tactic(auto, unfolding(gfx_grammar::specs::Reading::read_raw))]
    fn skip(bytes: &'a [u8]) -> Option<&'a [u8]> {
        match front_u64(bytes) {
            Some((length, behind)) if length <= behind.len() as u64 => {
                let (_, rest) = behind.split_at(length as usize);
                Some(rest)
            }
            _ => None,
        }
    }

    #[tactic(auto, unfolding(gfx_grammar::specs::Reading::read_raw))]
    fn read(_: Global, bytes: &'a [u8]) -> Result<(Self, &'a [u8]), AllocError> {
        match front_u64(bytes) {
            Some((length, behind)) if length <= behind.len() as u64 => {
                let (raw, rest) = behind.split_at(length as usize);
                Ok((raw, rest))
            }
            _ => unreachable!(),
        }
    }
}

impl<'a, A: ReadFields<'a>, B: ReadFields<'a>> ReadFields<'a> for (A, B) {
    ghost Seen = { A.Seen × B.Seen };

    ghost seen = { λ both. (A.seen both.0, B.seen both.1) };

    ghost reader = { A.reader ⊗ B.reader };

    #[tactic(auto, unfolding(gfx_grammar::specs::Reading::read_both))]
    fn skip(bytes: &'a [u8]) -> Option<&'a [u8]> {
        match A::skip(bytes) {
            Some(behind) => B::skip(behind),
            None => None,
        }
    }

    #[tactic(auto, unfolding(gfx_grammar::specs::Reading::read_both))]
    fn read(alloc: Global, bytes: &'a [u8]) -> Result<(Self, &'a [u8]), AllocError> {
        let (first, behind) = A::read(alloc, bytes)?;
        let (second, rest) = B::read(alloc, behind)?;
        Ok(((first, second), rest))
    }
}
