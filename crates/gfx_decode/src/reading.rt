// The reads of a file: its header, the size and type of a block, and its payload.
ghost use Rattle.std.specs.Prelude.{◌≡◌, ◌<◌, ◌≤◌, ◌+◌, ◌*◌, ◌^◌, ℕ, List, [], ◌++◌, length, take, vec_len, IfOk, OnOk, IfSome, IfErr, None, Some};
ghost use Rattle.std.specs.Io.KnownBytes.{Consumes, IsAtEnd};
ghost use Rattle.gfx_io.specs.Causes.{Rose};
ghost use Rattle.gfx_model.specs.Blocks.{options_fault};
ghost use Rattle.gfx_grammar.specs.Framing.{IsHead};
ghost use Rattle.gfx_decode.specs.Position.{position_of};
ghost use Rattle.gfx_decode.specs.Reading.{IsCutFault, IsFramed, IsHeader, ReadsBlock, ReadsSome, ReadsUpTo, StopsFraming, StopsInHeader, StopsInOptions, StopsInPayload, StopsShort};

use crate::DecodeFault;
use crate::places::{has_room, is_full};
use crate::position::Position;
use gfx_blocks::{Framing, Header, read_frame, read_start};
use gfx_io::{Source, fill, set_bytes};
use gfx_types::Fault;
use std::alloc::AllocError;

/// How many bytes of a payload are asked for at once, so that a large size over a short file takes no memory.
const PIECE: usize = 1 << 16;

/// The bytes that every header begins with.
const START: usize = 16;

/// The most bytes that the options of a header have.
const MOST_OPTIONS: usize = 8 * 16;

/// The most bytes that a header has, with its options.
pub const MOST_HEADER: usize = START + MOST_OPTIONS;

/// Reads the header with its options, and leaves its bytes at the start of `into`.
pub fn read_front<S: Source>(
    source: &mut S,
    into: &mut [u8; MOST_HEADER],
) -> Result<Header, DecodeFault>
    ensures good { IfOk result (λ header. IsHeader header (take (16 + 8 * header.options) into.new)
        × Consumes (S.left source.old) (S.left source.new) (take (16 + 8 * header.options) into.new)) }
    ensures fault { IfErr result (StopsInHeader (S.left source.old) (S.left source.new)) }
    ensures reads { ReadsSome (S.left source.old) (S.left source.new) }
    ensures later { S.faults source.old ≤ S.faults source.new }
    ensures cause { result ≡ Err DecodeFault.ReadFault → Rose (S.faults source.old) (S.faults source.new) }
{
    let mut start = [0; START];
    let mut options = [0; MOST_OPTIONS];
    let header = read_parts(source, &mut start, &mut options)?;
    into[..START].copy_from_slice(&start);
    into[START..].copy_from_slice(&options);
    Ok(header)
}

/// Reads the start of the header and its options.
fn read_parts<S: Source>(
    source: &mut S,
    start: &mut [u8; START],
    options: &mut [u8; MOST_OPTIONS],
) -> Result<Header, DecodeFault>
    ensures good { IfOk result (λ header. IsHeader header (start.new ++ take (8 * header.options) options.new)
        × Consumes (S.left source.old) (S.left source.new) (start.new ++ take (8 * header.options) options.new)) }
    ensures fault { IfErr result (StopsInHeader (S.left source.old) (S.left source.new)) }
    ensures reads { ReadsSome (S.left source.old) (S.left source.new) }
    ensures later { S.faults source.old ≤ S.faults source.new }
    ensures cause { result ≡ Err DecodeFault.ReadFault → Rose (S.faults source.old) (S.faults source.new) }
{
    if fill(source, start)? < start.len() {
        return Err(DecodeFault::bad(Fault::Truncated, 0, 0));
    }
    match read_start(start) {
        Ok(header) => read_options(source, header, options),
        Err(fault) => Err(DecodeFault::bad(fault, 0, 0)),
    }
}

/// Reads the options behind the start of a header.
fn read_options<S: Source>(
    source: &mut S,
    header: Header,
    room: &mut [u8; MOST_OPTIONS],
) -> Result<Header, DecodeFault>
    requires { header.options ≤ 16 }
    ensures good { IfOk result (λ read. (read ≡ header) × (options_fault (take (8 * header.options) room.new) 0 0 header.options ≡ None)
        × Consumes (S.left source.old) (S.left source.new) (take (8 * header.options) room.new)) }
    ensures fault { IfErr result (StopsInOptions header.options (S.left source.old) (S.left source.new)) }
    ensures reads { ReadsSome (S.left source.old) (S.left source.new) }
    ensures later { S.faults source.old ≤ S.faults source.new }
    ensures cause { result ≡ Err DecodeFault.ReadFault → Rose (S.faults source.old) (S.faults source.new) }
{
    let options = &mut room[..8 * header.options as usize];
    if fill(source, options)? < options.len() {
        return Err(DecodeFault::bad(Fault::Truncated, 0, 0));
    }
    match gfx_blocks::options_fault(options, 0, header.options) {
        None => Ok(header),
        Some(fault) => Err(DecodeFault::bad(fault, 0, 0)),
    }
}

/// Reads the size and type of the block here, or finds the end of the input.
pub fn read_head<S: Source>(
    source: &mut S,
    at: Position,
    head: &mut [u8; 12],
) -> Result<Option<Framing>, DecodeFault>
    ensures some { IfOk result (λ found. IfSome found (λ framing. IsHead framing.kind framing.size head.new
        × Consumes (S.left source.old) (S.left source.new) head.new)) }
    ensures none { result ≡ Ok None → IsAtEnd (S.left source.new) × Consumes (S.left source.old) (S.left source.new) [] }
    ensures fault { IfErr result (StopsFraming (position_of at) (S.left source.old) (S.left source.new)) }
    ensures reads { ReadsUpTo 12 (S.left source.old) (S.left source.new) }
    ensures later { S.faults source.old ≤ S.faults source.new }
    ensures cause { result ≡ Err DecodeFault.ReadFault → Rose (S.faults source.old) (S.faults source.new) }
{
    let count = fill(source, head)?;
    if count == 0 {
        return Ok(None);
    }
    if count < head.len() {
        return Err(DecodeFault::bad(Fault::Truncated, at.number, at.offset));
    }
    match read_frame(head) {
        Ok(framing) => Ok(Some(framing)),
        Err(fault) => Err(DecodeFault::bad(fault, at.number, at.offset)),
    }
}

/// Reads the payload behind a block's head, and lends both from the prefix of the buffer, which grows with what comes.
pub fn read_rest<'b, S: Source>(
    source: &mut S,
    at: Position,
    framing: Framing,
    head: &[u8; 12],
    buffer: &'b mut Vec<u8>,
) -> Result<&'b [u8], DecodeFault>
    requires { IsHead framing.kind framing.size head.now }
    ensures whole { IfOk result (λ bytes. (payload : List ℕ) × (bytes.now ≡ head.now ++ payload) × (length payload ≡ framing.size)
        × Consumes (S.left source.old) (S.left source.new) payload) }
    ensures fault { IfErr result (StopsInPayload framing.size (position_of at) (S.left source.old) (S.left source.new)) }
    ensures reads { ReadsUpTo framing.size (S.left source.old) (S.left source.new) }
    ensures later { S.faults source.old ≤ S.faults source.new }
    ensures cause { result ≡ Err DecodeFault.ReadFault → Rose (S.faults source.old) (S.faults source.new) }
{
    put_front(head, buffer)?;
    let mut came = head.len();
    let end = came + framing.size as usize;
    'pieces: while came < end {
        let most = PIECE.min(end - came);
        if read_over(source, came, most, buffer)? < most {
            return Err(DecodeFault::bad(cut_fault(at), at.number, at.offset));
        }
        came += most;
    }
    Ok(&buffer[..end])
}

/// Puts a head over the start of the buffer. What follows it stays, since to clear it for each block costs as much as to copy it.
fn put_front(head: &[u8; 12], buffer: &mut Vec<u8>) -> Result<(), AllocError>
    ensures { OnOk result ((length head.now ≤ length buffer.new.items) × (take (length head.now) buffer.new.items ≡ head.now)) }
{
    if buffer.len() < head.len() {
        buffer.resize(head.len(), 0)?;
    }
    set_bytes(buffer, 0, head);
    Ok(())
}

/// The first step that a block with a payload that is cut short breaks. It begins no section.
fn cut_fault(at: Position) -> Fault
    ensures { IsCutFault (position_of at) result }
{
    if is_full(at, false) {
        return Fault::TooManyBlocks;
    }
    Fault::Truncated
}

/// Reads the next bytes onto the end of the buffer, fewer than `most` only where the input ends. After a failed read it has some
/// of them, and others behind them.
pub fn read_piece<S: Source>(
    source: &mut S,
    most: usize,
    buffer: &mut Vec<u8>,
) -> Result<usize, DecodeFault>
    requires { vec_len buffer.old + most < 2 ^ 63 }
    ensures piece { IfOk result (λ count. (piece : List ℕ) × (length piece ≡ count) × (buffer.new.items ≡ buffer.old.items ++ piece)
        × Consumes (S.left source.old) (S.left source.new) piece) }
    ensures ended { IfOk result (λ count. (count ≤ most) × (count < most → IsAtEnd (S.left source.new))) }
    ensures fault { IfErr result (StopsShort most (S.left source.old) (S.left source.new)) }
    ensures reads { ReadsSome (S.left source.old) (S.left source.new) }
    ensures later { S.faults source.old ≤ S.faults source.new }
    ensures cause { result ≡ Err DecodeFault.ReadFault → Rose (S.faults source.old) (S.faults source.new) }
{
    let front = buffer.len();
    let count = read_over(source, front, most, buffer)?;
    buffer.truncate(front + count);
    Ok(count)
}

/// Reads the next bytes over those of the buffer from `front` on, fewer than `most` only where the input ends. The buffer grows
/// where they end behind it.
fn read_over<S: Source>(
    source: &mut S,
    front: usize,
    most: usize,
    buffer: &mut Vec<u8>,
) -> Result<usize, DecodeFault>
    requires within { front ≤ vec_len buffer.old }
    requires few { front + most < 2 ^ 63 }
    ensures piece { IfOk result (λ count. (piece : List ℕ) × (length piece ≡ count) × (take (front + count) buffer.new.items ≡ take front buffer.old.items ++ piece)
        × Consumes (S.left source.old) (S.left source.new) piece) }
    ensures room { IfOk result (λ _. front + most ≤ length buffer.new.items) }
    ensures ended { IfOk result (λ count. (count ≤ most) × (count < most → IsAtEnd (S.left source.new))) }
    ensures fault { IfErr result (StopsShort most (S.left source.old) (S.left source.new)) }
    ensures reads { ReadsUpTo most (S.left source.old) (S.left source.new) }
    ensures later { S.faults source.old ≤ S.faults source.new }
    ensures cause { result ≡ Err DecodeFault.ReadFault → Rose (S.faults source.old) (S.faults source.new) }
{
    let end = front + most;
    if buffer.len() < end {
        buffer.resize(end, 0)?;
    }
    Ok(fill(source, &mut buffer[front..end])?)
}

/// Reads the next block, all but what its payload decides checked, and lends it from the buffer, or finds the end of the input.
pub fn fetch<'b, S: Source>(
    source: &mut S,
    at: Position,
    buffer: &'b mut Vec<u8>,
) -> Result<Option<(Framing, &'b [u8])>, DecodeFault>
    ensures some { IfOk result (λ found. IfSome found (λ block. IsFramed block.0.kind block.0.size block.1.now
        × Consumes (S.left source.old) (S.left source.new) block.1.now)) }
    ensures none { result ≡ Ok None → IsAtEnd (S.left source.new) × Consumes (S.left source.old) (S.left source.new) [] }
    ensures fault { IfErr result (StopsFraming (position_of at) (S.left source.old) (S.left source.new)) }
    ensures reads { ReadsBlock (position_of at) (S.left source.old) (S.left source.new) }
    ensures later { S.faults source.old ≤ S.faults source.new }
    ensures cause { result ≡ Err DecodeFault.ReadFault → Rose (S.faults source.old) (S.faults source.new) }
{
    let mut head = [0; 12];
    let Some(framing) = read_head(source, at, &mut head)? else {
        return Ok(None);
    };
    if !has_room(at) {
        return Err(DecodeFault::bad(Fault::TooManyBlocks, at.number, at.offset));
    }
    let bytes = read_rest(source, at, framing, &head, buffer)?;
    Ok(Some((framing, bytes)))
}
