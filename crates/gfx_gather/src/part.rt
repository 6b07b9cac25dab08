//! The lines of a thread in a phase.
//!
//! Writes are gathered before a script is run, so that all that is proved of runs holds of gathered ones. While lines
//! are gathered, names of memories serve as ids: a name is one object. A line says how many lines were held before it,
//! since a gate is told of these.
ghost use Rattle.std.specs.Prelude.{ℕ, ◌≡◌, ◌∷◌, [], ◌++◌, map, true, false, IfOk, IsTrue, MatchOption, OnOk};
ghost use Rattle.gfx_model.specs.Events.{event_of, event_of_call};
ghost use Rattle.gfx_model.specs.Events.Event.{FillMemory};
ghost use Rattle.gfx_model.specs.Spelling.{HasSpelling};
ghost use Rattle.gfx_script_model.specs.Scripts as script;
ghost use Rattle.gfx_script.specs.Kept.{is_version};
ghost use Rattle.gfx_script.specs.Line.{line_of, part_of, event_of_line};
ghost use Rattle.gfx_shadow.specs.Writes.{write_of};
ghost use Rattle.gfx_shadow.specs.Gathered.{held_of, ends_holding, gathered_part, last_number};
ghost use Rattle.gfx_gather.specs.Gathering.{fill_line, fills_at, Takes};

use gfx_script::{Line, Lines, Part};
use gfx_shadow::{Held, Shadow};
use gfx_types::limits::MAX_LIVE_BYTES;
use gfx_types::{Call, Effect, Ids, Meta, WantMemory};
use std::alloc::Global;

/// The lines of a thread with its writes gathered.
pub(crate) fn gather_part(alloc: Global, minor: u32, part: &Part) -> Result<Part, WantMemory>
    requires { IsTrue (is_version minor) }
    ensures { IfOk result (λ gathered. part_of gathered ≡ gathered_part (part_of part.now)) }
{
    let mut shadow = Shadow::new(alloc);
    let mut lines = Vec::new(alloc);
    let mut held = 0;
    'lines: for line in part.lines.items() {
        take_line(alloc, minor, line, &mut held, &mut shadow, &mut lines)?;
    }
    flush(
        alloc,
        minor,
        last_number(part),
        &mut held,
        &mut shadow,
        &mut lines,
    )?;
    Ok(Part {
        thread: part.thread,
        lines: Lines::of(lines),
    })
}

/// The number of the last line, 0 where there is none.
fn last_number(part: &Part) -> u32
    ensures { result ≡ last_number (map line_of part.now.lines) }
{
    match part.lines.items().last() {
        Some(line) => line.number,
        None => 0,
    }
}

/// Takes a line: a write is held, and before one that ends holding come the fills of what is held. `held` counts the
/// lines that were held since a line was appended.
fn take_line(
    alloc: Global,
    minor: u32,
    line: &Line,
    held: &mut u32,
    shadow: &mut Shadow,
    lines: &mut Vec<Line>,
) -> Result<(), WantMemory>
    requires { IsTrue (is_version minor) }
    ensures { OnOk result (Takes (line_of line.now) shadow.old (map line_of lines.old.items) shadow.new (map line_of lines.new.items)) }
{
    let effect = line.event(alloc)?;
    if let Some(write) = held_by(&effect) {
        *held = held.saturating_add(1);
        return shadow.put(write.memory, write.offset, write.bytes);
    }
    if ends_holding(&effect) {
        flush(alloc, minor, line.number, held, shadow, lines)?;
    }
    push_copy(alloc, line, held, lines)
}

/// The write that is held in place of an effect: one with a byte or more that ends at 2^28 or below.
fn held_by<'a>(effect: &'a Effect<'_>) -> Option<Held<'a>>
    ensures { MatchOption result (held_of (event_of effect.now) ≡ None) (λ write. held_of (event_of effect.now) ≡ Some (write_of write.memory write.offset write.bytes.now)) }
{
    match effect {
        Effect::Meta(
            Meta::FillMemory {
                memory,
                offset,
                bytes,
            },
        ) => held(*memory, *offset, *bytes),
        _ => None,
    }
}

/// The write of some bytes, where it may be held.
fn held(memory: u64, offset: u64, bytes: &[u8]) -> Option<Held<'_>>
    ensures { MatchOption result (held_of (FillMemory memory offset bytes.now) ≡ None) (λ write. held_of (FillMemory memory offset bytes.now) ≡ Some (write_of write.memory write.offset write.bytes.now)) }
{
    let length = bytes.len() as u64;
    if length == 0 || length > MAX_LIVE_BYTES || offset > MAX_LIVE_BYTES - length {
        return None;
    }
    Some(Held {
        memory,
        offset,
        bytes,
    })
}

/// Whether no write is held any more before such a line: it frees or unmaps memory, or submits.
fn ends_holding(effect: &Effect<'_>) -> bool
    ensures { result ≡ ends_holding (event_of effect.now) }
{
    match effect {
        Effect::Call(call) => ends_holding_call(call),
        Effect::Meta(_) => false,
        Effect::Marker { .. } => false,
    }
}

/// Whether no write is held any more before such a call.
fn ends_holding_call(call: &Call<'_>) -> bool
    ensures { result ≡ ends_holding (event_of_call call.now) }
{
    match call {
        Call::FreeMemory { .. } => true,
        Call::UnmapMemory { .. } => true,
        Call::QueueSubmit { .. } => true,
        _ => false,
    }
}

/// Appends a copy of the line, behind the lines that were held.
fn push_copy(
    alloc: Global,
    line: &Line,
    held: &mut u32,
    lines: &mut Vec<Line>,
) -> Result<(), WantMemory>
    ensures { OnOk result (map line_of lines.new.items ≡ map line_of lines.old.items ++ line_of line.now ∷ []) }
{
    push(line.copy(alloc)?, held, lines)
}

/// Appends a line, behind the lines that were held.
fn push(line: Line, held: &mut u32, lines: &mut Vec<Line>) -> Result<(), WantMemory>
    ensures { OnOk result (map line_of lines.new.items ≡ map line_of lines.old.items ++ line_of line ∷ []) }
{
    let mut line = line;
    line.held = *held;
    *held = 0;
    Ok(lines.push(line)?)
}

/// Appends the fills of what is held as lines with this number; then nothing is held.
fn flush(
    alloc: Global,
    minor: u32,
    number: u32,
    held: &mut u32,
    shadow: &mut Shadow,
    lines: &mut Vec<Line>,
) -> Result<(), WantMemory>
    requires { IsTrue (is_version minor) }
    ensures nothing { OnOk result (shadow.new ≡ []) }
    ensures lines { OnOk result (map line_of lines.new.items ≡ map line_of lines.old.items ++ fills_at number shadow.old) }
{
    'fills: while let Some(fill) = shadow.first() {
        push_fill(alloc, minor, number, &fill, held, lines)?;
        shadow.drop_first();
    }
    Ok(())
}

/// A fill as an effect.
fn effect_of<'a>(memory: u64, offset: u64, bytes: &'a [u8]) -> Effect<'a>
    ensures same { event_of result ≡ FillMemory memory offset bytes.now }
    ensures fits { (minor : ℕ) → HasSpelling minor (FillMemory memory offset bytes.now) }
{
    Effect::Meta(Meta::FillMemory {
        memory,
        offset,
        bytes,
    })
}

/// Appends a fill as a line.
#[tactic(auto, unfolding(gfx_script_model::specs::Ids::uses_of, gfx_script_model::specs::Ids::defines_of, gfx_model::specs::Spelling::type_of))]
fn push_fill(
    alloc: Global,
    minor: u32,
    number: u32,
    fill: &Held<'_>,
    held: &mut u32,
    lines: &mut Vec<Line>,
) -> Result<(), WantMemory>
    requires { IsTrue (is_version minor) }
    ensures { OnOk result (map line_of lines.new.items ≡ map line_of lines.old.items ++ fill_line number (write_of fill.now.memory fill.now.offset fill.now.bytes.now) ∷ []) }
{
    let uses = vec![in alloc; fill.memory]?;
    let effect = effect_of(fill.memory, fill.offset, fill.bytes);
    let defines = Ids::of(Vec::new(alloc));
    let mut line = Line::new(alloc, number, minor, &effect, defines, Ids::of(uses))?;
    line.is_fill = true;
    push(line, held, lines)
}
