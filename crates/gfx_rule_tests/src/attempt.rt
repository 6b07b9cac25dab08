//! Effects that one tracker is given in order, some of them many times.

use crate::case::TAKEN;
use crate::histories::{push_histories, push_line};
use crate::reading::{effects_of, spelled};
use gfx_tracker::{ApplyFault, Tracker};
use gfx_types::{Effect, OpList};
use std::alloc::Global;
use std::process::Abort;
use std::test::Fail;

/// An effect that is given so many times. Each time it is refused with the fault, or taken where there is none.
#[derive(Clone, Copy, Debug)]
struct Attempt<'a> {
    times: u32,
    effect: &'a str,
    fault: &'a str,
}

/// The attempt of a line of a table.
fn attempt_of(line: &str) -> Result<Attempt<'_>, Fail> {
    let Some((times, rest)) = line.split_once(" | ") else {
        return Err(Fail::new("a line has no times"));
    };
    let Some((effect, fault)) = rest.split_once(" | ") else {
        return Err(Fail::new("a line has no fault"));
    };
    let times = times.parse::<u32>()?;
    Ok(Attempt {
        times,
        effect,
        fault,
    })
}

/// Appends the attempts of effects that are taken, once each.
fn push_taken(attempts: &mut String, effects: &str) -> Result<(), Fail> {
    'effects: for effect in effects.lines() {
        attempts.push_str("1 | ")?;
        attempts.push_str(effect)?;
        push_line(attempts, " | taken")?;
    }
    Ok(())
}

/// Appends the attempts of a table, and answers how many they are.
fn push_table(attempts: &mut String, table: &str) -> Result<u32, Fail> {
    let mut count = 0_u32;
    'lines: for line in table.lines() {
        if !line.is_empty() {
            push_line(attempts, line)?;
            count = count.wrapping_add(1);
        }
    }
    Ok(count)
}

/// The effects of attempts, a line each.
fn effects_in(alloc: Global, attempts: &str) -> Result<String, Fail> {
    let mut text = String::new(alloc);
    'lines: for line in attempts.lines() {
        push_line(&mut text, attempt_of(line)?.effect)?;
    }
    Ok(text)
}

// The tracker tells the fault beforehand, and answers it.
fn try_once(
    rt: &impl Abort,
    tracker: &mut Tracker,
    ops: &mut OpList,
    attempt: &Attempt,
    effect: &Effect<'_>,
) {
    let told = tracker.fault_of(effect);
    let answered = match tracker.apply(effect, ops) {
        Ok(_) => None,
        Err(ApplyFault::Rule(fault)) => Some(fault),
        Err(ApplyFault::WantMemory) => panic!(rt; "no memory"),
    };
    assert_eq!(rt; told, answered, "{attempt:?}");
    let name = answered.map_or(TAKEN, |fault| fault.name());
    assert!(rt; name == attempt.fault, "{attempt:?}");
}

// A tracker is given all effects.
fn try_each(
    rt: &impl Abort,
    tracker: &mut Tracker,
    ops: &mut OpList,
    attempts: &str,
    effects: &[Effect<'_>],
) -> Result<(), Fail> {
    'attempts: for (line, effect) in attempts.lines().zip(effects.iter()) {
        let attempt = attempt_of(line)?;
        'times: for _ in 0..attempt.times {
            try_once(rt, tracker, ops, &attempt, effect);
        }
    }
    Ok(())
}

/// A tracker is given the effects of all attempts.
fn try_with(
    rt: &impl Abort,
    alloc: Global,
    tracker: &mut Tracker,
    attempts: &str,
) -> Result<(), Fail> {
    let text = effects_in(alloc, attempts)?;
    let fields = spelled(alloc, text.as_str())?;
    let effects = effects_of(alloc, text.as_str(), fields.as_slice())?;
    let mut ops = OpList::of(Vec::new(alloc));
    try_each(rt, tracker, &mut ops, attempts, effects.as_slice())
}

// The tracker is owned where there is one way out, since letting go of it takes long to prove.
fn try_new(rt: &impl Abort, alloc: Global, attempts: &str) -> Result<(), Fail> {
    let mut tracker = Tracker::new(alloc);
    try_with(rt, alloc, &mut tracker, attempts)
}

/// A new tracker is given the effects of histories, and then those of the attempts of a table, of which there are so many.
pub fn try_in_order(
    rt: &impl Abort,
    alloc: Global,
    after: &str,
    table: &str,
    count: u32,
) -> Result<(), Fail> {
    let mut before = String::new(alloc);
    push_histories(&mut before, after)?;
    let mut attempts = String::new(alloc);
    push_taken(&mut attempts, before.as_str())?;
    let found = push_table(&mut attempts, table)?;
    assert_eq!(rt; found, count);
    try_new(rt, alloc, attempts.as_str())
}

/// A new tracker takes all effects of a capture, of which there are so many.
pub fn take_all(rt: &impl Abort, alloc: Global, capture: &str, count: usize) -> Result<(), Fail> {
    assert_eq!(rt; capture.lines().count(), count);
    let mut attempts = String::new(alloc);
    push_taken(&mut attempts, capture)?;
    try_new(rt, alloc, attempts.as_str())
}
