//! A case of a table, and how cases are tried.

use crate::histories::{push_effects, push_histories, push_line};
use crate::reading::{effects_of, spelled};
use gfx_tracker::{ApplyFault, Tracker};
use gfx_types::{Effect, Fault, OpList};
use std::alloc::Global;
use std::process::Abort;
use std::test::Fail;

/// What is in the place of a fault where there is none.
pub const TAKEN: &str = "taken";

/// An effect after a history without a fault, and the fault that it has, if any. The history is that of the named ones,
/// one after another, and then of further effects.
#[derive(Clone, Copy, Debug)]
struct Case<'a> {
    name: &'a str,
    after: &'a str,
    then: &'a str,
    effect: &'a str,
    fault: &'a str,
}

impl<'a> Case<'a> {
    /// The case of a line of a table. A column that says nothing is a dash.
    fn of(line: &'a str) -> Option<Self> {
        let (name, rest) = line.split_once(" | ")?;
        let (after, rest) = rest.split_once(" | ")?;
        let (then, rest) = rest.split_once(" | ")?;
        let (effect, fault) = rest.split_once(" | ")?;
        Some(Case {
            name,
            after,
            then,
            effect,
            fault,
        })
    }
}

/// All effects of a case, a line each, its own last.
fn effects_in(alloc: Global, case: &Case<'_>) -> Result<String, Fail> {
    let mut text = String::new(alloc);
    if case.after != "-" {
        push_histories(&mut text, case.after)?;
    }
    if case.then != "-" {
        push_effects(&mut text, case.then)?;
    }
    push_line(&mut text, case.effect)?;
    Ok(text)
}

/// The first effect with a fault, counted from 0, and that fault.
#[derive(Clone, Copy, Debug, PartialEq, Eq)]
struct Broken {
    at: usize,
    fault: Fault,
}

/// What a new tracker refuses first. It has to tell it beforehand, and to leave the operations as they were.
fn first_refused(
    rt: &impl Abort,
    alloc: Global,
    effects: &[Effect<'_>],
) -> Result<Option<Broken>, Fail> {
    let mut tracker = Tracker::new(alloc);
    let mut ops = OpList::of(Vec::new(alloc));
    refused_by(rt, &mut tracker, &mut ops, effects)
}

// The loop only borrows the tracker: each exit of an owner drops it field by field, which takes long to prove.
fn refused_by(
    rt: &impl Abort,
    tracker: &mut Tracker,
    ops: &mut OpList,
    effects: &[Effect<'_>],
) -> Result<Option<Broken>, Fail> {
    'effects: for (at, effect) in effects.iter().enumerate() {
        let length = ops.items().len();
        let told = tracker.fault_of(effect);
        match tracker.apply(effect, ops) {
            Ok(_) => assert_eq!(rt; told, None),
            Err(ApplyFault::Rule(fault)) => {
                assert_eq!(rt; (told, ops.items().len()), (Some(fault), length));
                return Ok(Some(Broken { at, fault }));
            }
            Err(ApplyFault::WantMemory) => return Err("no memory".into()),
        }
    }
    Ok(None)
}

/// Whether the tracker finds just the fault of the case, and none before it.
fn holds(rt: &impl Abort, alloc: Global, case: &Case<'_>) -> Result<bool, Fail> {
    let text = effects_in(alloc, case)?;
    let fields = spelled(alloc, text.as_str())?;
    let effects = effects_of(alloc, text.as_str(), fields.as_slice())?;
    let found = first_refused(rt, alloc, effects.as_slice())?;
    let last = fields.len().saturating_sub(1);
    Ok(match found {
        Some(Broken { at, fault }) => at == last && fault.name() == case.fault,
        None => case.fault == TAKEN,
    })
}

/// Tries all cases of a table, names those in which the tracker says something else, and answers how many there are.
pub fn try_all(rt: &impl Abort, alloc: Global, table: &str) -> Result<u32, Fail> {
    let mut wrong = String::new(alloc);
    let mut count = 0_u32;
    'lines: for line in table.lines() {
        if line.is_empty() {
            continue;
        }
        let Some(case) = Case::of(line) else {
            return Err(Fail::new("a line is no case"));
        };
        if !holds(rt, alloc, &case)? {
            wrong.push_str(case.name)?;
            wrong.push_str("; ")?;
        }
        count = count.wrapping_add(1);
    }
    assert!(rt; wrong.is_empty(), "not so: {wrong}");
    Ok(count)
}
