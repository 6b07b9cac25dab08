//! What is kept of command buffers, beside values that were worked out by hand.

use crate::entry::{Kind, shape_of};
use crate::histories::push_line;
use crate::reading::{effects_of, fields_of, spelled};
use crate::runs::DRAWN;
use gfx_commands::{CbState, Recordings, Totals};
use gfx_tracker::Tracker;
use gfx_types::{Effect, OpList};
use std::alloc::Global;
use std::process::Abort;
use std::test::Fail;

/// How many effects of the run were taken, what buffers are then, with their flags, and how much is kept, in commands and bytes.
type Row = (usize, &'static [(u64, CbState, u32)], (u32, u64));

const ROWS: [Row; 3] = [
    // both buffers are recorded
    (
        39,
        &[(11, CbState::Executable, 0), (15, CbState::Executable, 1)],
        (13, 668),
    ),
    // the one that was to be submitted once was submitted
    (
        41,
        &[(11, CbState::Executable, 0), (15, CbState::Invalid, 1)],
        (9, 472),
    ),
    // a resource of the other is gone
    (46, &[(11, CbState::Invalid, 0)], (0, 0)),
];

// The tracker takes the first effects of the run.
fn take_first(alloc: Global, tracker: &mut Tracker, count: usize) -> Result<(), Fail> {
    let mut run = String::new(alloc);
    'lines: for line in DRAWN.lines().take(count) {
        push_line(&mut run, line)?;
    }
    let fields = spelled(alloc, run.as_str())?;
    let effects = effects_of(alloc, run.as_str(), fields.as_slice())?;
    take_all(alloc, tracker, effects.as_slice())
}

fn take_all(alloc: Global, tracker: &mut Tracker, effects: &[Effect<'_>]) -> Result<(), Fail> {
    let mut ops = OpList::of(Vec::new(alloc));
    'effects: for effect in effects {
        if tracker.apply(effect, &mut ops).is_err() {
            return Err("an effect is refused".into());
        }
    }
    Ok(())
}

// The commands of a buffer are the lines of the run from one to another, as they are spelled.
fn compare_commands(
    rt: &impl Abort,
    alloc: Global,
    recordings: &Recordings,
    cb: u64,
    from: usize,
    to: usize,
) -> Result<(), Fail> {
    let mut place = 0;
    'lines: for line in DRAWN.lines().take(to).skip(from) {
        let fields = fields_of(alloc, line)?;
        let (kind, _) = shape_of(line)?;
        match recordings.command(cb, place) {
            Some(command) => {
                assert_eq!(rt;
                    Kind::Call {
                        id: command.call_id
                    },
                    kind
                );
                assert_eq!(rt; command.params, fields.as_slice());
            }
            None => return Err("a command is missing".into()),
        }
        place = place.wrapping_add(1);
    }
    assert!(rt; recordings.command(cb, place).is_none());
    Ok(())
}

// A buffer has this state and these flags.
fn compare_buffer(rt: &impl Abort, recordings: &Recordings, cb: u64, state: CbState, flags: u32) {
    assert_eq!(rt; recordings.state(cb), state);
    assert_eq!(rt; recordings.flags(cb), flags);
}

// Both buffers have their commands, whatever became of them.
fn compare_both(rt: &impl Abort, alloc: Global, recordings: &Recordings) -> Result<(), Fail> {
    compare_commands(rt, alloc, recordings, 11, 23, 32)?;
    compare_commands(rt, alloc, recordings, 15, 34, 38)
}

fn compare_row(
    rt: &impl Abort,
    alloc: Global,
    recordings: &Recordings,
    row: &Row,
) -> Result<(), Fail> {
    let (_, buffers, (commands, bytes)) = *row;
    'buffers: for &(cb, state, flags) in buffers {
        compare_buffer(rt, recordings, cb, state, flags);
    }
    assert_eq!(rt; recordings.totals(), Totals { commands, bytes });
    compare_both(rt, alloc, recordings)
}

fn try_with(rt: &impl Abort, alloc: Global, tracker: &mut Tracker, row: &Row) -> Result<(), Fail> {
    take_first(alloc, tracker, row.0)?;
    compare_row(rt, alloc, tracker.recordings(), row)
}

// The tracker is owned where there is one way out, since letting go of it takes long to prove.
fn try_row(rt: &impl Abort, alloc: Global, row: &Row) -> Result<(), Fail> {
    let mut tracker = Tracker::new(alloc);
    try_with(rt, alloc, &mut tracker, row)
}

#[test]
fn buffers_are_kept_with_their_commands_until_they_are_invalid(
    rt: HostRuntime,
) -> Result<(), Fail> {
    for row in &ROWS {
        try_row(&rt, rt.alloc(), row)?;
    }
    Ok(())
}
