//! Each call and a write as lines of scripts, and what they say with ids in place of names.

use crate::lines::{LINES, PRESENTS};
use gfx_script::{Line, Script, parse};
use std::alloc::{AllocError, Global};
use std::process::Abort;
use std::test::Fail;

/// The beginnings of scripts of both versions.
const FRONTS: [&str; 2] = ["", "# comment\n\n version  2 \n"];

/// Eight names, for the lines of a thread.
const NAMES: &str = "phase\nthread 5\n\
    a = vkCreateInstance api=1\n\
    b = vkCreateInstance api=1\n\
    c = vkCreateInstance api=1\n\
    d = vkCreateInstance api=1\n\
    e = vkCreateInstance api=1\n\
    f = vkCreateInstance api=1\n\
    g = vkCreateInstance api=1\n\
    h = vkCreateInstance api=1\n";

/// The last line of the only thread of a script.
fn last_line<'a, R: Abort>(rt: &R, script: &'a Script) -> &'a Line {
    let phase = script.phases.items().first().expect(rt, "a phase");
    let part = phase.threads.items().first().expect(rt, "a thread");
    assert_eq!(rt; part.thread, 5);
    part.lines.items().last().expect(rt, "a line")
}

/// An id for each number of a name: a hundred more, and 0 for none.
fn ids_of(alloc: Global, numbers: &[u64]) -> Result<Vec<u64>, AllocError> {
    numbers
        .iter()
        .map(|number| if *number == 0 {
            0
        } else {
            number.wrapping_add(100)
        })
        .collect(alloc)
}

/// What the line says with these ids.
fn said<R: Abort>(rt: &R, alloc: Global, line: &Line) -> Result<String, Fail> {
    let used = ids_of(alloc, line.uses.items())?;
    let defined = ids_of(alloc, line.defines.items())?;
    if used.len() != line.uses.items().len() || defined.len() != line.defines.items().len() {
        panic!(rt; "another number of ids")
    }
    let effect = line.effect(alloc, used.as_slice(), defined.as_slice())?;
    Ok(format!(in alloc; "{effect:?}")?)
}

/// The line is read in a script that begins so, and says this.
fn assert_says<R: Abort>(
    rt: &R,
    alloc: Global,
    front: &str,
    line: &str,
    expected: &str,
) -> Result<(), Fail> {
    let text = format!(in alloc; "{front}{NAMES}{line}")?;
    let script = parse(alloc, text.as_bytes())?;
    let text = said(rt, alloc, last_line(rt, &script))?;
    assert_eq!(rt; text.as_str(), expected);
    Ok(())
}

#[test]
fn each_call_is_read_as_a_line(rt: HostRuntime) -> Result<(), Fail> {
    for &front in &FRONTS {
        for &(line, expected) in &LINES {
            assert_says(&rt, rt.alloc(), front, line, expected)?;
        }
    }
    for (&front, &(line, expected)) in FRONTS.iter().zip(&PRESENTS) {
        assert_says(&rt, rt.alloc(), front, line, expected)?;
    }
    Ok(())
}
