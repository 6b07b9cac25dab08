//! Texts at the limits.

use gfx_script::{ScriptFault, ScriptKind, parse};
use std::alloc::{AllocError, Global};
use std::test::Fail;

/// The bytes that a line may have, and the lines that a text may have.
const LIMIT: usize = 1 << 20;

/// A text so many times, and then another.
fn repeated(alloc: Global, text: &[u8], times: usize, last: &[u8]) -> Result<Vec<u8>, AllocError> {
    let mut all = Vec::new(alloc);
    for _ in 0..times {
        all.extend_from_slice(text)?;
    }
    all.extend_from_slice(last)?;
    Ok(all)
}

/// The first line with a fault and its kind, where there is one.
pub(crate) fn fault_of(alloc: Global, text: &[u8]) -> Result<Option<(u32, ScriptKind)>, Fail> {
    match parse(alloc, text) {
        Ok(_) => Ok(None),
        Err(ScriptFault::Bad { line, kind }) => Ok(Some((line, kind))),
        Err(ScriptFault::WantMemory) => Err(Fail::new("no memory")),
    }
}

/// A text, how many times it stands, what follows it, and the first line with a fault and its kind.
type Case = (
    &'static [u8],
    usize,
    &'static [u8],
    Option<(u32, ScriptKind)>,
);

const CASES: [Case; 12] = [
    (b" ", LIMIT, b"\nphase", None),
    (
        b" ",
        LIMIT + 1,
        b"\nphase",
        Some((1, ScriptKind::LineTooLong)),
    ),
    (b"#", LIMIT + 1, b"\t", Some((1, ScriptKind::BadByte))),
    (
        b"phase ",
        LIMIT / 6,
        b"phas",
        Some((1, ScriptKind::BadLine)),
    ),
    (
        b"phase ",
        LIMIT / 6,
        b"phase",
        Some((1, ScriptKind::LineTooLong)),
    ),
    (b"\n", LIMIT, b"", None),
    (b"\n", LIMIT - 1, b"phase", None),
    (
        b"\n",
        LIMIT,
        b"phases",
        Some((1_048_577, ScriptKind::TooMany)),
    ),
    (b"\n", LIMIT, b"\t", Some((1_048_577, ScriptKind::BadByte))),
    (b"phase\n", 64, b"", None),
    (b"phase\n", 64, b"phase", Some((65, ScriptKind::TooMany))),
    (
        b"phase\n",
        64,
        b"thread 64",
        Some((65, ScriptKind::BadLine)),
    ),
];

#[test]
fn limits_are_kept_and_told(rt: HostRuntime) -> Result<(), Fail> {
    for &(text, times, last, fault) in &CASES {
        let script = repeated(rt.alloc(), text, times, last)?;
        assert_eq!(rt; fault_of(rt.alloc(), script.as_slice())?, fault);
    }
    Ok(())
}

#[test]
fn a_long_line_is_told_before_its_number(rt: HostRuntime) -> Result<(), Fail> {
    let spaces = repeated(rt.alloc(), b" ", LIMIT + 1, b"")?;
    let script = repeated(rt.alloc(), b"\n", LIMIT, spaces.as_slice())?;
    let fault = fault_of(rt.alloc(), script.as_slice())?;
    assert_eq!(rt; fault, Some((1_048_577, ScriptKind::LineTooLong)));
    Ok(())
}
