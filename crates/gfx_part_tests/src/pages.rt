use gfx_pages::{Bytes, Span};
use std::alloc::{AllocGlobal, Global};
use std::process::Abort;
use std::test::Fail;

// The place and length of each fill, in order.
fn fills(alloc: Global, bytes: &Bytes) -> Result<Vec<(u64, u64)>, Fail> {
    let mut found = Vec::new(alloc);
    let mut after = 0;
    for _page in 0..5 {
        let Some(Span { at, length }) = bytes.next_fill(after) else {
            return Ok(found);
        };
        found.push((at, length))?;
        after = at.saturating_add(length);
    }
    Ok(found)
}

fn assert_fills<R: Abort + AllocGlobal>(
    rt: &R,
    bytes: &Bytes,
    wanted: &[(u64, u64)],
) -> Result<(), Fail> {
    let found = fills(rt.alloc(), bytes)?;
    assert!(rt; found.as_slice() == wanted);
    Ok(())
}

fn assert_both<R: Abort + AllocGlobal>(
    rt: &R,
    first: &mut Bytes,
    second: &mut Bytes,
) -> Result<(), Fail> {
    assert_eq!(rt; first.length(), 131_073);
    assert_eq!(rt; first.next_fill(0), None);
    first.write(65_535, &[1, 0, 2])?;
    assert_fills(rt, first, &[(65_535, 1), (65_537, 1)])?;
    assert_eq!(rt; second.length(), 131_072);
    second.copy_from(0, first, 0, 131_072)?;
    second.write(0, &[9])?;
    assert_fills(rt, second, &[(0, 65_536), (65_537, 1)])?;
    assert_fills(rt, first, &[(65_535, 1), (65_537, 1)])
}

// What owns bytes has few ways out, since letting go of them takes the checker long.
#[test]
fn fills_end_with_their_pages(rt: HostRuntime) -> Result<(), Fail> {
    let alloc = rt.alloc();
    let mut first = Bytes::new(alloc, 131_073)?;
    let mut second = Bytes::new(alloc, 131_072)?;
    assert_both(&rt, &mut first, &mut second)
}

// The length of each list of zeros. Together they would take 256 GiB if zeros were kept.
const LENGTH: u64 = 268_435_456;

fn write_zeros<R: Abort>(rt: &R, zeros: &mut Bytes, last: &Bytes) -> Result<(), Fail> {
    assert_eq!(rt; zeros.length(), LENGTH);
    assert_eq!(rt; last.length(), LENGTH);
    zeros.copy_from(1, last, 0, LENGTH - 1)?;
    zeros.copy_within(0, 5, LENGTH - 5)?;
    zeros.fill(3, LENGTH - 3, 0)?;
    Ok(())
}

fn push_zeros<R: Abort + AllocGlobal>(
    rt: &R,
    lists: &mut Vec<Bytes>,
    last: &Bytes,
) -> Result<(), Fail> {
    for _list in 1..1_024 {
        assert!(rt; lists.len() < lists.capacity());
        let mut zeros = Bytes::new(rt.alloc(), LENGTH)?;
        write_zeros(rt, &mut zeros, last)?;
        lists.push_reserved(zeros);
    }
    Ok(())
}

fn assert_zeros<R: Abort + AllocGlobal>(
    rt: &R,
    lists: &[Bytes],
    last: &mut Bytes,
) -> Result<(), Fail> {
    assert_eq!(rt; last.length(), LENGTH);
    last.write(65_535, &[1])?;
    assert_fills(rt, last, &[(65_535, 1)])?;
    for zeros in lists {
        assert_eq!(rt; zeros.next_fill(0), None);
    }
    Ok(())
}

#[test]
fn zeros_take_no_pages(rt: HostRuntime) -> Result<(), Fail> {
    let mut lists = Vec::with_capacity(rt.alloc(), 1_024)?;
    let mut last = Bytes::new(rt.alloc(), LENGTH)?;
    push_zeros(&rt, &mut lists, &last)?;
    assert_zeros(&rt, &lists, &mut last)
}
