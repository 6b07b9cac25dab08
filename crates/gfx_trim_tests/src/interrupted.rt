//! Cuts of which a read or a write fails, each in turn.

use gfx_outside::{Ended, Outside};
use gfx_samples::cuts::later_cut;
use gfx_samples::files::{NEXT_FRAME, three_frames};
use std::alloc::{AllocError, Global};
use std::process::Abort;
use std::test::Fail;

/// Where the blocks of the second of three frames end.
const BLOCK_ENDS: [usize; 4] = [1175, 1239, 1303, 1351];

/// The file of three frames, and what is cut out of it for the second.
#[derive(Drop)]
struct Case {
    file: Vec<u8>,
    cut: Vec<u8>,
}

impl Case {
    fn new(alloc: Global) -> Result<Self, Fail> {
        Ok(Case {
            file: three_frames(alloc)?,
            cut: later_cut(alloc, 2, &[&NEXT_FRAME])?,
        })
    }

    /// Cuts where the reads and the writes with these numbers fail, of at most so many bytes each.
    fn run<'a>(
        &'a self,
        alloc: Global,
        most: usize,
        failing_reads: &'a [u64],
        failing_writes: &'a [u64],
    ) -> Result<Ended, AllocError> {
        let outside = Outside {
            failing_reads,
            failing_writes,
            ..Outside::of(&["trim", "2-2"], &self.file).at_most(most)
        };
        outside.run(alloc)
    }

    /// It ended as if no call had failed.
    fn assert_whole(&self, rt: &impl Abort, ended: &Ended) {
        assert!(rt; ended.text == self.cut);
        assert!(rt; ended.notes.is_empty());
    }

    /// A write failed behind a prefix of the cut.
    fn assert_front(&self, rt: &impl Abort, ended: &Ended) {
        assert_eq!(rt; (ended.status, ended.notes.len()), (6, 0));
        assert!(rt; self.cut.starts_with(&ended.text));
        assert!(rt; ended.text.len() < self.cut.len());
    }

    /// A read failed, and the blocks before it were written. Answers whether none failed, and all was written.
    fn was_read(&self, rt: &impl Abort, ended: &Ended, number: u64) -> bool {
        if ended.status == 0 {
            self.assert_whole(rt, ended);
            return true;
        }
        assert_eq!(rt;
            (ended.status, ended.notes.as_slice()),
            (5, b"read fault\n".as_slice())
        );
        let given = self.file.len().saturating_sub(ended.left);
        assert_eq!(rt;
            ended.text.as_slice(),
            self.written_before(given),
            "at read {number}"
        );
        false
    }

    /// A write failed behind a prefix of the cut. Answers whether none failed, and all was written.
    fn was_written(&self, rt: &impl Abort, ended: &Ended) -> bool {
        if ended.status == 0 {
            self.assert_whole(rt, ended);
            return true;
        }
        self.assert_front(rt, ended);
        false
    }

    /// What is written where reading stopped behind so many bytes: all up to the last block of the frame that is whole in them.
    fn written_before(&self, given: usize) -> &[u8] {
        match BLOCK_ENDS.iter().rev().find(|end| **end <= given) {
            Some(end) => &self.cut[..end.saturating_sub(41).min(self.cut.len())],
            None => &[],
        }
    }
}

/// Fails the read with this number, and answers whether there is none.
fn is_past_the_reads(
    rt: &(impl Abort + AllocGlobal),
    case: &Case,
    number: u64,
) -> Result<bool, Fail> {
    let ended = case.run(rt.alloc(), 7, &[number], &[])?;
    Ok(case.was_read(rt, &ended, number))
}

/// Fails the write with this number, and answers whether there is none.
fn is_past_the_writes(
    rt: &(impl Abort + AllocGlobal),
    case: &Case,
    number: u64,
) -> Result<bool, Fail> {
    let ended = case.run(rt.alloc(), 5, &[], &[number])?;
    Ok(case.was_written(rt, &ended))
}

#[test]
fn a_failed_read_leaves_the_blocks_before_it(rt: HostRuntime) -> Result<(), Fail> {
    let case = Case::new(rt.alloc())?;
    for number in 1..1000 {
        if is_past_the_reads(&rt, &case, number)? {
            // So many bytes don't come in fewer reads.
            assert!(rt; number > 1351 / 7);
            assert!(rt; is_past_the_reads(&rt, &case, number + 1)?);
            return Ok(());
        }
    }
    panic!(rt; "there are more reads")
}

#[test]
fn a_failed_write_leaves_a_front_of_the_cut(rt: HostRuntime) -> Result<(), Fail> {
    let case = Case::new(rt.alloc())?;
    for number in 1..1000 {
        if is_past_the_writes(&rt, &case, number)? {
            // So many bytes don't go in fewer writes.
            assert!(rt; number > 1310 / 5);
            assert!(rt; is_past_the_writes(&rt, &case, number + 1)?);
            return Ok(());
        }
    }
    panic!(rt; "there are more writes")
}

#[test]
fn a_call_of_many_bytes_may_fail_too(rt: HostRuntime) -> Result<(), Fail> {
    let case = Case::new(rt.alloc())?;
    let unwritten = case.run(rt.alloc(), 100, &[], &[3])?;
    case.assert_front(&rt, &unwritten);
    let unread = case.run(rt.alloc(), 100, &[2], &[])?;
    assert_eq!(rt; unread.status, 5);
    assert_eq!(rt; unread.notes.as_slice(), b"read fault\n".as_slice());
    assert!(rt; unread.text.is_empty());
    Ok(())
}
