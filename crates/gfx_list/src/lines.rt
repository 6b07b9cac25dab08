//! The lines of a source, which is read in pieces.
ghost use Rattle.std.specs.Prelude.{◌≡◌, ◌<◌, ◌≤◌, ◌+◌, ◌^◌, ℕ, List, [], ◌++◌, length, take, drop, true, IfOk, IfErr, OnErr, Err, MatchOption, vec_len};
ghost use Rattle.std.specs.Io.KnownBytes.{Consumes, IsAtEnd};
ghost use Rattle.gfx_io.specs.Causes.{Rose};
ghost use Rattle.gfx_text_grammar.specs.Splits.{is_without};
ghost use Rattle.gfx_list.specs.Lines.{Finds, FindsFeed, HasLineTo, IsUngiven};
ghost use Rattle.gfx_list.specs.Unlists.{read_ahead};

use crate::UnlistFault;
use crate::reading::read_some;
use gfx_io::Source;
use gfx_rewrite::remove_front;
use memchr::memchr;
use std::alloc::Global;
use std::marker::Model;

/// A line has fewer bytes, its line feed not counted.
const MAX_LINE: usize = 1 << 29;

const FEED: u8 = b'\n';

/// The lines of a source. Contracts see them as the bytes that were read and not passed yet.
#[derive(Drop)]
pub(crate) struct Lines {
    buffer: Vec<u8>,
    start: usize,
}

impl Model for Lines {
    ghost use Rattle.std.specs.Prelude.{◌≤◌, ℕ, List, drop, vec_len};

    ghost Value = { List ℕ };

    ghost view = { λ s. drop s.start s.buffer.items };

    ghost invariant = { λ s. s.start ≤ vec_len s.buffer };
}

impl Lines {
    /// Nothing was read yet.
    pub(crate) fn new(alloc: Global) -> Self
        ensures { result ≡ [] }
    {
        Lines {
            buffer: Vec::new(alloc),
            start: 0,
        }
    }

    /// Reads on up to the end of the next line, and answers how many bytes it has, its line feed not counted; None where nothing is left.
    /// The bad line, of this number, is one that the input ends in, or one with too many bytes.
    pub(crate) fn find_line<S: Source>(
        &mut self,
        source: &mut S,
        number: u64,
    ) -> Result<Option<usize>, UnlistFault>
        requires { length self.old < read_ahead }
        ensures finds { Finds number self.old (S.left source.old) self.new (S.left source.new) result }
        ensures later { S.faults source.old ≤ S.faults source.new }
        ensures cause { result ≡ Err UnlistFault.ReadFault → Rose (S.faults source.old) (S.faults source.new) }
    {
        match self.find_feed(source)? {
            Some(end) => {
                if MAX_LINE <= end {
                    return Err(UnlistFault::BadListing { line: number });
                }
                Ok(Some(end))
            }
            None => {
                if self.len() == 0 {
                    return Ok(None);
                }
                Err(UnlistFault::BadListing { line: number })
            }
        }
    }

    /// The first bytes, so many of them.
    pub(crate) fn line(&self, end: usize) -> &[u8]
        requires { end ≤ length self.now }
        ensures { result.now ≡ take end self.now }
    {
        &self.buffer[self.start..self.start + end]
    }

    /// Passes a line of so many bytes, and its line feed.
    pub(crate) fn pass(&mut self, end: usize)
        requires { end < length self.old }
        ensures { self.new ≡ drop (end + 1) self.old }
    {
        let feed = self.start + end;
        self.start = feed + 1;
    }

    /// How many bytes were read and not passed.
    fn len(&self) -> usize
        ensures { result ≡ length self.now }
    {
        self.buffer.len() - self.start
    }

    /// Reads on up to the first line feed, and answers how many bytes are before it; None where the input ends before one, or there are
    /// too many bytes for a line.
    fn find_feed<S: Source>(&mut self, source: &mut S) -> Result<Option<usize>, UnlistFault>
        requires { length self.old < read_ahead }
        ensures finds { FindsFeed self.old (S.left source.old) self.new (S.left source.new) result }
        ensures later { S.faults source.old ≤ S.faults source.new }
        ensures cause { result ≡ Err UnlistFault.ReadFault → Rose (S.faults source.old) (S.faults source.new) }
    {
        if let Some(end) = self.feed_behind(0) {
            return Ok(Some(end));
        }
        'pieces: while self.len() < MAX_LINE {
            let searched = self.len();
            if self.read_more(source)? == 0 {
                return Ok(None);
            }
            if let Some(end) = self.feed_behind(searched) {
                return Ok(Some(end));
            }
        }
        Ok(None)
    }

    /// How many bytes are before the first line feed, which is none of the first `searched` bytes.
    fn feed_behind(&self, searched: usize) -> Option<usize>
        requires within { searched ≤ length self.now }
        requires without { is_without 10 (take searched self.now) ≡ true }
        ensures { MatchOption result (is_without 10 self.now ≡ true) (λ end. HasLineTo end self.now) }
    {
        match memchr(FEED, &self.buffer[self.start + searched..]) {
            Some(at) => Some(searched + at),
            None => None,
        }
    }

    /// Reads some of the next bytes, none only where the input ends. What was passed is dropped.
    fn read_more<S: Source>(&mut self, source: &mut S) -> Result<usize, UnlistFault>
        requires { length self.old < 2 ^ 29 }
        ensures some { IfOk result (λ count. (piece : List ℕ) × (length piece ≡ count) × (self.new ≡ self.old ++ piece)
            × Consumes (S.left source.old) (S.left source.new) piece) }
        ensures ended { IfOk result (λ count. count ≡ 0 → IsAtEnd (S.left source.new)) }
        ensures few { IfOk result (λ count. count ≤ 2 ^ 16) }
        ensures none { OnErr result (Consumes (S.left source.old) (S.left source.new) []) }
        ensures why { IfErr result IsUngiven }
        ensures kept { result ≡ Err UnlistFault.ReadFault → self.new ≡ self.old }
        ensures later { S.faults source.old ≤ S.faults source.new }
        ensures cause { result ≡ Err UnlistFault.ReadFault → Rose (S.faults source.old) (S.faults source.new) }
    {
        remove_front(&mut self.buffer, self.start);
        self.start = 0;
        read_some(source, &mut self.buffer)
    }
}
