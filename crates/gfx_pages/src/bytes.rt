// A list of pages.
ghost use Rattle.std.specs.Prelude.{◌≡◌, ℕ, ◌+◌, ◌*◌, ◌%◌, ◌<◌, ◌≤◌, List, length, take, drop, find, nat_le, option_map, replicate, OnOk, OnErr, IfOk, slice_index, slice_range};
ghost use Rattle.gfx_pages.specs.Lists.{KeepsOutside, overwrite};
ghost use Rattle.gfx_model.specs.Section.{page_fill};
ghost use Rattle.gfx_pages.specs.Fills.{span_at, fills};
ghost use lib.Seq.{paste};

mod copy;
mod fill;

use crate::error::WantMemory;
use crate::page::Page;
use std::alloc::Global;
use std::marker::Model;

// The bytes of a page; the last page may have fewer.
const PAGE: u64 = 65_536;

/// The `length` bytes from `at` on.
#[derive(Debug, Clone, Copy, PartialEq, Eq)]
pub struct Span {
    pub at: u64,
    pub length: u64,
}

/// A list of bytes of a fixed length. Contracts see the list.
#[derive(Drop)]
pub struct Bytes {
    pages: Vec<Page>,
    length: u64,
    alloc: Global,
}

impl Model for Bytes {
    ghost use Rattle.gfx_pages.specs.declared.bytes.TheConstants.{PAGE};
    ghost use Rattle.std.specs.Prelude.{List, ℕ};
    ghost use Rattle.std.specs.List.{flat_map};
    ghost use Rattle.gfx_pages.specs.Page.{page_bytes, WellPaged};

    ghost Value = { List ℕ };

    ghost view = { λ b. flat_map page_bytes b.pages.items };

    ghost invariant = { λ b. WellPaged PAGE b.pages.items b.length };
}

impl Bytes {
    /// `length` zeros, which take memory for a list of pages alone.
    pub fn new(alloc: Global, length: u64) -> Result<Bytes, WantMemory>
        ensures { IfOk result (λ bytes. bytes ≡ replicate length 0) }
    {
        let whole = length / PAGE;
        let last = length % PAGE;
        let mut pages = Vec::with_capacity(alloc, whole as usize + 1)?;
        for _i in 0..whole {
            pages.push(Page::Absent(PAGE as usize))?;
        }
        if last > 0 {
            pages.push(Page::Absent(last as usize))?;
        }
        Ok(Bytes {
            pages,
            length,
            alloc,
        })
    }

    /// How many bytes there are.
    pub fn length(&self) -> u64
        ensures { result ≡ length self.now }
    {
        self.length
    }

    /// Reads the bytes from `at` on. Takes no memory.
    pub fn read_into(&self, at: u64, into: &mut [u8])
        requires { at + length into.old ≤ length self.now }
        ensures { into.new ≡ slice_range self.now at (at + length into.old) }
    {
        let _length = self.length();
        let mut done = 0;
        while done < into.len() {
            let from = at + done as u64;
            let end = done + part_size(from, (into.len() - done) as u64) as usize;
            self.read_part(from, &mut into[done..end]);
            done = end;
        }
    }

    /// Writes `piece` at `at`. After an error only the bytes in its place are not known.
    pub fn write(&mut self, at: u64, piece: &[u8]) -> Result<(), WantMemory>
        requires { at + length piece.now ≤ length self.old }
        ensures ok { OnOk result (self.new ≡ overwrite self.old at piece.now) }
        ensures outside { KeepsOutside self.old self.new at (length piece.now) }
    {
        let _length = self.length();
        let mut done = 0;
        while done < piece.len() {
            let from = at + done as u64;
            let end = done + part_size(from, (piece.len() - done) as u64) as usize;
            self.write_part(from, &piece[done..end])?;
            done = end;
        }
        Ok(())
    }

    /// The first fill that begins at `after` or later. The fills are, for each page of 65,536 bytes (the last may be
    /// shorter) that has a byte other than zero, the range from its first to its last such byte.
    pub fn next_fill(&self, after: u64) -> Option<Span>
        ensures { result ≡ find (λ fill. nat_le after fill.at) (fills self.now) }
    {
        let _length = self.length();
        let first = (after / PAGE) as usize;
        for index in first..self.pages.len() {
            if let Some(fill) = self.page_fill(index) {
                if after <= fill.at {
                    return Some(fill);
                }
            }
        }
        None
    }

    // The fill of one page.
    fn page_fill(&self, index: usize) -> Option<Span>
        requires { PAGE * index < length self.now }
        ensures { result ≡ option_map span_at (page_fill (slice_index self.now) (length self.now) index) }
    {
        let _length = self.length();
        let used = self.pages[index].used()?;
        let at = PAGE * index as u64 + used.from as u64;
        let length = (used.end - used.from) as u64;
        Some(Span { at, length })
    }

    // Reads a part that lies in one page.
    fn read_part(&self, at: u64, into: &mut [u8])
        requires some { 0 < length into.old }
        requires one_page { at % PAGE + length into.old ≤ PAGE }
        requires inside { at + length into.old ≤ length self.now }
        ensures { into.new ≡ take (length into.old) (drop at self.now) }
    {
        let index = (at / PAGE) as usize;
        let offset = (at % PAGE) as usize;
        self.pages[index].read_into(offset, into);
    }

    // Writes a part that lies in one page.
    fn write_part(&mut self, at: u64, part: &[u8]) -> Result<(), WantMemory>
        requires some { 0 < length part.now }
        requires one_page { at % PAGE + length part.now ≤ PAGE }
        requires inside { at + length part.now ≤ length self.old }
        ensures ok { OnOk result (self.new ≡ paste self.old at part.now (length part.now)) }
        ensures err { OnErr result (self.new ≡ self.old) }
    {
        let index = (at / PAGE) as usize;
        let offset = (at % PAGE) as usize;
        self.pages[index].write(self.alloc, offset, part)
    }
}

// How many of the `left` bytes from `at` on lie in the page of the first.
fn part_size(at: u64, left: u64) -> u64
    requires { 0 < left }
    ensures some { 0 < result }
    ensures within { result ≤ left }
    ensures one_page { at % PAGE + result ≤ PAGE }
{
    left.min(PAGE - at % PAGE)
}
