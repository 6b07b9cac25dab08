// One page, and what reads and changes a part of it.
ghost use Rattle.std.specs.Prelude.{◌≡◌, ◌+◌, ◌≤◌, length, take, drop, replicate, OnOk, OnErr, IfOk, MatchOption};
ghost use Rattle.gfx_pages.specs.Used.{IsZero, IsUsed};
ghost use Rattle.gfx_pages.specs.Page.{page_bytes};
ghost use lib.Seq.{paste};

use crate::error::WantMemory;
use crate::scan::{Used, used_part};
use crate::shared::{clear, move_within, put, zeros_around};
use std::alloc::Global;
use std::sync::Arc;

/// A page of bytes. An absent one reads as zeros, and has only its size in bytes. A kept one may have several owners.
#[derive(Drop)]
pub enum Page {
    Absent(usize),
    Kept(Arc<Vec<u8>>),
}

impl Page {
    // How many bytes the page has.
    fn size(&self) -> usize
        ensures { result ≡ length (page_bytes self.now) }
    {
        match self {
            Page::Absent(size) => *size,
            Page::Kept(bytes) => bytes.len(),
        }
    }

    /// Reads the bytes from `offset` on. Takes no memory.
    pub fn read_into(&self, offset: usize, into: &mut [u8])
        requires { offset + length into.old ≤ length (page_bytes self.now) }
        ensures { into.new ≡ take (length into.old) (drop offset (page_bytes self.now)) }
    {
        match self {
            Page::Absent(_) => into.fill(0),
            Page::Kept(bytes) => {
                let end = offset + into.len();
                into.copy_from_slice(&bytes[offset..end]);
            }
        }
    }

    /// From the first byte that is not zero to the last, None where all are zero.
    pub fn used(&self) -> Option<Used>
        ensures { MatchOption result (IsZero (page_bytes self.now)) (λ used. IsUsed (page_bytes self.now) used.from used.end) }
    {
        match self {
            Page::Absent(_) => None,
            Page::Kept(bytes) => used_part(bytes),
        }
    }

    /// Another owner of the same bytes.
    pub fn share(&self) -> Result<Page, WantMemory>
        ensures { IfOk result (λ page. page_bytes page ≡ page_bytes self.now) }
    {
        match self {
            Page::Absent(size) => Ok(Page::Absent(*size)),
            Page::Kept(bytes) => Ok(Page::Kept(bytes.clone()?)),
        }
    }

    /// Puts `part` at `offset`. After an error the bytes are as they were.
    pub fn write(&mut self, alloc: Global, offset: usize, part: &[u8]) -> Result<(), WantMemory>
        requires { offset + length part.now ≤ length (page_bytes self.old) }
        ensures ok { OnOk result (page_bytes self.new ≡ paste (page_bytes self.old) offset part.now (length part.now)) }
        ensures err { OnErr result (page_bytes self.new ≡ page_bytes self.old) }
    {
        match self {
            Page::Absent(size) => {
                let bytes = zeros_around(alloc, *size, offset, part)?;
                *self = Page::Kept(bytes);
                Ok(())
            }
            Page::Kept(bytes) => put(alloc, bytes, offset, part),
        }
    }

    /// Puts `count` zeros at `offset`. An absent page stays absent, and a page that is cleared whole becomes absent. After an
    /// error the bytes are as they were.
    pub fn clear(&mut self, alloc: Global, offset: usize, count: usize) -> Result<(), WantMemory>
        requires { offset + count ≤ length (page_bytes self.old) }
        ensures ok { OnOk result (page_bytes self.new ≡ paste (page_bytes self.old) offset (replicate count 0) count) }
        ensures err { OnErr result (page_bytes self.new ≡ page_bytes self.old) }
    {
        if count == self.size() {
            *self = Page::Absent(count);
            return Ok(());
        }
        match self {
            Page::Absent(_) => Ok(()),
            Page::Kept(bytes) => clear(alloc, bytes, offset, count),
        }
    }

    /// Puts `count` bytes of `source`, from `from` on, at `offset`. A page that is copied whole over another is shared. After an
    /// error the bytes are as they were.
    pub fn copy(
        &mut self,
        alloc: Global,
        offset: usize,
        source: &Page,
        from: usize,
        count: usize,
    ) -> Result<(), WantMemory>
        requires room { offset + count ≤ length (page_bytes self.old) }
        requires there { from + count ≤ length (page_bytes source.now) }
        ensures ok { OnOk result (page_bytes self.new ≡ paste (page_bytes self.old) offset (drop from (page_bytes source.now)) count) }
        ensures err { OnErr result (page_bytes self.new ≡ page_bytes self.old) }
    {
        if count == source.size() && count == self.size() {
            *self = source.share()?;
            return Ok(());
        }
        match source {
            Page::Absent(_) => self.clear(alloc, offset, count),
            Page::Kept(bytes) => self.write(alloc, offset, &bytes[from..from + count]),
        }
    }

    /// Puts the `count` bytes from `from` on at `offset`; the two ranges may overlap. After an error the bytes are as they were.
    pub fn copy_within(
        &mut self,
        alloc: Global,
        offset: usize,
        from: usize,
        count: usize,
    ) -> Result<(), WantMemory>
        requires room { offset + count ≤ length (page_bytes self.old) }
        requires there { from + count ≤ length (page_bytes self.old) }
        ensures ok { OnOk result (page_bytes self.new ≡ paste (page_bytes self.old) offset (drop from (page_bytes self.old)) count) }
        ensures err { OnErr result (page_bytes self.new ≡ page_bytes self.old) }
    {
        match self {
            Page::Absent(_) => Ok(()),
            Page::Kept(bytes) => move_within(alloc, bytes, offset, from, count),
        }
    }
}
