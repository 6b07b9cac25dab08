// Copies, a page at a time at most.
ghost use Rattle.std.specs.Prelude.{◌≡◌, ◌+◌, ◌-◌, ◌/◌, ◌%◌, ◌<◌, ◌≤◌, length, drop, IfOk, OnOk, OnErr, slice_range};
ghost use Rattle.gfx_pages.specs.Lists.{KeepsOutside, overwrite};
ghost use lib.Seq.{paste};

use super::{Bytes, PAGE, part_size};
use crate::error::WantMemory;

impl Bytes {
    /// A copy of the bytes, in pages that both lists share until one of them writes there.
    pub fn share(&self) -> Result<Bytes, WantMemory>
        ensures { IfOk result (λ copy. copy ≡ self.now) }
    {
        let length = self.length();
        let mut copy = Bytes::new(self.alloc, length)?;
        copy.copy_from(0, self, 0, length)?;
        Ok(copy)
    }

    /// Puts `count` bytes of `other`, from `from` on, at `to`. Where both places begin a page, whole pages are shared.
    /// After an error only the `count` bytes from `to` on are not known.
    pub fn copy_from(
        &mut self,
        to: u64,
        other: &Bytes,
        from: u64,
        count: u64,
    ) -> Result<(), WantMemory>
        requires room { to + count ≤ length self.old }
        requires there { from + count ≤ length other.now }
        ensures ok { OnOk result (self.new ≡ overwrite self.old to (slice_range other.now from (from + count))) }
        ensures outside { KeepsOutside self.old self.new to count }
    {
        let _length = self.length();
        let _other_length = other.length();
        let mut done = 0;
        while done < count {
            let size = part_size(to + done, part_size(from + done, count - done));
            self.copy_part(to + done, other, from + done, size)?;
            done += size;
        }
        Ok(())
    }

    /// Puts the `count` bytes from `from` on at `to`, as they were before the call; the two ranges may overlap. After
    /// an error only the `count` bytes from `to` on are not known.
    pub fn copy_within(&mut self, to: u64, from: u64, count: u64) -> Result<(), WantMemory>
        requires room { to + count ≤ length self.old }
        requires there { from + count ≤ length self.old }
        ensures ok { OnOk result (self.new ≡ overwrite self.old to (slice_range self.old from (from + count))) }
        ensures outside { KeepsOutside self.old self.new to count }
    {
        if to <= from {
            self.copy_down(to, from, count)
        } else {
            self.copy_up(to, from, count)
        }
    }

    // From the first byte to the last.
    fn copy_down(&mut self, to: u64, from: u64, count: u64) -> Result<(), WantMemory>
        requires down { to ≤ from }
        requires there { from + count ≤ length self.old }
        ensures ok { OnOk result (self.new ≡ paste self.old to (drop from self.old) count) }
        ensures outside { KeepsOutside self.old self.new to count }
    {
        let _length = self.length();
        let mut done = 0;
        while done < count {
            let size = part_size(to + done, part_size(from + done, count - done));
            self.move_part(to + done, from + done, size)?;
            done += size;
        }
        Ok(())
    }

    // From the last byte to the first.
    fn copy_up(&mut self, to: u64, from: u64, count: u64) -> Result<(), WantMemory>
        requires up { from ≤ to }
        requires room { to + count ≤ length self.old }
        ensures ok { OnOk result (self.new ≡ paste self.old to (drop from self.old) count) }
        ensures outside { KeepsOutside self.old self.new to count }
    {
        let _length = self.length();
        let mut left = count;
        while left > 0 {
            let size = part_size_before(to + left, part_size_before(from + left, left));
            left -= size;
            self.move_part(to + left, from + left, size)?;
        }
        Ok(())
    }

    // Copies a part that lies in one page, here and there.
    fn copy_part(&mut self, to: u64, other: &Bytes, from: u64, size: u64) -> Result<(), WantMemory>
        requires some { 0 < size }
        requires one_page { to % PAGE + size ≤ PAGE }
        requires one_page_there { from % PAGE + size ≤ PAGE }
        requires room { to + size ≤ length self.old }
        requires there { from + size ≤ length other.now }
        ensures ok { OnOk result (self.new ≡ paste self.old to (drop from other.now) size) }
        ensures err { OnErr result (self.new ≡ self.old) }
    {
        let index = (to / PAGE) as usize;
        let offset = (to % PAGE) as usize;
        let source = &other.pages[(from / PAGE) as usize];
        self.pages[index].copy(
            self.alloc,
            offset,
            source,
            (from % PAGE) as usize,
            size as usize,
        )
    }

    // Moves a part that lies in one page, before and after.
    fn move_part(&mut self, to: u64, from: u64, size: u64) -> Result<(), WantMemory>
        requires some { 0 < size }
        requires one_page { to % PAGE + size ≤ PAGE }
        requires one_page_there { from % PAGE + size ≤ PAGE }
        requires room { to + size ≤ length self.old }
        requires there { from + size ≤ length self.old }
        ensures ok { OnOk result (self.new ≡ paste self.old to (drop from self.old) size) }
        ensures err { OnErr result (self.new ≡ self.old) }
    {
        if to / PAGE == from / PAGE {
            self.move_within_page(to, from, size)
        } else {
            self.move_between_pages(to, from, size)
        }
    }

    fn move_within_page(&mut self, to: u64, from: u64, size: u64) -> Result<(), WantMemory>
        requires some { 0 < size }
        requires same_page { to / PAGE ≡ from / PAGE }
        requires one_page { to % PAGE + size ≤ PAGE }
        requires one_page_there { from % PAGE + size ≤ PAGE }
        requires room { to + size ≤ length self.old }
        requires there { from + size ≤ length self.old }
        ensures ok { OnOk result (self.new ≡ paste self.old to (drop from self.old) size) }
        ensures err { OnErr result (self.new ≡ self.old) }
    {
        let index = (to / PAGE) as usize;
        let offset = (to % PAGE) as usize;
        self.pages[index].copy_within(self.alloc, offset, (from % PAGE) as usize, size as usize)
    }

    fn move_between_pages(&mut self, to: u64, from: u64, size: u64) -> Result<(), WantMemory>
        requires some { 0 < size }
        requires one_page { to % PAGE + size ≤ PAGE }
        requires one_page_there { from % PAGE + size ≤ PAGE }
        requires room { to + size ≤ length self.old }
        requires there { from + size ≤ length self.old }
        ensures ok { OnOk result (self.new ≡ paste self.old to (drop from self.old) size) }
        ensures err { OnErr result (self.new ≡ self.old) }
    {
        let source = self.pages[(from / PAGE) as usize].share()?;
        let index = (to / PAGE) as usize;
        let offset = (to % PAGE) as usize;
        self.pages[index].copy(
            self.alloc,
            offset,
            &source,
            (from % PAGE) as usize,
            size as usize,
        )
    }
}

// How many of the `left` bytes that end at `end` lie in the page of the last.
fn part_size_before(end: u64, left: u64) -> u64
    requires some { 0 < left }
    requires there { left ≤ end }
    ensures some { 0 < result }
    ensures within { result ≤ left }
    ensures one_page { result ≤ (end - 1) % PAGE + 1 }
{
    left.min((end - 1) % PAGE + 1)
}
