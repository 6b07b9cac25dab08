// A word that is repeated.
ghost use Rattle.std.specs.Prelude.{◌≡◌, ◌+◌, ◌%◌, ◌<◌, ◌≤◌, ◌⊎◌, length, replicate, OnOk, OnErr};
ghost use Rattle.gfx_pages.specs.Lists.{KeepsOutside, overwrite, repeated};
ghost use lib.Seq.{paste};

use super::{Bytes, PAGE, part_size};
use crate::error::WantMemory;

// The bytes that are written at once.
const CHUNK: u64 = 4_096;

// The most bytes that are written without a chunk.
const FEW: u64 = 64;

impl Bytes {
    /// Puts `word`, its least significant byte first, again and again into the `count` bytes from `at` on. After an
    /// error only those bytes are not known. A page that is absent stays so where the word is zero.
    pub fn fill(&mut self, at: u64, count: u64, word: u32) -> Result<(), WantMemory>
        requires { at + count ≤ length self.old }
        ensures ok { OnOk result (self.new ≡ overwrite self.old at (repeated word count)) }
        ensures outside { KeepsOutside self.old self.new at count }
    {
        if word == 0 {
            return self.clear(at, count);
        }
        if count <= FEW {
            return self.fill_few(at, count, word);
        }
        let _length = self.length();
        let mut buffer = [0u8; CHUNK as usize];
        let pattern = &mut buffer[..count.min(CHUNK) as usize];
        repeat(word, pattern);
        let mut done = 0;
        while done < count {
            let size = CHUNK.min(count - done);
            self.write(at + done, &pattern[..size as usize])?;
            done += size;
        }
        Ok(())
    }

    // Repeats `word` over the `count` bytes from `at` on, at most FEW, for which a chunk would cost more than they do.
    fn fill_few(&mut self, at: u64, count: u64, word: u32) -> Result<(), WantMemory>
        requires few { count ≤ 64 }
        requires inside { at + count ≤ length self.old }
        ensures ok { OnOk result (self.new ≡ overwrite self.old at (repeated word count)) }
        ensures outside { KeepsOutside self.old self.new at count }
    {
        let _length = self.length();
        let mut buffer = [0u8; FEW as usize];
        let pattern = &mut buffer[..count as usize];
        repeat(word, pattern);
        self.write(at, pattern)
    }

    // Puts zeros into the `count` bytes from `at` on.
    fn clear(&mut self, at: u64, count: u64) -> Result<(), WantMemory>
        requires { at + count ≤ length self.old }
        ensures ok { OnOk result (self.new ≡ paste self.old at (replicate count 0) count) }
        ensures outside { KeepsOutside self.old self.new at count }
    {
        let _length = self.length();
        let mut done = 0;
        while done < count {
            let size = part_size(at + done, count - done);
            self.clear_part(at + done, size)?;
            done += size;
        }
        Ok(())
    }

    // Puts zeros into a part that lies in one page.
    fn clear_part(&mut self, at: u64, size: u64) -> Result<(), WantMemory>
        requires some { 0 < size }
        requires one_page { at % PAGE + size ≤ PAGE }
        requires inside { at + size ≤ length self.old }
        ensures ok { OnOk result (self.new ≡ paste self.old at (replicate size 0) size) }
        ensures err { OnErr result (self.new ≡ self.old) }
    {
        let index = (at / PAGE) as usize;
        let offset = (at % PAGE) as usize;
        self.pages[index].clear(self.alloc, offset, size as usize)
    }
}

// Fills a slice with a word, again and again.
fn repeat(word: u32, into: &mut [u8])
    ensures { into.new ≡ repeated word (length into.old) }
{
    let bytes = word.to_le_bytes();
    for k in 0..into.len() {
        into[k] = bytes[k % 4];
    }
}
