// The rows of a copy.
//
// Rows that follow one another on both sides are copied as one range, so narrow copies are as fast as memory.
ghost use Rattle.std.specs.Prelude.{◌≡◌, ◌<◌, length, OnOk};
ghost use Rattle.gfx_device.specs.Rows.{copied, AreWithin};

use gfx_pages::{Bytes, WantMemory};

/// So many `rows` of `length` bytes each, the first at the two offsets and each next one step further; offsets and steps are in bytes.
#[derive(Clone, Copy)]
pub struct Rows {
    pub to_offset: u64,
    pub to_step: u64,
    pub from_offset: u64,
    pub from_step: u64,
    pub length: u64,
    pub rows: u64,
}

/// Copies rows of other bytes, in order. After an error the bytes of the target are not known; they are as many as before.
pub fn copy_apart(target: &mut Bytes, source: &Bytes, copy: Rows) -> Result<(), WantMemory>
    requires to { AreWithin (length target.old) copy.to_offset copy.to_step copy.length copy.rows }
    requires from { AreWithin (length source.now) copy.from_offset copy.from_step copy.length copy.rows }
    ensures ok { OnOk result (target.new ≡ copied copy (λ _. source.now) copy.rows target.old) }
    ensures same_length { length target.new ≡ length target.old }
{
    let without_gap = copy.to_step == copy.length && copy.from_step == copy.length;
    if copy.rows > 0 && without_gap {
        copy_joined(target, source, copy)
    } else {
        copy_rows(target, source, copy)
    }
}

// Copies rows that follow one another without a gap on both sides, as one.
fn copy_joined(target: &mut Bytes, source: &Bytes, copy: Rows) -> Result<(), WantMemory>
    requires some { 0 < copy.rows }
    requires to_step { copy.to_step ≡ copy.length }
    requires from_step { copy.from_step ≡ copy.length }
    requires to { AreWithin (length target.old) copy.to_offset copy.to_step copy.length copy.rows }
    requires from { AreWithin (length source.now) copy.from_offset copy.from_step copy.length copy.rows }
    ensures ok { OnOk result (target.new ≡ copied copy (λ _. source.now) copy.rows target.old) }
    ensures same_length { length target.new ≡ length target.old }
{
    let _lengths = (target.length(), source.length());
    target.copy_from(
        copy.to_offset,
        source,
        copy.from_offset,
        copy.rows * copy.length,
    )
}

// Copies rows of other bytes one by one.
fn copy_rows(target: &mut Bytes, source: &Bytes, copy: Rows) -> Result<(), WantMemory>
    requires to { AreWithin (length target.old) copy.to_offset copy.to_step copy.length copy.rows }
    requires from { AreWithin (length source.now) copy.from_offset copy.from_step copy.length copy.rows }
    ensures ok { OnOk result (target.new ≡ copied copy (λ _. source.now) copy.rows target.old) }
    ensures same_length { length target.new ≡ length target.old }
{
    let _lengths = (target.length(), source.length());
    for row in 0..copy.rows {
        let to = copy.to_offset + row * copy.to_step;
        let from = copy.from_offset + row * copy.from_step;
        target.copy_from(to, source, from, copy.length)?;
    }
    Ok(())
}

/// Copies rows of the same bytes, in order: a row may have what an earlier one wrote. After an error the bytes are not known;
/// they are as many as before.
pub fn move_rows(bytes: &mut Bytes, copy: Rows) -> Result<(), WantMemory>
    requires to { AreWithin (length bytes.old) copy.to_offset copy.to_step copy.length copy.rows }
    requires from { AreWithin (length bytes.old) copy.from_offset copy.from_step copy.length copy.rows }
    ensures ok { OnOk result (bytes.new ≡ copied copy (λ here. here) copy.rows bytes.old) }
    ensures same_length { length bytes.new ≡ length bytes.old }
{
    let _length = bytes.length();
    for row in 0..copy.rows {
        let to = copy.to_offset + row * copy.to_step;
        let from = copy.from_offset + row * copy.from_step;
        bytes.copy_within(to, from, copy.length)?;
    }
    Ok(())
}
