// Changes of bytes that others may share: where they do, the bytes are copied first.
ghost use Rattle.std.specs.Prelude.{◌≡◌, ◌+◌, ◌≤◌, length, drop, replicate, OnOk, OnErr, IfOk};
ghost use lib.Seq.{paste};

use crate::error::WantMemory;
use std::alloc::Global;
use std::sync::Arc;

/// Puts `part` at `offset`. After an error the bytes are as they were.
pub fn put(
    alloc: Global,
    shared: &mut Arc<Vec<u8>>,
    offset: usize,
    part: &[u8],
) -> Result<(), WantMemory>
    requires { offset + length part.now ≤ length shared.old.value.items }
    ensures ok { OnOk result (shared.new.value.items ≡ paste shared.old.value.items offset part.now (length part.now)) }
    ensures err { OnErr result (shared.new.value.items ≡ shared.old.value.items) }
{
    unshare(alloc, shared)?;
    let bytes = Arc::make_mut(shared)?;
    put_into(bytes, offset, part);
    Ok(())
}

/// Puts `count` zeros at `offset`. After an error the bytes are as they were.
pub fn clear(
    alloc: Global,
    shared: &mut Arc<Vec<u8>>,
    offset: usize,
    count: usize,
) -> Result<(), WantMemory>
    requires { offset + count ≤ length shared.old.value.items }
    ensures ok { OnOk result (shared.new.value.items ≡ paste shared.old.value.items offset (replicate count 0) count) }
    ensures err { OnErr result (shared.new.value.items ≡ shared.old.value.items) }
{
    unshare(alloc, shared)?;
    let bytes = Arc::make_mut(shared)?;
    clear_in(bytes, offset, count);
    Ok(())
}

/// Puts the `count` bytes from `from` on at `offset`; the two ranges may overlap. After an error the bytes are as they were.
pub fn move_within(
    alloc: Global,
    shared: &mut Arc<Vec<u8>>,
    offset: usize,
    from: usize,
    count: usize,
) -> Result<(), WantMemory>
    requires room { offset + count ≤ length shared.old.value.items }
    requires there { from + count ≤ length shared.old.value.items }
    ensures ok { OnOk result (shared.new.value.items ≡ paste shared.old.value.items offset (drop from shared.old.value.items) count) }
    ensures err { OnErr result (shared.new.value.items ≡ shared.old.value.items) }
{
    unshare(alloc, shared)?;
    let bytes = Arc::make_mut(shared)?;
    move_in(bytes, offset, from, count);
    Ok(())
}

/// The `size` bytes of a page that is kept from now on: zeros but for `part` at `offset`.
pub fn zeros_around(
    alloc: Global,
    size: usize,
    offset: usize,
    part: &[u8],
) -> Result<Arc<Vec<u8>>, WantMemory>
    requires { offset + length part.now ≤ size }
    ensures { IfOk result (λ made. made.value.items ≡ paste (replicate size 0) offset part.now (length part.now)) }
{
    let mut bytes = Vec::with_capacity(alloc, size)?;
    bytes.resize(offset, 0)?;
    bytes.extend_from_slice(part)?;
    bytes.resize(size, 0)?;
    Ok(Arc::new(alloc, bytes)?)
}

// Makes the bytes those of one owner. `make_mut` would copy them one by one.
fn unshare(alloc: Global, shared: &mut Arc<Vec<u8>>) -> Result<(), WantMemory>
    ensures { shared.new.value.items ≡ shared.old.value.items }
{
    if Arc::strong_count(shared) > 1 {
        let own = Vec::from_slice(alloc, shared.as_slice())?;
        *shared = Arc::new(alloc, own)?;
    }
    Ok(())
}

fn put_into(bytes: &mut Vec<u8>, offset: usize, part: &[u8])
    requires { offset + length part.now ≤ length bytes.old.items }
    ensures { bytes.new.items ≡ paste bytes.old.items offset part.now (length part.now) }
{
    let end = offset + part.len();
    bytes[offset..end].copy_from_slice(part);
}

fn clear_in(bytes: &mut Vec<u8>, offset: usize, count: usize)
    requires { offset + count ≤ length bytes.old.items }
    ensures { bytes.new.items ≡ paste bytes.old.items offset (replicate count 0) count }
{
    bytes[offset..offset + count].fill(0);
}

fn move_in(bytes: &mut Vec<u8>, offset: usize, from: usize, count: usize)
    requires room { offset + count ≤ length bytes.old.items }
    requires there { from + count ≤ length bytes.old.items }
    ensures { bytes.new.items ≡ paste bytes.old.items offset (drop from bytes.old.items) count }
{
    bytes.copy_within(from..from + count, offset);
}
