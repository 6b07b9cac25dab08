//! Blocks around their payloads.
ghost use Rattle.std.specs.Prelude.{◌≡◌, ◌+◌, ◌-◌, ◌≤◌, ◌<◌, ◌++◌, length, take, drop, OnOk, OnErr, IfErr};
ghost use Rattle.std.specs.Int.{to_le_bytes, w32, w64};
ghost use Rattle.gfx_model.specs.Limits.{max_payload};

use crate::fault::LineFault;
use gfx_io::{WantMemory, put_u32, put_u64, set_u64};
use gfx_types::limits::MAX_PAYLOAD;

/// Appends 0 for the size of a block's payload, and the block's type. When out of memory some of it may follow
/// the old bytes.
pub(crate) fn begin_block(kind: u32, out: &mut Vec<u8>) -> Result<(), WantMemory>
    ensures ok { OnOk result (out.new.items ≡ out.old.items ++ (to_le_bytes w64 0 ++ to_le_bytes w32 kind)) }
    ensures err { OnErr result (take (length out.old.items) out.new.items ≡ out.old.items) }
{
    put_u64(out, 0)?;
    put_u32(out, kind)
}

/// Writes the size of the payload into the block that begins at `start` and ends with the bytes. BadLine where the
/// payload is larger than one may be; the bytes are unchanged then.
pub(crate) fn end_block(start: usize, out: &mut Vec<u8>) -> Result<(), LineFault>
    requires { start + 12 ≤ length out.old.items }
    ensures small { OnOk result (length out.old.items ≤ start + 12 + max_payload) }
    ensures sized { OnOk result (out.new.items ≡ take start out.old.items
        ++ to_le_bytes w64 (length out.old.items - start - 12) ++ drop (start + 8) out.old.items) }
    ensures bad { OnErr result (start + 12 + max_payload < length out.old.items) }
    ensures unchanged { OnErr result (out.new.items ≡ out.old.items) }
    ensures fault { IfErr result (λ fault. fault ≡ LineFault.BadLine) }
{
    let size = (out.len() - start - 12) as u64;
    if MAX_PAYLOAD < size {
        return Err(LineFault::BadLine);
    }
    set_u64(out, start, size);
    Ok(())
}
