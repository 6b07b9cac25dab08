// Where bytes are not zero, looked for by blocks.
ghost use Rattle.std.specs.Prelude.{◌≡◌, ℕ, ◌+◌, ◌-◌, ◌<◌, ◌≤◌, ◌↔◌, length, slice_index, IsTrue, MatchOption};
ghost use Rattle.gfx_pages.specs.Used.{IsZero, IsUsed};

// The bytes that are asked at once whether they are all zero.
const BLOCK: usize = 256;

/// Of some bytes, those from `from` to below `end`.
#[derive(Clone, Copy)]
pub struct Used {
    pub from: usize,
    pub end: usize,
}

/// From the first byte that is not zero to the last, None where all are zero.
pub fn used_part(bytes: &[u8]) -> Option<Used>
    ensures { MatchOption result (IsZero bytes.now) (λ used. IsUsed bytes.now used.from used.end) }
{
    let end = used_end(bytes);
    if end == 0 {
        return None;
    }
    let from = used_start(bytes);
    Some(Used { from, end })
}

// The place of the first byte that is not zero, or the length.
fn used_start(bytes: &[u8]) -> usize
    ensures within { result ≤ length bytes.now }
    ensures below { (k : ℕ) → k < result → slice_index bytes.now k ≡ 0 }
    ensures here { result < length bytes.now → ¬ (slice_index bytes.now result ≡ 0) }
{
    let mut start = zero_blocks_end(bytes);
    while start < bytes.len() {
        if bytes[start] != 0 {
            return start;
        }
        start += 1;
    }
    start
}

// The place after the last byte that is not zero, or 0.
fn used_end(bytes: &[u8]) -> usize
    ensures within { result ≤ length bytes.now }
    ensures above { (k : ℕ) → result ≤ k → slice_index bytes.now k ≡ 0 }
    ensures here { 0 < result → ¬ (slice_index bytes.now (result - 1) ≡ 0) }
{
    let mut end = zero_blocks_start(bytes);
    while 0 < end {
        if bytes[end - 1] != 0 {
            return end;
        }
        end -= 1;
    }
    end
}

// The end of the blocks of zeros that the bytes begin with.
fn zero_blocks_end(bytes: &[u8]) -> usize
    ensures within { result ≤ length bytes.now }
    ensures below { (k : ℕ) → k < result → slice_index bytes.now k ≡ 0 }
{
    let mut end = 0;
    while BLOCK <= bytes.len() - end {
        if !is_zero(&bytes[end..end + BLOCK]) {
            return end;
        }
        end += BLOCK;
    }
    end
}

// The start of the blocks of zeros that the bytes end with.
fn zero_blocks_start(bytes: &[u8]) -> usize
    ensures within { result ≤ length bytes.now }
    ensures above { (k : ℕ) → result ≤ k → slice_index bytes.now k ≡ 0 }
{
    let mut start = bytes.len();
    while BLOCK <= start {
        if !is_zero(&bytes[start - BLOCK..start]) {
            return start;
        }
        start -= BLOCK;
    }
    start
}

// Whether each byte is zero, with no branch for a byte.
fn is_zero(bytes: &[u8]) -> bool
    ensures { IsTrue result ↔ IsZero bytes.now }
{
    let mut seen = 0;
    for byte in bytes {
        seen |= *byte;
    }
    seen == 0
}
