//! Whether the numbers of a long list occur once.
//!
//! The rules have no answer for a lack of memory, so a long list is sorted on the stack, in a function of its own that
//! is never inlined.

ghost use Rattle.std.specs.Prelude.{◌≡◌, ◌≤◌, true, length};
ghost use Rattle.gfx_model.specs.Limits.{max_list_length};
ghost use Rattle.gfx_model.specs.Checks as words;

use gfx_types::limits::MAX_LIST_LENGTH;

// Lists of so many numbers are searched about as fast as a place for sorting is made.
const FEW: usize = 512;

/// Whether the numbers of a long list are known to occur once, which takes n log n for any order of them. Of a list of few
/// numbers, or of more than a list may have, nothing is known.
pub fn stand_apart(ids: &[u64]) -> bool
    ensures { result ≡ true → words.is_distinct ids.now ≡ true }
{
    FEW < ids.len() && ids.len() <= MAX_LIST_LENGTH && are_apart(ids)
}

// Whether the numbers of a list occur once. Its frame has room for all of them, so it is kept out of its callers'.
#[inline(never)]
fn are_apart(ids: &[u64]) -> bool
    requires { length ids.now ≤ max_list_length }
    ensures { result ≡ true → words.is_distinct ids.now ≡ true }
{
    let mut place = [0; MAX_LIST_LENGTH];
    rise_when_sorted(&mut place[..ids.len()], ids)
}

// Whether the numbers rise when they are sorted, which happens in a place of their length.
fn rise_when_sorted(place: &mut [u64], ids: &[u64]) -> bool
    requires { length place.old ≡ length ids.now }
    ensures { result ≡ true → words.is_distinct ids.now ≡ true }
{
    place.copy_from_slice(ids);
    place.sort_unstable();
    rise(place)
}

// Whether each number is greater than the one before it.
fn rise(ids: &[u64]) -> bool
    ensures { result ≡ true → words.is_distinct ids.now ≡ true }
{
    let mut last = 0;
    'ids: for (at, id) in ids.iter().enumerate() {
        if 0 < at && *id <= last {
            return false;
        }
        last = *id;
    }
    true
}
