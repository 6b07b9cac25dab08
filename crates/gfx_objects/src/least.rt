//! The least of some ids.
ghost use Rattle.std.specs.Prelude.{◌≡◌, None, fold};
ghost use Rattle.gfx_objects.specs.Least.{lesser_of, least_with};

/// The least of these ids above the given one.
pub(crate) fn least_of(ids: &[u64], after: u64) -> Option<u64>
    ensures { result ≡ fold (least_with after) None ids.now }
{
    let mut least = None;
    'ids: for id in ids {
        if after < *id {
            least = Some(lesser(least, *id));
        }
    }
    least
}

// The lesser of an id and the one that was found before, where one was.
fn lesser(found: Option<u64>, id: u64) -> u64
    ensures { result ≡ lesser_of found id }
{
    match found {
        Some(other) => other.min(id),
        None => id,
    }
}
