//! Names as keys of an ordered map.
ghost use Rattle.std.specs.Prelude.{◌≡◌, ◌≤◌, length, take, drop};
ghost use Rattle.gfx_script.specs.Keys.{key_of, packed};

/// The letters of a name as numbers, eight letters each. Two names have the same key just where they are the same.
#[derive(Clone, Copy, PartialEq, Eq, PartialOrd, Ord)]
pub(crate) struct Key {
    first: u64,
    second: u64,
    third: u64,
    fourth: u64,
}

impl Key {
    /// The key of a name.
    #[tactic(auto, unfolding(crate::specs::Keys::key_of))]
    pub(crate) fn of(name: &[u8]) -> Self
        ensures { result ≡ key_of name.now }
    {
        let (first, behind) = pack(name);
        let (second, behind) = pack(behind);
        let (third, behind) = pack(behind);
        let (fourth, _) = pack(behind);
        Key {
            first,
            second,
            third,
            fourth,
        }
    }
}

// The first eight letters as a number, and what follows them.
fn pack(letters: &[u8]) -> (u64, &[u8])
    ensures number { result.0 ≡ packed 0 (take 8 letters.now) }
    ensures behind { result.1.now ≡ drop 8 letters.now }
{
    let (front, behind) = letters.split_at(letters.len().min(8));
    (number(front), behind)
}

// Letters as a number, the first one its highest byte.
fn number(letters: &[u8]) -> u64
    requires { length letters.now ≤ 8 }
    ensures { result ≡ packed 0 letters.now }
{
    let mut number = 0;
    'letters: for letter in letters {
        number = 256 * number + u64::from(*letter);
    }
    number
}
