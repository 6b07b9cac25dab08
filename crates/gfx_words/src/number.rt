//! Numbers on the command line.
ghost use Rattle.std.specs.Prelude.{◌≡◌, ◌≢◌, ◌<◌, ◌^◌, ℕ, IfSome, IsNone, decimal};
ghost use Rattle.gfx_words.specs.Digits.{is_plain};

/// The number that the text spells in decimal digits, without sign or leading zero.
pub(crate) fn number_of(text: &str) -> Option<u64>
    ensures some { IfSome result (λ n. text.now ≡ decimal n) }
    ensures small { IfSome result (λ n. n < 2 ^ 64) }
    ensures none { IsNone result → (n : ℕ) → n < 2 ^ 64 → text.now ≢ decimal n }
{
    match text.parse::<u64>() {
        Ok(n) if is_plain(text.as_bytes()) => Some(n),
        _ => None,
    }
}

// Whether digits have no sign, and no zero before it.
#[tactic(auto, unfolding(crate::specs::Digits::is_plain))]
fn is_plain(digits: &[u8]) -> bool
    ensures { result ≡ is_plain digits.now }
{
    if digits.is_empty() {
        return false;
    }
    if digits[0] == b'0' {
        digits.len() == 1
    } else {
        digits[0] >= b'1' && digits[0] <= b'9'
    }
}
