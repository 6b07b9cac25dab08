//! The lines of a text.
ghost use Rattle.std.specs.Prelude.{◌≡◌, ◌==◌, [], MatchOption};
ghost use Rattle.std.specs.List.{position};
ghost use Rattle.gfx_script.specs.Cuts.{IsFirstLine};

/// The first line of a text, without its line feed, and what follows it. None where nothing is left.
pub(crate) fn first_line(text: &[u8]) -> Option<(&[u8], &[u8])>
    ensures { MatchOption result (text.now ≡ []) (λ cut. IsFirstLine text.now cut.0.now cut.1.now) }
{
    match line_feed(text) {
        Some(end) => {
            let (line, _) = text.split_at(end);
            let (_, behind) = text.split_at(end + 1);
            Some((line, behind))
        }
        None if text.is_empty() => None,
        None => Some((text, &[])),
    }
}

// Where the first line feed is.
fn line_feed(text: &[u8]) -> Option<usize>
    ensures { result ≡ position (λ c. c == 10) text.now }
{
    text.iter().position(|byte| *byte == b'\n')
}
