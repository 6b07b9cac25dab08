// The names of calls and metadata, and the numbers of their rows.
ghost use Rattle.std.specs.Prelude.{◌≡◌, ◌≤◌, ◌<◌, ℕ, IfSome, length, map, position};
ghost use Rattle.std.specs.Str.{bytes_eq};
ghost use Rattle.gfx_text_grammar.specs.FieldReading.{Left};
ghost use Rattle.gfx_text_grammar.specs.Reading.{Style};
ghost use Rattle.gfx_text_grammar.specs.Rows.{by_name, calls, metas};
ghost use Rattle.gfx_text.specs.Places.{place_of, row_found};

use gfx_types::{calls, metas};

/// The names of the rows of a table, and then these.
macro_rules! names {
    ([$($last:literal),*]; $($section:ident { $($row:literal $name:ident $method:ident($($field:ident: $mark:ident),+);)+ })+) => {
        [$($(stringify!($name),)+)+ $($last),*]
    };
}

const CALL_NAMES: [&str; 48] = calls!(names, ["QueuePresentKHR"]);

const META_NAMES: [&str; 4] = metas!(names, []);

/// The number of the row of this name, from 1 on.
pub(crate) fn call_row(name: &[u8]) -> Option<usize>
    ensures row { (s : Style) (m : ℕ) (left : Left) → by_name (calls s m) name.now left ≡ row_found 1 (calls s m) result left }
    ensures bounds { IfSome result (λ row. (1 ≤ row) × (row ≤ 48)) }
{
    match place_of(&CALL_NAMES, name) {
        Some(place) => Some(place + 1),
        None => None,
    }
}

/// The number of the row of this name, from 2 on.
pub(crate) fn meta_row(name: &[u8]) -> Option<usize>
    ensures row { (s : Style) (left : Left) → by_name (metas s) name.now left ≡ row_found 2 (metas s) result left }
    ensures bounds { IfSome result (λ row. (2 ≤ row) × (row ≤ 5)) }
{
    match place_of(&META_NAMES, name) {
        Some(place) => Some(place + 2),
        None => None,
    }
}

/// The place of this name.
fn place_of(names: &[&str], name: &[u8]) -> Option<usize>
    ensures place { result ≡ place_of (map (λ n. n.now) names.now) name.now }
    ensures below { IfSome result (λ place. place < length names.now) }
{
    position_of(names, name)
}

fn position_of(names: &[&str], name: &[u8]) -> Option<usize>
    ensures { result ≡ position (λ n. bytes_eq n.now name.now) names.now }
{
    names.iter().position(|known| known.as_bytes() == name)
}
