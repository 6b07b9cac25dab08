// What a state section reads of the bytes of places.
ghost use Rattle.std.specs.Prelude.{◌≡◌, ◌+◌, ◌≤◌, ℕ, List, [], Option, IsSome, IsSomeAnd, find, length, nat_le, slice_range, unwrap_or};
ghost use Rattle.std.specs.Option.{option_map};
ghost use Rattle.gfx_pages.specs.Fills.{fills};

use gfx_pages::Span;
use gfx_types::Place;

/// The bytes of places: of memories, and of images that stand for themselves.
pub trait StateBytes {
    ghost use Rattle.gfx_types.specs.declared.op.Place.{Place};

    ghost bytes: { Self → Place → Option (List ℕ) };

    /// How many bytes a place has; `None` exactly where there is no such place.
    fn length(&self, place: Place) -> Option<u64>
        ensures { result ≡ option_map length (bytes self.now place) };

    /// The first fill of a place that begins at `after` or later.
    fn next_fill(&self, place: Place, after: u64) -> Option<Span>
        requires { IsSome (bytes self.now place) }
        ensures { result ≡ find (λ fill. nat_le after fill.at) (fills (unwrap_or (bytes self.now place) [])) };

    /// Reads a place's bytes from `at` on. Takes no memory.
    fn read(&self, place: Place, at: u64, into: &mut [u8])
        requires { IsSomeAnd (bytes self.now place) (λ all. at + length into.old ≤ length all) }
        ensures { into.new ≡ slice_range (unwrap_or (bytes self.now place) []) at (at + length into.old) };
}
