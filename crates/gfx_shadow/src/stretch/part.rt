//! Bytes of a stretch that are written, lent and taken over.
ghost use Rattle.std.specs.Prelude.{◌≡◌, ℕ, ◌+◌, ◌-◌, ◌<◌, ◌≤◌, length, slice_index, max, min, Some};
ghost use Rattle.gfx_shadow.specs.Overlay.{overlay, either};
ghost use Rattle.gfx_shadow.specs.Stretch.{stretch_byte, HasRoom};
ghost use lib.Seq.{paste};

use super::Stretch;

// Writes a piece over bytes.
fn put_into(bytes: &mut Vec<u8>, at: usize, piece: &[u8])
    requires { at + length piece.now ≤ length bytes.old.items }
    ensures { bytes.new.items ≡ paste bytes.old.items at piece.now (length piece.now) }
{
    let end = at + piece.len();
    bytes[at..end].copy_from_slice(piece);
}

impl Stretch {
    /// Writes a piece that touches the bytes, or lies over some of them.
    pub(crate) fn write(&mut self, at: usize, piece: &[u8])
        requires room { HasRoom self.old at (at + length piece.now) }
        requires low { at ≤ self.old.end }
        requires high { self.old.start ≤ at + length piece.now }
        ensures bytes { stretch_byte self.new ≡ overlay at piece.now (stretch_byte self.old) }
        ensures start { self.new.start ≡ min self.old.start at }
        ensures end { self.new.end ≡ max self.old.end (at + length piece.now) }
        ensures room { (from : ℕ) (to : ℕ) → HasRoom self.old from to → HasRoom self.new from to }
    {
        put_into(&mut self.bytes, at - self.base, piece);
        self.start = self.start.min(at);
        self.end = self.end.max(at + piece.len());
    }

    /// The bytes from one offset on up to another.
    pub(super) fn part(&self, from: usize, to: usize) -> &[u8]
        requires low { self.now.start ≤ from }
        requires forward { from ≤ to }
        requires high { to ≤ self.now.end }
        ensures length { length result.now ≡ to - from }
        ensures same { (k : ℕ) → k < to - from → stretch_byte self.now (from + k) ≡ Some (slice_index result.now k) }
    {
        &self.bytes[from - self.base..to - self.base]
    }

    // Takes over the bytes of a stretch before the own ones.
    fn join_before(&mut self, other: &Stretch)
        requires room { HasRoom self.old other.now.start other.now.end }
        requires high { self.old.start ≤ other.now.end }
        ensures before { (i : ℕ) → i < self.old.start → stretch_byte self.new i ≡ stretch_byte other.now i }
        ensures from { (i : ℕ) → self.old.start ≤ i → stretch_byte self.new i ≡ stretch_byte self.old i }
        ensures start { self.new.start ≡ min self.old.start other.now.start }
        ensures end { self.new.end ≡ self.old.end }
        ensures room { (from : ℕ) (to : ℕ) → HasRoom self.old from to → HasRoom self.new from to }
    {
        if other.start < self.start {
            self.write(other.start, other.part(other.start, self.start));
        }
    }

    // Takes over the bytes of a stretch behind the own ones.
    fn join_behind(&mut self, other: &Stretch)
        requires room { HasRoom self.old other.now.start other.now.end }
        requires low { other.now.start ≤ self.old.end }
        ensures before { (i : ℕ) → i < self.old.end → stretch_byte self.new i ≡ stretch_byte self.old i }
        ensures from { (i : ℕ) → self.old.end ≤ i → stretch_byte self.new i ≡ stretch_byte other.now i }
        ensures start { self.new.start ≡ self.old.start }
        ensures end { self.new.end ≡ max self.old.end other.now.end }
        ensures room { (from : ℕ) (to : ℕ) → HasRoom self.old from to → HasRoom self.new from to }
    {
        if self.end < other.end {
            self.write(self.end, other.part(self.end, other.end));
        }
    }

    /// Takes over the bytes of a stretch that touches this one, at the offsets where this one has none.
    pub(crate) fn join(&mut self, other: &Stretch)
        requires room { HasRoom self.old other.now.start other.now.end }
        requires low { other.now.start ≤ self.old.end }
        requires high { self.old.start ≤ other.now.end }
        ensures bytes { stretch_byte self.new ≡ either (stretch_byte self.old) (stretch_byte other.now) }
        ensures start { self.new.start ≡ min self.old.start other.now.start }
        ensures end { self.new.end ≡ max self.old.end other.now.end }
        ensures room { (from : ℕ) (to : ℕ) → HasRoom self.old from to → HasRoom self.new from to }
    {
        self.join_before(other);
        self.join_behind(other);
    }
}
