//! The first run of a stretch.
ghost use Rattle.std.specs.Prelude.{◌≡◌, ◌+◌, ◌-◌, ◌%◌, ◌<◌, ◌≤◌, ◌⊎◌};
ghost use Rattle.gfx_shadow.specs.Writes.{window_size};
ghost use Rattle.gfx_shadow.specs.Overlay.{IsFirst, IsDropped};
ghost use Rattle.gfx_shadow.specs.Stretch.{stretch_byte};

use super::{Piece, Stretch};

// Runs end at multiples of this.
const WINDOW: usize = 65_536;

impl Stretch {
    // Where the first run of the stretch ends.
    fn run_end(&self) -> usize
        requires { self.now.start < self.now.end }
        ensures some { self.now.start < result }
        ensures inside { result ≤ self.now.end }
        ensures window { self.now.start % window_size + (result - self.now.start) ≤ window_size }
        ensures ends { (result % window_size ≡ 0) ⊎ (result ≡ self.now.end) }
    {
        self.end.min(self.start - self.start % WINDOW + WINDOW)
    }

    /// The first run.
    pub(crate) fn first(&self) -> Piece<'_>
        requires { self.now.start < self.now.end }
        ensures { IsFirst (stretch_byte self.now) result.offset result.bytes.now }
    {
        Piece {
            offset: self.start,
            bytes: self.part(self.start, self.run_end()),
        }
    }

    /// Lets the first run go.
    pub(crate) fn drop_first(&mut self)
        requires { self.old.start < self.old.end }
        ensures dropped { IsDropped (stretch_byte self.old) (stretch_byte self.new) }
        ensures start { self.old.start ≤ self.new.start }
        ensures end { self.new.end ≡ self.old.end }
    {
        self.start = self.run_end();
    }
}
