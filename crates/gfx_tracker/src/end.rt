//! How a row ends: always well, or perhaps when out of memory.
ghost use Rattle.std.specs.Prelude.{◌≡◌, Ok, Result};

use gfx_types::WantMemory;

/// What a row answers.
pub(crate) trait RowEnd {
    ghost use Rattle.gfx_types.specs.declared.WantMemory.{WantMemory};

    // what it says
    ghost said: { Self → Result (Unit {0}) WantMemory };

    fn end(self) -> Result<(), WantMemory>
        ensures { result ≡ said self };
}

/// The row always ends well.
impl RowEnd for () {
    ghost said = { λ _. Ok tt };

    fn end(self) -> Result<(), WantMemory> {
        Ok(())
    }
}

/// No memory may be found.
impl RowEnd for Result<(), WantMemory> {
    ghost said = { λ r. r };

    fn end(self) -> Result<(), WantMemory> {
        self
    }
}
