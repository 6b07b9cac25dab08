// A file in memory, as a source that never fails.
ghost use Rattle.std.specs.Prelude.{◌≡◌, ◌<◌, Some};
ghost use Rattle.std.specs.List.{All};

use crate::{Failed, Source};

/// Gives the bytes of a slice, from the first on.
#[derive(Drop)]
pub struct SliceSource<'a> {
    pub rest: &'a [u8],
    ghost are_bytes: { All (λ b. b < 256) rest.now },
}

impl Source for SliceSource<'_> {
    ghost left = { λ s. Some s.rest.now };

    ghost faults = { λ _. 0 };

    ghost are_bytes = { λ s. s.are_bytes };

    fn read(&mut self, into: &mut [u8]) -> Result<usize, Failed> {
        let count = into.len().min(self.rest.len());
        into[..count].copy_from_slice(&self.rest[..count]);
        self.rest = &self.rest[count..];
        Ok(count)
    }
}
