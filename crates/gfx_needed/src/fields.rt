//! The ids in the fields of calls and metadata.
ghost use Rattle.std.specs.Prelude.{◌≡◌, ℕ, List, [], ◌∷◌, ◌++◌, OnOk};

use gfx_types::Ids;
use std::alloc::AllocError;

/// A field, or several in order, whose ids can be taken down.
pub(crate) trait HasIds {
    /// The ids that it names or makes, in order.
    ghost listed: { Self → List ℕ };

    /// Appends these ids.
    fn list(&self, ids: &mut Vec<u64>) -> Result<(), AllocError>
        ensures { OnOk result (ids.new.items ≡ ids.old.items ++ listed self.now) };
}

/// An id that is named or made.
#[derive(Clone, Copy, Debug)]
pub(crate) struct Id(pub u64);

/// The end of the fields.
#[derive(Clone, Copy, Debug)]
pub(crate) struct End;

impl HasIds for Id {
    ghost listed = { λ id. id.0 ∷ [] };

    fn list(&self, ids: &mut Vec<u64>) -> Result<(), AllocError> {
        Ok(ids.push(self.0)?)
    }
}

impl HasIds for End {
    ghost listed = { λ _. [] };

    fn list(&self, _: &mut Vec<u64>) -> Result<(), AllocError> {
        Ok(())
    }
}

impl<A: HasIds, B: HasIds> HasIds for (A, B) {
    ghost listed = { λ both. A.listed both.0 ++ B.listed both.1 };

    fn list(&self, ids: &mut Vec<u64>) -> Result<(), AllocError> {
        self.0.list(ids)?;
        self.1.list(ids)
    }
}

impl HasIds for &Ids {
    ghost listed = { λ list. list.now };

    fn list(&self, ids: &mut Vec<u64>) -> Result<(), AllocError> {
        ids.extend_from_slice(self.items())
    }
}
