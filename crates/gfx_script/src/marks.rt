//! The fields of calls by their marks, lent by a call, with other ids.
//!
//! Ids are taken down and exchanged by types: a mark for each field with ids, and one trait. Numbers and bytes have no
//! mark, so nothing is to be proved of them.
ghost use Rattle.std.specs.Prelude.{◌≡◌, ◌≤◌, [], ◌∷◌, ◌++◌, List, ℕ, zero, length, map, IfOk, OnOk};
ghost use Rattle.gfx_script.specs.Puts.{Takes};

use crate::records::put_list;
use crate::supply::Supply;
use gfx_types::Ids;
use std::alloc::{AllocError, Global};

/// An id that a call names, or may name.
#[derive(Clone, Copy)]
pub(crate) struct Names(pub u64);

/// An id that a call makes.
#[derive(Clone, Copy)]
pub(crate) struct Makes(pub u64);

/// A list of ids that a call names.
#[derive(Clone, Copy)]
pub(crate) struct NamesEach<'c>(pub &'c Ids);

/// A list of ids that a call makes.
#[derive(Clone, Copy)]
pub(crate) struct MakesEach<'c>(pub &'c Ids);

/// The end of the fields.
#[derive(Clone, Copy)]
pub(crate) struct End;

/// A field, or several in order, whose ids can be taken down and exchanged.
pub(crate) trait PutIds {
    /// The field as its own.
    type Out: Drop;

    /// The ids that it names, in order.
    ghost named: { Self → List ℕ };

    /// The ids that it makes, in order.
    ghost made: { Self → List ℕ };

    /// The ids that an owned field makes, in order.
    ghost out_named: { Self.Out → List ℕ };

    ghost out_made: { Self.Out → List ℕ };

    /// All else is the same.
    ghost alike: { Self.Out → Self → Type 0 };

    /// The field with the first of these ids in place of its own, and the ids that are left.
    fn put<'i>(&self, alloc: Global, ids: Supply<'i>) -> Result<(Self::Out, Supply<'i>), AllocError>
        requires named { length (named self.now) ≤ length ids.named.now }
        requires made { length (made self.now) ≤ length ids.made.now }
        ensures { IfOk result (λ out. Takes named made out_named out_made alike self.now ids.entry out.0 out.1) };

    /// Appends the ids that it names.
    fn collect(&self, ids: &mut Vec<u64>) -> Result<(), AllocError>
        ensures { OnOk result (ids.new.items ≡ ids.old.items ++ named self.now) };
}

/// The fields with these ids, which are as many as there are.
pub(crate) fn put_all<T: PutIds>(
    alloc: Global,
    fields: &T,
    named: &[u64],
    made: &[u64],
) -> Result<T::Out, AllocError>
    requires named { length named.now ≡ length (T.named fields.now) }
    requires made { length made.now ≡ length (T.made fields.now) }
    ensures named { IfOk result (λ out. T.out_named out ≡ named.now) }
    ensures made { IfOk result (λ out. T.out_made out ≡ made.now) }
    ensures others { IfOk result (λ out. T.alike out fields.now) }
{
    let (out, _) = fields.put(alloc, Supply { named, made })?;
    Ok(out)
}

impl PutIds for End {
    type Out = End;

    ghost named = { λ _. [] };

    ghost made = { λ _. [] };

    ghost out_named = { λ _. [] };

    ghost out_made = { λ _. [] };

    ghost alike = { λ _ _. Unit {0} };

    fn put<'i>(&self, _: Global, ids: Supply<'i>) -> Result<(End, Supply<'i>), AllocError> {
        Ok((End, ids))
    }

    fn collect(&self, _: &mut Vec<u64>) -> Result<(), AllocError> {
        Ok(())
    }
}

impl<A: PutIds, B: PutIds> PutIds for (A, B) {
    type Out = (A::Out, B::Out);

    ghost named = { λ both. A.named both.0 ++ B.named both.1 };

    ghost made = { λ both. A.made both.0 ++ B.made both.1 };

    ghost out_named = { λ both. A.out_named both.0 ++ B.out_named both.1 };

    ghost out_made = { λ both. A.out_made both.0 ++ B.out_made both.1 };

    ghost alike = { λ after before. A.alike after.0 before.0 × B.alike after.1 before.1 };

    fn put<'i>(
        &self,
        alloc: Global,
        ids: Supply<'i>,
    ) -> Result<((A::Out, B::Out), Supply<'i>), AllocError> {
        let (first, left) = self.0.put(alloc, ids)?;
        let (second, left) = self.1.put(alloc, left)?;
        Ok(((first, second), left))
    }

    fn collect(&self, ids: &mut Vec<u64>) -> Result<(), AllocError> {
        self.0.collect(ids)?;
        self.1.collect(ids)
    }
}

impl PutIds for Names {
    type Out = u64;

    ghost named = { λ id. id.0 ∷ [] };

    ghost made = { λ _. [] };

    ghost out_named = { λ id. id ∷ [] };

    ghost out_made = { λ _. [] };

    ghost alike = { λ _ _. Unit {0} };

    fn put<'i>(&self, _: Global, ids: Supply<'i>) -> Result<(u64, Supply<'i>), AllocError> {
        let Supply { named, made } = ids;
        let Some((id, named)) = named.split_first() else {
            unreachable!()
        };
        Ok((*id, Supply { named, made }))
    }

    fn collect(&self, ids: &mut Vec<u64>) -> Result<(), AllocError> {
        Ok(ids.push(self.0)?)
    }
}

impl PutIds for Makes {
    type Out = u64;

    ghost named = { λ _. [] };

    ghost made = { λ id. id.0 ∷ [] };

    ghost out_named = { λ _. [] };

    ghost out_made = { λ id. id ∷ [] };

    ghost alike = { λ _ _. Unit {0} };

    fn put<'i>(&self, _: Global, ids: Supply<'i>) -> Result<(u64, Supply<'i>), AllocError> {
        let Supply { named, made } = ids;
        let Some((id, made)) = made.split_first() else {
            unreachable!()
        };
        Ok((*id, Supply { named, made }))
    }

    fn collect(&self, _: &mut Vec<u64>) -> Result<(), AllocError> {
        Ok(())
    }
}

impl<'c> PutIds for NamesEach<'c> {
    type Out = Ids;

    ghost named = { λ list. list.0.now };

    ghost made = { λ _. [] };

    ghost out_named = { λ list. list };

    ghost out_made = { λ _. [] };

    ghost alike = { λ after before. map (λ (_ : ℕ). zero) after ≡ map (λ (_ : ℕ). zero) before.0.now };

    fn put<'i>(&self, alloc: Global, ids: Supply<'i>) -> Result<(Ids, Supply<'i>), AllocError> {
        let Supply { named, made } = ids;
        let (list, named) = put_list(alloc, self.0, named)?;
        Ok((list, Supply { named, made }))
    }

    fn collect(&self, ids: &mut Vec<u64>) -> Result<(), AllocError> {
        ids.extend_from_slice(self.0.items())
    }
}

impl<'c> PutIds for MakesEach<'c> {
    type Out = Ids;

    ghost named = { λ _. [] };

    ghost made = { λ list. list.0.now };

    ghost out_named = { λ _. [] };

    ghost out_made = { λ list. list };

    ghost alike = { λ after before. map (λ (_ : ℕ). zero) after ≡ map (λ (_ : ℕ). zero) before.0.now };

    fn put<'i>(&self, alloc: Global, ids: Supply<'i>) -> Result<(Ids, Supply<'i>), AllocError> {
        let Supply { named, made } = ids;
        let (list, made) = put_list(alloc, self.0, made)?;
        Ok((list, Supply { named, made }))
    }

    fn collect(&self, _: &mut Vec<u64>) -> Result<(), AllocError> {
        Ok(())
    }
}
