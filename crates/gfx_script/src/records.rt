//! Records with other ids.
ghost use Rattle.std.specs.Prelude.{◌≡◌, ◌≤◌, [], ◌∷◌, ◌++◌, List, ℕ, length, map, flat_map, IfOk, OnOk};
ghost use Rattle.gfx_script_model.specs.Ids.{barrier_ids, present_ids, submit_ids, atom_ids};
ghost use Rattle.gfx_script.specs.Puts.{TakesNamed};

use gfx_types::{Barrier, BufferRegion, Ids, ImageRegion, MixedRegion, Present, Submit};
use std::alloc::{AllocError, Global};

/// A record in the list of a call, which may name ids.
pub(crate) trait RecordIds: Sized + Drop {
    /// The ids that it names, in order.
    ghost named: { Self → List ℕ };

    /// The record without its ids.
    ghost blank: { Self → Self };

    /// The record with the first of these ids in place of its own, and the ids that are left.
    fn put<'i>(&self, alloc: Global, ids: &'i [u64]) -> Result<(Self, &'i [u64]), AllocError>
        requires { length (named self.now) ≤ length ids.now }
        ensures { IfOk result (λ out. TakesNamed named blank self.now ids.now out.0 out.1.now) };

    /// Appends the ids that it names.
    fn collect(&self, ids: &mut Vec<u64>) -> Result<(), AllocError>
        ensures { OnOk result (ids.new.items ≡ ids.old.items ++ named self.now) };
}

/// Appends the ids that the records name, in order.
pub(crate) fn collect_records<T: RecordIds>(
    records: &[T],
    ids: &mut Vec<u64>,
) -> Result<(), AllocError>
    ensures { OnOk result (ids.new.items ≡ ids.old.items ++ flat_map T.named records.now) }
{
    'records: for record in records {
        record.collect(ids)?;
    }
    Ok(())
}

/// The records with the first of these ids in place of their own, in order, and the ids that are left.
pub(crate) fn put_records<'i, T: RecordIds>(
    alloc: Global,
    records: &[T],
    ids: &'i [u64],
) -> Result<(Vec<T>, &'i [u64]), AllocError>
    requires { length (flat_map T.named records.now) ≤ length ids.now }
    ensures { IfOk result (λ out. TakesNamed (flat_map T.named) (map T.blank) records.now ids.now out.0.items out.1.now) }
{
    let mut put = Vec::new(alloc);
    let mut left = ids;
    'records: for record in records {
        let (with_ids, behind) = record.put(alloc, left)?;
        put.push(with_ids)?;
        left = behind;
    }
    Ok((put, left))
}

/// As many of the ids as the list has, and those that are left.
pub(crate) fn put_list<'i>(
    alloc: Global,
    list: &Ids,
    ids: &'i [u64],
) -> Result<(Ids, &'i [u64]), AllocError>
    requires { length list.now ≤ length ids.now }
    ensures { IfOk result (λ out. (ids.now ≡ out.0 ++ out.1.now) × (length out.0 ≡ length list.now)) }
{
    let (front, left) = ids.split_at(list.items().len());
    Ok((Ids::of(Vec::from_slice(alloc, front)?), left))
}

impl RecordIds for Barrier {
    ghost named = { λ b. b.image ∷ [] };

    ghost blank = { barrier_ids (λ _. 0) };

    fn put<'i>(&self, _: Global, ids: &'i [u64]) -> Result<(Self, &'i [u64]), AllocError> {
        let Some((image, left)) = ids.split_first() else {
            unreachable!()
        };
        let barrier = Barrier {
            image: *image,
            before: self.before,
            after: self.after,
        };
        Ok((barrier, left))
    }

    fn collect(&self, ids: &mut Vec<u64>) -> Result<(), AllocError> {
        Ok(ids.push(self.image)?)
    }
}

impl RecordIds for Present {
    ghost named = { λ p. p.swapchain ∷ [] };

    ghost blank = { present_ids (λ _. 0) };

    fn put<'i>(&self, _: Global, ids: &'i [u64]) -> Result<(Self, &'i [u64]), AllocError> {
        let Some((swapchain, left)) = ids.split_first() else {
            unreachable!()
        };
        let present = Present {
            swapchain: *swapchain,
            index: self.index,
        };
        Ok((present, left))
    }

    fn collect(&self, ids: &mut Vec<u64>) -> Result<(), AllocError> {
        Ok(ids.push(self.swapchain)?)
    }
}

impl RecordIds for Submit {
    ghost named = { λ s. s.waits ++ s.cbs ++ s.signals };

    ghost blank = { submit_ids (λ _. 0) };

    fn put<'i>(&self, alloc: Global, ids: &'i [u64]) -> Result<(Self, &'i [u64]), AllocError> {
        let (waits, left) = put_list(alloc, &self.waits, ids)?;
        let (cbs, left) = put_list(alloc, &self.cbs, left)?;
        let (signals, left) = put_list(alloc, &self.signals, left)?;
        let submit = Submit {
            waits,
            cbs,
            signals,
        };
        Ok((submit, left))
    }

    fn collect(&self, ids: &mut Vec<u64>) -> Result<(), AllocError> {
        ids.extend_from_slice(self.waits.items())?;
        ids.extend_from_slice(self.cbs.items())?;
        ids.extend_from_slice(self.signals.items())
    }
}

impl RecordIds for BufferRegion {
    ghost named = { λ _. [] };

    ghost blank = { λ region. region };

    fn put<'i>(&self, _: Global, ids: &'i [u64]) -> Result<(Self, &'i [u64]), AllocError> {
        Ok((*self, ids))
    }

    fn collect(&self, _: &mut Vec<u64>) -> Result<(), AllocError> {
        Ok(())
    }
}

impl RecordIds for ImageRegion {
    ghost named = { λ _. [] };

    ghost blank = { λ region. region };

    fn put<'i>(&self, _: Global, ids: &'i [u64]) -> Result<(Self, &'i [u64]), AllocError> {
        Ok((*self, ids))
    }

    fn collect(&self, _: &mut Vec<u64>) -> Result<(), AllocError> {
        Ok(())
    }
}

impl RecordIds for MixedRegion {
    ghost named = { λ _. [] };

    ghost blank = { λ region. region };

    fn put<'i>(&self, _: Global, ids: &'i [u64]) -> Result<(Self, &'i [u64]), AllocError> {
        Ok((*self, ids))
    }

    fn collect(&self, _: &mut Vec<u64>) -> Result<(), AllocError> {
        Ok(())
    }
}
