//! The ids in the lists of records of calls.
ghost use Rattle.std.specs.Prelude.{◌≡◌, ℕ, List, [], ◌∷◌, ◌++◌, flat_map, OnOk};
ghost use Rattle.gfx_needed.specs.Fields.{value_ids};
ghost use Rattle.gfx_model.specs.Fields.Value.{records, submitted};
ghost use Rattle.gfx_model.specs.Fields.Records.{barriers, buffer_regions, image_regions, mixed_regions, presents};

use crate::fields::HasIds;
use gfx_types::{
    Barrier, Barriers, BufferRegions, ImageRegions, MixedRegions, Present, Presents, Submit,
    Submits,
};
use std::alloc::AllocError;

impl HasIds for Barrier {
    ghost listed = { λ b. b.image ∷ [] };

    fn list(&self, ids: &mut Vec<u64>) -> Result<(), AllocError> {
        Ok(ids.push(self.image)?)
    }
}

impl HasIds for Present {
    ghost listed = { λ p. p.swapchain ∷ [] };

    fn list(&self, ids: &mut Vec<u64>) -> Result<(), AllocError> {
        Ok(ids.push(self.swapchain)?)
    }
}

impl HasIds for Submit {
    ghost listed = { λ s. s.waits ++ s.cbs ++ s.signals };

    fn list(&self, ids: &mut Vec<u64>) -> Result<(), AllocError> {
        ids.extend_from_slice(self.waits.items())?;
        ids.extend_from_slice(self.cbs.items())?;
        ids.extend_from_slice(self.signals.items())
    }
}

// Appends the ids of each item, in order.
fn list_each<T: HasIds>(items: &[T], ids: &mut Vec<u64>) -> Result<(), AllocError>
    ensures { OnOk result (ids.new.items ≡ ids.old.items ++ flat_map T.listed items.now) }
{
    'items: for item in items {
        item.list(ids)?;
    }
    Ok(())
}

#[tactic(auto, using(crate::proofs::Listed::barrier_ids))]
impl HasIds for &Barriers {
    ghost listed = { λ list. value_ids (records (barriers list.now)) };

    fn list(&self, ids: &mut Vec<u64>) -> Result<(), AllocError> {
        list_each(self.items(), ids)
    }
}

#[tactic(auto, using(crate::proofs::Listed::present_ids))]
impl HasIds for &Presents {
    ghost listed = { λ list. value_ids (records (presents list.now)) };

    fn list(&self, ids: &mut Vec<u64>) -> Result<(), AllocError> {
        list_each(self.items(), ids)
    }
}

impl HasIds for &Submits {
    ghost listed = { λ list. value_ids (submitted list.now) };

    fn list(&self, ids: &mut Vec<u64>) -> Result<(), AllocError> {
        list_each(self.items(), ids)
    }
}

impl HasIds for &BufferRegions {
    ghost listed = { λ list. value_ids (records (buffer_regions list.now)) };

    fn list(&self, _: &mut Vec<u64>) -> Result<(), AllocError> {
        Ok(())
    }
}

impl HasIds for &ImageRegions {
    ghost listed = { λ list. value_ids (records (image_regions list.now)) };

    fn list(&self, _: &mut Vec<u64>) -> Result<(), AllocError> {
        Ok(())
    }
}

impl HasIds for &MixedRegions {
    ghost listed = { λ list. value_ids (records (mixed_regions list.now)) };

    fn list(&self, _: &mut Vec<u64>) -> Result<(), AllocError> {
        Ok(())
    }
}
