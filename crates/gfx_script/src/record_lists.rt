//! The lists of records that calls lend, with other ids.
ghost use Rattle.std.specs.Prelude.{◌≡◌, [], map};
ghost use Rattle.gfx_script_model.specs.Ids.{barrier_ids, present_ids, submit_ids, named_by};
ghost use Rattle.gfx_model.specs.Fields.Value.{records, submitted};
ghost use Rattle.gfx_model.specs.Fields.Records.{barriers, buffer_regions, image_regions, mixed_regions, presents};

use crate::marks::PutIds;
use crate::records::{collect_records, put_records};
use crate::supply::Supply;
use gfx_types::{Barriers, BufferRegions, ImageRegions, MixedRegions, Presents, Submits};
use std::alloc::{AllocError, Global};

impl PutIds for &Barriers {
    type Out = Barriers;

    ghost named = { λ list. named_by (records (barriers list.now)) };

    ghost made = { λ _. [] };

    ghost out_named = { λ list. named_by (records (barriers list)) };

    ghost out_made = { λ _. [] };

    ghost alike = { λ after before. map (barrier_ids (λ _. 0)) after ≡ map (barrier_ids (λ _. 0)) before.now };

    fn put<'i>(
        &self,
        alloc: Global,
        ids: Supply<'i>,
    ) -> Result<(Barriers, Supply<'i>), AllocError> {
        let Supply { named, made } = ids;
        let (items, named) = put_records(alloc, self.items(), named)?;
        Ok((Barriers::of(items), Supply { named, made }))
    }

    fn collect(&self, ids: &mut Vec<u64>) -> Result<(), AllocError> {
        collect_records(self.items(), ids)
    }
}

impl PutIds for &Presents {
    type Out = Presents;

    ghost named = { λ list. named_by (records (presents list.now)) };

    ghost made = { λ _. [] };

    ghost out_named = { λ list. named_by (records (presents list)) };

    ghost out_made = { λ _. [] };

    ghost alike = { λ after before. map (present_ids (λ _. 0)) after ≡ map (present_ids (λ _. 0)) before.now };

    fn put<'i>(
        &self,
        alloc: Global,
        ids: Supply<'i>,
    ) -> Result<(Presents, Supply<'i>), AllocError> {
        let Supply { named, made } = ids;
        let (items, named) = put_records(alloc, self.items(), named)?;
        Ok((Presents::of(items), Supply { named, made }))
    }

    fn collect(&self, ids: &mut Vec<u64>) -> Result<(), AllocError> {
        collect_records(self.items(), ids)
    }
}

impl PutIds for &Submits {
    type Out = Submits;

    ghost named = { λ list. named_by (submitted list.now) };

    ghost made = { λ _. [] };

    ghost out_named = { λ list. named_by (submitted list) };

    ghost out_made = { λ _. [] };

    ghost alike = { λ after before. map (submit_ids (λ _. 0)) after ≡ map (submit_ids (λ _. 0)) before.now };

    fn put<'i>(&self, alloc: Global, ids: Supply<'i>) -> Result<(Submits, Supply<'i>), AllocError> {
        let Supply { named, made } = ids;
        let (items, named) = put_records(alloc, self.items(), named)?;
        Ok((Submits::of(items), Supply { named, made }))
    }

    fn collect(&self, ids: &mut Vec<u64>) -> Result<(), AllocError> {
        collect_records(self.items(), ids)
    }
}

impl PutIds for &BufferRegions {
    type Out = BufferRegions;

    ghost named = { λ list. named_by (records (buffer_regions list.now)) };

    ghost made = { λ _. [] };

    ghost out_named = { λ list. named_by (records (buffer_regions list)) };

    ghost out_made = { λ _. [] };

    ghost alike = { λ after before. after ≡ before.now };

    fn put<'i>(
        &self,
        alloc: Global,
        ids: Supply<'i>,
    ) -> Result<(BufferRegions, Supply<'i>), AllocError> {
        let Supply { named, made } = ids;
        let (items, named) = put_records(alloc, self.items(), named)?;
        Ok((BufferRegions::of(items), Supply { named, made }))
    }

    fn collect(&self, ids: &mut Vec<u64>) -> Result<(), AllocError> {
        collect_records(self.items(), ids)
    }
}

impl PutIds for &ImageRegions {
    type Out = ImageRegions;

    ghost named = { λ list. named_by (records (image_regions list.now)) };

    ghost made = { λ _. [] };

    ghost out_named = { λ list. named_by (records (image_regions list)) };

    ghost out_made = { λ _. [] };

    ghost alike = { λ after before. after ≡ before.now };

    fn put<'i>(
        &self,
        alloc: Global,
        ids: Supply<'i>,
    ) -> Result<(ImageRegions, Supply<'i>), AllocError> {
        let Supply { named, made } = ids;
        let (items, named) = put_records(alloc, self.items(), named)?;
        Ok((ImageRegions::of(items), Supply { named, made }))
    }

    fn collect(&self, ids: &mut Vec<u64>) -> Result<(), AllocError> {
        collect_records(self.items(), ids)
    }
}

impl PutIds for &MixedRegions {
    type Out = MixedRegions;

    ghost named = { λ list. named_by (records (mixed_regions list.now)) };

    ghost made = { λ _. [] };

    ghost out_named = { λ list. named_by (records (mixed_regions list)) };

    ghost out_made = { λ _. [] };

    ghost alike = { λ after before. after ≡ before.now };

    fn put<'i>(
        &self,
        alloc: Global,
        ids: Supply<'i>,
    ) -> Result<(MixedRegions, Supply<'i>), AllocError> {
        let Supply { named, made } = ids;
        let (items, named) = put_records(alloc, self.items(), named)?;
        Ok((MixedRegions::of(items), Supply { named, made }))
    }

    fn collect(&self, ids: &mut Vec<u64>) -> Result<(), AllocError> {
        collect_records(self.items(), ids)
    }
}
