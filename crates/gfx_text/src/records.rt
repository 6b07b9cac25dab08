// The records in lists: values in parentheses, with a comma between each two.
ghost use Rattle.gfx_text_grammar.specs.Reading.{read_barrier, read_buffer_region, read_image_region, read_mixed_region, read_present, read_submit};
ghost use Rattle.gfx_types.specs.declared.lists.Barrier.{Barrier as BarrierFields};
ghost use Rattle.gfx_types.specs.declared.lists.BufferRegion.{BufferRegion as BufferRegionFields};
ghost use Rattle.gfx_types.specs.declared.lists.ImageRegion.{ImageRegion as ImageRegionFields};
ghost use Rattle.gfx_types.specs.declared.lists.MixedRegion.{MixedRegion as MixedRegionFields};
ghost use Rattle.gfx_types.specs.declared.lists.Present.{Present as PresentFields};
ghost use Rattle.gfx_types.specs.declared.lists.Submit.{Submit as SubmitFields};

use crate::ids::ReadId;
use crate::values::{ReadValue, Wide, read_record};
use gfx_types::{Barrier, BufferRegion, Ids, ImageRegion, MixedRegion, Present, Submit};
use std::alloc::{AllocError, Global};

impl ReadValue for Barrier {
    ghost Seen = { BarrierFields };

    ghost seen = { λ fields. fields };

    ghost reader = { λ style. read_barrier style };

    #[tactic(auto, using(crate::proofs::Between::record_read, crate::proofs::Between::record_not))]
    fn read<'t, I: ReadId>(
        alloc: Global,
        ids: &I,
        text: &'t [u8],
    ) -> Result<Option<(Self, &'t [u8])>, AllocError> {
        match read_record::<(u64, (u32, u32)), I>(alloc, ids, text)? {
            Some(((image, (before, after)), rest)) => Ok(Some((
                Barrier {
                    image,
                    before,
                    after,
                },
                rest,
            ))),
            None => Ok(None),
        }
    }
}

impl ReadValue for BufferRegion {
    ghost Seen = { BufferRegionFields };

    ghost seen = { λ fields. fields };

    ghost reader = { λ style. read_buffer_region style };

    #[tactic(auto, using(crate::proofs::Between::record_read, crate::proofs::Between::record_not))]
    fn read<'t, I: ReadId>(
        alloc: Global,
        ids: &I,
        text: &'t [u8],
    ) -> Result<Option<(Self, &'t [u8])>, AllocError> {
        match read_record::<(Wide, (Wide, Wide)), I>(alloc, ids, text)? {
            Some(((Wide(from), (Wide(to), Wide(size))), rest)) => Ok(Some((
                BufferRegion { from, to, size },
                rest,
            ))),
            None => Ok(None),
        }
    }
}

impl ReadValue for ImageRegion {
    ghost Seen = { ImageRegionFields };

    ghost seen = { λ fields. fields };

    ghost reader = { λ style. read_image_region style };

    #[tactic(auto, using(crate::proofs::Between::record_read, crate::proofs::Between::record_not))]
    fn read<'t, I: ReadId>(
        alloc: Global,
        ids: &I,
        text: &'t [u8],
    ) -> Result<Option<(Self, &'t [u8])>, AllocError> {
        match read_record::<(u32, (u32, (u32, (u32, (u32, u32))))), I>(alloc, ids, text)? {
            Some(((from_x, (from_y, (to_x, (to_y, (width, height))))), rest)) => Ok(Some((
                ImageRegion {
                    from_x,
                    from_y,
                    to_x,
                    to_y,
                    width,
                    height,
                },
                rest,
            ))),
            None => Ok(None),
        }
    }
}

impl ReadValue for MixedRegion {
    ghost Seen = { MixedRegionFields };

    ghost seen = { λ fields. fields };

    ghost reader = { λ style. read_mixed_region style };

    #[tactic(auto, using(crate::proofs::Between::record_read, crate::proofs::Between::record_not))]
    fn read<'t, I: ReadId>(
        alloc: Global,
        ids: &I,
        text: &'t [u8],
    ) -> Result<Option<(Self, &'t [u8])>, AllocError> {
        match read_record::<(Wide, (u32, (u32, (u32, (u32, (u32, u32)))))), I>(alloc, ids, text)? {
            Some(((Wide(offset), (row, (rows, (x, (y, (width, height)))))), rest)) => Ok(Some((
                MixedRegion {
                    offset,
                    row,
                    rows,
                    x,
                    y,
                    width,
                    height,
                },
                rest,
            ))),
            None => Ok(None),
        }
    }
}

impl ReadValue for Present {
    ghost Seen = { PresentFields };

    ghost seen = { λ fields. fields };

    ghost reader = { λ style. read_present style };

    #[tactic(auto, using(crate::proofs::Between::record_read, crate::proofs::Between::record_not))]
    fn read<'t, I: ReadId>(
        alloc: Global,
        ids: &I,
        text: &'t [u8],
    ) -> Result<Option<(Self, &'t [u8])>, AllocError> {
        match read_record::<(u64, u32), I>(alloc, ids, text)? {
            Some(((swapchain, index), rest)) => Ok(Some((Present { swapchain, index }, rest))),
            None => Ok(None),
        }
    }
}

impl ReadValue for Submit {
    ghost Seen = { SubmitFields };

    ghost seen = { λ fields. fields };

    ghost reader = { λ style. read_submit style };

    #[tactic(auto, using(crate::proofs::Between::record_read, crate::proofs::Between::record_not))]
    fn read<'t, I: ReadId>(
        alloc: Global,
        ids: &I,
        text: &'t [u8],
    ) -> Result<Option<(Self, &'t [u8])>, AllocError> {
        match read_record::<(Ids, (Ids, Ids)), I>(alloc, ids, text)? {
            Some(((waits, (cbs, signals)), rest)) => Ok(Some((
                Submit {
                    waits,
                    cbs,
                    signals,
                },
                rest,
            ))),
            None => Ok(None),
        }
    }
}
