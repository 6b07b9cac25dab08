// Reading of the records in lists.
ghost use Rattle.gfx_grammar.specs.Reading.{read_barrier, read_buffer_region, read_image_region, read_mixed_region, read_present, read_submit};
ghost use Rattle.gfx_types.specs.declared.lists.Barrier.{Barrier as BarrierFields};
ghost use Rattle.gfx_types.specs.declared.lists.BufferRegion.{BufferRegion as BufferRegionFields};
ghost use Rattle.gfx_types.specs.declared.lists.ImageRegion.{ImageRegion as ImageRegionFields};
ghost use Rattle.gfx_types.specs.declared.lists.MixedRegion.{MixedRegion as MixedRegionFields};
ghost use Rattle.gfx_types.specs.declared.lists.Present.{Present as PresentFields};
ghost use Rattle.gfx_types.specs.declared.lists.Submit.{Submit as SubmitFields};

use crate::read::ReadFields;
use gfx_types::{Barrier, BufferRegion, Ids, ImageRegion, MixedRegion, Present, Submit};
use std::alloc::{AllocError, Global};

impl<'a> ReadFields<'a> for Barrier {
    ghost Seen = { BarrierFields };

    ghost seen = { λ fields. fields };

    ghost reader = { read_barrier };

    fn skip(bytes: &'a [u8]) -> Option<&'a [u8]> {
        <(u64, (u32, u32))>::skip(bytes)
    }

    #[tactic(auto, unfolding(gfx_grammar::specs::Reading::read_as))]
    fn read(alloc: Global, bytes: &'a [u8]) -> Result<(Self, &'a [u8]), AllocError> {
        let ((image, (before, after)), rest) = <(u64, (u32, u32))>::read(alloc, bytes)?;
        Ok((
            Barrier {
                image,
                before,
                after,
            },
            rest,
        ))
    }
}

impl<'a> ReadFields<'a> for BufferRegion {
    ghost Seen = { BufferRegionFields };

    ghost seen = { λ fields. fields };

    ghost reader = { read_buffer_region };

    fn skip(bytes: &'a [u8]) -> Option<&'a [u8]> {
        <(u64, (u64, u64))>::skip(bytes)
    }

    #[tactic(auto, unfolding(gfx_grammar::specs::Reading::read_as))]
    fn read(alloc: Global, bytes: &'a [u8]) -> Result<(Self, &'a [u8]), AllocError> {
        let ((from, (to, size)), rest) = <(u64, (u64, u64))>::read(alloc, bytes)?;
        Ok((BufferRegion { from, to, size }, rest))
    }
}

impl<'a> ReadFields<'a> for ImageRegion {
    ghost Seen = { ImageRegionFields };

    ghost seen = { λ fields. fields };

    ghost reader = { read_image_region };

    fn skip(bytes: &'a [u8]) -> Option<&'a [u8]> {
        <(u32, (u32, (u32, (u32, (u32, u32)))))>::skip(bytes)
    }

    #[tactic(auto, unfolding(gfx_grammar::specs::Reading::read_as))]
    fn read(alloc: Global, bytes: &'a [u8]) -> Result<(Self, &'a [u8]), AllocError> {
        let ((from_x, (from_y, (to_x, (to_y, (width, height))))), rest) = <(
            u32,
            (u32, (u32, (u32, (u32, u32)))),
        )>::read(alloc, bytes)?;
        Ok((
            ImageRegion {
                from_x,
                from_y,
                to_x,
                to_y,
                width,
                height,
            },
            rest,
        ))
    }
}

impl<'a> ReadFields<'a> for MixedRegion {
    ghost Seen = { MixedRegionFields };

    ghost seen = { λ fields. fields };

    ghost reader = { read_mixed_region };

    fn skip(bytes: &'a [u8]) -> Option<&'a [u8]> {
        <(u64, (u32, (u32, (u32, (u32, (u32, u32))))))>::skip(bytes)
    }

    #[tactic(auto, unfolding(gfx_grammar::specs::Reading::read_as))]
    fn read(alloc: Global, bytes: &'a [u8]) -> Result<(Self, &'a [u8]), AllocError> {
        let ((offset, (row, (rows, (x, (y, (width, height)))))), rest) = <(
            u64,
            (u32, (u32, (u32, (u32, (u32, u32))))),
        )>::read(alloc, bytes)?;
        Ok((
            MixedRegion {
                offset,
                row,
                rows,
                x,
                y,
                width,
                height,
            },
            rest,
        ))
    }
}

impl<'a> ReadFields<'a> for Present {
    ghost Seen = { PresentFields };

    ghost seen = { λ fields. fields };

    ghost reader = { read_present };

    fn skip(bytes: &'a [u8]) -> Option<&'a [u8]> {
        <(u64, u32)>::skip(bytes)
    }

    #[tactic(auto, unfolding(gfx_grammar::specs::Reading::read_as))]
    fn read(alloc: Global, bytes: &'a [u8]) -> Result<(Self, &'a [u8]), AllocError> {
        let ((swapchain, index), rest) = <(u64, u32)>::read(alloc, bytes)?;
        Ok((Present { swapchain, index }, rest))
    }
}

impl<'a> ReadFields<'a> for Submit {
    ghost Seen = { SubmitFields };

    ghost seen = { λ fields. fields };

    ghost reader = { read_submit };

    fn skip(bytes: &'a [u8]) -> Option<&'a [u8]> {
        <((Ids, Ids), Ids)>::skip(bytes)
    }

    #[tactic(auto, unfolding(gfx_grammar::specs::Reading::read_as))]
    fn read(alloc: Global, bytes: &'a [u8]) -> Result<(Self, &'a [u8]), AllocError> {
        let (((waits, cbs), signals), rest) = <((Ids, Ids), Ids)>::read(alloc, bytes)?;
        Ok((
            Submit {
                waits,
                cbs,
                signals,
            },
            rest,
        ))
    }
}
