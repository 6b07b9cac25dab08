// Reading of lists: the number of their items, and the items.
ghost use Rattle.std.specs.Prelude.{◌≡◌, ℕ, List, Some, None, IfOk, IsSome, MatchOption, map};
ghost use Rattle.gfx_grammar.specs.Reading.{read_list, read_ids, read_words, read_barrier, read_buffer_region, read_image_region, read_mixed_region, read_present, read_submit};
ghost use Rattle.gfx_params.specs.Gives.{StandsBehind};
ghost use Rattle.gfx_types.specs.declared.lists.Barrier.{Barrier as BarrierFields};
ghost use Rattle.gfx_types.specs.declared.lists.BufferRegion.{BufferRegion as BufferRegionFields};
ghost use Rattle.gfx_types.specs.declared.lists.ImageRegion.{ImageRegion as ImageRegionFields};
ghost use Rattle.gfx_types.specs.declared.lists.MixedRegion.{MixedRegion as MixedRegionFields};
ghost use Rattle.gfx_types.specs.declared.lists.Present.{Present as PresentFields};
ghost use Rattle.gfx_types.specs.declared.lists.Submit.{Submit as SubmitFields};

use crate::read::{ReadFields, front_u32};
use gfx_types::{
    Barrier, Barriers, BufferRegion, BufferRegions, Ids, ImageRegion, ImageRegions, MixedRegion,
    MixedRegions, Numbers, Present, Presents, Submit, Submits,
};
use std::alloc::{AllocError, Global};

/// What follows a list at the start of the bytes.
#[tactic(auto, unfolding(gfx_grammar::specs::Reading::read_list))]
fn skip_items<'a, T: ReadFields<'a>>(bytes: &'a [u8]) -> Option<&'a [u8]>
    ensures { MatchOption result (read_list T.reader bytes.now ≡ None) (λ rest. StandsBehind (read_list T.reader bytes.now) rest.now) }
{
    let Some((count, behind)) = front_u32(bytes) else {
        return None;
    };
    let mut rest = behind;
    'items: for _ in 0..count {
        match T::skip(rest) {
            Some(after) => rest = after,
            None => return None,
        }
    }
    Some(rest)
}

/// The items of the list at the start of the bytes, and what follows it.
#[tactic(auto, unfolding(gfx_grammar::specs::Reading::read_list))]
fn read_items<'a, T: ReadFields<'a>>(
    alloc: Global,
    bytes: &'a [u8],
) -> Result<(Vec<T>, &'a [u8]), AllocError>
    requires { IsSome (read_list T.reader bytes.now) }
    ensures { IfOk result (λ read. read_list T.reader bytes.now ≡ Some (map T.seen read.0.items, read.1.now)) }
{
    let Some((count, behind)) = front_u32(bytes) else {
        unreachable!();
    };
    let mut items = Vec::new(alloc);
    let mut rest = behind;
    'items: for _ in 0..count {
        let (item, after) = T::read(alloc, rest)?;
        items.push(item)?;
        rest = after;
    }
    Ok((items, rest))
}

impl<'a> ReadFields<'a> for Ids {
    ghost Seen = { List ℕ };

    ghost seen = { λ items. items };

    ghost reader = { read_ids };

    fn skip(bytes: &'a [u8]) -> Option<&'a [u8]> {
        skip_items::<u64>(bytes)
    }

    #[tactic(auto, using(crate::proofs::Items::map_same))]
    fn read(alloc: Global, bytes: &'a [u8]) -> Result<(Self, &'a [u8]), AllocError> {
        let (items, rest) = read_items::<u64>(alloc, bytes)?;
        Ok((Ids::of(items), rest))
    }
}

impl<'a> ReadFields<'a> for Numbers {
    ghost Seen = { List ℕ };

    ghost seen = { λ items. items };

    ghost reader = { read_words };

    fn skip(bytes: &'a [u8]) -> Option<&'a [u8]> {
        skip_items::<u32>(bytes)
    }

    #[tactic(auto, using(crate::proofs::Items::map_same))]
    fn read(alloc: Global, bytes: &'a [u8]) -> Result<(Self, &'a [u8]), AllocError> {
        let (items, rest) = read_items::<u32>(alloc, bytes)?;
        Ok((Numbers::of(items), rest))
    }
}

impl<'a> ReadFields<'a> for Barriers {
    ghost Seen = { List BarrierFields };

    ghost seen = { λ items. items };

    ghost reader = { read_list read_barrier };

    fn skip(bytes: &'a [u8]) -> Option<&'a [u8]> {
        skip_items::<Barrier>(bytes)
    }

    #[tactic(auto, using(crate::proofs::Items::map_same))]
    fn read(alloc: Global, bytes: &'a [u8]) -> Result<(Self, &'a [u8]), AllocError> {
        let (items, rest) = read_items::<Barrier>(alloc, bytes)?;
        Ok((Barriers::of(items), rest))
    }
}

impl<'a> ReadFields<'a> for BufferRegions {
    ghost Seen = { List BufferRegionFields };

    ghost seen = { λ items. items };

    ghost reader = { read_list read_buffer_region };

    fn skip(bytes: &'a [u8]) -> Option<&'a [u8]> {
        skip_items::<BufferRegion>(bytes)
    }

    #[tactic(auto, using(crate::proofs::Items::map_same))]
    fn read(alloc: Global, bytes: &'a [u8]) -> Result<(Self, &'a [u8]), AllocError> {
        let (items, rest) = read_items::<BufferRegion>(alloc, bytes)?;
        Ok((BufferRegions::of(items), rest))
    }
}

impl<'a> ReadFields<'a> for ImageRegions {
    ghost Seen = { List ImageRegionFields };

    ghost seen = { λ items. items };

    ghost reader = { read_list read_image_region };

    fn skip(bytes: &'a [u8]) -> Option<&'a [u8]> {
        skip_items::<ImageRegion>(bytes)
    }

    #[tactic(auto, using(crate::proofs::Items::map_same))]
    fn read(alloc: Global, bytes: &'a [u8]) -> Result<(Self, &'a [u8]), AllocError> {
        let (items, rest) = read_items::<ImageRegion>(alloc, bytes)?;
        Ok((ImageRegions::of(items), rest))
    }
}

impl<'a> ReadFields<'a> for MixedRegions {
    ghost Seen = { List MixedRegionFields };

    ghost seen = { λ items. items };

    ghost reader = { read_list read_mixed_region };

    fn skip(bytes: &'a [u8]) -> Option<&'a [u8]> {
        skip_items::<MixedRegion>(bytes)
    }

    #[tactic(auto, using(crate::proofs::Items::map_same))]
    fn read(alloc: Global, bytes: &'a [u8]) -> Result<(Self, &'a [u8]), AllocError> {
        let (items, rest) = read_items::<MixedRegion>(alloc, bytes)?;
        Ok((MixedRegions::of(items), rest))
    }
}

impl<'a> ReadFields<'a> for Submits {
    ghost Seen = { List SubmitFields };

    ghost seen = { λ items. items };

    ghost reader = { read_list read_submit };

    fn skip(bytes: &'a [u8]) -> Option<&'a [u8]> {
        skip_items::<Submit>(bytes)
    }

    #[tactic(auto, using(crate::proofs::Items::map_same))]
    fn read(alloc: Global, bytes: &'a [u8]) -> Result<(Self, &'a [u8]), AllocError> {
        let (items, rest) = read_items::<Submit>(alloc, bytes)?;
        Ok((Submits::of(items), rest))
    }
}

impl<'a> ReadFields<'a> for Presents {
    ghost Seen = { List PresentFields };

    ghost seen = { λ items. items };

    ghost reader = { read_list read_present };

    fn skip(bytes: &'a [u8]) -> Option<&'a [u8]> {
        skip_items::<Present>(bytes)
    }

    #[tactic(auto, using(crate::proofs::Items::map_same))]
    fn read(alloc: Global, bytes: &'a [u8]) -> Result<(Self, &'a [u8]), AllocError> {
        let (items, rest) = read_items::<Present>(alloc, bytes)?;
        Ok((Presents::of(items), rest))
    }
}
