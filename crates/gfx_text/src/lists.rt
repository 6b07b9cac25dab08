// Lists: items in brackets, with a comma between each two.
ghost use Rattle.std.specs.Prelude.{◌≡◌, ℕ, List, IfOk, length, map};
ghost use Rattle.gfx_text_grammar.specs.Reading.{read_list, read_items, read_ids, read_words, read_barrier, read_buffer_region, read_image_region, read_mixed_region, read_present, read_submit};
ghost use Rattle.gfx_text.specs.Gives.{Reads};
ghost use Rattle.gfx_types.specs.declared.lists.Barrier.{Barrier as BarrierFields};
ghost use Rattle.gfx_types.specs.declared.lists.BufferRegion.{BufferRegion as BufferRegionFields};
ghost use Rattle.gfx_types.specs.declared.lists.ImageRegion.{ImageRegion as ImageRegionFields};
ghost use Rattle.gfx_types.specs.declared.lists.MixedRegion.{MixedRegion as MixedRegionFields};
ghost use Rattle.gfx_types.specs.declared.lists.Present.{Present as PresentFields};
ghost use Rattle.gfx_types.specs.declared.lists.Submit.{Submit as SubmitFields};

use crate::ids::ReadId;
use crate::values::ReadValue;
use crate::words::behind;
use gfx_types::{
    Barrier, Barriers, BufferRegion, BufferRegions, Ids, ImageRegion, ImageRegions, MixedRegion,
    MixedRegions, Numbers, Present, Presents, Submit, Submits,
};
use std::alloc::{AllocError, Global};

/// The list at the start of the text, and the text behind it: fewer than 2^32 items.
#[tactic(auto, unfolding(gfx_text_grammar::specs::Reading::read_list))]
fn read_list<'t, T: ReadValue, I: ReadId>(
    alloc: Global,
    ids: &I,
    text: &'t [u8],
) -> Result<Option<(Vec<T>, &'t [u8])>, AllocError>
    ensures { IfOk result (λ read. Reads read (λ x. (map T.seen x.0.items, x.1.now)) (read_list (T.reader (I.style ids.now)) text.now)) }
{
    let Some(inside) = behind(b'[', text) else {
        return Ok(None);
    };
    if let Some(rest) = behind(b']', inside) {
        return Ok(Some((Vec::new(alloc), rest)));
    }
    let Some((items, rest)) = read_items::<T, I>(alloc, ids, inside)? else {
        return Ok(None);
    };
    if items.len() < 1 << 32 {
        Ok(Some((items, rest)))
    } else {
        Ok(None)
    }
}

/// The items up to the closing bracket, one at least, and the text behind it.
fn read_items<'t, T: ReadValue, I: ReadId>(
    alloc: Global,
    ids: &I,
    text: &'t [u8],
) -> Result<Option<(Vec<T>, &'t [u8])>, AllocError>
    ensures { IfOk result (λ read. Reads read (λ x. (map T.seen x.0.items, x.1.now)) (read_items (T.reader (I.style ids.now)) (length text.now) text.now)) }
{
    // Each item takes a byte or more with its comma or bracket.
    let turns = text.len();
    let mut items = Vec::new(alloc);
    let mut rest = text;
    'items: for _ in 0..turns {
        let Some((item, after)) = T::read(alloc, ids, rest)? else {
            return Ok(None);
        };
        items.push(item)?;
        if let Some(end) = behind(b']', after) {
            return Ok(Some((items, end)));
        }
        match behind(b',', after) {
            Some(more) => rest = more,
            None => return Ok(None),
        }
    }
    Ok(None)
}

impl ReadValue for Ids {
    ghost Seen = { List ℕ };

    ghost seen = { λ items. items };

    ghost reader = { read_ids };

    #[tactic(auto, using(crate::proofs::Items::map_same))]
    fn read<'t, I: ReadId>(
        alloc: Global,
        ids: &I,
        text: &'t [u8],
    ) -> Result<Option<(Self, &'t [u8])>, AllocError> {
        match read_list::<u64, I>(alloc, ids, text)? {
            Some((items, rest)) => Ok(Some((Ids::of(items), rest))),
            None => Ok(None),
        }
    }
}

impl ReadValue for Numbers {
    ghost Seen = { List ℕ };

    ghost seen = { λ items. items };

    ghost reader = { λ _. read_words };

    #[tactic(auto, using(crate::proofs::Items::map_same))]
    fn read<'t, I: ReadId>(
        alloc: Global,
        ids: &I,
        text: &'t [u8],
    ) -> Result<Option<(Self, &'t [u8])>, AllocError> {
        match read_list::<u32, I>(alloc, ids, text)? {
            Some((items, rest)) => Ok(Some((Numbers::of(items), rest))),
            None => Ok(None),
        }
    }
}

impl ReadValue for Barriers {
    ghost Seen = { List BarrierFields };

    ghost seen = { λ items. items };

    ghost reader = { λ style. read_list (read_barrier style) };

    #[tactic(auto, using(crate::proofs::Items::map_same))]
    fn read<'t, I: ReadId>(
        alloc: Global,
        ids: &I,
        text: &'t [u8],
    ) -> Result<Option<(Self, &'t [u8])>, AllocError> {
        match read_list::<Barrier, I>(alloc, ids, text)? {
            Some((items, rest)) => Ok(Some((Barriers::of(items), rest))),
            None => Ok(None),
        }
    }
}

impl ReadValue for BufferRegions {
    ghost Seen = { List BufferRegionFields };

    ghost seen = { λ items. items };

    ghost reader = { λ style. read_list (read_buffer_region style) };

    #[tactic(auto, using(crate::proofs::Items::map_same))]
    fn read<'t, I: ReadId>(
        alloc: Global,
        ids: &I,
        text: &'t [u8],
    ) -> Result<Option<(Self, &'t [u8])>, AllocError> {
        match read_list::<BufferRegion, I>(alloc, ids, text)? {
            Some((items, rest)) => Ok(Some((BufferRegions::of(items), rest))),
            None => Ok(None),
        }
    }
}

impl ReadValue for ImageRegions {
    ghost Seen = { List ImageRegionFields };

    ghost seen = { λ items. items };

    ghost reader = { λ style. read_list (read_image_region style) };

    #[tactic(auto, using(crate::proofs::Items::map_same))]
    fn read<'t, I: ReadId>(
        alloc: Global,
        ids: &I,
        text: &'t [u8],
    ) -> Result<Option<(Self, &'t [u8])>, AllocError> {
        match read_list::<ImageRegion, I>(alloc, ids, text)? {
            Some((items, rest)) => Ok(Some((ImageRegions::of(items), rest))),
            None => Ok(None),
        }
    }
}

impl ReadValue for MixedRegions {
    ghost Seen = { List MixedRegionFields };

    ghost seen = { λ items. items };

    ghost reader = { λ style. read_list (read_mixed_region style) };

    #[tactic(auto, using(crate::proofs::Items::map_same))]
    fn read<'t, I: ReadId>(
        alloc: Global,
        ids: &I,
        text: &'t [u8],
    ) -> Result<Option<(Self, &'t [u8])>, AllocError> {
        match read_list::<MixedRegion, I>(alloc, ids, text)? {
            Some((items, rest)) => Ok(Some((MixedRegions::of(items), rest))),
            None => Ok(None),
        }
    }
}

impl ReadValue for Submits {
    ghost Seen = { List SubmitFields };

    ghost seen = { λ items. items };

    ghost reader = { λ style. read_list (read_submit style) };

    #[tactic(auto, using(crate::proofs::Items::map_same))]
    fn read<'t, I: ReadId>(
        alloc: Global,
        ids: &I,
        text: &'t [u8],
    ) -> Result<Option<(Self, &'t [u8])>, AllocError> {
        match read_list::<Submit, I>(alloc, ids, text)? {
            Some((items, rest)) => Ok(Some((Submits::of(items), rest))),
            None => Ok(None),
        }
    }
}

impl ReadValue for Presents {
    ghost Seen = { List PresentFields };

    ghost seen = { λ items. items };

    ghost reader = { λ style. read_list (read_present style) };

    #[tactic(auto, using(crate::proofs::Items::map_same))]
    fn read<'t, I: ReadId>(
        alloc: Global,
        ids: &I,
        text: &'t [u8],
    ) -> Result<Option<(Self, &'t [u8])>, AllocError> {
        match read_list::<Present, I>(alloc, ids, text)? {
            Some((items, rest)) => Ok(Some((Presents::of(items), rest))),
            None => Ok(None),
        }
    }
}
