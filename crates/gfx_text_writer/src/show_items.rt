// The text of values in lists and records.
ghost use Rattle.std.specs.Prelude.{◌≡◌, ◌++◌, ◌∷◌, ℕ, List, length, take, map, flat_map, codes, decimal, OnOk, OnErr};
ghost use Rattle.std.specs.List.{join_with_byte};
ghost use Rattle.gfx_model.specs.Text.{hex_text};
ghost use Rattle.gfx_model.specs.Fields.{barrier_atoms, buffer_region_atoms, image_region_atoms, mixed_region_atoms, present_atoms};
ghost use Rattle.gfx_script_model.specs.FieldText.{list_text, record_text, atom_text, submit_text};

use crate::shown::{ShowId, put_bytes, put_number};
use gfx_types::{Barrier, BufferRegion, Ids, ImageRegion, MixedRegion, Present, Submit};
use std::alloc::AllocError;

/// A value in a list or in a record, or several with a comma between each two.
pub(crate) trait ShowItem {
    /// Its text, where ids are shown so.
    ghost text: { (ℕ → List ℕ) → Self → List ℕ };

    /// Appends the text. When out of memory some of it may follow the old text.
    fn show<W: ShowId>(&self, ids: &W, out: &mut Vec<u8>) -> Result<(), AllocError>
        ensures ok { OnOk result (out.new.items ≡ out.old.items ++ text (W.style ids.now).ids.show self.now) }
        ensures err { OnErr result (take (length out.old.items) out.new.items ≡ out.old.items) };
}

/// An id, or what stands for none.
#[derive(Clone, Copy)]
pub(crate) struct Maybe(pub(crate) u64);

/// A number of eight bytes that is no id.
#[derive(Clone, Copy)]
pub(crate) struct Wide(pub(crate) u64);

// An id.
impl ShowItem for u64 {
    ghost text = { λ show id. show id };

    fn show<W: ShowId>(&self, ids: &W, out: &mut Vec<u8>) -> Result<(), AllocError> {
        ids.show(*self, out)
    }
}

impl ShowItem for Maybe {
    ghost text = { λ show id. show id.0 };

    fn show<W: ShowId>(&self, ids: &W, out: &mut Vec<u8>) -> Result<(), AllocError> {
        ids.show(self.0, out)
    }
}

impl ShowItem for Wide {
    ghost text = { λ _ n. decimal n.0 };

    fn show<W: ShowId>(&self, _: &W, out: &mut Vec<u8>) -> Result<(), AllocError> {
        put_number(self.0, out)
    }
}

impl ShowItem for u32 {
    ghost text = { λ _ n. decimal n };

    fn show<W: ShowId>(&self, _: &W, out: &mut Vec<u8>) -> Result<(), AllocError> {
        put_number(u64::from(*self), out)
    }
}

impl<T: ShowItem> ShowItem for &T {
    ghost text = { λ show item. T.text show item.now };

    fn show<W: ShowId>(&self, ids: &W, out: &mut Vec<u8>) -> Result<(), AllocError> {
        (**self).show(ids, out)
    }
}

impl<A: ShowItem, B: ShowItem> ShowItem for (A, B) {
    ghost text = { λ show both. A.text show both.0 ++ (44 ∷ B.text show both.1) };

    fn show<W: ShowId>(&self, ids: &W, out: &mut Vec<u8>) -> Result<(), AllocError> {
        self.0.show(ids, out)?;
        out.push(b',')?;
        self.1.show(ids, out)
    }
}

// Bytes.
impl ShowItem for &[u8] {
    ghost text = { λ _ bytes. hex_text bytes.now };

    fn show<W: ShowId>(&self, _: &W, out: &mut Vec<u8>) -> Result<(), AllocError> {
        put_bytes(*self, out)
    }
}

impl ShowItem for Ids {
    ghost text = { λ show items. list_text (map show items) };

    fn show<W: ShowId>(&self, ids: &W, out: &mut Vec<u8>) -> Result<(), AllocError> {
        show_list(self.items(), ids, out)
    }
}

/// Appends a list: its items in brackets.
pub(crate) fn show_list<T: ShowItem, W: ShowId>(
    items: &[T],
    ids: &W,
    out: &mut Vec<u8>,
) -> Result<(), AllocError>
    ensures ok { OnOk result (out.new.items ≡ out.old.items ++ list_text (map (T.text (W.style ids.now).ids.show) items.now)) }
    ensures err { OnErr result (take (length out.old.items) out.new.items ≡ out.old.items) }
{
    out.push(b'[')?;
    show_joined(items, ids, out)?;
    out.push(b']')?;
    Ok(())
}

/// Appends the items with a comma between each two.
fn show_joined<T: ShowItem, W: ShowId>(
    items: &[T],
    ids: &W,
    out: &mut Vec<u8>,
) -> Result<(), AllocError>
    ensures ok { OnOk result (out.new.items ≡ out.old.items ++ join_with_byte 44 (map (T.text (W.style ids.now).ids.show) items.now)) }
    ensures err { OnErr result (take (length out.old.items) out.new.items ≡ out.old.items) }
{
    match items.split_first() {
        Some((first, others)) => {
            first.show(ids, out)?;
            show_behind(others, ids, out)
        }
        None => Ok(()),
    }
}

/// Appends each item behind a comma.
fn show_behind<T: ShowItem, W: ShowId>(
    items: &[T],
    ids: &W,
    out: &mut Vec<u8>,
) -> Result<(), AllocError>
    ensures ok { OnOk result (out.new.items ≡ out.old.items ++ flat_map (λ item. 44 ∷ T.text (W.style ids.now).ids.show item) items.now) }
    ensures err { OnErr result (take (length out.old.items) out.new.items ≡ out.old.items) }
{
    'items: for item in items {
        out.push(b',')?;
        item.show(ids, out)?;
    }
    Ok(())
}

/// Appends a record: its values in parentheses.
fn show_record<T: ShowItem, W: ShowId>(
    values: &T,
    ids: &W,
    out: &mut Vec<u8>,
) -> Result<(), AllocError>
    ensures ok { OnOk result (out.new.items ≡ out.old.items ++ (codes "(" ++ T.text (W.style ids.now).ids.show values.now ++ codes ")")) }
    ensures err { OnErr result (take (length out.old.items) out.new.items ≡ out.old.items) }
{
    out.push(b'(')?;
    values.show(ids, out)?;
    out.push(b')')?;
    Ok(())
}

impl ShowItem for Barrier {
    ghost text = { λ show b. record_text (map (atom_text show) (barrier_atoms b)) };

    fn show<W: ShowId>(&self, ids: &W, out: &mut Vec<u8>) -> Result<(), AllocError> {
        let Barrier {
            image,
            before,
            after,
        } = *self;
        show_record(&(image, (before, after)), ids, out)
    }
}

impl ShowItem for BufferRegion {
    ghost text = { λ show r. record_text (map (atom_text show) (buffer_region_atoms r)) };

    fn show<W: ShowId>(&self, ids: &W, out: &mut Vec<u8>) -> Result<(), AllocError> {
        let BufferRegion { from, to, size } = *self;
        show_record(&(Wide(from), (Wide(to), Wide(size))), ids, out)
    }
}

impl ShowItem for ImageRegion {
    ghost text = { λ show r. record_text (map (atom_text show) (image_region_atoms r)) };

    fn show<W: ShowId>(&self, ids: &W, out: &mut Vec<u8>) -> Result<(), AllocError> {
        let ImageRegion {
            from_x,
            from_y,
            to_x,
            to_y,
            width,
            height,
        } = *self;
        show_record(
            &(from_x, (from_y, (to_x, (to_y, (width, height))))),
            ids,
            out,
        )
    }
}

impl ShowItem for MixedRegion {
    ghost text = { λ show r. record_text (map (atom_text show) (mixed_region_atoms r)) };

    fn show<W: ShowId>(&self, ids: &W, out: &mut Vec<u8>) -> Result<(), AllocError> {
        let MixedRegion {
            offset,
            row,
            rows,
            x,
            y,
            width,
            height,
        } = *self;
        show_record(
            &(Wide(offset), (row, (rows, (x, (y, (width, height)))))),
            ids,
            out,
        )
    }
}

impl ShowItem for Present {
    ghost text = { λ show p. record_text (map (atom_text show) (present_atoms p)) };

    fn show<W: ShowId>(&self, ids: &W, out: &mut Vec<u8>) -> Result<(), AllocError> {
        let Present { swapchain, index } = *self;
        show_record(&(swapchain, index), ids, out)
    }
}

impl ShowItem for Submit {
    ghost text = { submit_text };

    fn show<W: ShowId>(&self, ids: &W, out: &mut Vec<u8>) -> Result<(), AllocError> {
        show_record(&(&self.waits, (&self.cbs, &self.signals)), ids, out)
    }
}
