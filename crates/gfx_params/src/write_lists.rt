// Writing of lists: the number of their items, and the items.
ghost use Rattle.std.specs.Prelude.{◌≡◌, ◌≤◌, ◌+◌, ℕ, List, flat_map, length, min};
ghost use Rattle.gfx_model.specs.Spelling.{list_of, id_fields, word_fields, barrier_fields, buffer_region_fields, image_region_fields, mixed_region_fields, submit_fields, present_fields};
ghost use Rattle.gfx_grammar.specs.Reads.{Fits, text_of};
ghost use Rattle.gfx_params.specs.Writes.{written};

use crate::write::WriteFields;
use gfx_types::{
    Barriers, BufferRegions, Ids, ImageRegions, MixedRegions, Numbers, Presents, Submits,
};

/// Puts the items one after the other, and tells the place behind them.
fn write_items<T: WriteFields>(items: &[T], out: &mut Vec<u8>, at: usize) -> usize
    requires fits { Fits (flat_map T.fields items.now) }
    requires room { at + length (text_of (flat_map T.fields items.now)) ≤ length out.old.items }
    ensures bytes { out.new.items ≡ written out.old.items at (text_of (flat_map T.fields items.now)) }
    ensures behind { result ≡ at + length (text_of (flat_map T.fields items.now)) }
{
    let mut behind = at;
    'items: for item in items {
        behind = item.write(out, behind);
    }
    behind
}

/// How many bytes the items take, or 2^64 - 1 where these are more.
fn items_length<T: WriteFields>(items: &[T]) -> u64
    ensures { result ≡ min (length (text_of (flat_map T.fields items.now))) 18446744073709551615 }
{
    let mut total: u64 = 0;
    'items: for item in items {
        total = total.saturating_add(item.length());
    }
    total
}

/// Puts a list, which is the number of its items and the items, and tells the place behind it.
fn write_list<T: WriteFields>(items: &[T], out: &mut Vec<u8>, at: usize) -> usize
    requires fits { Fits (list_of T.fields items.now) }
    requires room { at + length (text_of (list_of T.fields items.now)) ≤ length out.old.items }
    ensures bytes { out.new.items ≡ written out.old.items at (text_of (list_of T.fields items.now)) }
    ensures behind { result ≡ at + length (text_of (list_of T.fields items.now)) }
{
    let behind = (items.len() as u32).write(out, at);
    write_items(items, out, behind)
}

/// How many bytes a list takes, or 2^64 - 1 where these are more.
fn list_length<T: WriteFields>(items: &[T]) -> u64
    ensures { result ≡ min (length (text_of (list_of T.fields items.now))) 18446744073709551615 }
{
    items_length(items).saturating_add(4)
}

impl WriteFields for Ids {
    ghost fields = { list_of id_fields };

    fn write(&self, out: &mut Vec<u8>, at: usize) -> usize {
        write_list(self.items(), out, at)
    }

    fn length(&self) -> u64 {
        list_length(self.items())
    }
}

impl WriteFields for Numbers {
    ghost fields = { list_of word_fields };

    fn write(&self, out: &mut Vec<u8>, at: usize) -> usize {
        write_list(self.items(), out, at)
    }

    fn length(&self) -> u64 {
        list_length(self.items())
    }
}

impl WriteFields for Barriers {
    ghost fields = { list_of barrier_fields };

    fn write(&self, out: &mut Vec<u8>, at: usize) -> usize {
        write_list(self.items(), out, at)
    }

    fn length(&self) -> u64 {
        list_length(self.items())
    }
}

impl WriteFields for BufferRegions {
    ghost fields = { list_of buffer_region_fields };

    fn write(&self, out: &mut Vec<u8>, at: usize) -> usize {
        write_list(self.items(), out, at)
    }

    fn length(&self) -> u64 {
        list_length(self.items())
    }
}

impl WriteFields for ImageRegions {
    ghost fields = { list_of image_region_fields };

    fn write(&self, out: &mut Vec<u8>, at: usize) -> usize {
        write_list(self.items(), out, at)
    }

    fn length(&self) -> u64 {
        list_length(self.items())
    }
}

impl WriteFields for MixedRegions {
    ghost fields = { list_of mixed_region_fields };

    fn write(&self, out: &mut Vec<u8>, at: usize) -> usize {
        write_list(self.items(), out, at)
    }

    fn length(&self) -> u64 {
        list_length(self.items())
    }
}

impl WriteFields for Submits {
    ghost fields = { list_of submit_fields };

    fn write(&self, out: &mut Vec<u8>, at: usize) -> usize {
        write_list(self.items(), out, at)
    }

    fn length(&self) -> u64 {
        list_length(self.items())
    }
}

impl WriteFields for Presents {
    ghost fields = { list_of present_fields };

    fn write(&self, out: &mut Vec<u8>, at: usize) -> usize {
        write_list(self.items(), out, at)
    }

    fn length(&self) -> u64 {
        list_length(self.items())
    }
}
