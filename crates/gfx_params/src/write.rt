// Writes the fields of a payload over bytes.
//
// Fields are measured, room is made for all, and each is put in its place, so memory is asked for once and a refusal
// leaves no half of a call.
ghost use Rattle.std.specs.Prelude.{◌≡◌, ◌≤◌, ◌+◌, ◌^◌, ℕ, List, ◌++◌, [], ◌∷◌, length, min};
ghost use Rattle.gfx_model.specs.Spelling.{Field, id, u32 as number, raw, list_of, id_fields, word_fields, barrier_fields, buffer_region_fields, image_region_fields, mixed_region_fields, submit_fields, present_fields};
ghost use Rattle.gfx_grammar.specs.Reads.{Fits, text_of};
ghost use Rattle.gfx_params.specs.Writes.{written};

use gfx_io::{set_bytes, set_u32, set_u64};

/// A field of a payload, or several in order, as a value or behind a reference.
pub trait WriteFields {
    /// Its fields in the format.
    ghost fields: { Self → List Field };

    /// Puts the bytes of the fields at a place, and tells the place behind them.
    fn write(&self, out: &mut Vec<u8>, at: usize) -> usize
        requires fits { Fits (fields self.now) }
        requires room { at + length (text_of (fields self.now)) ≤ length out.old.items }
        ensures bytes { out.new.items ≡ written out.old.items at (text_of (fields self.now)) }
        ensures behind { result ≡ at + length (text_of (fields self.now)) };

    /// How many bytes the fields take, or 2^64 - 1 where these are more.
    fn length(&self) -> u64
        ensures { result ≡ min (length (text_of (fields self.now))) 18446744073709551615 };
}

impl WriteFields for u32 {
    ghost fields = { λ n. number n ∷ [] };

    fn write(&self, out: &mut Vec<u8>, at: usize) -> usize {
        set_u32(out, at, *self);
        at + 4
    }

    fn length(&self) -> u64 {
        4
    }
}

impl WriteFields for u64 {
    ghost fields = { λ n. id n ∷ [] };

    fn write(&self, out: &mut Vec<u8>, at: usize) -> usize {
        set_u64(out, at, *self);
        at + 8
    }

    fn length(&self) -> u64 {
        8
    }
}

impl WriteFields for &[u8] {
    ghost fields = { λ bytes. raw bytes.now ∷ [] };

    fn write(&self, out: &mut Vec<u8>, at: usize) -> usize {
        let behind = (self.len() as u64).write(out, at);
        set_bytes(out, behind, self);
        behind + self.len()
    }

    fn length(&self) -> u64 {
        8 + self.len() as u64
    }
}

impl<T: WriteFields> WriteFields for &T {
    ghost fields = { λ value. T.fields value.now };

    fn write(&self, out: &mut Vec<u8>, at: usize) -> usize {
        (**self).write(out, at)
    }

    fn length(&self) -> u64 {
        (**self).length()
    }
}

impl<A: WriteFields, B: WriteFields> WriteFields for (A, B) {
    ghost fields = { λ both. A.fields both.0 ++ B.fields both.1 };

    fn write(&self, out: &mut Vec<u8>, at: usize) -> usize {
        let behind = self.0.write(out, at);
        self.1.write(out, behind)
    }

    fn length(&self) -> u64 {
        self.0.length().saturating_add(self.1.length())
    }
}
