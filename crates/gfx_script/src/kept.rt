//! Calls and writes that are kept as their fields.
ghost use Rattle.std.specs.Prelude.{◌≡◌, [], length, IfOk, IsTrue};
ghost use Rattle.gfx_grammar.specs.Reads.{AreBytes};
ghost use Rattle.gfx_script.specs.Kept.{is_version, keeps_event};

use crate::numbering::with_memory;
use crate::putting::with_ids;
use gfx_params::{ParamFault, call_id, decode, decode_meta, encode, encode_meta};
use gfx_types::{Call, Effect, Meta, WantMemory};
use std::alloc::{AllocError, Global};

/// A call, or a write, as its fields are spelled in a minor version; a write has 0 as the number of its call.
#[derive(Debug, Drop)]
pub(crate) struct Kept {
    minor: u32,
    call: u32,
    fields: Vec<u8>,
    ghost version: { IsTrue (is_version minor) },
    ghost is_read: { IsTrue (keeps_event minor call fields.items) },
}

impl Kept {
    ghost use Rattle.gfx_model.specs.Events.{event_of, event_of_call, event_of_meta};
    ghost use Rattle.gfx_model.specs.Spelling.{HasSpelling};
    ghost use Rattle.gfx_script_model.specs.Ids.{uses_of, defines_of};
    ghost use Rattle.gfx_script_model.specs.Statements.{may_be_written};
    ghost use Rattle.gfx_script.specs.Line.{event_of_kept};
    ghost use Rattle.gfx_script.specs.Puts.{HasIds};

    /// What keeps a call, or a write.
    #[tactic(auto, unfolding(gfx_model::specs::Spelling::type_of))]
    pub(crate) fn of(alloc: Global, minor: u32, effect: &Effect<'_>) -> Result<Self, WantMemory>
        requires version { IsTrue (is_version minor) }
        requires written { IsTrue (may_be_written (event_of effect.now)) }
        requires fits { HasSpelling minor (event_of effect.now) }
        ensures minor { IfOk result (λ kept. kept.minor ≡ minor) }
        ensures event { IfOk result (λ kept. event_of_kept kept ≡ event_of effect.now) }
    {
        match effect {
            Effect::Call(call) => Kept::of_call(alloc, minor, call),
            Effect::Meta(meta) => Kept::of_write(alloc, minor, meta),
            Effect::Marker { .. } => unreachable!(),
        }
    }

    // What keeps a call.
    fn of_call(alloc: Global, minor: u32, call: &Call<'_>) -> Result<Self, WantMemory>
        requires version { IsTrue (is_version minor) }
        requires fits { HasSpelling minor (event_of_call call.now) }
        ensures minor { IfOk result (λ kept. kept.minor ≡ minor) }
        ensures event { IfOk result (λ kept. event_of_kept kept ≡ event_of_call call.now) }
    {
        let mut fields = Vec::new(alloc);
        encode(minor, call, &mut fields)?;
        Ok(Kept {
            minor,
            call: call_id(call),
            fields,
        })
    }

    // What keeps a write.
    fn of_write(alloc: Global, minor: u32, write: &Meta<'_>) -> Result<Self, WantMemory>
        requires version { IsTrue (is_version minor) }
        requires written { IsTrue (may_be_written (event_of_meta write.now)) }
        requires fits { HasSpelling minor (event_of_meta write.now) }
        ensures minor { IfOk result (λ kept. kept.minor ≡ minor) }
        ensures event { IfOk result (λ kept. event_of_kept kept ≡ event_of_meta write.now) }
    {
        let mut fields = Vec::new(alloc);
        encode_meta(write, &mut fields)?;
        Ok(Kept {
            minor,
            call: 0,
            fields,
        })
    }

    /// The call or write with these ids in place of those that it names and of those that it makes, in order.
    pub(crate) fn effect(
        &self,
        alloc: Global,
        named: &[u64],
        made: &[u64],
    ) -> Result<Effect<'_>, WantMemory>
        requires named { length named.now ≡ length (uses_of 2 (event_of_kept self.now)) }
        requires made { length made.now ≡ length (defines_of 2 (event_of_kept self.now)) }
        ensures { IfOk result (λ effect. HasIds (event_of_kept self.now) named.now made.now (event_of effect)) }
    {
        if self.call == 0 {
            return self.write(alloc, named);
        }
        match decode(alloc, self.minor, self.call, &self.fields) {
            Ok(call) => Ok(Effect::Call(with_ids(alloc, &call, named, made)?)),
            Err(ParamFault::WantMemory) => Err(WantMemory),
            Err(ParamFault::BadParams) => unreachable!(),
        }
    }

    /// The call or write as it is kept, its ids being numbers of names.
    pub(crate) fn event(&self, alloc: Global) -> Result<Effect<'_>, WantMemory>
        ensures { IfOk result (λ effect. event_of effect ≡ event_of_kept self.now) }
    {
        if self.call == 0 {
            return self.kept_write(alloc);
        }
        match decode(alloc, self.minor, self.call, &self.fields) {
            Ok(call) => Ok(Effect::Call(call)),
            Err(ParamFault::WantMemory) => Err(WantMemory),
            Err(ParamFault::BadParams) => unreachable!(),
        }
    }

    // The write as it is kept.
    fn kept_write(&self, alloc: Global) -> Result<Effect<'_>, WantMemory>
        requires write { self.now.call ≡ 0 }
        ensures { IfOk result (λ effect. event_of effect ≡ event_of_kept self.now) }
    {
        are_bytes(&self.fields);
        match decode_meta(alloc, 2, &self.fields) {
            Ok(meta) => Ok(Effect::Meta(meta)),
            Err(ParamFault::WantMemory) => Err(WantMemory),
            Err(ParamFault::BadParams) => unreachable!(),
        }
    }

    /// A copy of the fields.
    pub(crate) fn copy(&self, alloc: Global) -> Result<Self, AllocError>
        ensures { IfOk result (λ kept. (kept.minor ≡ self.now.minor) × (kept.call ≡ self.now.call) × (kept.fields.items ≡ self.now.fields.items)) }
    {
        let fields = Vec::from_slice(alloc, &self.fields)?;
        Ok(Kept {
            minor: self.minor,
            call: self.call,
            fields,
        })
    }

    // The write with this id.
    #[tactic(auto, unfolding(gfx_script_model::specs::Ids::uses_of, gfx_script_model::specs::Ids::defines_of, gfx_script_model::specs::Ids::map_ids))]
    fn write(&self, alloc: Global, named: &[u64]) -> Result<Effect<'_>, WantMemory>
        requires write { self.now.call ≡ 0 }
        requires named { length named.now ≡ length (uses_of 2 (event_of_kept self.now)) }
        ensures { IfOk result (λ effect. HasIds (event_of_kept self.now) named.now [] (event_of effect)) }
    {
        are_bytes(&self.fields);
        let meta = match decode_meta(alloc, 2, &self.fields) {
            Ok(meta) => meta,
            Err(ParamFault::WantMemory) => return Err(WantMemory),
            Err(ParamFault::BadParams) => unreachable!(),
        };
        Ok(Effect::Meta(with_memory(&meta, named)))
    }
}

// Each is a byte.
fn are_bytes(bytes: &[u8])
    ensures { AreBytes bytes.now }
{}
