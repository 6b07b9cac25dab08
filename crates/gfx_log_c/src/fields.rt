//! From the bytes of fields to the event that they spell.
ghost use Rattle.std.specs.Prelude.{◌≡◌};
ghost use Rattle.gfx_model.specs.Events.{event_of};
ghost use Rattle.gfx_grammar.specs.Reads.{AreBytes};
ghost use Rattle.gfx_params.specs.Gives.{Gives};
ghost use Rattle.gfx_capture.specs.Entry.{IsVersion};
ghost use Rattle.gfx_log_c.specs.Answers.{read_fields};

use gfx_params::{ParamFault, decode, decode_meta};
use gfx_types::Effect;
use std::alloc::Global;

/// The call (type 4) or metadata block (type 3) of this id that the bytes spell. BadParams if they spell none.
#[tactic(auto, unfolding(gfx_grammar::specs::Rows::read_event))]
pub(crate) fn effect_of(
    alloc: Global,
    minor: u32,
    kind: u32,
    id: u32,
    fields: &[u8],
) -> Result<Effect<'_>, ParamFault>
    requires { IsVersion minor }
    ensures { Gives event_of result (read_fields minor kind id fields.now) }
{
    match kind {
        4 => match decode(alloc, minor, id, fields) {
            Ok(call) => Ok(Effect::Call(call)),
            Err(fault) => Err(fault),
        },
        3 => match decode_meta(alloc, id, fields) {
            Ok(meta) => Ok(Effect::Meta(meta)),
            Err(fault) => Err(fault),
        },
        _ => Err(ParamFault::BadParams),
    }
}

// Makes known to a proof that each item of a slice of bytes is below 256.
pub(crate) fn are_bytes(bytes: &[u8])
    ensures { AreBytes bytes.now }
{}
