// The ids that payloads begin with.
ghost use Rattle.std.specs.Prelude.{◌≡◌};
ghost use Rattle.gfx_model.specs.Events.{event_of_call, event_of_meta};
ghost use Rattle.gfx_model.specs.Spelling.{id_of, type_of};

use gfx_types::{Call, Meta, calls, metas};

/// The id of a value by its row.
macro_rules! numbered {
    ($value:expr, $of:ident, { $($other:tt)* }; $($section:ident { $($row:literal $name:ident $method:ident($($field:ident: $mark:ident),+);)+ })+) => {
        match $value {
            $($($of::$name { .. } => $row,)+)+
            $($other)*
        }
    };
}

/// The id of a call, whose block is of type 4.
#[tactic(auto, unfolding(gfx_model::specs::Spelling::id_of, gfx_model::specs::Spelling::type_of))]
pub fn call_id(call: &Call<'_>) -> u32
    ensures id { result ≡ id_of (event_of_call call.now) }
    ensures kind { type_of (event_of_call call.now) ≡ 4 }
{
    calls!(numbered, call, Call, { Call::QueuePresentKHR { .. } => 48, })
}

/// The id of a metadata, whose block is of type 3.
#[tactic(auto, unfolding(gfx_model::specs::Spelling::id_of, gfx_model::specs::Spelling::type_of))]
pub fn meta_id(meta: &Meta<'_>) -> u32
    ensures id { result ≡ id_of (event_of_meta meta.now) }
    ensures kind { type_of (event_of_meta meta.now) ≡ 3 }
{
    metas!(numbered, meta, Meta, {})
}
