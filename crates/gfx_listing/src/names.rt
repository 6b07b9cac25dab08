//! The names of calls and metadata in texts.
ghost use Rattle.std.specs.Prelude.{◌≡◌};
ghost use Rattle.gfx_model.specs.Events.{event_of_call, event_of_meta};
ghost use Rattle.gfx_script_model.specs.EventNames.{event_name};

use gfx_types::{Call, Meta, calls, metas};

/// The name of a value by its row.
macro_rules! named {
    ($value:expr, $of:ident, { $($other:tt)* }; $($section:ident { $($row:literal $name:ident $method:ident($($field:ident: $mark:ident),+);)+ })+) => {
        match $value {
            $($($of::$name { .. } => stringify!($name),)+)+
            $($other)*
        }
    };
}

/// The name of a call.
#[tactic(auto, unfolding(gfx_script_model::specs::EventNames::event_name))]
pub(crate) fn call_name(call: &Call<'_>) -> &'static str
    ensures { result.now ≡ event_name (event_of_call call.now) }
{
    calls!(named, call, Call, { Call::QueuePresentKHR { .. } => "QueuePresentKHR", })
}

/// The name of a metadata.
#[tactic(auto, unfolding(gfx_script_model::specs::EventNames::event_name))]
pub(crate) fn meta_name(meta: &Meta<'_>) -> &'static str
    ensures { result.now ≡ event_name (event_of_meta meta.now) }
{
    metas!(named, meta, Meta, {})
}
