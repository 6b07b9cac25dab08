//! All rows together: an effect that breaks no check is taken by its row.
ghost use Rattle.std.specs.Prelude.{◌≡◌, OnOk, OnErr};
ghost use Rattle.gfx_types.specs.declared.effect.Effect.TheVariants as effect;
ghost use Rattle.gfx_model.specs.Events.{event_of, event_of_call, event_of_meta};
ghost use Rattle.gfx_tracker.specs.State.{state_answers};
ghost use Rattle.gfx_tracker.specs.Taking.{after_event, IsNext};

use crate::buffers::{
    allocate_command_buffers, begin_command_buffer, end_command_buffer, free_command_buffers,
    reset_command_buffer, reset_command_pool,
};
use crate::commands::record_command;
use crate::creations::{
    allocate_memory, create_buffer, create_command_pool, create_device, create_fence, create_image,
    create_instance, create_semaphore, create_surface, create_swapchain,
};
use crate::end::RowEnd;
use crate::ends::{
    destroy_buffer, destroy_command_pool, destroy_device, destroy_fence, destroy_image,
    destroy_instance, destroy_semaphore, destroy_surface, destroy_swapchain, free_memory,
};
use crate::fences::reset_fences;
use crate::markers::{begin_section, end_section};
use crate::metadata::{fill_memory, init_image, set_semaphore_state, set_swapchain_state};
use crate::presents::queue_present;
use crate::queues::get_device_queue;
use crate::resources::{bind_buffer_memory, bind_image_memory, map_memory, unmap_memory};
use crate::state::State;
use crate::submits::queue_submit;
use crate::swapchains::{acquire_next_image, get_swapchain_images};
use crate::waits::{device_wait_idle, get_fence_status, queue_wait_idle, wait_for_fences};
use gfx_types::{Call, Effect, Meta, WantMemory, argument, calls, metas};

/// Takes an effect. When out of memory all is as it was.
pub(crate) fn take_effect(state: &mut State, effect: &Effect<'_>) -> Result<(), WantMemory>
    requires { IsNext (state_answers state.old) (event_of effect.now) }
    ensures ok { OnOk result (state_answers state.new ≡ after_event (state_answers state.old) (event_of effect.now)) }
    ensures err { OnErr result (state_answers state.new ≡ state_answers state.old) }
{
    match effect {
        Effect::Call(call) => take_call(state, call),
        Effect::Meta(meta) => take_meta(state, meta),
        Effect::Marker { begin, frame } => {
            take_marker(state, *begin, *frame);
            Ok(())
        }
    }
}

/// A value is taken by its row. Each command is recorded as it is.
macro_rules! taken {
    (@commands $row:ident($state:expr, $value:expr; $($mark:ident $field:ident),+)) => {
        record_command($state, $value)
    };
    (@$section:ident $row:ident($state:expr, $value:expr; $($mark:ident $field:ident),+)) => {
        $row($state, $(argument!($mark $field)),+).end()
    };
    ($state:expr, $value:expr, $of:ident, { $($other:tt)* }; $($section:ident { $($id:literal $name:ident $row:ident($($field:ident: $mark:ident),+);)+ })+) => {
        match $value {
            $($($of::$name { $($field),+ } => taken!(@$section $row($state, $value; $($mark $field),+)),)+)+
            $($other)*
        }
    };
}

/// Takes a call. When out of memory all is as it was.
fn take_call(state: &mut State, call: &Call<'_>) -> Result<(), WantMemory>
    requires { IsNext (state_answers state.old) (event_of_call call.now) }
    ensures ok { OnOk result (state_answers state.new ≡ after_event (state_answers state.old) (event_of_call call.now)) }
    ensures err { OnErr result (state_answers state.new ≡ state_answers state.old) }
{
    calls!(taken, state, call, Call, {
        Call::QueuePresentKHR { queue, waits, presents } => {
            queue_present(state, *queue, waits.items(), presents.items());
            Ok(())
        }
    })
}

/// Takes a metadata. When out of memory all is as it was.
fn take_meta(state: &mut State, meta: &Meta<'_>) -> Result<(), WantMemory>
    requires { IsNext (state_answers state.old) (event_of_meta meta.now) }
    ensures ok { OnOk result (state_answers state.new ≡ after_event (state_answers state.old) (event_of_meta meta.now)) }
    ensures err { OnErr result (state_answers state.new ≡ state_answers state.old) }
{
    metas!(taken, state, meta, Meta, {})
}

/// Takes a marker.
fn take_marker(state: &mut State, begin: bool, frame: u64)
    ensures { state_answers state.new ≡ after_event (state_answers state.old) (event_of (effect.Marker begin frame)) }
{
    if begin {
        begin_section(state, frame);
    } else {
        end_section(state, frame);
    }
}
