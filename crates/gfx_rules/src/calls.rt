//! The row of each call and metadata, by the one table of their fields.

ghost use Rattle.std.specs.Prelude.{◌≡◌};
ghost use Rattle.gfx_model.specs.Events.{event_of_call, event_of_meta};
ghost use Rattle.gfx_model.specs.Table.{row_of};
ghost use Rattle.gfx_model.specs.Checks as words;

use crate::answers::Answers;
use crate::rows_buffers::{
    allocate_command_buffers, begin_command_buffer, end_command_buffer, free_command_buffers,
    reset_command_buffer,
};
use crate::rows_commands::{
    cmd_clear_color_image, cmd_fill_buffer, cmd_pipeline_barrier, cmd_update_buffer,
};
use crate::rows_copies::{
    cmd_copy_buffer, cmd_copy_buffer_to_image, cmd_copy_image, cmd_copy_image_to_buffer,
};
use crate::rows_memory::{
    allocate_memory, bind_buffer_memory, bind_image_memory, create_buffer, create_image,
    destroy_buffer, destroy_image, free_memory, map_memory, unmap_memory,
};
use crate::rows_metadata::{fill_memory, init_image, set_semaphore_state, set_swapchain_state};
use crate::rows_objects::{
    create_command_pool, create_device, create_fence, create_instance, create_semaphore,
    create_surface, destroy_command_pool, destroy_device, destroy_fence, destroy_instance,
    destroy_semaphore, destroy_surface, get_device_queue, reset_command_pool,
};
use crate::rows_queue::{device_wait_idle, queue_present, queue_submit, queue_wait_idle};
use crate::rows_signals::{get_fence_status, reset_fences, wait_for_fences};
use crate::rows_swapchains::{
    acquire_next_image, create_swapchain, destroy_swapchain, get_swapchain_images,
};
use gfx_types::{Call, Fault, Meta, argument, calls, metas};

/// A field of a row as its function takes it: what is submitted is lent whole.
macro_rules! lent {
    (submitted $field:ident) => { $field };
    ($mark:ident $field:ident) => { argument!($mark $field) };
}

/// The fault of a value by its row.
macro_rules! judged {
    ($answers:expr, $value:expr, $of:ident, { $($other:tt)* }; $($section:ident { $($id:literal $name:ident $row:ident($($field:ident: $mark:ident),+);)+ })+) => {
        match $value {
            $($($of::$name { $($field),+ } => $row($answers, $(lent!($mark $field)),+),)+)+
            $($other)*
        }
    };
}

/// The fault of a call's row.
pub fn call_fault<A: Answers>(answers: &A, call: &Call<'_>) -> Option<Fault>
    ensures { result ≡ words.first_broken (A.view answers.now) (row_of (event_of_call call.now)) }
{
    calls!(judged, answers, call, Call, {
        Call::QueuePresentKHR { queue, waits, presents } => {
            queue_present(answers, *queue, waits.items(), presents.items())
        }
    })
}

/// The fault of a metadata's row.
pub fn meta_fault<A: Answers>(answers: &A, meta: &Meta<'_>) -> Option<Fault>
    ensures { result ≡ words.first_broken (A.view answers.now) (row_of (event_of_meta meta.now)) }
{
    metas!(judged, answers, meta, Meta, {})
}
