//! Where an effect may occur: before, in or behind the state section.

ghost use Rattle.std.specs.Prelude.{◌≡◌};
ghost use Rattle.gfx_model.specs.Events.{event_of, event_of_call, event_of_meta};
ghost use Rattle.gfx_model.specs.Spelling.{id_of};
ghost use Rattle.gfx_model.specs.Table.{place_of, stands_in_section};
ghost use Rattle.gfx_model.specs.Checks as words;

use crate::answers::Answers;
use crate::broken::first_broken;
use crate::checks::{Check, unless};
use gfx_types::{Call, Effect, Fault, Meta};

/// Whether a call may occur in the state section.
#[tactic(auto, unfolding(gfx_model::specs::Spelling::id_of))]
fn may_stand_inside(call: &Call<'_>) -> bool
    ensures { result ≡ stands_in_section (id_of (event_of_call call.now)) }
{
    match call {
        Call::CreateInstance { .. }
        | Call::CreateHeadlessSurfaceEXT { .. }
        | Call::CreateDevice { .. }
        | Call::GetDeviceQueue { .. }
        | Call::AllocateMemory { .. }
        | Call::MapMemory { .. }
        | Call::CreateBuffer { .. }
        | Call::BindBufferMemory { .. }
        | Call::CreateImage { .. }
        | Call::BindImageMemory { .. }
        | Call::CreateCommandPool { .. }
        | Call::AllocateCommandBuffers { .. }
        | Call::BeginCommandBuffer { .. }
        | Call::EndCommandBuffer { .. }
        | Call::CmdPipelineBarrier { .. }
        | Call::CmdFillBuffer { .. }
        | Call::CmdUpdateBuffer { .. }
        | Call::CmdCopyBuffer { .. }
        | Call::CmdCopyImage { .. }
        | Call::CmdCopyBufferToImage { .. }
        | Call::CmdCopyImageToBuffer { .. }
        | Call::CmdClearColorImage { .. }
        | Call::CreateFence { .. }
        | Call::CreateSemaphore { .. }
        | Call::CreateSwapchainKHR { .. }
        | Call::GetSwapchainImagesKHR { .. } => true,
        Call::DestroyInstance { .. }
        | Call::DestroySurfaceKHR { .. }
        | Call::DestroyDevice { .. }
        | Call::FreeMemory { .. }
        | Call::UnmapMemory { .. }
        | Call::DestroyBuffer { .. }
        | Call::DestroyImage { .. }
        | Call::DestroyCommandPool { .. }
        | Call::ResetCommandPool { .. }
        | Call::FreeCommandBuffers { .. }
        | Call::ResetCommandBuffer { .. }
        | Call::DestroyFence { .. }
        | Call::ResetFences { .. }
        | Call::WaitForFences { .. }
        | Call::GetFenceStatus { .. }
        | Call::DestroySemaphore { .. }
        | Call::QueueSubmit { .. }
        | Call::QueueWaitIdle { .. }
        | Call::DeviceWaitIdle { .. }
        | Call::DestroySwapchainKHR { .. }
        | Call::AcquireNextImageKHR { .. }
        | Call::QueuePresentKHR { .. } => false,
    }
}

/// 10 for a call in the section that may not are there.
#[tactic(auto, using(crate::proofs::Standing::of_call), unfolding(gfx_model::specs::Checks::broken))]
fn call_place<A: Answers>(answers: &A, call: &Call<'_>) -> Option<Fault>
    ensures { result ≡ words.first_broken (A.view answers.now) (place_of (event_of_call call.now)) }
{
    if may_stand_inside(call) {
        None
    } else {
        unless(answers.section().is_none(), Fault::StateOrder)
    }
}

/// 10 for a metadata outside the section that stands only in it.
#[tactic(auto, unfolding(gfx_model::specs::Table::place_of))]
fn meta_place<A: Answers>(answers: &A, meta: &Meta<'_>) -> Option<Fault>
    ensures { result ≡ words.first_broken (A.view answers.now) (place_of (event_of_meta meta.now)) }
{
    match meta {
        Meta::FillMemory { .. } => None,
        Meta::InitImage { .. } | Meta::SetSwapchainState { .. } | Meta::SetSemaphoreState { .. } =>
            { first_broken(answers, &[Check::Inside]) }
    }
}

/// 10 unless the effect may occur here.
#[tactic(auto, unfolding(gfx_model::specs::Table::place_of))]
pub fn place_fault<A: Answers>(answers: &A, effect: &Effect<'_>) -> Option<Fault>
    ensures { result ≡ words.first_broken (A.view answers.now) (place_of (event_of effect.now)) }
{
    match effect {
        Effect::Call(call) => call_place(answers, call),
        Effect::Meta(meta) => meta_place(answers, meta),
        Effect::Marker { .. } => None,
    }
}
