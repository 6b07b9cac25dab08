//! The rows of calls on instances, surfaces, devices, pools, fences and semaphores.

ghost use Rattle.std.specs.Prelude.{◌≡◌};
ghost use Rattle.gfx_model.specs.Events.Event.{CreateInstance, DestroyInstance, CreateHeadlessSurfaceEXT, DestroySurfaceKHR, CreateDevice, DestroyDevice, GetDeviceQueue, CreateCommandPool, DestroyCommandPool, ResetCommandPool, CreateFence, DestroyFence, CreateSemaphore, DestroySemaphore};
ghost use Rattle.gfx_model.specs.Table.{row_of};
ghost use Rattle.gfx_model.specs.Checks as words;

use crate::answers::Answers;
use crate::broken::first_broken;
use crate::checks::Check;
use crate::ids::{new_fault, room_fault};
use crate::resources::{live_fault, owned_fault};
use gfx_types::{Fault, Kind};

/// The fault of CreateInstance.
#[tactic(auto, unfolding(gfx_model::specs::Table::row_of))]
pub fn create_instance<A: Answers>(answers: &A, instance: u64, api: u32) -> Option<Fault>
    ensures { result ≡ words.first_broken (A.view answers.now) (row_of (CreateInstance instance api)) }
{
    first_broken(answers, &[Check::New(instance), Check::Room(1)])
}

/// The fault of DestroyInstance.
#[tactic(auto, unfolding(gfx_model::specs::Table::row_of))]
pub fn destroy_instance<A: Answers>(answers: &A, instance: u64) -> Option<Fault>
    ensures { result ≡ words.first_broken (A.view answers.now) (row_of (DestroyInstance instance)) }
{
    first_broken(
        answers,
        &[
            Check::Live(Kind::Instance, instance),
            Check::Childless(instance),
        ],
    )
}

/// The fault of CreateHeadlessSurfaceEXT.
#[tactic(auto, unfolding(gfx_model::specs::Table::row_of))]
pub fn create_surface<A: Answers>(answers: &A, instance: u64, surface: u64) -> Option<Fault>
    ensures { result ≡ words.first_broken (A.view answers.now) (row_of (CreateHeadlessSurfaceEXT instance surface)) }
{
    first_broken(
        answers,
        &[
            Check::Live(Kind::Instance, instance),
            Check::New(surface),
            Check::Room(1),
        ],
    )
}

/// The fault of DestroySurfaceKHR.
#[tactic(auto, unfolding(gfx_model::specs::Table::row_of))]
pub fn destroy_surface<A: Answers>(answers: &A, instance: u64, surface: u64) -> Option<Fault>
    ensures { result ≡ words.first_broken (A.view answers.now) (row_of (DestroySurfaceKHR instance surface)) }
{
    first_broken(
        answers,
        &[
            Check::Live(Kind::Instance, instance),
            Check::Live(Kind::Surface, surface),
            Check::Of(surface, instance),
            Check::BareSurface(surface),
        ],
    )
}

/// The fault of CreateDevice.
#[tactic(auto, unfolding(gfx_model::specs::Table::row_of))]
pub fn create_device<A: Answers>(answers: &A, instance: u64, device: u64) -> Option<Fault>
    ensures { result ≡ words.first_broken (A.view answers.now) (row_of (CreateDevice instance device)) }
{
    first_broken(
        answers,
        &[
            Check::Live(Kind::Instance, instance),
            Check::New(device),
            Check::Room(1),
        ],
    )
}

/// The fault of DestroyDevice.
#[tactic(auto, unfolding(gfx_model::specs::Table::row_of))]
pub fn destroy_device<A: Answers>(answers: &A, device: u64) -> Option<Fault>
    ensures { result ≡ words.first_broken (A.view answers.now) (row_of (DestroyDevice device)) }
{
    first_broken(
        answers,
        &[
            Check::Live(Kind::Device, device),
            Check::ChildlessButQueue(device),
        ],
    )
}

/// The fault of GetDeviceQueue.
#[tactic(auto, unfolding(gfx_model::specs::Table::row_of))]
pub fn get_device_queue<A: Answers>(answers: &A, device: u64, queue: u64) -> Option<Fault>
    ensures { result ≡ words.first_broken (A.view answers.now) (row_of (GetDeviceQueue device queue)) }
{
    first_broken(
        answers,
        &[
            Check::Live(Kind::Device, device),
            Check::TheQueue(device, queue),
        ],
    )
}

/// The fault of CreateCommandPool.
#[tactic(auto, unfolding(gfx_model::specs::Table::row_of))]
pub fn create_command_pool<A: Answers>(
    answers: &A,
    device: u64,
    pool: u64,
    flags: u32,
) -> Option<Fault>
    ensures { result ≡ words.first_broken (A.view answers.now) (row_of (CreateCommandPool device pool flags)) }
{
    first_broken(
        answers,
        &[
            Check::Live(Kind::Device, device),
            Check::New(pool),
            Check::Must(Fault::BadValue, flags <= 3),
            Check::Room(1),
        ],
    )
}

/// The fault of DestroyCommandPool.
#[tactic(auto, unfolding(gfx_model::specs::Table::row_of))]
pub fn destroy_command_pool<A: Answers>(answers: &A, device: u64, pool: u64) -> Option<Fault>
    ensures { result ≡ words.first_broken (A.view answers.now) (row_of (DestroyCommandPool device pool)) }
{
    first_broken(
        answers,
        &[
            Check::Live(Kind::Device, device),
            Check::Live(Kind::Pool, pool),
            Check::Of(pool, device),
        ],
    )
}

/// The fault of ResetCommandPool.
#[tactic(auto, unfolding(gfx_model::specs::Table::row_of))]
pub fn reset_command_pool<A: Answers>(answers: &A, device: u64, pool: u64) -> Option<Fault>
    ensures { result ≡ words.first_broken (A.view answers.now) (row_of (ResetCommandPool device pool)) }
{
    first_broken(
        answers,
        &[
            Check::Live(Kind::Device, device),
            Check::Live(Kind::Pool, pool),
            Check::Of(pool, device),
        ],
    )
}

/// The fault of CreateFence.
#[tactic(auto, unfolding(gfx_model::specs::Table::row_of, gfx_model::specs::Checks::broken))]
pub fn create_fence<A: Answers>(answers: &A, device: u64, fence: u64, flags: u32) -> Option<Fault>
    ensures { result ≡ words.first_broken (A.view answers.now) (row_of (CreateFence device fence flags)) }
{
    if let Some(fault) = live_fault(answers, Kind::Device, device) {
        return Some(fault);
    }
    if let Some(fault) = new_fault(answers, fence) {
        return Some(fault);
    }
    if 1 < flags {
        return Some(Fault::BadValue);
    }
    room_fault(answers, 1)
}

/// The fault of DestroyFence.
#[tactic(auto, unfolding(gfx_model::specs::Table::row_of))]
pub fn destroy_fence<A: Answers>(answers: &A, device: u64, fence: u64) -> Option<Fault>
    ensures { result ≡ words.first_broken (A.view answers.now) (row_of (DestroyFence device fence)) }
{
    owned_fault(answers, Kind::Fence, device, fence)
}

/// The fault of CreateSemaphore.
#[tactic(auto, unfolding(gfx_model::specs::Table::row_of, gfx_model::specs::Checks::broken))]
pub fn create_semaphore<A: Answers>(answers: &A, device: u64, semaphore: u64) -> Option<Fault>
    ensures { result ≡ words.first_broken (A.view answers.now) (row_of (CreateSemaphore device semaphore)) }
{
    if let Some(fault) = live_fault(answers, Kind::Device, device) {
        return Some(fault);
    }
    if let Some(fault) = new_fault(answers, semaphore) {
        return Some(fault);
    }
    room_fault(answers, 1)
}

/// The fault of DestroySemaphore.
#[tactic(auto, unfolding(gfx_model::specs::Table::row_of))]
pub fn destroy_semaphore<A: Answers>(answers: &A, device: u64, semaphore: u64) -> Option<Fault>
    ensures { result ≡ words.first_broken (A.view answers.now) (row_of (DestroySemaphore device semaphore)) }
{
    owned_fault(answers, Kind::Semaphore, device, semaphore)
}
