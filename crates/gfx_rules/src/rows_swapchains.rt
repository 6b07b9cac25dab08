//! The rows of calls on swapchains.

ghost use Rattle.std.specs.Prelude.{◌≡◌, ◌==◌, ◌||◌, ◌++◌, ◌∷◌, [], nat_le, not};
ghost use Rattle.gfx_types.specs.declared.names.Kind.TheVariants as kind;
ghost use Rattle.gfx_model.specs.Table as table;
ghost use Rattle.gfx_model.specs.Events.Event.{CreateSwapchainKHR, DestroySwapchainKHR, GetSwapchainImagesKHR, AcquireNextImageKHR};
ghost use Rattle.gfx_model.specs.Table.{row_of};
ghost use Rattle.gfx_model.specs.Checks as words;

use crate::answers::Answers;
use crate::broken::first_broken;
use crate::checks::{Check, first};
use crate::values::{all_of, chain_bytes, either, is_chain};
use gfx_types::limits::{MAX_EXTENT, MAX_SWAPCHAIN_IMAGES};
use gfx_types::{Fault, Kind};

/// The fault of CreateSwapchainKHR.
#[tactic(auto, unfolding(gfx_model::specs::Table::row_of))]
pub fn create_swapchain<A: Answers>(
    answers: &A,
    device: u64,
    swapchain: u64,
    surface: u64,
    images: u32,
    format: u32,
    width: u32,
    height: u32,
    usage: u32,
) -> Option<Fault>
    ensures { result ≡ words.first_broken (A.view answers.now) (row_of (CreateSwapchainKHR device swapchain surface images format width height usage)) }
{
    let fine = is_chain(images, format, width, height, usage);
    let small = all_of(
        images <= MAX_SWAPCHAIN_IMAGES,
        width <= MAX_EXTENT,
        height <= MAX_EXTENT,
    );
    let bytes = chain_bytes(images, format, width, height);
    first_broken(
        answers,
        &[
            Check::Live(Kind::Device, device),
            Check::Live(Kind::Surface, surface),
            Check::SameInstance(device, surface),
            Check::New(swapchain),
            Check::FreeSurface(surface),
            Check::Must(Fault::BadValue, fine),
            Check::Must(Fault::LimitReached, small),
            Check::Room(1),
            Check::RoomFor(bytes),
        ],
    )
}

/// The fault of DestroySwapchainKHR.
#[tactic(auto, unfolding(gfx_model::specs::Table::row_of))]
pub fn destroy_swapchain<A: Answers>(answers: &A, device: u64, swapchain: u64) -> Option<Fault>
    ensures { result ≡ words.first_broken (A.view answers.now) (row_of (DestroySwapchainKHR device swapchain)) }
{
    first_broken(
        answers,
        &[
            Check::Live(Kind::Device, device),
            Check::Live(Kind::Swapchain, swapchain),
            Check::Of(swapchain, device),
        ],
    )
}

/// The fault of GetSwapchainImagesKHR.
#[tactic(auto, unfolding(gfx_model::specs::Table::row_of))]
pub fn get_swapchain_images<A: Answers>(
    answers: &A,
    device: u64,
    swapchain: u64,
    images: &[u64],
) -> Option<Fault>
    ensures { result ≡ words.first_broken (A.view answers.now) (row_of (GetSwapchainImagesKHR device swapchain images.now)) }
{
    first_broken(
        answers,
        &[
            Check::Live(Kind::Device, device),
            Check::Live(Kind::Swapchain, swapchain),
            Check::Of(swapchain, device),
            Check::TheImages(swapchain, images),
        ],
    )
}

/// The prefix of AcquireNextImageKHR, up to what it signals.
fn acquire_front<A: Answers>(
    answers: &A,
    device: u64,
    swapchain: u64,
    semaphore: u64,
    fence: u64,
) -> Option<Fault>
    ensures { result ≡ words.first_broken (A.view answers.now) (table.of_device kind.Swapchain device swapchain
        ++ table.value (not (semaphore == 0) || not (fence == 0)) ∷ []) }
{
    let fine = either(semaphore != 0, fence != 0);
    first_broken(
        answers,
        &[
            Check::Live(Kind::Device, device),
            Check::Live(Kind::Swapchain, swapchain),
            Check::Of(swapchain, device),
            Check::Must(Fault::BadValue, fine),
        ],
    )
}

/// What an acquire signals, where it is not 0, has to be an unsignalled one of the device.
fn to_signal<A: Answers>(answers: &A, of: Kind, device: u64, id: u64) -> Option<Fault>
    ensures { result ≡ words.first_broken (A.view answers.now) (table.to_signal of device id) }
{
    if id == 0 {
        None
    } else {
        first_broken(
            answers,
            &[
                Check::Live(of, id),
                Check::Of(id, device),
                Check::Unsignalled(id),
            ],
        )
    }
}

/// Whether the answer of an acquire is right.
fn acquired_fault<A: Answers>(answers: &A, swapchain: u64, index: u32, answer: u32) -> Option<Fault>
    ensures { result ≡ words.first_broken (A.view answers.now) (table.value (nat_le answer 1) ∷ table.acquire_answer swapchain index answer) }
{
    if answer == 1 {
        first_broken(
            answers,
            &[
                Check::Must(Fault::BadValue, answer <= 1),
                Check::Must(Fault::BadValue, index == 0),
                Check::AllAcquired(swapchain),
            ],
        )
    } else {
        first_broken(
            answers,
            &[
                Check::Must(Fault::BadValue, answer <= 1),
                Check::IndexIn(swapchain, index),
                Check::NotAcquired(swapchain, index),
            ],
        )
    }
}

/// The fault of AcquireNextImageKHR.
pub fn acquire_next_image<A: Answers>(
    answers: &A,
    device: u64,
    swapchain: u64,
    semaphore: u64,
    fence: u64,
    index: u32,
    answer: u32,
) -> Option<Fault>
    ensures { result ≡ words.first_broken (A.view answers.now) (row_of (AcquireNextImageKHR device swapchain semaphore fence index answer)) }
{
    let front = acquire_front(answers, device, swapchain, semaphore, fence);
    let semaphores = to_signal(answers, Kind::Semaphore, device, semaphore);
    let fences = to_signal(answers, Kind::Fence, device, fence);
    let acquired = acquired_fault(answers, swapchain, index, answer);
    first(front, first(first(semaphores, fences), acquired))
}
