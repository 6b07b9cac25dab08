//! The rows of calls on memory, buffers and images.

ghost use Rattle.std.specs.Prelude.{◌≡◌};
ghost use Rattle.gfx_model.specs.Events.Event.{AllocateMemory, FreeMemory, MapMemory, UnmapMemory, CreateBuffer, DestroyBuffer, BindBufferMemory, CreateImage, DestroyImage, BindImageMemory};
ghost use Rattle.gfx_model.specs.Table.{row_of};
ghost use Rattle.gfx_model.specs.Checks as words;

use crate::answers::Answers;
use crate::broken::first_broken;
use crate::checks::{Check, first};
use crate::ids::{new_fault, room_fault};
use crate::resources::{live_fault, owned_fault};
use crate::spans::span;
use crate::values::{both, is_image};
use gfx_types::limits::{BIND_ALIGNMENT, MAX_EXTENT};
use gfx_types::{Fault, Kind};

/// The fault of AllocateMemory.
#[tactic(auto, unfolding(gfx_model::specs::Table::row_of))]
pub fn allocate_memory<A: Answers>(
    answers: &A,
    device: u64,
    memory: u64,
    size: u64,
) -> Option<Fault>
    ensures { result ≡ words.first_broken (A.view answers.now) (row_of (AllocateMemory device memory size)) }
{
    first_broken(
        answers,
        &[
            Check::Live(Kind::Device, device),
            Check::New(memory),
            Check::Must(Fault::BadValue, 1 <= size),
            Check::Room(1),
            Check::RoomFor(u128::from(size)),
        ],
    )
}

/// The fault of FreeMemory.
#[tactic(auto, unfolding(gfx_model::specs::Table::row_of))]
pub fn free_memory<A: Answers>(answers: &A, device: u64, memory: u64) -> Option<Fault>
    ensures { result ≡ words.first_broken (A.view answers.now) (row_of (FreeMemory device memory)) }
{
    first_broken(
        answers,
        &[
            Check::Live(Kind::Device, device),
            Check::Live(Kind::Memory, memory),
            Check::Of(memory, device),
        ],
    )
}

/// The fault of MapMemory.
pub fn map_memory<A: Answers>(
    answers: &A,
    device: u64,
    memory: u64,
    offset: u64,
    size: u64,
) -> Option<Fault>
    ensures { result ≡ words.first_broken (A.view answers.now) (row_of (MapMemory device memory offset size)) }
{
    let front = first_broken(
        answers,
        &[
            Check::Live(Kind::Device, device),
            Check::Live(Kind::Memory, memory),
            Check::Of(memory, device),
            Check::Must(Fault::BadValue, 1 <= size),
        ],
    );
    let range = span(answers, memory, offset, size);
    let unmapped = first_broken(answers, &[Check::Unmapped(memory)]);
    first(front, first(range, unmapped))
}

/// The fault of UnmapMemory.
#[tactic(auto, unfolding(gfx_model::specs::Table::row_of))]
pub fn unmap_memory<A: Answers>(answers: &A, device: u64, memory: u64) -> Option<Fault>
    ensures { result ≡ words.first_broken (A.view answers.now) (row_of (UnmapMemory device memory)) }
{
    first_broken(
        answers,
        &[
            Check::Live(Kind::Device, device),
            Check::Live(Kind::Memory, memory),
            Check::Of(memory, device),
            Check::IsMapped(memory),
        ],
    )
}

/// The fault of CreateBuffer.
#[tactic(auto, unfolding(gfx_model::specs::Table::row_of, gfx_model::specs::Checks::broken))]
pub fn create_buffer<A: Answers>(
    answers: &A,
    device: u64,
    buffer: u64,
    size: u64,
    usage: u32,
) -> Option<Fault>
    ensures { result ≡ words.first_broken (A.view answers.now) (row_of (CreateBuffer device buffer size usage)) }
{
    if let Some(fault) = live_fault(answers, Kind::Device, device) {
        return Some(fault);
    }
    if let Some(fault) = new_fault(answers, buffer) {
        return Some(fault);
    }
    if !both(1 <= size, 1 <= usage) {
        return Some(Fault::BadValue);
    }
    room_fault(answers, 1)
}

/// The fault of DestroyBuffer.
#[tactic(auto, unfolding(gfx_model::specs::Table::row_of))]
pub fn destroy_buffer<A: Answers>(answers: &A, device: u64, buffer: u64) -> Option<Fault>
    ensures { result ≡ words.first_broken (A.view answers.now) (row_of (DestroyBuffer device buffer)) }
{
    owned_fault(answers, Kind::Buffer, device, buffer)
}

/// The fault of BindBufferMemory.
#[tactic(auto, unfolding(gfx_model::specs::Table::row_of))]
pub fn bind_buffer_memory<A: Answers>(
    answers: &A,
    device: u64,
    buffer: u64,
    memory: u64,
    offset: u64,
) -> Option<Fault>
    ensures { result ≡ words.first_broken (A.view answers.now) (row_of (BindBufferMemory device buffer memory offset)) }
{
    first_broken(
        answers,
        &[
            Check::Live(Kind::Device, device),
            Check::Live(Kind::Buffer, buffer),
            Check::Live(Kind::Memory, memory),
            Check::Of(buffer, device),
            Check::Of(memory, device),
            Check::Unbound(buffer),
            Check::Must(Fault::BadValue, offset % BIND_ALIGNMENT == 0),
            Check::RestsIn(buffer, memory, offset),
        ],
    )
}

/// The fault of CreateImage.
#[tactic(auto, unfolding(gfx_model::specs::Table::row_of, gfx_model::specs::Checks::broken))]
pub fn create_image<A: Answers>(
    answers: &A,
    device: u64,
    image: u64,
    format: u32,
    width: u32,
    height: u32,
    usage: u32,
) -> Option<Fault>
    ensures { result ≡ words.first_broken (A.view answers.now) (row_of (CreateImage device image format width height usage)) }
{
    if let Some(fault) = live_fault(answers, Kind::Device, device) {
        return Some(fault);
    }
    if let Some(fault) = new_fault(answers, image) {
        return Some(fault);
    }
    if !is_image(format, width, height, usage) {
        return Some(Fault::BadValue);
    }
    if !both(width <= MAX_EXTENT, height <= MAX_EXTENT) {
        return Some(Fault::LimitReached);
    }
    room_fault(answers, 1)
}

/// The fault of DestroyImage.
#[tactic(auto, unfolding(gfx_model::specs::Table::row_of))]
pub fn destroy_image<A: Answers>(answers: &A, device: u64, image: u64) -> Option<Fault>
    ensures { result ≡ words.first_broken (A.view answers.now) (row_of (DestroyImage device image)) }
{
    owned_fault(answers, Kind::Image, device, image)
}

/// The fault of BindImageMemory.
#[tactic(auto, unfolding(gfx_model::specs::Table::row_of))]
pub fn bind_image_memory<A: Answers>(
    answers: &A,
    device: u64,
    image: u64,
    memory: u64,
    offset: u64,
) -> Option<Fault>
    ensures { result ≡ words.first_broken (A.view answers.now) (row_of (BindImageMemory device image memory offset)) }
{
    first_broken(
        answers,
        &[
            Check::Live(Kind::Device, device),
            Check::Live(Kind::Image, image),
            Check::Live(Kind::Memory, memory),
            Check::Of(image, device),
            Check::Of(memory, device),
            Check::Unbound(image),
            Check::Must(Fault::BadValue, offset % BIND_ALIGNMENT == 0),
            Check::RestsIn(image, memory, offset),
        ],
    )
}
