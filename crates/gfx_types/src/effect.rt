//! Effects: calls, metadata and markers, and the blocks that carry them.

use crate::call::Call;
use crate::lists::Numbers;

/// State that is recorded beside the calls, by its metadata ids 2 to 5.
#[derive(Debug, Drop)]
pub enum Meta<'a> {
    FillMemory {
        memory: u64,
        offset: u64,
        bytes: &'a [u8],
    },
    InitImage {
        image: u64,
        layout: u32,
        bytes: &'a [u8],
    },
    SetSwapchainState {
        swapchain: u64,
        acquired: Numbers,
    },
    SetSemaphoreState {
        semaphore: u64,
        signalled: u32,
    },
}

/// What a block adds to the history. A marker begins or ends the state section before a frame.
#[derive(Debug, Drop)]
pub enum Effect<'a> {
    Call(Call<'a>),
    Meta(Meta<'a>),
    Marker { begin: bool, frame: u64 },
}

/// A block of a file: an effect under its thread, which is 0 for a marker, or a block that is skipped.
#[derive(Debug, Drop)]
pub enum Block<'a> {
    Effect { thread: u64, effect: Effect<'a> },
    Skip,
}
