//! The recorded calls.

use crate::lists::{Barriers, BufferRegions, Ids, ImageRegions, MixedRegions, Presents, Submits};

/// A recorded call. Its call id is its place in this list, counted from 1. Fields without a mark of their own
/// are ids, sizes and offsets of eight bytes or numbers of four; sizes and offsets are in bytes.
#[derive(Debug, Drop)]
pub enum Call<'a> {
    CreateInstance {
        instance: u64,
        api: u32,
    },
    DestroyInstance {
        instance: u64,
    },
    CreateHeadlessSurfaceEXT {
        instance: u64,
        surface: u64,
    },
    DestroySurfaceKHR {
        instance: u64,
        surface: u64,
    },
    CreateDevice {
        instance: u64,
        device: u64,
    },
    DestroyDevice {
        device: u64,
    },
    GetDeviceQueue {
        device: u64,
        queue: u64,
    },
    AllocateMemory {
        device: u64,
        memory: u64,
        size: u64,
    },
    FreeMemory {
        device: u64,
        memory: u64,
    },
    MapMemory {
        device: u64,
        memory: u64,
        offset: u64,
        size: u64,
    },
    UnmapMemory {
        device: u64,
        memory: u64,
    },
    CreateBuffer {
        device: u64,
        buffer: u64,
        size: u64,
        usage: u32,
    },
    DestroyBuffer {
        device: u64,
        buffer: u64,
    },
    BindBufferMemory {
        device: u64,
        buffer: u64,
        memory: u64,
        offset: u64,
    },
    CreateImage {
        device: u64,
        image: u64,
        format: u32,
        width: u32,
        height: u32,
        usage: u32,
    },
    DestroyImage {
        device: u64,
        image: u64,
    },
    BindImageMemory {
        device: u64,
        image: u64,
        memory: u64,
        offset: u64,
    },
    CreateCommandPool {
        device: u64,
        pool: u64,
        flags: u32,
    },
    DestroyCommandPool {
        device: u64,
        pool: u64,
    },
    ResetCommandPool {
        device: u64,
        pool: u64,
    },
    AllocateCommandBuffers {
        device: u64,
        pool: u64,
        buffers: Ids,
    },
    FreeCommandBuffers {
        device: u64,
        pool: u64,
        buffers: Ids,
    },
    BeginCommandBuffer {
        cb: u64,
        flags: u32,
    },
    EndCommandBuffer {
        cb: u64,
    },
    ResetCommandBuffer {
        cb: u64,
    },
    CmdPipelineBarrier {
        cb: u64,
        barriers: Barriers,
    },
    CmdFillBuffer {
        cb: u64,
        buffer: u64,
        offset: u64,
        size: u64,
        word: u32,
    },
    CmdUpdateBuffer {
        cb: u64,
        buffer: u64,
        offset: u64,
        bytes: &'a [u8],
    },
    CmdCopyBuffer {
        cb: u64,
        source: u64,
        target: u64,
        regions: BufferRegions,
    },
    CmdCopyImage {
        cb: u64,
        source: u64,
        source_layout: u32,
        target: u64,
        target_layout: u32,
        regions: ImageRegions,
    },
    CmdCopyBufferToImage {
        cb: u64,
        source: u64,
        target: u64,
        layout: u32,
        regions: MixedRegions,
    },
    CmdCopyImageToBuffer {
        cb: u64,
        source: u64,
        layout: u32,
        target: u64,
        regions: MixedRegions,
    },
    CmdClearColorImage {
        cb: u64,
        image: u64,
        layout: u32,
        c0: u32,
        c1: u32,
        c2: u32,
        c3: u32,
    },
    CreateFence {
        device: u64,
        fence: u64,
        flags: u32,
    },
    DestroyFence {
        device: u64,
        fence: u64,
    },
    ResetFences {
        device: u64,
        fences: Ids,
    },
    WaitForFences {
        device: u64,
        fences: Ids,
        wait_all: u32,
        answer: u32,
    },
    GetFenceStatus {
        device: u64,
        fence: u64,
        answer: u32,
    },
    CreateSemaphore {
        device: u64,
        semaphore: u64,
    },
    DestroySemaphore {
        device: u64,
        semaphore: u64,
    },
    QueueSubmit {
        queue: u64,
        submits: Submits,
        fence: u64,
    },
    QueueWaitIdle {
        queue: u64,
    },
    DeviceWaitIdle {
        device: u64,
    },
    CreateSwapchainKHR {
        device: u64,
        swapchain: u64,
        surface: u64,
        images: u32,
        format: u32,
        width: u32,
        height: u32,
        usage: u32,
    },
    DestroySwapchainKHR {
        device: u64,
        swapchain: u64,
    },
    GetSwapchainImagesKHR {
        device: u64,
        swapchain: u64,
        images: Ids,
    },
    AcquireNextImageKHR {
        device: u64,
        swapchain: u64,
        semaphore: u64,
        fence: u64,
        index: u32,
        answer: u32,
    },
    QueuePresentKHR {
        queue: u64,
        waits: Ids,
        presents: Presents,
    },
}
