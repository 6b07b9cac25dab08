//! What a capture file may hold at most. Sizes are in bytes.

/// Options in the header.
pub const MAX_OPTIONS: u32 = 16;

/// The payload of a block.
pub const MAX_PAYLOAD: u64 = 1 << 27;

/// Blocks on a side of the state section.
pub const MAX_SIDE_BLOCKS: u64 = 1 << 32;

/// The number of a frame.
pub const MAX_FRAME: u64 = 1 << 62;

/// Objects that are live at a time.
pub const MAX_LIVE_OBJECTS: u32 = 65_536;

/// The bytes of live memory and of the images of live swapchains.
pub const MAX_LIVE_BYTES: u64 = 1 << 28;

/// Command buffers or fences in the list of a call.
pub const MAX_LIST_LENGTH: usize = 65_536;

/// The width and the height of an image, in texels.
pub const MAX_EXTENT: u32 = 4_096;

/// The bytes of an image of this extent.
pub const MAX_IMAGE_SIZE: u64 = 1 << 26;

/// The images of a swapchain.
pub const MAX_SWAPCHAIN_IMAGES: u32 = 16;

/// Commands that live command buffers keep.
pub const MAX_KEPT_COMMANDS: u64 = 1 << 20;

/// The bytes of the fields of these commands.
pub const MAX_KEPT_BYTES: u64 = 1 << 28;

/// Regions of a copy.
pub const MAX_REGIONS: usize = 256;

/// Barriers of a call.
pub const MAX_BARRIERS: usize = 256;

/// The bytes of a buffer's update.
pub const MAX_UPDATE: u64 = 65_536;

/// Submits of a call.
pub const MAX_SUBMITS: usize = 16;

/// Semaphores that a submit or a present waits for, and those that a submit signals.
pub const MAX_SEMAPHORES: usize = 16;

/// The command buffers of a submit.
pub const MAX_SUBMIT_BUFFERS: usize = 64;

/// Swapchains that one call presents.
pub const MAX_PRESENTS: usize = 8;

/// What divides the offset at which a resource is bound.
pub const BIND_ALIGNMENT: u64 = 16;

/// The bytes of a page of memory; a section has at most one FillMemory for each page.
pub const PAGE_SIZE: u64 = 65_536;

/// A line of a script.
pub const MAX_LINE: usize = 1 << 20;

/// The lines of a script.
pub const MAX_LINES: u32 = 1 << 20;

/// The text of a script.
pub const MAX_SCRIPT: usize = 1 << 30;

/// The phases of a script.
pub const MAX_PHASES: usize = 64;

/// A log, with its header.
pub const MAX_LOG: u64 = 1 << 28;
