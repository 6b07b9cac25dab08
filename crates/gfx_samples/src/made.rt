//! Captures of one frame that are made effect by effect.
#![tactic(auto, unfolding(gfx_model::specs::Spelling::fields_of, gfx_model::specs::Spelling::spelling, gfx_model::specs::Spelling::payload, gfx_model::specs::Spelling::type_of, gfx_model::specs::Spelling::id_of))]

ghost use Rattle.std.specs.Prelude.{◌≤◌, length};
ghost use Rattle.gfx_grammar.specs.Framing.{CanBeWritten};
ghost use Rattle.gfx_model.specs.Events.{event_of, event_of_call};

use gfx_blocks::{put_block, put_header};
use gfx_types::{
    Barrier, Barriers, BufferRegion, BufferRegions, Call, Effect, Ids, Meta, MixedRegion,
    MixedRegions, Present, Presents, Submit, Submits,
};
use std::alloc::Global;
use std::test::Fail;

/// The layout in which an image is presented.
const PRESENTED: u32 = 1_000_001_002;

/// The image of a capture, its memory, and its buffer over the start of the memory, which begins with these bytes.
#[derive(Clone, Copy)]
pub struct Scene<'a> {
    pub format: u32,
    pub width: u32,
    pub height: u32,
    pub memory: u64,
    pub buffer: u64,
    pub usage: u32,
    pub bytes: &'a [u8],
}

/// The scene of the file of one frame.
pub const PLAIN: Scene<'static> = Scene {
    format: 13,
    width: 3,
    height: 1,
    memory: 64,
    buffer: 16,
    usage: 1,
    bytes: b"abc",
};

/// A file of minor version 1 that grows by blocks of thread 0.
#[derive(Drop)]
pub struct Made {
    alloc: Global,
    bytes: Vec<u8>,
}

impl Made {
    /// A header.
    fn new(alloc: Global) -> Result<Self, Fail> {
        let mut bytes = Vec::new(alloc);
        put_header(1, &mut bytes)?;
        Ok(Made { alloc, bytes })
    }

    /// All that is before the commands of a scene but the first, which makes the image a target.
    pub fn of(alloc: Global, scene: Scene<'_>) -> Result<Self, Fail>
        requires { length scene.bytes.now ≤ 65536 }
    {
        let mut made = Made::new(alloc)?;
        made.objects(scene)?;
        made.recording()?;
        Ok(made)
    }

    /// The bytes of the file.
    pub fn bytes(&self) -> &[u8] {
        &self.bytes
    }

    fn put(&mut self, effect: &Effect<'_>) -> Result<(), Fail>
        requires { CanBeWritten 1 0 (event_of effect.now) }
    {
        put_block(1, 0, effect, &mut self.bytes)?;
        Ok(())
    }

    fn call(&mut self, call: Call<'_>) -> Result<(), Fail>
        requires { CanBeWritten 1 0 (event_of_call call) }
    {
        self.put(&Effect::Call(call))
    }

    fn objects(&mut self, scene: Scene<'_>) -> Result<(), Fail>
        requires { length scene.bytes.now ≤ 65536 }
    {
        self.device()?;
        self.swapchain(scene.format, scene.width, scene.height)?;
        self.memory(scene.memory, scene.bytes)?;
        self.buffer(scene.buffer, scene.usage)
    }

    /// An instance 1, a surface 2, a device 3 and its queue 4.
    fn device(&mut self) -> Result<(), Fail> {
        self.call(Call::CreateInstance {
            instance: 1,
            api: 4_194_304,
        })?;
        self.call(Call::CreateHeadlessSurfaceEXT {
            instance: 1,
            surface: 2,
        })?;
        self.call(Call::CreateDevice {
            instance: 1,
            device: 3,
        })?;
        self.call(Call::GetDeviceQueue {
            device: 3,
            queue: 4,
        })
    }

    /// A swapchain 5 of one image, 6, and a fence 7.
    fn swapchain(&mut self, format: u32, width: u32, height: u32) -> Result<(), Fail> {
        self.call(Call::CreateSwapchainKHR {
            device: 3,
            swapchain: 5,
            surface: 2,
            images: 1,
            format,
            width,
            height,
            usage: 3,
        })?;
        let images = Ids::of(vec![in self.alloc; 6]?);
        self.call(Call::GetSwapchainImagesKHR {
            device: 3,
            swapchain: 5,
            images,
        })?;
        self.call(Call::CreateFence {
            device: 3,
            fence: 7,
            flags: 0,
        })
    }

    /// A memory 8 that is mapped whole and begins with these bytes.
    fn memory(&mut self, size: u64, bytes: &[u8]) -> Result<(), Fail>
        requires { length bytes.now ≤ 65536 }
    {
        self.call(Call::AllocateMemory {
            device: 3,
            memory: 8,
            size,
        })?;
        self.call(Call::MapMemory {
            device: 3,
            memory: 8,
            offset: 0,
            size: u64::MAX,
        })?;
        self.put(&Effect::Meta(Meta::FillMemory {
            memory: 8,
            offset: 0,
            bytes,
        }))
    }

    /// A buffer 9 over the start of the memory.
    fn buffer(&mut self, size: u64, usage: u32) -> Result<(), Fail> {
        self.call(Call::CreateBuffer {
            device: 3,
            buffer: 9,
            size,
            usage,
        })?;
        self.call(Call::BindBufferMemory {
            device: 3,
            buffer: 9,
            memory: 8,
            offset: 0,
        })
    }

    /// A pool 10 and a command buffer 11 that is recording, and whose first command makes the image a target.
    fn recording(&mut self) -> Result<(), Fail> {
        self.call(Call::CreateCommandPool {
            device: 3,
            pool: 10,
            flags: 2,
        })?;
        let buffers = Ids::of(vec![in self.alloc; 11]?);
        self.call(Call::AllocateCommandBuffers {
            device: 3,
            pool: 10,
            buffers,
        })?;
        self.call(Call::BeginCommandBuffer { cb: 11, flags: 0 })?;
        self.barrier(0, 7)
    }

    fn barrier(&mut self, before: u32, after: u32) -> Result<(), Fail> {
        let barrier = Barrier {
            image: 6,
            before,
            after,
        };
        let barriers = Barriers::of(vec![in self.alloc; barrier]?);
        self.call(Call::CmdPipelineBarrier { cb: 11, barriers })
    }

    /// A copy of the start of the buffer to an image of this size.
    pub fn copy_to_image(&mut self, width: u32, height: u32) -> Result<(), Fail> {
        let region = MixedRegion {
            offset: 0,
            row: 0,
            rows: 0,
            x: 0,
            y: 0,
            width,
            height,
        };
        let regions = MixedRegions::of(vec![in self.alloc; region]?);
        self.call(Call::CmdCopyBufferToImage {
            cb: 11,
            source: 9,
            target: 6,
            layout: 7,
            regions,
        })
    }

    /// Copies inside the buffer, one after the other.
    pub fn copy_twice(&mut self, first: BufferRegion, second: BufferRegion) -> Result<(), Fail> {
        let regions = BufferRegions::of(vec![in self.alloc; first, second]?);
        self.call(Call::CmdCopyBuffer {
            cb: 11,
            source: 9,
            target: 9,
            regions,
        })
    }

    /// A fill of the whole buffer.
    pub fn fill(&mut self, word: u32) -> Result<(), Fail> {
        self.call(Call::CmdFillBuffer {
            cb: 11,
            buffer: 9,
            offset: 0,
            size: u64::MAX,
            word,
        })
    }

    /// An update of the start of the buffer.
    pub fn update(&mut self, bytes: &[u8]) -> Result<(), Fail>
        requires { length bytes.now ≤ 131072 }
    {
        self.call(Call::CmdUpdateBuffer {
            cb: 11,
            buffer: 9,
            offset: 0,
            bytes,
        })
    }

    /// A clear of the image, of which the first component isn't 0.
    pub fn clear(&mut self, c0: u32) -> Result<(), Fail> {
        self.call(Call::CmdClearColorImage {
            cb: 11,
            image: 6,
            layout: 7,
            c0,
            c1: 0,
            c2: 0,
            c3: 0,
        })
    }

    /// The end of the recording, whose last command lets the image be presented, and the first frame.
    pub fn show(&mut self) -> Result<(), Fail> {
        self.barrier(7, PRESENTED)?;
        self.call(Call::EndCommandBuffer { cb: 11 })?;
        self.frame()
    }

    /// A frame of what was recorded. The fence has to be unsignalled.
    fn frame(&mut self) -> Result<(), Fail> {
        self.call(Call::AcquireNextImageKHR {
            device: 3,
            swapchain: 5,
            semaphore: 0,
            fence: 7,
            index: 0,
            answer: 0,
        })?;
        self.submit()?;
        let waits = Ids::of(Vec::new(self.alloc));
        let present = Present {
            swapchain: 5,
            index: 0,
        };
        let presents = Presents::of(vec![in self.alloc; present]?);
        self.call(Call::QueuePresentKHR {
            queue: 4,
            waits,
            presents,
        })
    }

    fn submit(&mut self) -> Result<(), Fail> {
        let submit = Submit {
            waits: Ids::of(Vec::new(self.alloc)),
            cbs: Ids::of(vec![in self.alloc; 11]?),
            signals: Ids::of(Vec::new(self.alloc)),
        };
        let submits = Submits::of(vec![in self.alloc; submit]?);
        self.call(Call::QueueSubmit {
            queue: 4,
            submits,
            fence: 0,
        })
    }

    /// Shows the frame once more.
    pub fn show_again(&mut self) -> Result<(), Fail> {
        let fences = Ids::of(vec![in self.alloc; 7]?);
        self.call(Call::ResetFences { device: 3, fences })?;
        self.frame()
    }
}
