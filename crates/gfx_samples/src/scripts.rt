//! The lines of scripts, in pieces.

use std::alloc::Global;
use std::test::Fail;

/// Makes a swapchain, and a buffer with the texels of its image.
pub const OBJECTS: &[u8] = b"\
phase
thread 0
inst = vkCreateInstance api=4194304
surf = vkCreateHeadlessSurfaceEXT instance=inst
dev = vkCreateDevice instance=inst
q = vkGetDeviceQueue device=dev
sc = vkCreateSwapchainKHR device=dev surface=surf images=1 format=13 width=3 height=1 usage=3
img = vkGetSwapchainImagesKHR device=dev swapchain=sc
f = vkCreateFence device=dev flags=0
mem = vkAllocateMemory device=dev size=64
vkMapMemory device=dev memory=mem offset=0 size=18446744073709551615
write memory=mem offset=0 bytes=616263
buf = vkCreateBuffer device=dev size=16 usage=1
vkBindBufferMemory device=dev buffer=buf memory=mem offset=0
";

/// Writes over the bytes that are there and behind them.
pub const WRITES: &[u8] = b"\
write memory=mem offset=1 bytes=627a
write memory=mem offset=8 bytes=7a
";

/// Begins a command buffer.
pub const BEGIN: &[u8] = b"\
pool = vkCreateCommandPool device=dev flags=2
cb = vkAllocateCommandBuffers device=dev pool=pool
vkBeginCommandBuffer cb=cb flags=0
";

/// One command.
pub const BARRIER: &[u8] = b"vkCmdPipelineBarrier cb=cb barriers=[(img,0,7)]\n";

/// Copies the texels.
pub const COPY: &[u8] =
    b"vkCmdCopyBufferToImage cb=cb source=buf target=img layout=7 regions=[(0,0,0,0,0,3,1)]\n";

/// Copies more texels than there are.
pub const LONG_COPY: &[u8] =
    b"vkCmdCopyBufferToImage cb=cb source=buf target=img layout=7 regions=[(0,0,0,0,0,4,1)]\n";

/// Ends the command buffer.
pub const END: &[u8] = b"\
vkCmdPipelineBarrier cb=cb barriers=[(img,7,1000001002)]
vkEndCommandBuffer cb=cb
";

/// Draws the image by the command buffer.
pub const DRAW: &[u8] = b"\
vkAcquireNextImageKHR device=dev swapchain=sc semaphore=0 fence=f index=0 answer=0
vkQueueSubmit queue=q submits=[([],[cb],[])] fence=0
";

/// Presents the image.
pub const PRESENT: &[u8] = b"vkQueuePresentKHR queue=q waits=[] swapchain=sc index=0\n";

/// A line that is accepted after any others.
pub const MORE: &[u8] = b"more = vkCreateInstance api=4194304\n";

/// A text that is these, one behind the other.
pub fn joined(alloc: Global, pieces: &[&[u8]]) -> Result<Vec<u8>, Fail> {
    let mut text = Vec::new(alloc);
    for piece in pieces {
        text.extend_from_slice(piece)?;
    }
    Ok(text)
}
