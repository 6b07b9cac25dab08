//! Histories that cases begin with. What belongs to the second device has an id above 100.

use std::test::Fail;

/// The histories: effects under their name, in one line or in several.
const HISTORIES: &str = "\
# Instance 1 with surface 2, and device 3 with queue 4.
Device: CreateInstance(1, 0); CreateHeadlessSurfaceEXT(1, 2); CreateDevice(1, 3); GetDeviceQueue(3, 4)

# A second instance.
Instance: CreateInstance(101, 0)

# A second device, with a queue.
Other: CreateDevice(1, 103); GetDeviceQueue(103, 104)

# A memory of 256 bytes.
Memory: AllocateMemory(3, 8, 256)

# Of which 64 bytes from 16 on are mapped.
Mapped: MapMemory(3, 8, 16, 64)

# A buffer of 64 bytes.
Buffer: CreateBuffer(3, 9, 64, 3)

# Which is bound to the memory.
Bound: BindBufferMemory(3, 9, 8, 0)

# An image of 4 by 4 texels of one byte.
Image: CreateImage(3, 12, 13, 4, 4, 3)

# Which is bound to the memory.
BoundImage: BindImageMemory(3, 12, 8, 128)

# A memory, a buffer and an image of the second device.
Others: AllocateMemory(103, 108, 256); CreateBuffer(103, 109, 64, 3); BindBufferMemory(103, 109, 108, 0); CreateImage(103, 112, 13, 4, 4, 3)
Others: BindImageMemory(103, 112, 108, 128)

# A pool whose buffers may be reset, with buffer 11.
Pool: CreateCommandPool(3, 10, 2); AllocateCommandBuffers(3, 10, 1, 11)

# The same pool with buffers that may not be reset.
Strict: CreateCommandPool(3, 10, 0); AllocateCommandBuffers(3, 10, 1, 11)

# A second pool, with buffer 15.
Second: CreateCommandPool(3, 14, 2); AllocateCommandBuffers(3, 14, 1, 15)

# A pool of the second device, with buffer 111.
OtherPool: CreateCommandPool(103, 110, 2); AllocateCommandBuffers(103, 110, 1, 111)

# Buffer 11 is recording.
Recording: BeginCommandBuffer(11, 0)

# Buffer 11 is executable.
Executable: BeginCommandBuffer(11, 0); EndCommandBuffer(11)

# Fence 20, and fence 21 which is signalled.
Fences: CreateFence(3, 20, 0); CreateFence(3, 21, 1)

# A fence and a semaphore of the second device.
OtherSignals: CreateFence(103, 120, 0); CreateSemaphore(103, 130)

# Semaphore 30, and semaphore 31 which is signalled.
Semaphores: CreateSemaphore(3, 30); CreateSemaphore(3, 31); QueueSubmit(4, 1, 0, 0, 1, 31, 0)

# A swapchain of two images of 4 by 4 texels.
Swapchain: CreateSwapchainKHR(3, 5, 2, 2, 13, 4, 4, 3)

# Its images 6 and 7.
Fetched: GetSwapchainImagesKHR(3, 5, 2, 6, 7)

# A swapchain of the second device, with one image.
OtherSwapchain: CreateHeadlessSurfaceEXT(1, 102); CreateSwapchainKHR(103, 105, 102, 1, 13, 4, 4, 3); GetSwapchainImagesKHR(103, 105, 1, 106)

# Both images are brought into the layout in which they are presented.
Drawn: BeginCommandBuffer(11, 0); CmdPipelineBarrier(11, 2, 6, 0, SHOWN, 7, 0, SHOWN); EndCommandBuffer(11); QueueSubmit(4, 1, 0, 1, 11, 0, 0)

# Image 0 is acquired with fence 20.
Acquired: AcquireNextImageKHR(3, 5, 0, 20, 0, 0)

# A second swapchain, with image 56.
SecondChain: CreateHeadlessSurfaceEXT(1, 52); CreateSwapchainKHR(3, 55, 52, 1, 13, 4, 4, 3); GetSwapchainImagesKHR(3, 55, 1, 56)

# Buffers and images, and buffer 11 which is recording. Buffer 9 and image 12 may be read and written, and so may buffer
# 19 and image 22; buffer 39 and image 42 may be read alone, buffer 49 and image 52 written alone; buffer 29 and image 32
# are not bound. Image 62 has texels of four bytes, and image 72 too, which are no UINTs.
Resources: AllocateMemory(3, 8, 256); CreateBuffer(3, 9, 64, 3); BindBufferMemory(3, 9, 8, 0); CreateBuffer(3, 19, 64, 3)
Resources: BindBufferMemory(3, 19, 8, 64); CreateBuffer(3, 29, 64, 3); CreateBuffer(3, 39, 64, 1); BindBufferMemory(3, 39, 8, 0)
Resources: CreateBuffer(3, 49, 64, 2); BindBufferMemory(3, 49, 8, 0); CreateImage(3, 12, 13, 4, 4, 3); BindImageMemory(3, 12, 8, 128)
Resources: CreateImage(3, 22, 13, 4, 4, 3); BindImageMemory(3, 22, 8, 144); CreateImage(3, 32, 13, 4, 4, 3); CreateImage(3, 42, 13, 4, 4, 1)
Resources: BindImageMemory(3, 42, 8, 128); CreateImage(3, 52, 13, 4, 4, 2); BindImageMemory(3, 52, 8, 128); CreateImage(3, 62, 98, 2, 2, 3)
Resources: BindImageMemory(3, 62, 8, 160); CreateImage(3, 72, 37, 2, 2, 3); BindImageMemory(3, 72, 8, 176); CreateImage(3, 82, 41, 2, 2, 3)
Resources: BindImageMemory(3, 82, 8, 192); CreateCommandPool(3, 10, 2); AllocateCommandBuffers(3, 10, 1, 11)

# A section is begun.
Section: Begin(1)

# A section before the last frame that there may be.
Late: Begin(LAST); End(LAST)

# A section that is ended.
Ended: Begin(1); End(1)
";

/// Appends the effects of a history, a line each.
fn push_history(text: &mut String, history: &str) -> Result<(), Fail> {
    let before = text.len();
    for line in HISTORIES.lines() {
        if let Some((name, effects)) = line.split_once(": ")
            && name == history
        {
            push_effects(text, effects)?;
        }
    }
    if text.len() == before {
        return Err(Fail::new("no history has this name"));
    }
    Ok(())
}

/// Appends effects that are side by side, a line each.
pub fn push_effects(text: &mut String, effects: &str) -> Result<(), Fail> {
    for effect in effects.split("; ") {
        push_line(text, effect)?;
    }
    Ok(())
}

/// Appends a line.
pub fn push_line(text: &mut String, line: &str) -> Result<(), Fail> {
    text.push_str(line)?;
    text.push_str("\n")?;
    Ok(())
}

/// Appends the effects of the histories with these names, one after another.
pub fn push_histories(text: &mut String, histories: &str) -> Result<(), Fail> {
    for history in histories.split_whitespace() {
        push_history(text, history)?;
    }
    Ok(())
}
