//! Lean cuts, as listings: of the section stay the objects that a range depends on, and the bytes that its frames read.

use gfx_outside::Outside;
use std::alloc::Global;
use std::test::Fail;

const LEAN: &[&str] = &["lean", "2-2"];

const HEADER: &str = "gfxr 1000.1\n";

/// An instance with a surface, and a device with its queue.
const DEVICE: &str = "thread=0 vkCreateInstance instance=1 api=4194304
thread=0 vkCreateHeadlessSurfaceEXT instance=1 surface=2
thread=0 vkCreateDevice instance=1 device=3
thread=0 vkGetDeviceQueue device=3 queue=4
";

const SWAPCHAIN: &str =
    "thread=0 vkCreateSwapchainKHR device=3 swapchain=5 surface=2 images=1 format=13 width=3 height=1 usage=3
thread=0 vkGetSwapchainImagesKHR device=3 swapchain=5 images=[6]
";

const FENCE: &str = "thread=0 vkCreateFence device=3 fence=7 flags=0\n";

const POOL: &str = "thread=0 vkCreateCommandPool device=3 pool=10 flags=2
thread=0 vkAllocateCommandBuffers device=3 pool=10 buffers=[11,12]
";

/// The first buffer, which clears the image.
const CLEARED: &str = "thread=0 vkBeginCommandBuffer cb=11 flags=0
thread=0 vkCmdPipelineBarrier cb=11 barriers=[(6,0,7)]
thread=0 vkCmdClearColorImage cb=11 image=6 layout=7 c0=0 c1=0 c2=0 c3=0
thread=0 vkCmdPipelineBarrier cb=11 barriers=[(6,7,1000001002)]
thread=0 vkEndCommandBuffer cb=11
";

/// Or copies the beginning of a buffer into it.
const UPLOADED: &str = "thread=0 vkBeginCommandBuffer cb=11 flags=0
thread=0 vkCmdPipelineBarrier cb=11 barriers=[(6,0,7)]
thread=0 vkCmdCopyBufferToImage cb=11 source=9 target=6 layout=7 regions=[(0,0,0,0,0,3,1)]
thread=0 vkCmdPipelineBarrier cb=11 barriers=[(6,7,1000001002)]
thread=0 vkEndCommandBuffer cb=11
";

/// A frame of the first buffer.
const SHOWN: &str =
    "thread=0 vkAcquireNextImageKHR device=3 swapchain=5 semaphore=0 fence=7 index=0 answer=0
thread=0 vkQueueSubmit queue=4 submits=[([],[11],[])] fence=0
thread=0 vkQueuePresentKHR queue=4 waits=[] swapchain=5 index=0
";

const RESET: &str = "thread=0 vkResetFences device=3 fences=[7]\n";

/// The second buffer, and the frame that it makes, before and behind its own commands.
const BEGUN: &str = "thread=0 vkBeginCommandBuffer cb=12 flags=0
thread=0 vkCmdPipelineBarrier cb=12 barriers=[(6,0,7)]
";

const ENDED: &str = "thread=0 vkCmdPipelineBarrier cb=12 barriers=[(6,7,1000001002)]
thread=0 vkEndCommandBuffer cb=12
thread=0 vkAcquireNextImageKHR device=3 swapchain=5 semaphore=0 fence=7 index=0 answer=0
thread=0 vkQueueSubmit queue=4 submits=[([],[12],[])] fence=0
thread=0 vkQueuePresentKHR queue=4 waits=[] swapchain=5 index=0
";

/// A memory of two pages with bytes in both, its map, and a buffer and an image over it.
const MEMORY: &str = "thread=0 vkAllocateMemory device=3 memory=8 size=131072\n";

const FIRST_PAGE: &str = "thread=0 FillMemory memory=8 offset=0 bytes=6162636465\n";

const SECOND_PAGE: &str = "thread=0 FillMemory memory=8 offset=65536 bytes=646566\n";

const MAPPED: &str = "thread=0 vkMapMemory device=3 memory=8 offset=0 size=131072\n";

const BUFFER: &str = "thread=0 vkCreateBuffer device=3 buffer=9 size=131072 usage=3
thread=0 vkBindBufferMemory device=3 buffer=9 memory=8 offset=0
";

const IMAGE: &str = "thread=0 vkCreateImage device=3 image=15 format=13 width=3 height=1 usage=3
thread=0 vkBindImageMemory device=3 image=15 memory=8 offset=0
";

/// Another memory under another buffer.
const OTHER_MEMORY: &str = "thread=0 vkAllocateMemory device=3 memory=13 size=64\n";

const OTHER_MAPPED: &str = "thread=0 vkMapMemory device=3 memory=13 offset=0 size=64\n";

const OTHER_BYTES: &str = "thread=0 FillMemory memory=13 offset=0 bytes=7a\n";

const OTHER_BUFFER: &str = "thread=0 vkCreateBuffer device=3 buffer=14 size=64 usage=3
thread=0 vkBindBufferMemory device=3 buffer=14 memory=13 offset=0
";

/// A third memory, with bytes on both sides of the border of its pages, a buffer over all of it, and an image of two rows from that border on.
const ROWS_MEMORY: &str = "thread=0 vkAllocateMemory device=3 memory=17 size=131072\n";

const ROWS_BEFORE: &str = "thread=0 FillMemory memory=17 offset=65533 bytes=676869\n";

const ROWS_BEHIND: &str = "thread=0 FillMemory memory=17 offset=65536 bytes=6a6b6c\n";

const ROWS_MAPPED: &str = "thread=0 vkMapMemory device=3 memory=17 offset=0 size=131072\n";

const ROWS_BUFFER: &str = "thread=0 vkCreateBuffer device=3 buffer=18 size=131072 usage=3
thread=0 vkBindBufferMemory device=3 buffer=18 memory=17 offset=0
";

const ROWS_IMAGE: &str =
    "thread=0 vkCreateImage device=3 image=19 format=13 width=3 height=2 usage=3
thread=0 vkBindImageMemory device=3 image=19 memory=17 offset=65536
";

/// Three texels from the beginning of the buffer.
const UPLOAD: &str =
    "thread=0 vkCmdCopyBufferToImage cb=12 source=9 target=6 layout=7 regions=[(0,0,0,0,0,3,1)]\n";

const FILL: &str = "thread=0 vkCmdFillBuffer cb=12 buffer=9 offset=0 size=4 word=0\n";

const BEGIN: &str = "begin frame=2\n";

/// What is kept of the swapchain, the fence and the pool.
const KEPT: &str =
    "thread=0 vkCreateSwapchainKHR device=3 swapchain=5 surface=2 images=1 format=13 width=3 height=1 usage=3
thread=0 vkGetSwapchainImagesKHR device=3 swapchain=5 images=[6]
thread=0 SetSwapchainState swapchain=5 acquired=[0]
thread=0 InitImage image=6 layout=1000001002 bytes=000000
thread=0 vkCreateFence device=3 fence=7 flags=1
thread=0 vkCreateCommandPool device=3 pool=10 flags=2
thread=0 vkAllocateCommandBuffers device=3 pool=10 buffers=[12]
end frame=2
";

/// The commands of a frame, and what is kept of memories, buffers and images for it.
#[derive(Clone, Copy)]
struct Case {
    commands: &'static [&'static str],
    kept: &'static [&'static str],
}

const CASES: [Case; 8] = [
    // all bytes come from a clear
    Case {
        commands: &["thread=0 vkCmdClearColorImage cb=12 image=6 layout=7 c0=0 c1=0 c2=0 c3=0\n"],
        kept: &[],
    },
    // bytes go to the other memory and come back, over a fill
    Case {
        commands: &[
            "thread=0 vkCmdCopyBuffer cb=12 source=9 target=14 regions=[(0,0,4)]\n",
            FILL,
            "thread=0 vkCmdCopyBuffer cb=12 source=14 target=9 regions=[(0,0,4)]\n",
            UPLOAD,
        ],
        kept: &[
            MEMORY,
            FIRST_PAGE,
            MAPPED,
            OTHER_MEMORY,
            OTHER_MAPPED,
            BUFFER,
            OTHER_BUFFER,
        ],
    },
    // what is read was copied from the second page
    Case {
        commands: &[
            "thread=0 vkCmdCopyBuffer cb=12 source=9 target=9 regions=[(65536,0,4)]\n",
            UPLOAD,
        ],
        kept: &[MEMORY, SECOND_PAGE, MAPPED, BUFFER],
    },
    // a fill hides all that is read
    Case {
        commands: &[FILL, UPLOAD],
        kept: &[MEMORY, MAPPED, BUFFER],
    },
    // a fill hides a part of what is read
    Case {
        commands: &[
            FILL,
            "thread=0 vkCmdCopyBufferToImage cb=12 source=9 target=6 layout=7 regions=[(2,0,0,0,0,3,1)]\n",
        ],
        kept: &[MEMORY, FIRST_PAGE, MAPPED, BUFFER],
    },
    // the second region reads what the first wrote, one byte on
    Case {
        commands: &[
            "thread=0 vkCmdCopyBuffer cb=12 source=9 target=9 regions=[(65536,1,3),(1,0,3)]\n",
            UPLOAD,
        ],
        kept: &[MEMORY, SECOND_PAGE, MAPPED, BUFFER],
    },
    // the bytes are read through an image over the same memory
    Case {
        commands: &[
            "thread=0 vkCmdPipelineBarrier cb=12 barriers=[(15,0,6)]
thread=0 vkCmdCopyImage cb=12 source=15 source_layout=6 target=6 target_layout=7 regions=[(0,0,0,0,3,1)]
",
        ],
        kept: &[MEMORY, FIRST_PAGE, MAPPED, IMAGE],
    },
    // the second row of a region reads what its first row wrote
    Case {
        commands: &[
            "thread=0 vkCmdPipelineBarrier cb=12 barriers=[(19,0,1)]
thread=0 vkCmdCopyBufferToImage cb=12 source=18 target=19 layout=1 regions=[(65533,0,0,0,0,3,2)]
thread=0 vkCmdCopyImage cb=12 source=19 source_layout=1 target=6 target_layout=7 regions=[(0,1,0,0,3,1)]
",
        ],
        kept: &[
            ROWS_MEMORY,
            ROWS_BEFORE,
            ROWS_MAPPED,
            ROWS_BUFFER,
            ROWS_IMAGE,
        ],
    },
];

/// Objects that no frame needs, beside and below those that it needs.
const UNNEEDED: &str = "thread=0 vkCreateFence device=3 fence=20 flags=0
thread=0 vkCreateSemaphore device=3 semaphore=21
thread=0 vkCreateHeadlessSurfaceEXT instance=1 surface=22
thread=0 vkCreateImage device=3 image=24 format=13 width=4 height=4 usage=3
thread=0 vkBindImageMemory device=3 image=24 memory=13 offset=0
thread=0 vkCreateCommandPool device=3 pool=25 flags=0
thread=0 vkAllocateCommandBuffers device=3 pool=25 buffers=[26]
";

/// What is kept where the first buffer is shown again.
const KEPT_RECORDED: &str =
    "thread=0 vkCreateSwapchainKHR device=3 swapchain=5 surface=2 images=1 format=13 width=3 height=1 usage=3
thread=0 vkGetSwapchainImagesKHR device=3 swapchain=5 images=[6]
thread=0 SetSwapchainState swapchain=5 acquired=[0]
thread=0 InitImage image=6 layout=1000001002 bytes=616263
thread=0 vkCreateFence device=3 fence=7 flags=1
thread=0 vkCreateCommandPool device=3 pool=10 flags=2
thread=0 vkAllocateCommandBuffers device=3 pool=10 buffers=[11]
thread=0 vkBeginCommandBuffer cb=11 flags=0
thread=0 vkCmdPipelineBarrier cb=11 barriers=[(6,0,7)]
thread=0 vkCmdCopyBufferToImage cb=11 source=9 target=6 layout=7 regions=[(0,0,0,0,0,3,1)]
thread=0 vkCmdPipelineBarrier cb=11 barriers=[(6,7,1000001002)]
thread=0 vkEndCommandBuffer cb=11
end frame=2
";

/// The file of a listing, cut, has this listing. The same cut of the cut is the cut itself.
fn assert_kept(alloc: Global, listing: &[u8], kept: &[u8]) -> Result<(), Fail> {
    let file = Outside::of(&["unlist"], listing).run(alloc)?;
    let cut = Outside::of(LEAN, &file.text).run(alloc)?;
    Outside::of(&["list"], &cut.text).ends(alloc, 0, kept, b"")?;
    Outside::of(LEAN, &cut.text).ends(alloc, 0, &cut.text, b"")
}

fn joined(alloc: Global, pieces: &[&str]) -> Result<Vec<u8>, Fail> {
    let mut text = Vec::new(alloc);
    append(&mut text, pieces)?;
    Ok(text)
}

fn append(text: &mut Vec<u8>, pieces: &[&str]) -> Result<(), Fail> {
    for piece in pieces {
        text.extend_from_slice(piece.as_bytes())?;
    }
    Ok(())
}

/// The file that the commands of frame 2 are put into.
fn whole_of(alloc: Global, commands: &[&str]) -> Result<Vec<u8>, Fail> {
    let mut text = joined(
        alloc,
        &[
            HEADER,
            DEVICE,
            SWAPCHAIN,
            FENCE,
            MEMORY,
            MAPPED,
            FIRST_PAGE,
            SECOND_PAGE,
            BUFFER,
            IMAGE,
            OTHER_MEMORY,
            OTHER_MAPPED,
            OTHER_BYTES,
            OTHER_BUFFER,
            ROWS_MEMORY,
            ROWS_MAPPED,
            ROWS_BEFORE,
            ROWS_BEHIND,
            ROWS_BUFFER,
            ROWS_IMAGE,
            POOL,
            CLEARED,
            SHOWN,
            RESET,
            BEGUN,
        ],
    )?;
    append(&mut text, commands)?;
    append(&mut text, &[ENDED])?;
    Ok(text)
}

/// Its lean cut, where this is kept of memories, buffers and images.
fn lean_of(alloc: Global, kept: &[&str], commands: &[&str]) -> Result<Vec<u8>, Fail> {
    let mut text = joined(alloc, &[HEADER, BEGIN, DEVICE])?;
    append(&mut text, kept)?;
    append(&mut text, &[KEPT, RESET, BEGUN])?;
    append(&mut text, commands)?;
    append(&mut text, &[ENDED])?;
    Ok(text)
}

#[test]
fn just_the_bytes_that_a_frame_reads_are_kept(rt: HostRuntime) -> Result<(), Fail> {
    let alloc = rt.alloc();
    for Case { commands, kept } in CASES {
        let listing = whole_of(alloc, commands)?;
        let wanted = lean_of(alloc, kept, commands)?;
        assert_kept(alloc, &listing, &wanted)?;
    }
    Ok(())
}

#[test]
fn just_the_objects_that_a_frame_stands_on_are_kept(rt: HostRuntime) -> Result<(), Fail> {
    let alloc = rt.alloc();
    let listing = joined(
        alloc,
        &[
            HEADER,
            DEVICE,
            SWAPCHAIN,
            FENCE,
            MEMORY,
            MAPPED,
            FIRST_PAGE,
            SECOND_PAGE,
            BUFFER,
            OTHER_MEMORY,
            OTHER_MAPPED,
            OTHER_BYTES,
            OTHER_BUFFER,
            UNNEEDED,
            POOL,
            UPLOADED,
            SHOWN,
            RESET,
            SHOWN,
        ],
    )?;
    let kept = joined(
        alloc,
        &[
            HEADER,
            BEGIN,
            DEVICE,
            MEMORY,
            FIRST_PAGE,
            MAPPED,
            BUFFER,
            KEPT_RECORDED,
            RESET,
            SHOWN,
        ],
    )?;
    assert_kept(alloc, &listing, &kept)
}
