//! Lines of each call and of a write, and what they say where the nth name of the script stands for the id 100 + n.

/// Lines of both versions.
pub(crate) const LINES: [(&str, &str); 48] = [
    (
        "x = vkCreateInstance api=84",
        "Call(CreateInstance { instance: 109, api: 84 })",
    ),
    (
        "vkDestroyInstance instance=a",
        "Call(DestroyInstance { instance: 101 })",
    ),
    (
        "x = vkCreateHeadlessSurfaceEXT instance=a",
        "Call(CreateHeadlessSurfaceEXT { instance: 101, surface: 109 })",
    ),
    (
        "vkDestroySurfaceKHR instance=a surface=b",
        "Call(DestroySurfaceKHR { instance: 101, surface: 102 })",
    ),
    (
        "x = vkCreateDevice instance=a",
        "Call(CreateDevice { instance: 101, device: 109 })",
    ),
    (
        "vkDestroyDevice device=a",
        "Call(DestroyDevice { device: 101 })",
    ),
    (
        "x = vkGetDeviceQueue device=a",
        "Call(GetDeviceQueue { device: 101, queue: 109 })",
    ),
    (
        "x = vkAllocateMemory device=a size=25000075",
        "Call(AllocateMemory { device: 101, memory: 109, size: 25000075 })",
    ),
    (
        "vkFreeMemory device=a memory=b",
        "Call(FreeMemory { device: 101, memory: 102 })",
    ),
    (
        "vkMapMemory device=a memory=b offset=30000090 size=31000093",
        "Call(MapMemory { device: 101, memory: 102, offset: 30000090, size: 31000093 })",
    ),
    (
        "vkUnmapMemory device=a memory=b",
        "Call(UnmapMemory { device: 101, memory: 102 })",
    ),
    (
        "x = vkCreateBuffer device=a size=36000108 usage=259",
        "Call(CreateBuffer { device: 101, buffer: 109, size: 36000108, usage: 259 })",
    ),
    (
        "vkDestroyBuffer device=a buffer=b",
        "Call(DestroyBuffer { device: 101, buffer: 102 })",
    ),
    (
        "vkBindBufferMemory device=a buffer=b memory=c offset=43000129",
        "Call(BindBufferMemory { device: 101, buffer: 102, memory: 103, offset: 43000129 })",
    ),
    (
        "x = vkCreateImage device=a format=322 width=329 height=336 usage=343",
        "Call(CreateImage { device: 101, image: 109, format: 322, width: 329, height: 336, usage: 343 })",
    ),
    (
        "vkDestroyImage device=a image=b",
        "Call(DestroyImage { device: 101, image: 102 })",
    ),
    (
        "vkBindImageMemory device=a image=b memory=c offset=55000165",
        "Call(BindImageMemory { device: 101, image: 102, memory: 103, offset: 55000165 })",
    ),
    (
        "x = vkCreateCommandPool device=a flags=406",
        "Call(CreateCommandPool { device: 101, pool: 109, flags: 406 })",
    ),
    (
        "vkDestroyCommandPool device=a pool=b",
        "Call(DestroyCommandPool { device: 101, pool: 102 })",
    ),
    (
        "vkResetCommandPool device=a pool=b",
        "Call(ResetCommandPool { device: 101, pool: 102 })",
    ),
    (
        "x,y,z = vkAllocateCommandBuffers device=a pool=b",
        "Call(AllocateCommandBuffers { device: 101, pool: 102, buffers: Ids { items: [109, 110, 111] } })",
    ),
    (
        "vkFreeCommandBuffers device=a pool=b buffers=[c]",
        "Call(FreeCommandBuffers { device: 101, pool: 102, buffers: Ids { items: [103] } })",
    ),
    (
        "vkBeginCommandBuffer cb=a flags=490",
        "Call(BeginCommandBuffer { cb: 101, flags: 490 })",
    ),
    (
        "vkEndCommandBuffer cb=a",
        "Call(EndCommandBuffer { cb: 101 })",
    ),
    (
        "vkResetCommandBuffer cb=a",
        "Call(ResetCommandBuffer { cb: 101 })",
    ),
    (
        "vkCmdPipelineBarrier cb=a barriers=[(b,0,6),(c,6,7)]",
        "Call(CmdPipelineBarrier { cb: 101, barriers: Barriers { items: [Barrier { image: 102, before: 0, after: 6 }, Barrier { image: 103, before: 6, after: 7 }] } })",
    ),
    (
        "vkCmdFillBuffer cb=a buffer=b offset=77000231 size=78000234 word=553",
        "Call(CmdFillBuffer { cb: 101, buffer: 102, offset: 77000231, size: 78000234, word: 553 })",
    ),
    (
        "vkCmdUpdateBuffer cb=a buffer=b offset=82000246 bytes=00ff10a9",
        "Call(CmdUpdateBuffer { cb: 101, buffer: 102, offset: 82000246, bytes: [0, 255, 16, 169] })",
    ),
    (
        "vkCmdCopyBuffer cb=a source=b target=c regions=[(0,4,8),(8,18446744073709551615,16)]",
        "Call(CmdCopyBuffer { cb: 101, source: 102, target: 103, regions: BufferRegions { items: [BufferRegion { from: 0, to: 4, size: 8 }, BufferRegion { from: 8, to: 18446744073709551615, size: 16 }] } })",
    ),
    (
        "vkCmdCopyImage cb=a source=b source_layout=630 target=c target_layout=644 regions=[(0,1,2,3,4,5)]",
        "Call(CmdCopyImage { cb: 101, source: 102, source_layout: 630, target: 103, target_layout: 644, regions: ImageRegions { items: [ImageRegion { from_x: 0, from_y: 1, to_x: 2, to_y: 3, width: 4, height: 5 }] } })",
    ),
    (
        "vkCmdCopyBufferToImage cb=a source=b target=c layout=679 regions=[(256,0,0,1,2,3,4294967295)]",
        "Call(CmdCopyBufferToImage { cb: 101, source: 102, target: 103, layout: 679, regions: MixedRegions { items: [MixedRegion { offset: 256, row: 0, rows: 0, x: 1, y: 2, width: 3, height: 4294967295 }] } })",
    ),
    (
        "vkCmdCopyImageToBuffer cb=a source=b layout=707 target=c regions=[]",
        "Call(CmdCopyImageToBuffer { cb: 101, source: 102, layout: 707, target: 103, regions: MixedRegions { items: [] } })",
    ),
    (
        "vkCmdClearColorImage cb=a image=b layout=742 c0=749 c1=756 c2=763 c3=770",
        "Call(CmdClearColorImage { cb: 101, image: 102, layout: 742, c0: 749, c1: 756, c2: 763, c3: 770 })",
    ),
    (
        "x = vkCreateFence device=a flags=791",
        "Call(CreateFence { device: 101, fence: 109, flags: 791 })",
    ),
    (
        "vkDestroyFence device=a fence=b",
        "Call(DestroyFence { device: 101, fence: 102 })",
    ),
    (
        "vkResetFences device=a fences=[b,c,d]",
        "Call(ResetFences { device: 101, fences: Ids { items: [102, 103, 104] } })",
    ),
    (
        "vkWaitForFences device=a fences=[b,c,d] wait_all=840 answer=847",
        "Call(WaitForFences { device: 101, fences: Ids { items: [102, 103, 104] }, wait_all: 840, answer: 847 })",
    ),
    (
        "vkGetFenceStatus device=a fence=b answer=868",
        "Call(GetFenceStatus { device: 101, fence: 102, answer: 868 })",
    ),
    (
        "x = vkCreateSemaphore device=a",
        "Call(CreateSemaphore { device: 101, semaphore: 109 })",
    ),
    (
        "vkDestroySemaphore device=a semaphore=b",
        "Call(DestroySemaphore { device: 101, semaphore: 102 })",
    ),
    (
        "vkQueueSubmit queue=a submits=[([],[b,c],[]),([d],[e],[f,g])] fence=0",
        "Call(QueueSubmit { queue: 101, submits: Submits { items: [Submit { waits: Ids { items: [] }, cbs: Ids { items: [102, 103] }, signals: Ids { items: [] } }, Submit { waits: Ids { items: [104] }, cbs: Ids { items: [105] }, signals: Ids { items: [106, 107] } }] }, fence: 0 })",
    ),
    (
        "vkQueueWaitIdle queue=a",
        "Call(QueueWaitIdle { queue: 101 })",
    ),
    (
        "vkDeviceWaitIdle device=a",
        "Call(DeviceWaitIdle { device: 101 })",
    ),
    (
        "x = vkCreateSwapchainKHR device=a surface=b images=959 format=966 width=973 height=980 usage=987",
        "Call(CreateSwapchainKHR { device: 101, swapchain: 109, surface: 102, images: 959, format: 966, width: 973, height: 980, usage: 987 })",
    ),
    (
        "vkDestroySwapchainKHR device=a swapchain=b",
        "Call(DestroySwapchainKHR { device: 101, swapchain: 102 })",
    ),
    (
        "x = vkGetSwapchainImagesKHR device=a swapchain=b",
        "Call(GetSwapchainImagesKHR { device: 101, swapchain: 102, images: Ids { items: [109] } })",
    ),
    (
        "vkAcquireNextImageKHR device=a swapchain=b semaphore=0 fence=c index=1057 answer=1064",
        "Call(AcquireNextImageKHR { device: 101, swapchain: 102, semaphore: 0, fence: 103, index: 1057, answer: 1064 })",
    ),
    (
        "write memory=a offset=154000462 bytes=00ff10a9",
        "Meta(FillMemory { memory: 101, offset: 154000462, bytes: [0, 255, 16, 169] })",
    ),
];

/// The present of version 1, and that of version 2.
pub(crate) const PRESENTS: [(&str, &str); 2] = [
    (
        "vkQueuePresentKHR queue=a waits=[b,c] swapchain=d index=1",
        "Call(QueuePresentKHR { queue: 101, waits: Ids { items: [102, 103] }, presents: Presents { items: [Present { swapchain: 104, index: 1 }] } })",
    ),
    (
        "vkQueuePresentKHR queue=a waits=[] presents=[(b,1),(c,0)]",
        "Call(QueuePresentKHR { queue: 101, waits: Ids { items: [] }, presents: Presents { items: [Present { swapchain: 102, index: 1 }, Present { swapchain: 103, index: 0 }] } })",
    ),
];
