//! Lines of each call and metadata, as a listing has them behind the thread, without the vk of calls, and what they say.

/// Calls that both minor versions write so.
pub const CALLS: [(&str, &str); 47] = [
    (
        "CreateInstance instance=11 api=84",
        "CreateInstance { instance: 11, api: 84 }",
    ),
    (
        "DestroyInstance instance=13",
        "DestroyInstance { instance: 13 }",
    ),
    (
        "CreateHeadlessSurfaceEXT instance=14 surface=15",
        "CreateHeadlessSurfaceEXT { instance: 14, surface: 15 }",
    ),
    (
        "DestroySurfaceKHR instance=16 surface=17",
        "DestroySurfaceKHR { instance: 16, surface: 17 }",
    ),
    (
        "CreateDevice instance=18 device=19",
        "CreateDevice { instance: 18, device: 19 }",
    ),
    ("DestroyDevice device=20", "DestroyDevice { device: 20 }"),
    (
        "GetDeviceQueue device=21 queue=22",
        "GetDeviceQueue { device: 21, queue: 22 }",
    ),
    (
        "AllocateMemory device=23 memory=24 size=25000075",
        "AllocateMemory { device: 23, memory: 24, size: 25000075 }",
    ),
    (
        "FreeMemory device=26 memory=27",
        "FreeMemory { device: 26, memory: 27 }",
    ),
    (
        "MapMemory device=28 memory=29 offset=30000090 size=31000093",
        "MapMemory { device: 28, memory: 29, offset: 30000090, size: 31000093 }",
    ),
    (
        "UnmapMemory device=32 memory=33",
        "UnmapMemory { device: 32, memory: 33 }",
    ),
    (
        "CreateBuffer device=34 buffer=35 size=36000108 usage=259",
        "CreateBuffer { device: 34, buffer: 35, size: 36000108, usage: 259 }",
    ),
    (
        "DestroyBuffer device=38 buffer=39",
        "DestroyBuffer { device: 38, buffer: 39 }",
    ),
    (
        "BindBufferMemory device=40 buffer=41 memory=42 offset=43000129",
        "BindBufferMemory { device: 40, buffer: 41, memory: 42, offset: 43000129 }",
    ),
    (
        "CreateImage device=44 image=45 format=322 width=329 height=336 usage=343",
        "CreateImage { device: 44, image: 45, format: 322, width: 329, height: 336, usage: 343 }",
    ),
    (
        "DestroyImage device=50 image=51",
        "DestroyImage { device: 50, image: 51 }",
    ),
    (
        "BindImageMemory device=52 image=53 memory=54 offset=55000165",
        "BindImageMemory { device: 52, image: 53, memory: 54, offset: 55000165 }",
    ),
    (
        "CreateCommandPool device=56 pool=57 flags=406",
        "CreateCommandPool { device: 56, pool: 57, flags: 406 }",
    ),
    (
        "DestroyCommandPool device=59 pool=60",
        "DestroyCommandPool { device: 59, pool: 60 }",
    ),
    (
        "ResetCommandPool device=61 pool=62",
        "ResetCommandPool { device: 61, pool: 62 }",
    ),
    (
        "AllocateCommandBuffers device=63 pool=64 buffers=[65,66,67]",
        "AllocateCommandBuffers { device: 63, pool: 64, buffers: Ids { items: [65, 66, 67] } }",
    ),
    (
        "FreeCommandBuffers device=66 pool=67 buffers=[68]",
        "FreeCommandBuffers { device: 66, pool: 67, buffers: Ids { items: [68] } }",
    ),
    (
        "BeginCommandBuffer cb=69 flags=490",
        "BeginCommandBuffer { cb: 69, flags: 490 }",
    ),
    ("EndCommandBuffer cb=71", "EndCommandBuffer { cb: 71 }"),
    ("ResetCommandBuffer cb=72", "ResetCommandBuffer { cb: 72 }"),
    (
        "CmdPipelineBarrier cb=73 barriers=[(7,0,6),(18446744073709551615,6,7)]",
        "CmdPipelineBarrier { cb: 73, barriers: Barriers { items: [Barrier { image: 7, before: 0, after: 6 }, Barrier { image: 18446744073709551615, before: 6, after: 7 }] } }",
    ),
    (
        "CmdFillBuffer cb=75 buffer=76 offset=77000231 size=78000234 word=553",
        "CmdFillBuffer { cb: 75, buffer: 76, offset: 77000231, size: 78000234, word: 553 }",
    ),
    (
        "CmdUpdateBuffer cb=80 buffer=81 offset=82000246 bytes=00ff10a9",
        "CmdUpdateBuffer { cb: 80, buffer: 81, offset: 82000246, bytes: [0, 255, 16, 169] }",
    ),
    (
        "CmdCopyBuffer cb=84 source=85 target=86 regions=[(0,4,8),(8,18446744073709551615,16)]",
        "CmdCopyBuffer { cb: 84, source: 85, target: 86, regions: BufferRegions { items: [BufferRegion { from: 0, to: 4, size: 8 }, BufferRegion { from: 8, to: 18446744073709551615, size: 16 }] } }",
    ),
    (
        "CmdCopyImage cb=88 source=89 source_layout=630 target=91 target_layout=644 regions=[(0,1,2,3,4,5)]",
        "CmdCopyImage { cb: 88, source: 89, source_layout: 630, target: 91, target_layout: 644, regions: ImageRegions { items: [ImageRegion { from_x: 0, from_y: 1, to_x: 2, to_y: 3, width: 4, height: 5 }] } }",
    ),
    (
        "CmdCopyBufferToImage cb=94 source=95 target=96 layout=679 regions=[(256,0,0,1,2,3,4294967295)]",
        "CmdCopyBufferToImage { cb: 94, source: 95, target: 96, layout: 679, regions: MixedRegions { items: [MixedRegion { offset: 256, row: 0, rows: 0, x: 1, y: 2, width: 3, height: 4294967295 }] } }",
    ),
    (
        "CmdCopyImageToBuffer cb=99 source=100 layout=707 target=102 regions=[]",
        "CmdCopyImageToBuffer { cb: 99, source: 100, layout: 707, target: 102, regions: MixedRegions { items: [] } }",
    ),
    (
        "CmdClearColorImage cb=104 image=105 layout=742 c0=749 c1=756 c2=763 c3=770",
        "CmdClearColorImage { cb: 104, image: 105, layout: 742, c0: 749, c1: 756, c2: 763, c3: 770 }",
    ),
    (
        "CreateFence device=111 fence=112 flags=791",
        "CreateFence { device: 111, fence: 112, flags: 791 }",
    ),
    (
        "DestroyFence device=114 fence=115",
        "DestroyFence { device: 114, fence: 115 }",
    ),
    (
        "ResetFences device=116 fences=[117,118,119]",
        "ResetFences { device: 116, fences: Ids { items: [117, 118, 119] } }",
    ),
    (
        "WaitForFences device=118 fences=[119,120,121] wait_all=840 answer=847",
        "WaitForFences { device: 118, fences: Ids { items: [119, 120, 121] }, wait_all: 840, answer: 847 }",
    ),
    (
        "GetFenceStatus device=122 fence=123 answer=868",
        "GetFenceStatus { device: 122, fence: 123, answer: 868 }",
    ),
    (
        "CreateSemaphore device=125 semaphore=126",
        "CreateSemaphore { device: 125, semaphore: 126 }",
    ),
    (
        "DestroySemaphore device=127 semaphore=128",
        "DestroySemaphore { device: 127, semaphore: 128 }",
    ),
    (
        "QueueSubmit queue=129 submits=[([],[130,131],[]),([3],[4],[5,6])] fence=0",
        "QueueSubmit { queue: 129, submits: Submits { items: [Submit { waits: Ids { items: [] }, cbs: Ids { items: [130, 131] }, signals: Ids { items: [] } }, Submit { waits: Ids { items: [3] }, cbs: Ids { items: [4] }, signals: Ids { items: [5, 6] } }] }, fence: 0 }",
    ),
    ("QueueWaitIdle queue=132", "QueueWaitIdle { queue: 132 }"),
    (
        "DeviceWaitIdle device=133",
        "DeviceWaitIdle { device: 133 }",
    ),
    (
        "CreateSwapchainKHR device=134 swapchain=135 surface=136 images=959 format=966 width=973 height=980 usage=987",
        "CreateSwapchainKHR { device: 134, swapchain: 135, surface: 136, images: 959, format: 966, width: 973, height: 980, usage: 987 }",
    ),
    (
        "DestroySwapchainKHR device=142 swapchain=143",
        "DestroySwapchainKHR { device: 142, swapchain: 143 }",
    ),
    (
        "GetSwapchainImagesKHR device=144 swapchain=145 images=[146]",
        "GetSwapchainImagesKHR { device: 144, swapchain: 145, images: Ids { items: [146] } }",
    ),
    (
        "AcquireNextImageKHR device=147 swapchain=148 semaphore=0 fence=150 index=1057 answer=1064",
        "AcquireNextImageKHR { device: 147, swapchain: 148, semaphore: 0, fence: 150, index: 1057, answer: 1064 }",
    ),
];

/// Presents, as version 1 writes them and as version 2 does.
pub const PRESENTS: [(u32, &str, &str); 2] = [
    (
        1,
        "QueuePresentKHR queue=3 waits=[8,9] swapchain=5 index=1",
        "QueuePresentKHR { queue: 3, waits: Ids { items: [8, 9] }, presents: Presents { items: [Present { swapchain: 5, index: 1 }] } }",
    ),
    (
        2,
        "QueuePresentKHR queue=3 waits=[] presents=[(5,1),(6,0)]",
        "QueuePresentKHR { queue: 3, waits: Ids { items: [] }, presents: Presents { items: [Present { swapchain: 5, index: 1 }, Present { swapchain: 6, index: 0 }] } }",
    ),
];

/// Metadata.
pub const METAS: [(&str, &str); 4] = [
    (
        "FillMemory memory=153 offset=154000462 bytes=00ff10a9",
        "FillMemory { memory: 153, offset: 154000462, bytes: [0, 255, 16, 169] }",
    ),
    (
        "InitImage image=156 layout=1099 bytes=00ff10a9",
        "InitImage { image: 156, layout: 1099, bytes: [0, 255, 16, 169] }",
    ),
    (
        "SetSwapchainState swapchain=159 acquired=[0,2,4294967295]",
        "SetSwapchainState { swapchain: 159, acquired: Numbers { items: [0, 2, 4294967295] } }",
    ),
    (
        "SetSemaphoreState semaphore=161 signalled=1134",
        "SetSemaphoreState { semaphore: 161, signalled: 1134 }",
    ),
];

/// Lines of no call of version 1, and what is wrong with each.
pub const BAD: [(&str, &str); 25] = [
    (
        "a number with a leading zero",
        "DestroyInstance instance=01",
    ),
    ("no number", "DestroyInstance instance="),
    (
        "a number of 2^64",
        "DestroyInstance instance=18446744073709551616",
    ),
    (
        "a number of 2^32 in four bytes",
        "BeginCommandBuffer cb=1 flags=4294967296",
    ),
    ("a sign", "DestroyInstance instance=+1"),
    ("another field", "DestroyInstance device=1"),
    ("no field", "DestroyInstance"),
    ("a field too many", "DestroyInstance instance=1 instance=1"),
    ("fields in another order", "BeginCommandBuffer flags=1 cb=2"),
    ("a field without =", "DestroyInstance instance"),
    ("two spaces", "BeginCommandBuffer cb=1  flags=2"),
    (
        "upper-case digits",
        "CmdUpdateBuffer cb=1 buffer=2 offset=0 bytes=FF",
    ),
    (
        "an odd number of digits",
        "CmdUpdateBuffer cb=1 buffer=2 offset=0 bytes=00f",
    ),
    (
        "no digit",
        "CmdUpdateBuffer cb=1 buffer=2 offset=0 bytes=0g",
    ),
    (
        "a list without its bracket",
        "ResetFences device=1 fences=[1,2",
    ),
    (
        "a list that ends with a comma",
        "ResetFences device=1 fences=[1,]",
    ),
    (
        "a list without a comma",
        "ResetFences device=1 fences=[1[2]",
    ),
    ("text behind a list", "ResetFences device=1 fences=[1]2"),
    (
        "a record without its parenthesis",
        "CmdPipelineBarrier cb=1 barriers=[(7,0,6]",
    ),
    (
        "a record of two values",
        "CmdPipelineBarrier cb=1 barriers=[(7,0)]",
    ),
    (
        "a record of four values",
        "CmdPipelineBarrier cb=1 barriers=[(7,0,6,7)]",
    ),
    ("an unknown call", "DestroyEverything instance=1"),
    ("a name in lower case", "destroyInstance instance=1"),
    ("no name", " instance=1"),
    (
        "a present of version 2",
        "QueuePresentKHR queue=3 waits=[] presents=[(5,1)]",
    ),
];
