//! The listing of the file of one frame, and what follows it in that of three.

/// The listing of the file of one frame.
pub(crate) const FRAME: &[u8] = b"gfxr 1000.1
thread=0 vkCreateInstance instance=1 api=4194304
thread=0 vkCreateHeadlessSurfaceEXT instance=1 surface=2
thread=0 vkCreateDevice instance=1 device=3
thread=0 vkGetDeviceQueue device=3 queue=4
thread=0 vkCreateSwapchainKHR device=3 swapchain=5 surface=2 images=1 format=13 width=3 height=1 usage=3
thread=0 vkGetSwapchainImagesKHR device=3 swapchain=5 images=[6]
thread=0 vkCreateFence device=3 fence=7 flags=0
thread=0 vkAllocateMemory device=3 memory=8 size=64
thread=0 vkMapMemory device=3 memory=8 offset=0 size=18446744073709551615
thread=0 FillMemory memory=8 offset=0 bytes=616263
thread=0 vkCreateBuffer device=3 buffer=9 size=16 usage=1
thread=0 vkBindBufferMemory device=3 buffer=9 memory=8 offset=0
thread=0 vkCreateCommandPool device=3 pool=10 flags=2
thread=0 vkAllocateCommandBuffers device=3 pool=10 buffers=[11]
thread=0 vkBeginCommandBuffer cb=11 flags=0
thread=0 vkCmdPipelineBarrier cb=11 barriers=[(6,0,7)]
thread=0 vkCmdCopyBufferToImage cb=11 source=9 target=6 layout=7 regions=[(0,0,0,0,0,3,1)]
thread=0 vkCmdPipelineBarrier cb=11 barriers=[(6,7,1000001002)]
thread=0 vkEndCommandBuffer cb=11
thread=0 vkAcquireNextImageKHR device=3 swapchain=5 semaphore=0 fence=7 index=0 answer=0
thread=0 vkQueueSubmit queue=4 submits=[([],[11],[])] fence=0
thread=0 vkQueuePresentKHR queue=4 waits=[] swapchain=5 index=0
";

/// The lines of a frame behind it.
pub(crate) const NEXT: &[u8] = b"thread=0 vkResetFences device=3 fences=[7]
thread=0 vkAcquireNextImageKHR device=3 swapchain=5 semaphore=0 fence=7 index=0 answer=0
thread=0 vkQueueSubmit queue=4 submits=[([],[11],[])] fence=0
thread=0 vkQueuePresentKHR queue=4 waits=[] swapchain=5 index=0
";
