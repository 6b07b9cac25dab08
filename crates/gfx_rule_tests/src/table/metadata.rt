//! Metadata, markers, and what may occur in a section.

/// Each check of metadata broken alone.
pub const BROKEN: &str = "\
FillMemory: no memory | Device Memory Mapped | - | FillMemory(3, 16, 1) | NotLive
FillMemory: no bytes | Device Memory Mapped | - | FillMemory(8, 16, 0) | BadValue
FillMemory: not mapped | Device Memory | - | FillMemory(8, 16, 1) | MapState
FillMemory: before the map | Device Memory Mapped | - | FillMemory(8, 15, 2) | OutOfRange
FillMemory: behind the map | Device Memory Mapped | - | FillMemory(8, 79, 2) | OutOfRange
FillMemory: further than any number | Device Memory Mapped | - | FillMemory(8, WHOLE, 2) | OutOfRange
FillMemory: in a section, no memory | Section Device | - | FillMemory(8, 16, 1) | NotLive
FillMemory: in a section, no bytes | Section Device Memory | - | FillMemory(8, 16, 0) | BadValue
FillMemory: in a section, behind the memory | Section Device Memory | - | FillMemory(8, 255, 2) | OutOfRange
FillMemory: in a section, behind the memory though mapped | Section Device Memory Mapped | - | FillMemory(8, 256, 1) | OutOfRange

InitImage: outside of a section | Device Memory Image BoundImage | - | InitImage(12, 7, 0) | StateOrder
InitImage: behind a section | Ended Device Memory Image BoundImage | - | InitImage(12, 7, 0) | StateOrder
InitImage: no image | Section Device Memory Buffer | - | InitImage(9, 7, 0) | NotLive
InitImage: not bound | Section Device Image | - | InitImage(12, 7, 0) | NotBound
InitImage: an unknown layout | Section Device Memory Image BoundImage | - | InitImage(12, 5, 0) | BadValue
InitImage: bytes for a bound image | Section Device Memory Image BoundImage | - | InitImage(12, 7, 16) | BadValue
InitImage: no bytes for an image of a swapchain | Section Device Swapchain Fetched | - | InitImage(6, 7, 0) | BadValue
InitImage: too few bytes for an image of a swapchain | Section Device Swapchain Fetched | - | InitImage(6, 7, 15) | BadValue
InitImage: too many bytes for an image of a swapchain | Section Device Swapchain Fetched | - | InitImage(6, 7, 17) | BadValue

SetSwapchainState: outside of a section | Device Swapchain | - | SetSwapchainState(5, 2, 0, 0) | StateOrder
SetSwapchainState: no swapchain | Section Device Swapchain | - | SetSwapchainState(2, 2, 0, 0) | NotLive
SetSwapchainState: too few marks | Section Device Swapchain | - | SetSwapchainState(5, 1, 0) | BadValue
SetSwapchainState: too many marks | Section Device Swapchain | - | SetSwapchainState(5, 3, 0, 0, 0) | BadValue
SetSwapchainState: no mark | Section Device Swapchain | - | SetSwapchainState(5, 2, 0, 2) | BadValue

SetSemaphoreState: outside of a section | Device Semaphores | - | SetSemaphoreState(30, 1) | StateOrder
SetSemaphoreState: no semaphore | Section Device | CreateFence(3, 20, 0) | SetSemaphoreState(20, 1) | NotLive
SetSemaphoreState: no mark | Section Device | CreateSemaphore(3, 30) | SetSemaphoreState(30, 2) | BadValue

Begin: not first | Device | - | Begin(1) | StateOrder
Begin: twice | Section | - | Begin(1) | StateOrder
Begin: behind a section | Section | End(1) | Begin(1) | StateOrder
Begin: frame 0 | - | - | Begin(0) | BadValue
Begin: a frame that is too large | - | - | Begin(4611686018427387905) | BadValue
End: without a section | Device | - | End(1) | StateOrder
End: twice | Section | End(1) | End(1) | StateOrder
";

/// Two checks broken, of which the earlier decides, and the last of the single ones.
pub const EARLIER: &str = "\
End: another frame | Section | - | End(2) | BadValue
Begin: not first before frame 0 | Device | - | Begin(0) | StateOrder
End: no section before its frame | - | - | End(0) | StateOrder
FillMemory: no bytes before no map | Device Memory | - | FillMemory(8, 16, 0) | BadValue
FillMemory: no map before a range | Device Memory | - | FillMemory(8, 256, 1) | MapState
FillMemory: no bytes before a range | Device Memory Mapped | - | FillMemory(8, 80, 0) | BadValue
FillMemory: in a section, no bytes before a range | Section Device Memory | - | FillMemory(8, 257, 0) | BadValue
InitImage: outside of a section before no image | Device | - | InitImage(12, 7, 0) | StateOrder
InitImage: not bound before a layout | Section Device Image | - | InitImage(12, 5, 0) | NotBound
SetSwapchainState: outside of a section before no swapchain | Device | - | SetSwapchainState(5, 1, 2) | StateOrder
SetSemaphoreState: outside of a section before no semaphore | Device | - | SetSemaphoreState(30, 2) | StateOrder
SetSwapchainState: no swapchain before its marks | Section Device | - | SetSwapchainState(5, 1, 2) | NotLive
";

/// Calls that may not are in a section, whatever else they break.
pub const OUTSIDE: &str = "\
DestroyInstance: in a section | Section | CreateInstance(1, 0) | DestroyInstance(1) | StateOrder
DestroySurfaceKHR: in a section | Section Device | - | DestroySurfaceKHR(1, 2) | StateOrder
DestroyDevice: in a section | Section Device | - | DestroyDevice(3) | StateOrder
FreeMemory: in a section | Section Device Memory | - | FreeMemory(3, 8) | StateOrder
UnmapMemory: in a section | Section Device Memory Mapped | - | UnmapMemory(3, 8) | StateOrder
DestroyBuffer: in a section | Section Device Buffer | - | DestroyBuffer(3, 9) | StateOrder
DestroyImage: in a section | Section Device Image | - | DestroyImage(3, 12) | StateOrder
DestroyCommandPool: in a section | Section Device Pool | - | DestroyCommandPool(3, 10) | StateOrder
ResetCommandPool: in a section | Section Device Pool | - | ResetCommandPool(3, 10) | StateOrder
FreeCommandBuffers: in a section | Section Device Pool | - | FreeCommandBuffers(3, 10, 1, 11) | StateOrder
ResetCommandBuffer: in a section | Section Device Pool | - | ResetCommandBuffer(11) | StateOrder
DestroyFence: in a section | Section Device Fences | - | DestroyFence(3, 20) | StateOrder
ResetFences: in a section | Section Device Fences | - | ResetFences(3, 1, 20) | StateOrder
WaitForFences: in a section | Section Device Fences | - | WaitForFences(3, 1, 21, 1, 0) | StateOrder
GetFenceStatus: in a section | Section Device Fences | - | GetFenceStatus(3, 21, 0) | StateOrder
DestroySemaphore: in a section | Section Device | CreateSemaphore(3, 30) | DestroySemaphore(3, 30) | StateOrder
QueueSubmit: in a section | Section Device | - | QueueSubmit(4, 0, 0) | StateOrder
QueueWaitIdle: in a section | Section Device | - | QueueWaitIdle(9) | StateOrder
DeviceWaitIdle: in a section | Section Device | - | DeviceWaitIdle(9) | StateOrder
DestroySwapchainKHR: in a section | Section Device Swapchain | - | DestroySwapchainKHR(3, 5) | StateOrder
AcquireNextImageKHR: in a section | Section Device Swapchain Fences | - | AcquireNextImageKHR(3, 5, 0, 20, 0, 0) | StateOrder
QueuePresentKHR: in a section | Section Device Swapchain | - | QueuePresentKHR(9, 0, 0) | StateOrder
";

/// No check is broken.
pub const GOOD: &str = "\
FillMemory | Device Memory Mapped | - | FillMemory(8, 16, 64) | taken
FillMemory: in a section, all of it though less is mapped | Section Device Memory Mapped | - | FillMemory(8, 0, 256) | taken
FillMemory: in a section, not mapped | Section Device Memory | - | FillMemory(8, 255, 1) | taken
InitImage | Section Device Memory Image BoundImage | - | InitImage(12, SHOWN, 0) | taken
InitImage: UNDEFINED | Section Device Memory Image BoundImage | - | InitImage(12, 0, 0) | taken
InitImage: an image of a swapchain | Section Device Swapchain Fetched | - | InitImage(7, 1, 16) | taken
SetSwapchainState | Section Device Swapchain | - | SetSwapchainState(5, 2, 0, 1) | taken
SetSemaphoreState | Section Device | CreateSemaphore(3, 30) | SetSemaphoreState(30, 1) | taken
SetSemaphoreState: 0 | Section Device | CreateSemaphore(3, 30) | SetSemaphoreState(30, 0) | taken
Begin | - | - | Begin(1) | taken
Begin: the last frame | - | - | Begin(LAST) | taken
End | Section | - | End(1) | taken
what a section may have | Section Device Resources Recording | CmdPipelineBarrier(11, 1, 12, 0, 7); CmdFillBuffer(11, 9, 0, 4, 0); CmdUpdateBuffer(11, 9, 0, 4); CmdCopyBuffer(11, 9, 19, 1, 0, 0, 4); CmdCopyImage(11, 12, 6, 22, 7, 1, 0, 0, 0, 0, 4, 4); CmdCopyBufferToImage(11, 9, 12, 7, 1, 0, 0, 0, 0, 0, 4, 4); CmdCopyImageToBuffer(11, 12, 6, 9, 1, 0, 0, 0, 0, 0, 4, 4) | CmdClearColorImage(11, 12, 7, 0, 0, 0, 0) | taken
what else a section may have | Section Device Swapchain Fetched Fences Memory Mapped Pool Executable | - | CreateSemaphore(3, 30) | taken
";
