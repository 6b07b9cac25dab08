//! Swapchains and their images.

/// Each check broken alone.
pub const BROKEN: &str = "\
CreateSwapchainKHR: no device | Device | - | CreateSwapchainKHR(4, 5, 2, 2, 13, 4, 4, 3) | NotLive
CreateSwapchainKHR: no surface | Device | - | CreateSwapchainKHR(3, 5, 1, 2, 13, 4, 4, 3) | NotLive
CreateSwapchainKHR: a surface of another instance | Device Instance | CreateHeadlessSurfaceEXT(101, 102) | CreateSwapchainKHR(3, 5, 102, 2, 13, 4, 4, 3) | WrongParent
CreateSwapchainKHR: id 0 | Device | - | CreateSwapchainKHR(3, 0, 2, 2, 13, 4, 4, 3) | BadValue
CreateSwapchainKHR: a used id | Device | - | CreateSwapchainKHR(3, 4, 2, 2, 13, 4, 4, 3) | IdTaken
CreateSwapchainKHR: a surface that has one | Device Swapchain | - | CreateSwapchainKHR(3, 55, 2, 2, 13, 4, 4, 3) | SwapState
CreateSwapchainKHR: no images | Device | - | CreateSwapchainKHR(3, 5, 2, 0, 13, 4, 4, 3) | BadValue
CreateSwapchainKHR: no width | Device | - | CreateSwapchainKHR(3, 5, 2, 2, 13, 0, 4, 3) | BadValue
CreateSwapchainKHR: no height | Device | - | CreateSwapchainKHR(3, 5, 2, 2, 13, 4, 0, 3) | BadValue
CreateSwapchainKHR: no usage | Device | - | CreateSwapchainKHR(3, 5, 2, 2, 13, 4, 4, 0) | BadValue
CreateSwapchainKHR: an unknown format | Device | - | CreateSwapchainKHR(3, 5, 2, 2, 14, 4, 4, 3) | BadValue
CreateSwapchainKHR: too many images | Device | - | CreateSwapchainKHR(3, 5, 2, 17, 13, 4, 4, 3) | LimitReached
CreateSwapchainKHR: too wide | Device | - | CreateSwapchainKHR(3, 5, 2, 2, 13, 4097, 4, 3) | LimitReached
CreateSwapchainKHR: too high | Device | - | CreateSwapchainKHR(3, 5, 2, 2, 13, 4, 4097, 3) | LimitReached
CreateSwapchainKHR: too many bytes | Device | - | CreateSwapchainKHR(3, 5, 2, 5, 98, 4096, 4096, 3) | LimitReached
CreateSwapchainKHR: too many bytes with a memory | Device Memory | - | CreateSwapchainKHR(3, 5, 2, 16, 13, 4096, 4096, 3) | LimitReached

DestroySwapchainKHR: no device | Device Swapchain | - | DestroySwapchainKHR(4, 5) | NotLive
DestroySwapchainKHR: no swapchain | Device Swapchain | - | DestroySwapchainKHR(3, 2) | NotLive
DestroySwapchainKHR: of another device | Device Other Swapchain | - | DestroySwapchainKHR(103, 5) | WrongParent

GetSwapchainImagesKHR: no device | Device Swapchain | - | GetSwapchainImagesKHR(4, 5, 2, 6, 7) | NotLive
GetSwapchainImagesKHR: no swapchain | Device Swapchain | DestroySwapchainKHR(3, 5) | GetSwapchainImagesKHR(3, 5, 2, 6, 7) | NotLive
GetSwapchainImagesKHR: of another device | Device Other Swapchain | - | GetSwapchainImagesKHR(103, 5, 2, 6, 7) | WrongParent
GetSwapchainImagesKHR: too few | Device Swapchain | - | GetSwapchainImagesKHR(3, 5, 1, 6) | ResultDiffers
GetSwapchainImagesKHR: too many | Device Swapchain | - | GetSwapchainImagesKHR(3, 5, 3, 6, 7, 8) | ResultDiffers
GetSwapchainImagesKHR: again in another order | Device Swapchain Fetched | - | GetSwapchainImagesKHR(3, 5, 2, 7, 6) | ResultDiffers
GetSwapchainImagesKHR: again and fewer | Device Swapchain Fetched | - | GetSwapchainImagesKHR(3, 5, 1, 6) | ResultDiffers
GetSwapchainImagesKHR: id 0 | Device Swapchain | - | GetSwapchainImagesKHR(3, 5, 2, 6, 0) | BadValue
GetSwapchainImagesKHR: a used id | Device Swapchain | - | GetSwapchainImagesKHR(3, 5, 2, 6, 5) | IdTaken
GetSwapchainImagesKHR: an id twice | Device Swapchain | - | GetSwapchainImagesKHR(3, 5, 2, 6, 6) | IdTaken

AcquireNextImageKHR: no device | Device Swapchain Fences | - | AcquireNextImageKHR(4, 5, 0, 20, 0, 0) | NotLive
AcquireNextImageKHR: no swapchain | Device Swapchain Fences | - | AcquireNextImageKHR(3, 2, 0, 20, 0, 0) | NotLive
AcquireNextImageKHR: of another device | Device Other OtherSignals Swapchain | - | AcquireNextImageKHR(103, 5, 0, 120, 0, 0) | WrongParent
AcquireNextImageKHR: without signal | Device Swapchain | - | AcquireNextImageKHR(3, 5, 0, 0, 0, 0) | BadValue
AcquireNextImageKHR: no semaphore | Device Swapchain Fences | - | AcquireNextImageKHR(3, 5, 20, 0, 0, 0) | NotLive
AcquireNextImageKHR: a semaphore of another device | Device Other OtherSignals Swapchain | - | AcquireNextImageKHR(3, 5, 130, 0, 0, 0) | WrongParent
AcquireNextImageKHR: a signalled semaphore | Device Swapchain Semaphores | - | AcquireNextImageKHR(3, 5, 31, 0, 0, 0) | SignalState
AcquireNextImageKHR: no fence | Device Swapchain Semaphores | - | AcquireNextImageKHR(3, 5, 0, 30, 0, 0) | NotLive
AcquireNextImageKHR: a fence of another device | Device Other OtherSignals Swapchain | - | AcquireNextImageKHR(3, 5, 0, 120, 0, 0) | WrongParent
AcquireNextImageKHR: a signalled fence | Device Swapchain Fences | - | AcquireNextImageKHR(3, 5, 0, 21, 0, 0) | SignalState
AcquireNextImageKHR: an unknown answer | Device Swapchain Fences | - | AcquireNextImageKHR(3, 5, 0, 20, 0, 2) | BadValue
AcquireNextImageKHR: not ready, with an index | Device Swapchain Fences Acquired | CreateFence(3, 22, 0); CreateFence(3, 23, 0); AcquireNextImageKHR(3, 5, 0, 22, 1, 0) | AcquireNextImageKHR(3, 5, 0, 23, 1, 1) | BadValue
AcquireNextImageKHR: not ready, where one is | Device Swapchain Fences Acquired | CreateFence(3, 22, 0) | AcquireNextImageKHR(3, 5, 0, 22, 0, 1) | ResultDiffers
AcquireNextImageKHR: no image of this index | Device Swapchain Fences | - | AcquireNextImageKHR(3, 5, 0, 20, 2, 0) | OutOfRange
";

/// Checks broken alone or with a later one.
pub const EARLIER: &str = "\
AcquireNextImageKHR: acquired | Device Swapchain Fences Acquired | CreateFence(3, 22, 0) | AcquireNextImageKHR(3, 5, 0, 22, 0, 0) | SwapState
CreateSwapchainKHR: no surface before id 0 | Device | - | CreateSwapchainKHR(3, 0, 1, 2, 13, 4, 4, 3) | NotLive
CreateSwapchainKHR: another instance before id 0 | Device Instance | CreateHeadlessSurfaceEXT(101, 102) | CreateSwapchainKHR(3, 0, 102, 2, 13, 4, 4, 3) | WrongParent
CreateSwapchainKHR: a used id before a surface that has one | Device Swapchain | - | CreateSwapchainKHR(3, 5, 2, 2, 13, 4, 4, 3) | IdTaken
CreateSwapchainKHR: a surface that has one before a value | Device Swapchain | - | CreateSwapchainKHR(3, 55, 2, 0, 13, 4, 4, 3) | SwapState
CreateSwapchainKHR: a value before a limit | Device | - | CreateSwapchainKHR(3, 5, 2, 17, 14, 4, 4, 3) | BadValue
DestroySwapchainKHR: no device before another parent | Device Swapchain | - | DestroySwapchainKHR(9, 5) | NotLive
GetSwapchainImagesKHR: another device before a count | Device Other Swapchain | - | GetSwapchainImagesKHR(103, 5, 1, 6) | WrongParent
GetSwapchainImagesKHR: a count before a used id | Device Swapchain | - | GetSwapchainImagesKHR(3, 5, 1, 5) | ResultDiffers
GetSwapchainImagesKHR: again with id 0 | Device Swapchain Fetched | - | GetSwapchainImagesKHR(3, 5, 2, 6, 0) | ResultDiffers
AcquireNextImageKHR: another device before no signal | Device Other Swapchain | - | AcquireNextImageKHR(103, 5, 0, 0, 0, 0) | WrongParent
AcquireNextImageKHR: no signal before an answer | Device Swapchain | - | AcquireNextImageKHR(3, 5, 0, 0, 2, 0) | BadValue
AcquireNextImageKHR: the semaphore before the fence | Device Swapchain Semaphores | - | AcquireNextImageKHR(3, 5, 31, 22, 0, 0) | SignalState
AcquireNextImageKHR: the fence before the answer | Device Swapchain Fences | - | AcquireNextImageKHR(3, 5, 0, 21, 0, 2) | SignalState
AcquireNextImageKHR: a signalled fence, not ready | Device Swapchain Fences | - | AcquireNextImageKHR(3, 5, 0, 21, 0, 1) | SignalState
AcquireNextImageKHR: an index before what is acquired | Device Swapchain Fences | - | AcquireNextImageKHR(3, 5, 0, 20, 1, 1) | BadValue
AcquireNextImageKHR: an answer before an index | Device Swapchain Fences | - | AcquireNextImageKHR(3, 5, 0, 20, 2, 2) | BadValue
";

/// No check is broken.
pub const GOOD: &str = "\
CreateSwapchainKHR | Device | - | CreateSwapchainKHR(3, 5, 2, 16, 13, 4096, 4096, 8) | taken
CreateSwapchainKHR: after the first one | Device Swapchain | DestroySwapchainKHR(3, 5) | CreateSwapchainKHR(3, 55, 2, 2, 13, 4, 4, 3) | taken
CreateSwapchainKHR: another device of the instance | Device Other | - | CreateSwapchainKHR(103, 5, 2, 2, 13, 4, 4, 3) | taken
DestroySwapchainKHR | Device Swapchain Fetched Fences Acquired | - | DestroySwapchainKHR(3, 5) | taken
GetSwapchainImagesKHR | Device Swapchain | - | GetSwapchainImagesKHR(3, 5, 2, 7, 6) | taken
GetSwapchainImagesKHR: again | Device Swapchain Fetched | - | GetSwapchainImagesKHR(3, 5, 2, 6, 7) | taken
AcquireNextImageKHR | Device Swapchain Fences Semaphores | - | AcquireNextImageKHR(3, 5, 30, 20, 1, 0) | taken
AcquireNextImageKHR: another image | Device Swapchain Fences Acquired Semaphores | - | AcquireNextImageKHR(3, 5, 30, 0, 1, 0) | taken
AcquireNextImageKHR: not ready | Device Swapchain Fences Acquired | CreateFence(3, 22, 0); CreateFence(3, 23, 0); AcquireNextImageKHR(3, 5, 0, 22, 1, 0) | AcquireNextImageKHR(3, 5, 0, 23, 0, 1) | taken
";
