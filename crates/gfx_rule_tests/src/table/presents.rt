//! Presents.

/// Each check broken alone.
pub const BROKEN: &str = "\
QueuePresentKHR: no queue | Device Swapchain Fetched Fences Pool Drawn Acquired | - | QueuePresentKHR(3, 0, 1, 5, 0) | NotLive
QueuePresentKHR: too many waits | Device Swapchain Fetched Fences Semaphores Pool Drawn Acquired | - | QueuePresentKHR(4, 17, 31, 31, 31, 31, 31, 31, 31, 31, 31, 31, 31, 31, 31, 31, 31, 31, 31, 1, 5, 0) | LimitReached
QueuePresentKHR: no wait | Device Swapchain Fetched Fences Semaphores Pool Drawn Acquired | - | QueuePresentKHR(4, 2, 31, 20, 1, 5, 0) | NotLive
QueuePresentKHR: a wait of another device | Device Other OtherSignals Swapchain Fetched Fences Pool Drawn Acquired | QueueSubmit(104, 1, 0, 0, 1, 130, 0) | QueuePresentKHR(4, 1, 130, 1, 5, 0) | WrongParent
QueuePresentKHR: no presents | Device Swapchain Fetched Fences Pool Drawn Acquired | - | QueuePresentKHR(4, 0, 0) | BadValue
QueuePresentKHR: too many presents | Device Swapchain Fetched Fences Pool Drawn Acquired | - | QueuePresentKHR(4, 0, 9, 5, 0, 5, 0, 5, 0, 5, 0, 5, 0, 5, 0, 5, 0, 5, 0, 5, 0) | LimitReached
QueuePresentKHR: no swapchain | Device Swapchain Fetched Fences Pool Drawn Acquired | - | QueuePresentKHR(4, 0, 2, 5, 0, 6, 0) | NotLive
QueuePresentKHR: a swapchain of another device | Device Other OtherSwapchain Swapchain Fetched Fences Pool Drawn Acquired | - | QueuePresentKHR(4, 0, 2, 5, 0, 105, 0) | WrongParent
QueuePresentKHR: a swapchain twice | Device Swapchain Fetched Fences Pool Drawn Acquired | CreateFence(3, 22, 0); AcquireNextImageKHR(3, 5, 0, 22, 1, 0) | QueuePresentKHR(4, 0, 2, 5, 0, 5, 1) | BadValue
QueuePresentKHR: no image of this index | Device Swapchain Fetched Fences Pool Drawn Acquired | - | QueuePresentKHR(4, 0, 1, 5, 2) | OutOfRange
QueuePresentKHR: not acquired | Device Swapchain Fetched Fences Pool Drawn Acquired | - | QueuePresentKHR(4, 0, 1, 5, 1) | SwapState
QueuePresentKHR: given back | Device Swapchain Fetched Fences Pool Drawn Acquired | QueuePresentKHR(4, 0, 1, 5, 0) | QueuePresentKHR(4, 0, 1, 5, 0) | SwapState
QueuePresentKHR: not drawn | Device Swapchain Fetched Fences Acquired | - | QueuePresentKHR(4, 0, 1, 5, 0) | LayoutDiffers
QueuePresentKHR: not fetched | Device Swapchain Fences Acquired | - | QueuePresentKHR(4, 0, 1, 5, 0) | LayoutDiffers
QueuePresentKHR: brought into another layout | Device Swapchain Fetched Fences Pool Drawn Acquired | BeginCommandBuffer(11, 0); CmdPipelineBarrier(11, 1, 6, SHOWN, 7); EndCommandBuffer(11); QueueSubmit(4, 1, 0, 1, 11, 0, 0) | QueuePresentKHR(4, 0, 1, 5, 0) | LayoutDiffers
QueuePresentKHR: a wait that is not signalled | Device Swapchain Fetched Fences Semaphores Pool Drawn Acquired | - | QueuePresentKHR(4, 1, 30, 1, 5, 0) | SignalState
QueuePresentKHR: a wait twice | Device Swapchain Fetched Fences Semaphores Pool Drawn Acquired | - | QueuePresentKHR(4, 2, 31, 31, 1, 5, 0) | SignalState
QueuePresentKHR: the second swapchain is not acquired | Device Swapchain Fetched SecondChain Fences Pool Drawn Acquired | - | QueuePresentKHR(4, 0, 2, 5, 0, 55, 0) | SwapState
QueuePresentKHR: the second swapchain is not drawn | Device Swapchain Fetched SecondChain Fences Pool Drawn Acquired | CreateFence(3, 22, 0); AcquireNextImageKHR(3, 55, 0, 22, 0, 0) | QueuePresentKHR(4, 0, 2, 5, 0, 55, 0) | LayoutDiffers
QueuePresentKHR: no image of this index of the second swapchain | Device Swapchain Fetched SecondChain Fences Pool Drawn Acquired | - | QueuePresentKHR(4, 0, 2, 5, 0, 55, 1) | OutOfRange
QueuePresentKHR: too many frames | Late Device Swapchain Fetched Fences Pool Drawn Acquired | QueuePresentKHR(4, 0, 1, 5, 0); ResetFences(3, 1, 20); AcquireNextImageKHR(3, 5, 0, 20, 0, 0) | QueuePresentKHR(4, 0, 1, 5, 0) | LimitReached
QueuePresentKHR: its swapchain is ended | Device Swapchain Fetched Fences Pool Drawn Acquired | DestroySwapchainKHR(3, 5) | QueuePresentKHR(4, 0, 1, 5, 0) | NotLive
QueuePresentKHR: a wait that a present waited for | Device Swapchain Fetched Fences Semaphores Pool Drawn Acquired | QueuePresentKHR(4, 1, 31, 1, 5, 0); ResetFences(3, 1, 20); AcquireNextImageKHR(3, 5, 0, 20, 0, 0) | QueuePresentKHR(4, 1, 31, 1, 5, 0) | SignalState
";

/// Two checks broken, of which the earlier decides.
pub const EARLIER: &str = "\
QueuePresentKHR: no queue before too many waits | Device Semaphores | - | QueuePresentKHR(3, 17, 31, 31, 31, 31, 31, 31, 31, 31, 31, 31, 31, 31, 31, 31, 31, 31, 31, 0) | NotLive
QueuePresentKHR: too many waits before no wait | Device | - | QueuePresentKHR(4, 17, 32, 31, 31, 31, 31, 31, 31, 31, 31, 31, 31, 31, 31, 31, 31, 31, 31, 0) | LimitReached
QueuePresentKHR: all waits are live before one is near | Device Other OtherSignals Swapchain | - | QueuePresentKHR(4, 2, 130, 32, 1, 5, 0) | NotLive
QueuePresentKHR: a wait of another device before no presents | Device Other OtherSignals | - | QueuePresentKHR(4, 1, 130, 0) | WrongParent
QueuePresentKHR: too many presents before no swapchain | Device | - | QueuePresentKHR(4, 0, 9, 5, 0, 5, 0, 5, 0, 5, 0, 5, 0, 5, 0, 5, 0, 5, 0, 5, 0) | LimitReached
QueuePresentKHR: all swapchains are live before one is near | Device Other OtherSwapchain | - | QueuePresentKHR(4, 0, 2, 105, 0, 5, 0) | NotLive
QueuePresentKHR: another device before a swapchain twice | Device Other OtherSwapchain | - | QueuePresentKHR(4, 0, 2, 105, 0, 105, 0) | WrongParent
QueuePresentKHR: a swapchain twice before an index | Device Swapchain | - | QueuePresentKHR(4, 0, 2, 5, 2, 5, 2) | BadValue
QueuePresentKHR: each index before what is acquired | Device Swapchain SecondChain | - | QueuePresentKHR(4, 0, 2, 5, 0, 55, 1) | OutOfRange
QueuePresentKHR: not acquired before its layout | Device Swapchain Fetched | - | QueuePresentKHR(4, 0, 1, 5, 0) | SwapState
QueuePresentKHR: each is acquired before one's layout | Device Swapchain Fetched SecondChain Fences Acquired | - | QueuePresentKHR(4, 0, 2, 5, 0, 55, 0) | SwapState
QueuePresentKHR: a layout before a wait | Device Swapchain Fetched Fences Semaphores Acquired | - | QueuePresentKHR(4, 1, 30, 1, 5, 0) | LayoutDiffers
QueuePresentKHR: not acquired before a wait | Device Swapchain Fetched Semaphores | - | QueuePresentKHR(4, 1, 30, 1, 5, 0) | SwapState
QueuePresentKHR: no swapchain before a wait | Device Semaphores | - | QueuePresentKHR(4, 1, 30, 1, 5, 0) | NotLive
QueuePresentKHR: a wait before too many frames | Late Device Semaphores Swapchain Fetched Fences Pool Drawn Acquired | QueuePresentKHR(4, 0, 1, 5, 0); ResetFences(3, 1, 20); AcquireNextImageKHR(3, 5, 0, 20, 0, 0) | QueuePresentKHR(4, 1, 30, 1, 5, 0) | SignalState
";

/// No check is broken.
pub const GOOD: &str = "\
QueuePresentKHR | Device Swapchain Fetched Fences Pool Drawn Acquired | - | QueuePresentKHR(4, 0, 1, 5, 0) | taken
QueuePresentKHR: with a wait | Device Swapchain Fetched Fences Semaphores Pool Drawn Acquired | - | QueuePresentKHR(4, 1, 31, 1, 5, 0) | taken
QueuePresentKHR: two swapchains | Device Swapchain Fetched SecondChain Fences Pool Drawn Acquired | BeginCommandBuffer(11, 0); CmdPipelineBarrier(11, 1, 56, 0, SHOWN); EndCommandBuffer(11); QueueSubmit(4, 1, 0, 1, 11, 0, 0); CreateFence(3, 22, 0); AcquireNextImageKHR(3, 55, 0, 22, 0, 0) | QueuePresentKHR(4, 0, 2, 55, 0, 5, 0) | taken
QueuePresentKHR: the last frame | Late Device Swapchain Fetched Fences Pool Drawn Acquired | - | QueuePresentKHR(4, 0, 1, 5, 0) | taken
";
