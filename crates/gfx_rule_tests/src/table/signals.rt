//! Fences and semaphores.

/// Each check broken alone.
pub const BROKEN: &str = "\
CreateFence: no device | Device | - | CreateFence(4, 20, 0) | NotLive
CreateFence: id 0 | Device | - | CreateFence(3, 0, 0) | BadValue
CreateFence: a used id | Device | - | CreateFence(3, 3, 0) | IdTaken
CreateFence: unknown flags | Device | - | CreateFence(3, 20, 2) | BadValue

DestroyFence: no device | Device Fences | - | DestroyFence(4, 20) | NotLive
DestroyFence: no fence | Device Semaphores | - | DestroyFence(3, 30) | NotLive
DestroyFence: of another device | Device Other Fences | - | DestroyFence(103, 20) | WrongParent

ResetFences: no device | Device Fences | - | ResetFences(4, 1, 20) | NotLive
ResetFences: none | Device Fences | - | ResetFences(3, 0) | BadValue
ResetFences: no fence | Device Fences | - | ResetFences(3, 2, 20, 22) | NotLive
ResetFences: of another device | Device Other OtherSignals Fences | - | ResetFences(3, 2, 20, 120) | WrongParent

WaitForFences: no device | Device Fences | - | WaitForFences(4, 1, 21, 1, 0) | NotLive
WaitForFences: none | Device Fences | - | WaitForFences(3, 0, 1, 0) | BadValue
WaitForFences: no fence | Device Fences | - | WaitForFences(3, 2, 21, 22, 1, 0) | NotLive
WaitForFences: of another device | Device Other OtherSignals Fences | - | WaitForFences(3, 2, 21, 120, 0, 0) | WrongParent
WaitForFences: neither all nor some | Device Fences | - | WaitForFences(3, 1, 21, 2, 0) | BadValue
WaitForFences: not ready | Device Fences | - | WaitForFences(3, 1, 21, 1, 1) | BadValue
WaitForFences: an unknown answer | Device Fences | - | WaitForFences(3, 1, 21, 1, 3) | BadValue
WaitForFences: all, where one is not | Device Fences | - | WaitForFences(3, 2, 21, 20, 1, 0) | ResultDiffers
WaitForFences: not all, where all are | Device Fences | - | WaitForFences(3, 1, 21, 1, 2) | ResultDiffers
WaitForFences: some, where none is | Device Fences | - | WaitForFences(3, 1, 20, 0, 0) | ResultDiffers
WaitForFences: none, where one is | Device Fences | - | WaitForFences(3, 2, 20, 21, 0, 2) | ResultDiffers

GetFenceStatus: no device | Device Fences | - | GetFenceStatus(4, 21, 0) | NotLive
GetFenceStatus: no fence | Device Fences | - | GetFenceStatus(3, 22, 0) | NotLive
GetFenceStatus: of another device | Device Other Fences | - | GetFenceStatus(103, 21, 0) | WrongParent
GetFenceStatus: an unknown answer | Device Fences | - | GetFenceStatus(3, 20, 2) | BadValue
GetFenceStatus: signalled, where it is not | Device Fences | - | GetFenceStatus(3, 20, 0) | ResultDiffers
GetFenceStatus: not signalled, where it is | Device Fences | - | GetFenceStatus(3, 21, 1) | ResultDiffers
GetFenceStatus: signalled, where it was reset | Device Fences | ResetFences(3, 1, 21) | GetFenceStatus(3, 21, 0) | ResultDiffers
GetFenceStatus: not signalled, after a submit | Device Fences | QueueSubmit(4, 0, 20) | GetFenceStatus(3, 20, 1) | ResultDiffers

CreateSemaphore: no device | Device | - | CreateSemaphore(4, 30) | NotLive
CreateSemaphore: id 0 | Device | - | CreateSemaphore(3, 0) | BadValue
CreateSemaphore: a used id | Device | - | CreateSemaphore(3, 2) | IdTaken

DestroySemaphore: no device | Device Semaphores | - | DestroySemaphore(4, 30) | NotLive
DestroySemaphore: no semaphore | Device Fences | - | DestroySemaphore(3, 20) | NotLive
DestroySemaphore: of another device | Device Other Semaphores | - | DestroySemaphore(103, 30) | WrongParent
DestroyDevice: with a fence | Device Fences | - | DestroyDevice(3) | HasChildren
";

/// Two checks broken, of which the earlier decides.
pub const EARLIER: &str = "\
CreateFence: no device before a used id | Device | - | CreateFence(9, 3, 0) | NotLive
CreateFence: a used id before flags | Device | - | CreateFence(3, 3, 2) | IdTaken
DestroyFence: no device before another parent | Device Fences | - | DestroyFence(9, 20) | NotLive
ResetFences: no device before none | Device Fences | - | ResetFences(9, 0) | NotLive
ResetFences: all are live before one is of another device | Device Other OtherSignals Fences | - | ResetFences(3, 2, 120, 22) | NotLive
WaitForFences: none before an answer | Device Fences | - | WaitForFences(3, 0, 1, 3) | BadValue
WaitForFences: all are live before one is of another device | Device Other OtherSignals Fences | - | WaitForFences(3, 2, 120, 22, 1, 0) | NotLive
WaitForFences: another device before an answer | Device Other OtherSignals | - | WaitForFences(3, 1, 120, 2, 1) | WrongParent
WaitForFences: a value before what is signalled | Device Fences | - | WaitForFences(3, 1, 20, 2, 0) | BadValue
GetFenceStatus: another device before an answer | Device Other Fences | - | GetFenceStatus(103, 21, 2) | WrongParent
CreateSemaphore: no device before a used id | Device | - | CreateSemaphore(9, 2) | NotLive
DestroySemaphore: no device before another parent | Device Semaphores | - | DestroySemaphore(9, 30) | NotLive
";

/// No check is broken.
pub const GOOD: &str = "\
CreateFence | Device | - | CreateFence(3, 20, 1) | taken
DestroyFence | Device Fences | - | DestroyFence(3, 21) | taken
ResetFences | Device Fences | - | ResetFences(3, 3, 20, 21, 20) | taken
WaitForFences: all | Device Fences | - | WaitForFences(3, 2, 21, 21, 1, 0) | taken
WaitForFences: not all | Device Fences | - | WaitForFences(3, 2, 21, 20, 1, 2) | taken
WaitForFences: some | Device Fences | - | WaitForFences(3, 2, 20, 21, 0, 0) | taken
WaitForFences: none is | Device Fences | - | WaitForFences(3, 1, 20, 0, 2) | taken
GetFenceStatus: signalled | Device Fences | - | GetFenceStatus(3, 21, 0) | taken
GetFenceStatus: not signalled | Device Fences | - | GetFenceStatus(3, 20, 1) | taken
GetFenceStatus: after a submit | Device Fences | QueueSubmit(4, 0, 20) | GetFenceStatus(3, 20, 0) | taken
GetFenceStatus: after an acquire | Device Swapchain Fences Acquired | - | GetFenceStatus(3, 20, 0) | taken
CreateSemaphore | Device | - | CreateSemaphore(3, 30) | taken
DestroySemaphore | Device Semaphores | - | DestroySemaphore(3, 31) | taken
QueueWaitIdle | Device | - | QueueWaitIdle(4) | taken
DeviceWaitIdle | Device | - | DeviceWaitIdle(3) | taken
";
