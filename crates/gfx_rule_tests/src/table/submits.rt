//! Submits, and waiting for a queue or a device.

/// Each check broken alone.
pub const BROKEN: &str = "\
QueueSubmit: no queue | Device | - | QueueSubmit(3, 0, 0) | NotLive
QueueSubmit: too many submits | Device | - | QueueSubmit(4, 17, 0, 0, 0, 0, 0, 0, 0, 0, 0, 0, 0, 0, 0, 0, 0, 0, 0, 0, 0, 0, 0, 0, 0, 0, 0, 0, 0, 0, 0, 0, 0, 0, 0, 0, 0, 0, 0, 0, 0, 0, 0, 0, 0, 0, 0, 0, 0, 0, 0, 0, 0, 0) | LimitReached
QueueSubmit: too many waits | Device Semaphores | - | QueueSubmit(4, 1, 17, 31, 31, 31, 31, 31, 31, 31, 31, 31, 31, 31, 31, 31, 31, 31, 31, 31, 0, 0, 0) | LimitReached
QueueSubmit: too many buffers | Device Pool Executable | - | QueueSubmit(4, 1, 0, 65, 11, 11, 11, 11, 11, 11, 11, 11, 11, 11, 11, 11, 11, 11, 11, 11, 11, 11, 11, 11, 11, 11, 11, 11, 11, 11, 11, 11, 11, 11, 11, 11, 11, 11, 11, 11, 11, 11, 11, 11, 11, 11, 11, 11, 11, 11, 11, 11, 11, 11, 11, 11, 11, 11, 11, 11, 11, 11, 11, 11, 11, 11, 11, 11, 11, 0, 0) | LimitReached
QueueSubmit: too many signals | Device Semaphores | - | QueueSubmit(4, 1, 0, 0, 17, 30, 30, 30, 30, 30, 30, 30, 30, 30, 30, 30, 30, 30, 30, 30, 30, 30, 0) | LimitReached
QueueSubmit: no wait | Device Semaphores | - | QueueSubmit(4, 1, 2, 31, 32, 0, 0, 0) | NotLive
QueueSubmit: a fence to wait for | Device Fences | - | QueueSubmit(4, 1, 1, 21, 0, 0, 0) | NotLive
QueueSubmit: a wait of another device | Device Other OtherSignals | QueueSubmit(104, 1, 0, 0, 1, 130, 0) | QueueSubmit(4, 1, 1, 130, 0, 0, 0) | WrongParent
QueueSubmit: no buffer | Device Pool Executable | - | QueueSubmit(4, 1, 0, 2, 11, 12, 0, 0) | NotLive
QueueSubmit: a buffer of another device | Device Other OtherPool | BeginCommandBuffer(111, 0); EndCommandBuffer(111) | QueueSubmit(4, 1, 0, 1, 111, 0, 0) | WrongParent
QueueSubmit: no signal | Device Semaphores | - | QueueSubmit(4, 1, 0, 0, 2, 30, 32, 0) | NotLive
QueueSubmit: a signal of another device | Device Other OtherSignals | - | QueueSubmit(4, 1, 0, 0, 1, 130, 0) | WrongParent
QueueSubmit: no fence | Device Semaphores | - | QueueSubmit(4, 0, 30) | NotLive
QueueSubmit: a fence of another device | Device Other OtherSignals | - | QueueSubmit(4, 0, 120) | WrongParent
QueueSubmit: a buffer twice | Device Pool Executable | - | QueueSubmit(4, 1, 0, 2, 11, 11, 0, 0) | CommandState
QueueSubmit: a buffer in two submits | Device Pool Executable | - | QueueSubmit(4, 2, 0, 1, 11, 0, 0, 1, 11, 0, 0) | CommandState
QueueSubmit: a wait that is not signalled | Device Semaphores | - | QueueSubmit(4, 1, 1, 30, 0, 0, 0) | SignalState
QueueSubmit: a wait twice | Device Semaphores | - | QueueSubmit(4, 1, 2, 31, 31, 0, 0, 0) | SignalState
QueueSubmit: a wait in two submits | Device Semaphores | - | QueueSubmit(4, 2, 1, 31, 0, 0, 1, 31, 0, 0, 0) | SignalState
QueueSubmit: a buffer that is initial | Device Pool | - | QueueSubmit(4, 1, 0, 1, 11, 0, 0) | CommandState
QueueSubmit: a buffer that is recording | Device Pool Recording | - | QueueSubmit(4, 1, 0, 1, 11, 0, 0) | CommandState
QueueSubmit: a buffer that was to be submitted once | Device Pool | BeginCommandBuffer(11, 1); EndCommandBuffer(11); QueueSubmit(4, 1, 0, 1, 11, 0, 0) | QueueSubmit(4, 1, 0, 1, 11, 0, 0) | CommandState
QueueSubmit: a buffer of which a resource is ended | Device Resources Recording | CmdFillBuffer(11, 9, 0, 4, 0); EndCommandBuffer(11); DestroyBuffer(3, 9) | QueueSubmit(4, 1, 0, 1, 11, 0, 0) | CommandState
QueueSubmit: a barrier meets another layout | Device Resources Recording | CmdPipelineBarrier(11, 1, 12, 7, 6); EndCommandBuffer(11) | QueueSubmit(4, 1, 0, 1, 11, 0, 0) | LayoutDiffers
QueueSubmit: a barrier meets what a barrier before it left | Device Resources Recording | CmdPipelineBarrier(11, 2, 12, 0, 7, 12, 6, 7); EndCommandBuffer(11) | QueueSubmit(4, 1, 0, 1, 11, 0, 0) | LayoutDiffers
QueueSubmit: a clear meets another layout | Device Resources Recording | CmdPipelineBarrier(11, 1, 12, 0, 1); CmdClearColorImage(11, 12, 7, 0, 0, 0, 0); EndCommandBuffer(11) | QueueSubmit(4, 1, 0, 1, 11, 0, 0) | LayoutDiffers
QueueSubmit: a copy meets another layout of its source | Device Resources Recording | CmdPipelineBarrier(11, 2, 12, 0, 7, 22, 0, 7); CmdCopyImage(11, 12, 6, 22, 7, 1, 0, 0, 0, 0, 4, 4); EndCommandBuffer(11) | QueueSubmit(4, 1, 0, 1, 11, 0, 0) | LayoutDiffers
QueueSubmit: a copy meets another layout of its target | Device Resources Recording | CmdPipelineBarrier(11, 2, 12, 0, 6, 22, 0, 6); CmdCopyImage(11, 12, 6, 22, 7, 1, 0, 0, 0, 0, 4, 4); EndCommandBuffer(11) | QueueSubmit(4, 1, 0, 1, 11, 0, 0) | LayoutDiffers
QueueSubmit: a clear meets what an earlier buffer left | Device Resources Second | BeginCommandBuffer(15, 0); CmdPipelineBarrier(15, 1, 12, 0, 6); EndCommandBuffer(15); BeginCommandBuffer(11, 0); CmdClearColorImage(11, 12, 7, 0, 0, 0, 0); EndCommandBuffer(11) | QueueSubmit(4, 1, 0, 2, 15, 11, 0, 0) | LayoutDiffers
QueueSubmit: a signal that is signalled | Device Semaphores | - | QueueSubmit(4, 1, 0, 0, 1, 31, 0) | SignalState
QueueSubmit: a signal twice | Device Semaphores | - | QueueSubmit(4, 2, 0, 0, 1, 30, 0, 0, 1, 30, 0) | SignalState
QueueSubmit: a fence that is signalled | Device Fences | - | QueueSubmit(4, 0, 21) | SignalState
QueueWaitIdle: no queue | Device | - | QueueWaitIdle(3) | NotLive
DeviceWaitIdle: no device | Device | - | DeviceWaitIdle(4) | NotLive
";

/// Two checks broken, of which the earlier decides.
pub const EARLIER: &str = "\
QueueSubmit: no queue before too many waits | Device Semaphores | - | QueueSubmit(9, 1, 17, 31, 31, 31, 31, 31, 31, 31, 31, 31, 31, 31, 31, 31, 31, 31, 31, 31, 0, 0, 0) | NotLive
QueueSubmit: too many in a later submit before no wait | Device Semaphores | - | QueueSubmit(4, 2, 1, 32, 0, 0, 17, 31, 31, 31, 31, 31, 31, 31, 31, 31, 31, 31, 31, 31, 31, 31, 31, 31, 0, 0, 0) | LimitReached
QueueSubmit: all waits are live before one is near | Device Other OtherSignals | - | QueueSubmit(4, 1, 2, 130, 32, 0, 0, 0) | NotLive
QueueSubmit: waits before buffers | Device Other OtherSignals | - | QueueSubmit(4, 1, 1, 130, 1, 12, 0, 0) | WrongParent
QueueSubmit: buffers before signals | Device Other OtherPool | - | QueueSubmit(4, 1, 0, 1, 111, 1, 32, 0) | WrongParent
QueueSubmit: one submit before another | Device Other OtherSignals | - | QueueSubmit(4, 2, 0, 0, 1, 130, 1, 32, 0, 0, 0) | WrongParent
QueueSubmit: signals before the fence | Device Other OtherSignals | - | QueueSubmit(4, 1, 0, 0, 1, 130, 22) | WrongParent
QueueSubmit: the fence before a buffer twice | Device Other OtherSignals Pool Executable | - | QueueSubmit(4, 1, 0, 2, 11, 11, 0, 120) | WrongParent
QueueSubmit: a buffer twice before a wait | Device Semaphores Pool Executable | - | QueueSubmit(4, 1, 1, 30, 2, 11, 11, 0, 0) | CommandState
QueueSubmit: the fence before a wait | Device Semaphores | - | QueueSubmit(4, 1, 1, 30, 0, 0, 20) | NotLive
QueueSubmit: a wait before a buffer's state | Device Semaphores Pool | - | QueueSubmit(4, 1, 1, 30, 1, 11, 0, 0) | SignalState
QueueSubmit: a buffer's state before a signal | Device Semaphores Pool | - | QueueSubmit(4, 1, 0, 1, 11, 1, 31, 0) | CommandState
QueueSubmit: a buffer's state before a wait of the next submit | Device Semaphores Pool | - | QueueSubmit(4, 2, 0, 1, 11, 0, 1, 30, 0, 0, 0) | CommandState
QueueSubmit: a layout before the next buffer's state | Device Resources Second Recording | CmdPipelineBarrier(11, 1, 12, 7, 6); EndCommandBuffer(11) | QueueSubmit(4, 1, 0, 2, 11, 15, 0, 0) | LayoutDiffers
QueueSubmit: a buffer's state before the next one's layout | Device Resources Second Recording | CmdPipelineBarrier(11, 1, 12, 7, 6); EndCommandBuffer(11) | QueueSubmit(4, 1, 0, 2, 15, 11, 0, 0) | CommandState
QueueSubmit: a layout before a signal | Device Resources Semaphores Recording | CmdPipelineBarrier(11, 1, 12, 7, 6); EndCommandBuffer(11) | QueueSubmit(4, 1, 0, 1, 11, 1, 31, 0) | LayoutDiffers
QueueSubmit: a buffer's state before the fence's | Device Fences Pool | - | QueueSubmit(4, 1, 0, 1, 11, 0, 21) | CommandState
QueueSubmit: a signal before a buffer of the next submit | Device Semaphores Pool | - | QueueSubmit(4, 2, 0, 0, 1, 31, 0, 1, 11, 0, 0) | SignalState
QueueSubmit: no fence before a buffer twice | Device Pool Executable | - | QueueSubmit(4, 1, 0, 2, 11, 11, 0, 22) | NotLive
";

/// No check is broken.
pub const GOOD: &str = "\
QueueSubmit: none | Device | - | QueueSubmit(4, 0, 0) | taken
QueueSubmit: a fence alone | Device Fences | - | QueueSubmit(4, 0, 20) | taken
QueueSubmit: a wait that an earlier submit signals | Device Semaphores | - | QueueSubmit(4, 2, 0, 0, 1, 30, 1, 30, 0, 0, 0) | taken
QueueSubmit: a signal that is waited for | Device Semaphores | - | QueueSubmit(4, 1, 1, 31, 0, 1, 31, 0) | taken
QueueSubmit: a buffer again | Device Pool Executable | QueueSubmit(4, 1, 0, 1, 11, 0, 0) | QueueSubmit(4, 1, 0, 1, 11, 0, 0) | taken
QueueSubmit: a buffer with flag 4 again | Device Pool | BeginCommandBuffer(11, 4); EndCommandBuffer(11); QueueSubmit(4, 1, 0, 1, 11, 0, 0) | QueueSubmit(4, 1, 0, 1, 11, 0, 0) | taken
QueueSubmit: layouts one after another | Device Resources Recording | CmdPipelineBarrier(11, 2, 12, 0, 7, 12, 7, 6); CmdCopyImageToBuffer(11, 12, 6, 9, 1, 0, 0, 0, 0, 0, 4, 4); EndCommandBuffer(11) | QueueSubmit(4, 1, 0, 1, 11, 0, 0) | taken
QueueSubmit: a barrier from UNDEFINED, whatever there was | Device Resources Recording | CmdPipelineBarrier(11, 1, 12, 0, 7); EndCommandBuffer(11); QueueSubmit(4, 1, 0, 1, 11, 0, 0) | QueueSubmit(4, 1, 0, 1, 11, 0, 0) | taken
QueueSubmit: a layout that an earlier buffer left | Device Resources Second | BeginCommandBuffer(15, 0); CmdPipelineBarrier(15, 1, 12, 0, 7); EndCommandBuffer(15); BeginCommandBuffer(11, 0); CmdClearColorImage(11, 12, 7, 0, 0, 0, 0); EndCommandBuffer(11) | QueueSubmit(4, 2, 0, 1, 15, 0, 0, 1, 11, 0, 0) | taken
QueueSubmit: a layout that an earlier buffer of the same submit left | Device Resources Second | BeginCommandBuffer(15, 0); CmdPipelineBarrier(15, 1, 12, 0, 7); EndCommandBuffer(15); BeginCommandBuffer(11, 0); CmdClearColorImage(11, 12, 7, 0, 0, 0, 0); EndCommandBuffer(11) | QueueSubmit(4, 1, 0, 2, 15, 11, 0, 0) | taken
";
