//! Pools and command buffers.

/// Each check of a pool or of a list of its buffers broken alone.
pub const POOLS: &str = "\
CreateCommandPool: no device | Device | - | CreateCommandPool(2, 10, 2) | NotLive
CreateCommandPool: id 0 | Device | - | CreateCommandPool(3, 0, 2) | BadValue
CreateCommandPool: a used id | Device | - | CreateCommandPool(3, 4, 2) | IdTaken
CreateCommandPool: unknown flags | Device | - | CreateCommandPool(3, 10, 4) | BadValue

DestroyCommandPool: no device | Device Pool | - | DestroyCommandPool(2, 10) | NotLive
DestroyCommandPool: no pool | Device Pool | - | DestroyCommandPool(3, 11) | NotLive
DestroyCommandPool: of another device | Device Other Pool | - | DestroyCommandPool(103, 10) | WrongParent

ResetCommandPool: no device | Device Pool | - | ResetCommandPool(4, 10) | NotLive
ResetCommandPool: no pool | Device Pool | DestroyCommandPool(3, 10) | ResetCommandPool(3, 10) | NotLive
ResetCommandPool: of another device | Device Other Pool | - | ResetCommandPool(103, 10) | WrongParent

AllocateCommandBuffers: no device | Device Pool | - | AllocateCommandBuffers(4, 10, 1, 12) | NotLive
AllocateCommandBuffers: no pool | Device Pool | - | AllocateCommandBuffers(3, 11, 1, 12) | NotLive
AllocateCommandBuffers: of another device | Device Other Pool | - | AllocateCommandBuffers(103, 10, 1, 12) | WrongParent
AllocateCommandBuffers: none | Device Pool | - | AllocateCommandBuffers(3, 10, 0) | BadValue
AllocateCommandBuffers: id 0 | Device Pool | - | AllocateCommandBuffers(3, 10, 2, 12, 0) | BadValue
AllocateCommandBuffers: a used id | Device Pool | - | AllocateCommandBuffers(3, 10, 2, 12, 11) | IdTaken
AllocateCommandBuffers: an id twice | Device Pool | - | AllocateCommandBuffers(3, 10, 3, 12, 13, 12) | IdTaken

FreeCommandBuffers: no device | Device Pool | - | FreeCommandBuffers(4, 10, 1, 11) | NotLive
FreeCommandBuffers: no pool | Device Pool | - | FreeCommandBuffers(3, 11, 1, 11) | NotLive
FreeCommandBuffers: of another device | Device Other Pool | - | FreeCommandBuffers(103, 10, 1, 11) | WrongParent
FreeCommandBuffers: none | Device Pool | - | FreeCommandBuffers(3, 10, 0) | BadValue
FreeCommandBuffers: no buffer | Device Pool | - | FreeCommandBuffers(3, 10, 2, 11, 12) | NotLive
FreeCommandBuffers: a buffer twice | Device Pool | - | FreeCommandBuffers(3, 10, 2, 11, 11) | NotLive
FreeCommandBuffers: a buffer of another pool | Device Pool Second | - | FreeCommandBuffers(3, 10, 2, 11, 15) | WrongParent
FreeCommandBuffers: freed | Device Pool | FreeCommandBuffers(3, 10, 1, 11) | FreeCommandBuffers(3, 10, 1, 11) | NotLive
DestroyDevice: with a pool | Device | CreateCommandPool(3, 10, 0) | DestroyDevice(3) | HasChildren
";

/// Each check of a command buffer broken alone.
pub const RECORDED: &str = "\
BeginCommandBuffer: no buffer | Device Pool | - | BeginCommandBuffer(10, 0) | NotLive
BeginCommandBuffer: unknown flags | Device Pool | - | BeginCommandBuffer(11, 2) | BadValue
BeginCommandBuffer: more unknown flags | Device Pool | - | BeginCommandBuffer(11, 8) | BadValue
BeginCommandBuffer: recording | Device Pool Recording | - | BeginCommandBuffer(11, 0) | CommandState
BeginCommandBuffer: executable, and may not be reset | Device Strict Executable | - | BeginCommandBuffer(11, 0) | PoolRule
BeginCommandBuffer: invalid, and may not be reset | Device Strict | BeginCommandBuffer(11, 1); EndCommandBuffer(11); QueueSubmit(4, 1, 0, 1, 11, 0, 0) | BeginCommandBuffer(11, 0) | PoolRule

EndCommandBuffer: no buffer | Device Pool | - | EndCommandBuffer(10) | NotLive
EndCommandBuffer: initial | Device Pool | - | EndCommandBuffer(11) | CommandState
EndCommandBuffer: executable | Device Pool Executable | - | EndCommandBuffer(11) | CommandState
EndCommandBuffer: invalid | Device Memory Buffer Bound Pool Recording | CmdFillBuffer(11, 9, 0, 4, 0); DestroyBuffer(3, 9) | EndCommandBuffer(11) | CommandState
EndCommandBuffer: its memory was freed | Device Memory Buffer Bound Pool Recording | CmdFillBuffer(11, 9, 0, 4, 0); FreeMemory(3, 8) | EndCommandBuffer(11) | CommandState
EndCommandBuffer: reset with its pool | Device Pool Recording | ResetCommandPool(3, 10) | EndCommandBuffer(11) | CommandState

ResetCommandBuffer: no buffer | Device Pool | - | ResetCommandBuffer(10) | NotLive
ResetCommandBuffer: may not be reset | Device Strict | - | ResetCommandBuffer(11) | PoolRule
ResetCommandBuffer: ended with its pool | Device Pool | DestroyCommandPool(3, 10) | ResetCommandBuffer(11) | NotLive
";

/// Two checks broken, of which the earlier decides.
pub const EARLIER: &str = "\
CreateCommandPool: no device before a used id | Device | - | CreateCommandPool(9, 4, 2) | NotLive
CreateCommandPool: a used id before flags | Device | - | CreateCommandPool(3, 4, 4) | IdTaken
DestroyCommandPool: no device before another parent | Device Pool | - | DestroyCommandPool(9, 10) | NotLive
AllocateCommandBuffers: another device before none | Device Other Pool | - | AllocateCommandBuffers(103, 10, 0) | WrongParent
AllocateCommandBuffers: a used id before id 0 | Device Pool | - | AllocateCommandBuffers(3, 10, 2, 11, 0) | IdTaken
AllocateCommandBuffers: id 0 before a used id | Device Pool | - | AllocateCommandBuffers(3, 10, 2, 0, 11) | BadValue
FreeCommandBuffers: another device before none | Device Other Pool | - | FreeCommandBuffers(103, 10, 0) | WrongParent
FreeCommandBuffers: all are live before one is of another pool | Device Pool Second | - | FreeCommandBuffers(3, 10, 2, 15, 12) | NotLive
FreeCommandBuffers: none twice before one is of another pool | Device Pool Second | - | FreeCommandBuffers(3, 10, 2, 15, 15) | NotLive
BeginCommandBuffer: flags before recording | Device Pool Recording | - | BeginCommandBuffer(11, 2) | BadValue
BeginCommandBuffer: recording before the pool | Device Strict Recording | - | BeginCommandBuffer(11, 0) | CommandState
";

/// No check is broken.
pub const GOOD: &str = "\
CreateCommandPool | Device | - | CreateCommandPool(3, 10, 3) | taken
DestroyCommandPool | Device Pool Recording | - | DestroyCommandPool(3, 10) | taken
ResetCommandPool | Device Strict Executable | - | ResetCommandPool(3, 10) | taken
AllocateCommandBuffers | Device Pool | - | AllocateCommandBuffers(3, 10, 3, 12, 14, 13) | taken
FreeCommandBuffers | Device Pool | AllocateCommandBuffers(3, 10, 1, 12); BeginCommandBuffer(12, 0) | FreeCommandBuffers(3, 10, 2, 12, 11) | taken
BeginCommandBuffer | Device Strict | - | BeginCommandBuffer(11, 5) | taken
BeginCommandBuffer: once | Device Strict | - | BeginCommandBuffer(11, 1) | taken
BeginCommandBuffer: at the same time | Device Strict | - | BeginCommandBuffer(11, 4) | taken
BeginCommandBuffer: executable | Device Pool Executable | - | BeginCommandBuffer(11, 0) | taken
BeginCommandBuffer: invalid | Device Pool | BeginCommandBuffer(11, 1); EndCommandBuffer(11); QueueSubmit(4, 1, 0, 1, 11, 0, 0) | BeginCommandBuffer(11, 0) | taken
BeginCommandBuffer: after its pool was reset | Device Strict Executable | ResetCommandPool(3, 10) | BeginCommandBuffer(11, 0) | taken
EndCommandBuffer | Device Pool Recording | - | EndCommandBuffer(11) | taken
ResetCommandBuffer: initial | Device Pool | - | ResetCommandBuffer(11) | taken
ResetCommandBuffer: recording | Device Pool Recording | - | ResetCommandBuffer(11) | taken
EndCommandBuffer: a buffer that it doesn't name is ended | Device Memory Buffer Bound Pool Recording | DestroyBuffer(3, 9) | EndCommandBuffer(11) | taken
";
