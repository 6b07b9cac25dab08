//! Buffers.

/// Each check broken alone.
pub const BROKEN: &str = "\
CreateBuffer: no device | Device | - | CreateBuffer(4, 9, 64, 3) | NotLive
CreateBuffer: id 0 | Device | - | CreateBuffer(3, 0, 64, 3) | BadValue
CreateBuffer: a used id | Device | - | CreateBuffer(3, 2, 64, 3) | IdTaken
CreateBuffer: no bytes | Device | - | CreateBuffer(3, 9, 0, 3) | BadValue
CreateBuffer: no usage | Device | - | CreateBuffer(3, 9, 64, 0) | BadValue

DestroyBuffer: no device | Device Buffer | - | DestroyBuffer(2, 9) | NotLive
DestroyBuffer: no buffer | Device Image | - | DestroyBuffer(3, 12) | NotLive
DestroyBuffer: ended | Device Buffer | DestroyBuffer(3, 9) | DestroyBuffer(3, 9) | NotLive
DestroyBuffer: of another device | Device Other Buffer | - | DestroyBuffer(103, 9) | WrongParent

BindBufferMemory: no device | Device Memory Buffer | - | BindBufferMemory(2, 9, 8, 0) | NotLive
BindBufferMemory: no buffer | Device Memory Image | - | BindBufferMemory(3, 12, 8, 0) | NotLive
BindBufferMemory: no memory | Device Memory Buffer | - | BindBufferMemory(3, 9, 9, 0) | NotLive
BindBufferMemory: a buffer of another device | Device Other Memory | CreateBuffer(103, 109, 64, 3) | BindBufferMemory(3, 109, 8, 0) | WrongParent
BindBufferMemory: a memory of another device | Device Other Others Buffer | - | BindBufferMemory(3, 9, 108, 0) | WrongParent
BindBufferMemory: bound | Device Memory Buffer Bound | - | BindBufferMemory(3, 9, 8, 0) | AlreadyBound
BindBufferMemory: once bound | Device Memory Buffer Bound | FreeMemory(3, 8); AllocateMemory(3, 18, 256) | BindBufferMemory(3, 9, 18, 0) | AlreadyBound
BindBufferMemory: between places | Device Memory Buffer | - | BindBufferMemory(3, 9, 8, 4) | BadValue
BindBufferMemory: too far | Device Memory Buffer | - | BindBufferMemory(3, 9, 8, 208) | OutOfRange
BindBufferMemory: further than any number | Device Memory Buffer | - | BindBufferMemory(3, 9, 8, 18446744073709551600) | OutOfRange
BindBufferMemory: larger than any memory | Device Memory | CreateBuffer(3, 9, WHOLE, 3) | BindBufferMemory(3, 9, 8, 16) | OutOfRange
";

/// Two checks broken, of which the earlier decides.
pub const EARLIER: &str = "\
CreateBuffer: no device before a used id | Device | - | CreateBuffer(9, 2, 64, 3) | NotLive
CreateBuffer: a used id before no bytes | Device | - | CreateBuffer(3, 2, 0, 3) | IdTaken
DestroyBuffer: no device before another parent | Device Buffer | - | DestroyBuffer(9, 9) | NotLive
BindBufferMemory: no memory before a buffer of another device | Device Other Others | - | BindBufferMemory(3, 109, 9, 0) | NotLive
BindBufferMemory: another device before a binding | Device Other Memory Buffer Bound | - | BindBufferMemory(103, 9, 8, 0) | WrongParent
BindBufferMemory: a binding before a place | Device Memory Buffer Bound | - | BindBufferMemory(3, 9, 8, 4) | AlreadyBound
BindBufferMemory: a binding before a range | Device Memory Buffer Bound | - | BindBufferMemory(3, 9, 8, 256) | AlreadyBound
BindBufferMemory: a place before a range | Device Memory Buffer | - | BindBufferMemory(3, 9, 8, 257) | BadValue
";

/// No check is broken.
pub const GOOD: &str = "\
CreateBuffer | Device | - | CreateBuffer(3, 9, 1, 16) | taken
DestroyBuffer | Device Memory Buffer Bound | - | DestroyBuffer(3, 9) | taken
BindBufferMemory | Device Memory Buffer | - | BindBufferMemory(3, 9, 8, 192) | taken
BindBufferMemory: over another | Device Memory Buffer Bound | CreateBuffer(3, 19, 16, 1) | BindBufferMemory(3, 19, 8, 16) | taken
";
