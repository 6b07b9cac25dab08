//! Memory and its maps.

/// Each check broken alone.
pub const BROKEN: &str = "\
AllocateMemory: no device | Device | - | AllocateMemory(1, 8, 256) | NotLive
AllocateMemory: id 0 | Device | - | AllocateMemory(3, 0, 256) | BadValue
AllocateMemory: a used id | Device | - | AllocateMemory(3, 2, 256) | IdTaken
AllocateMemory: no bytes | Device | - | AllocateMemory(3, 8, 0) | BadValue
AllocateMemory: too many bytes | Device | - | AllocateMemory(3, 8, 268435457) | LimitReached
AllocateMemory: too many bytes with another memory | Device Memory | - | AllocateMemory(3, 18, 268435201) | LimitReached
AllocateMemory: too many bytes with the images of a swapchain | Device Swapchain | - | AllocateMemory(3, 8, 268435425) | LimitReached
AllocateMemory: more bytes than any number | Device Memory | - | AllocateMemory(3, 18, WHOLE) | LimitReached

FreeMemory: no device | Device Memory | - | FreeMemory(4, 8) | NotLive
FreeMemory: no memory | Device Memory | - | FreeMemory(3, 4) | NotLive
FreeMemory: freed | Device Memory | FreeMemory(3, 8) | FreeMemory(3, 8) | NotLive
FreeMemory: of another device | Device Other Memory | - | FreeMemory(103, 8) | WrongParent

MapMemory: no device | Device Memory | - | MapMemory(4, 8, 0, 16) | NotLive
MapMemory: no memory | Device Memory | - | MapMemory(3, 3, 0, 16) | NotLive
MapMemory: of another device | Device Other Memory | - | MapMemory(103, 8, 0, 16) | WrongParent
MapMemory: no bytes | Device Memory | - | MapMemory(3, 8, 0, 0) | BadValue
MapMemory: from its end on | Device Memory | - | MapMemory(3, 8, 256, WHOLE) | OutOfRange
MapMemory: from behind its end | Device Memory | - | MapMemory(3, 8, WHOLE, WHOLE) | OutOfRange
MapMemory: one byte too far | Device Memory | - | MapMemory(3, 8, 16, 241) | OutOfRange
MapMemory: further than any number | Device Memory | - | MapMemory(3, 8, 16, 18446744073709551614) | OutOfRange
MapMemory: mapped | Device Memory Mapped | - | MapMemory(3, 8, 0, 16) | MapState

UnmapMemory: no device | Device Memory Mapped | - | UnmapMemory(4, 8) | NotLive
UnmapMemory: no memory | Device Memory Mapped | - | UnmapMemory(3, 9) | NotLive
UnmapMemory: of another device | Device Other Memory Mapped | - | UnmapMemory(103, 8) | WrongParent
UnmapMemory: not mapped | Device Memory | - | UnmapMemory(3, 8) | MapState
UnmapMemory: no longer mapped | Device Memory Mapped | UnmapMemory(3, 8) | UnmapMemory(3, 8) | MapState
UnmapMemory: freed | Device Memory Mapped | FreeMemory(3, 8) | UnmapMemory(3, 8) | NotLive
AllocateMemory: the id of a freed memory | Device Memory | FreeMemory(3, 8) | AllocateMemory(3, 8, 16) | IdTaken
DestroyDevice: with a mapped memory | Device Memory Mapped | - | DestroyDevice(3) | HasChildren
";

/// Two checks broken, of which the earlier decides.
pub const EARLIER: &str = "\
AllocateMemory: no device before a used id | Device | - | AllocateMemory(9, 2, 256) | NotLive
AllocateMemory: a used id before no bytes | Device | - | AllocateMemory(3, 2, 0) | IdTaken
AllocateMemory: a used id before too many bytes | Device | - | AllocateMemory(3, 2, WHOLE) | IdTaken
FreeMemory: no device before another parent | Device Memory | - | FreeMemory(9, 8) | NotLive
MapMemory: another device before no bytes | Device Other Memory | - | MapMemory(103, 8, 0, 0) | WrongParent
MapMemory: no bytes before a range | Device Memory | - | MapMemory(3, 8, 256, 0) | BadValue
MapMemory: no bytes before a map | Device Memory Mapped | - | MapMemory(3, 8, 0, 0) | BadValue
MapMemory: a range before a map | Device Memory Mapped | - | MapMemory(3, 8, 0, 257) | OutOfRange
MapMemory: another device before a range | Device Other Memory | - | MapMemory(103, 8, 256, 1) | WrongParent
UnmapMemory: another device before no map | Device Other Memory | - | UnmapMemory(103, 8) | WrongParent
";

/// No check is broken.
pub const GOOD: &str = "\
AllocateMemory | Device | - | AllocateMemory(3, 8, 1) | taken
AllocateMemory: all bytes | Device | - | AllocateMemory(3, 8, 268435456) | taken
AllocateMemory: what another memory leaves | Device Memory | - | AllocateMemory(3, 18, 268435200) | taken
AllocateMemory: what a freed memory had | Device | AllocateMemory(3, 8, 268435456); FreeMemory(3, 8) | AllocateMemory(3, 18, 268435456) | taken
FreeMemory: mapped | Device Memory Mapped | - | FreeMemory(3, 8) | taken
MapMemory: the whole | Device Memory | - | MapMemory(3, 8, 0, WHOLE) | taken
MapMemory: up to the end | Device Memory | - | MapMemory(3, 8, 16, 240) | taken
MapMemory: the last byte | Device Memory | - | MapMemory(3, 8, 255, WHOLE) | taken
UnmapMemory | Device Memory Mapped | - | UnmapMemory(3, 8) | taken
";
