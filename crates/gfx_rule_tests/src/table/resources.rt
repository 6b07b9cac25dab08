//! Images.

/// Each check broken alone.
pub const BROKEN: &str = "\
CreateImage: no device | Device | - | CreateImage(4, 12, 13, 4, 4, 3) | NotLive
CreateImage: id 0 | Device | - | CreateImage(3, 0, 13, 4, 4, 3) | BadValue
CreateImage: a used id | Device | - | CreateImage(3, 1, 13, 4, 4, 3) | IdTaken
CreateImage: an unknown format | Device | - | CreateImage(3, 12, 14, 4, 4, 3) | BadValue
CreateImage: no width | Device | - | CreateImage(3, 12, 13, 0, 4, 3) | BadValue
CreateImage: no height | Device | - | CreateImage(3, 12, 13, 4, 0, 3) | BadValue
CreateImage: no usage | Device | - | CreateImage(3, 12, 13, 4, 4, 0) | BadValue
CreateImage: too wide | Device | - | CreateImage(3, 12, 13, 4097, 4, 3) | LimitReached
CreateImage: too high | Device | - | CreateImage(3, 12, 13, 4, 4097, 3) | LimitReached

DestroyImage: no device | Device Image | - | DestroyImage(1, 12) | NotLive
DestroyImage: no image | Device Buffer | - | DestroyImage(3, 9) | NotLive
DestroyImage: of another device | Device Other Image | - | DestroyImage(103, 12) | WrongParent
DestroyImage: of a swapchain | Device Swapchain Fetched | - | DestroyImage(3, 6) | WrongParent

BindImageMemory: no device | Device Memory Image | - | BindImageMemory(2, 12, 8, 0) | NotLive
BindImageMemory: no image | Device Memory Buffer | - | BindImageMemory(3, 9, 8, 0) | NotLive
BindImageMemory: no memory | Device Memory Image | - | BindImageMemory(3, 12, 12, 0) | NotLive
BindImageMemory: an image of another device | Device Other Memory | CreateImage(103, 112, 13, 4, 4, 3) | BindImageMemory(3, 112, 8, 0) | WrongParent
BindImageMemory: a memory of another device | Device Other Others Image | - | BindImageMemory(3, 12, 108, 0) | WrongParent
BindImageMemory: an image of a swapchain | Device Memory Swapchain Fetched | - | BindImageMemory(3, 6, 8, 0) | WrongParent
BindImageMemory: bound | Device Memory Image BoundImage | - | BindImageMemory(3, 12, 8, 0) | AlreadyBound
BindImageMemory: once bound | Device Memory Image BoundImage | FreeMemory(3, 8); AllocateMemory(3, 18, 256) | BindImageMemory(3, 12, 18, 0) | AlreadyBound
BindImageMemory: between places | Device Memory Image | - | BindImageMemory(3, 12, 8, 8) | BadValue
BindImageMemory: too far | Device Memory Image | - | BindImageMemory(3, 12, 8, 256) | OutOfRange
BindImageMemory: further than any number | Device Memory Image | - | BindImageMemory(3, 12, 8, 18446744073709551600) | OutOfRange
BindImageMemory: texels of four bytes too far | Device Memory | CreateImage(3, 12, 98, 4, 4, 3) | BindImageMemory(3, 12, 8, 208) | OutOfRange
BindImageMemory: larger than the memory | Device Memory | CreateImage(3, 12, 13, 17, 16, 3) | BindImageMemory(3, 12, 8, 0) | OutOfRange
CreateImage: the id of an ended image | Device Image | DestroyImage(3, 12) | CreateImage(3, 12, 13, 4, 4, 3) | IdTaken
DestroyDevice: with an image | Device Image | - | DestroyDevice(3) | HasChildren
";

/// Two checks broken, of which the earlier decides.
pub const EARLIER: &str = "\
CreateImage: no device before id 0 | Device | - | CreateImage(9, 0, 13, 4, 4, 3) | NotLive
CreateImage: no device before a used id | Device | - | CreateImage(9, 1, 13, 4, 4, 3) | NotLive
CreateImage: a used id before a format | Device | - | CreateImage(3, 1, 14, 4, 4, 3) | IdTaken
CreateImage: a format before an extent | Device | - | CreateImage(3, 12, 14, 4097, 4, 3) | BadValue
CreateImage: no usage before an extent | Device | - | CreateImage(3, 12, 13, 4, 4097, 0) | BadValue
BindImageMemory: no memory before an image of another device | Device Other Others | - | BindImageMemory(3, 112, 9, 0) | NotLive
BindImageMemory: another device before a binding | Device Other Memory Image BoundImage | - | BindImageMemory(103, 12, 8, 0) | WrongParent
BindImageMemory: a binding before a place | Device Memory Image BoundImage | - | BindImageMemory(3, 12, 8, 8) | AlreadyBound
BindImageMemory: a binding before a range | Device Memory Image BoundImage | - | BindImageMemory(3, 12, 8, 256) | AlreadyBound
BindImageMemory: a place before a range | Device Memory Image | - | BindImageMemory(3, 12, 8, 248) | BadValue
";

/// No check is broken.
pub const GOOD: &str = "\
CreateImage | Device | - | CreateImage(3, 12, 44, 4, 4, 3) | taken
CreateImage: as large as may be | Device | - | CreateImage(3, 12, 98, 4096, 4096, 8) | taken
DestroyImage | Device Memory Image BoundImage | - | DestroyImage(3, 12) | taken
BindImageMemory | Device Memory Image | - | BindImageMemory(3, 12, 8, 240) | taken
BindImageMemory: texels of four bytes | Device Memory | CreateImage(3, 12, 98, 4, 4, 3) | BindImageMemory(3, 12, 8, 192) | taken
BindImageMemory: over another | Device Memory Buffer Bound Image | - | BindImageMemory(3, 12, 8, 0) | taken
";
