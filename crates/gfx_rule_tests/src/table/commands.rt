//! Barriers, fills, updates and clears.

/// Each check broken alone.
pub const BROKEN: &str = "\
CmdPipelineBarrier: no buffer | Device Resources Recording | - | CmdPipelineBarrier(10, 1, 12, 0, 7) | NotLive
CmdPipelineBarrier: initial | Device Resources | - | CmdPipelineBarrier(11, 1, 12, 0, 7) | CommandState
CmdPipelineBarrier: executable | Device Resources Executable | - | CmdPipelineBarrier(11, 1, 12, 0, 7) | CommandState
CmdPipelineBarrier: too many | Device Resources Recording | - | CmdPipelineBarrier(11, 257) | LimitReached
CmdPipelineBarrier: no image | Device Resources Recording | - | CmdPipelineBarrier(11, 2, 12, 0, 7, 9, 0, 7) | NotLive
CmdPipelineBarrier: of another device | Device Other Others Resources Recording | - | CmdPipelineBarrier(11, 1, 112, 0, 7) | WrongParent
CmdPipelineBarrier: not bound | Device Resources Recording | - | CmdPipelineBarrier(11, 1, 32, 0, 7) | NotBound
CmdPipelineBarrier: its memory was freed | Device Resources Recording | FreeMemory(3, 8) | CmdPipelineBarrier(11, 1, 12, 0, 7) | NotBound
CmdPipelineBarrier: from an unknown layout | Device Resources Recording | - | CmdPipelineBarrier(11, 1, 12, 5, 7) | BadValue
CmdPipelineBarrier: to UNDEFINED | Device Resources Recording | - | CmdPipelineBarrier(11, 1, 12, 0, 0) | BadValue
CmdPipelineBarrier: to an unknown layout | Device Resources Recording | - | CmdPipelineBarrier(11, 2, 12, 0, 7, 22, 0, 8) | BadValue

CmdFillBuffer: no buffer to record | Device Resources Recording | - | CmdFillBuffer(10, 9, 0, 4, 0) | NotLive
CmdFillBuffer: initial | Device Resources | - | CmdFillBuffer(11, 9, 0, 4, 0) | CommandState
CmdFillBuffer: no buffer | Device Resources Recording | - | CmdFillBuffer(11, 12, 0, 4, 0) | NotLive
CmdFillBuffer: of another device | Device Other Others Resources Recording | - | CmdFillBuffer(11, 109, 0, 4, 0) | WrongParent
CmdFillBuffer: not bound | Device Resources Recording | - | CmdFillBuffer(11, 29, 0, 4, 0) | NotBound
CmdFillBuffer: may not be written | Device Resources Recording | - | CmdFillBuffer(11, 39, 0, 4, 0) | UsageMissing
CmdFillBuffer: between words | Device Resources Recording | - | CmdFillBuffer(11, 9, 2, 4, 0) | BadValue
CmdFillBuffer: no bytes | Device Resources Recording | - | CmdFillBuffer(11, 9, 0, 0, 0) | BadValue
CmdFillBuffer: half a word | Device Resources Recording | - | CmdFillBuffer(11, 9, 0, 6, 0) | BadValue
CmdFillBuffer: from its end on | Device Resources Recording | - | CmdFillBuffer(11, 9, 64, WHOLE, 0) | OutOfRange
CmdFillBuffer: too far | Device Resources Recording | - | CmdFillBuffer(11, 9, 4, 64, 0) | OutOfRange
CmdFillBuffer: further than any number | Device Resources Recording | - | CmdFillBuffer(11, 9, 4, 18446744073709551612, 0) | OutOfRange

CmdUpdateBuffer: no buffer to record | Device Resources Recording | - | CmdUpdateBuffer(10, 9, 0, 4) | NotLive
CmdUpdateBuffer: executable | Device Resources Executable | - | CmdUpdateBuffer(11, 9, 0, 4) | CommandState
CmdUpdateBuffer: no buffer | Device Resources Recording | - | CmdUpdateBuffer(11, 8, 0, 4) | NotLive
CmdUpdateBuffer: of another device | Device Other Others Resources Recording | - | CmdUpdateBuffer(11, 109, 0, 4) | WrongParent
CmdUpdateBuffer: not bound | Device Resources Recording | - | CmdUpdateBuffer(11, 29, 0, 4) | NotBound
CmdUpdateBuffer: may not be written | Device Resources Recording | - | CmdUpdateBuffer(11, 39, 0, 4) | UsageMissing
CmdUpdateBuffer: between words | Device Resources Recording | - | CmdUpdateBuffer(11, 9, 2, 4) | BadValue
CmdUpdateBuffer: half a word | Device Resources Recording | - | CmdUpdateBuffer(11, 9, 0, 6) | BadValue
CmdUpdateBuffer: no bytes | Device Resources Recording | - | CmdUpdateBuffer(11, 9, 0, 0) | BadValue
CmdUpdateBuffer: too many bytes | Device Resources | CreateBuffer(3, 59, 100000, 3); AllocateMemory(3, 18, 100000); BindBufferMemory(3, 59, 18, 0); BeginCommandBuffer(11, 0) | CmdUpdateBuffer(11, 59, 0, 65540) | BadValue
CmdUpdateBuffer: too far | Device Resources Recording | - | CmdUpdateBuffer(11, 9, 60, 8) | OutOfRange
CmdUpdateBuffer: further than any number | Device Resources Recording | - | CmdUpdateBuffer(11, 9, 18446744073709551612, 8) | OutOfRange

CmdClearColorImage: no buffer to record | Device Resources Recording | - | CmdClearColorImage(10, 12, 7, 0, 0, 0, 0) | NotLive
CmdClearColorImage: initial | Device Resources | - | CmdClearColorImage(11, 12, 7, 0, 0, 0, 0) | CommandState
CmdClearColorImage: no image | Device Resources Recording | - | CmdClearColorImage(11, 9, 7, 0, 0, 0, 0) | NotLive
CmdClearColorImage: of another device | Device Other Others Resources Recording | - | CmdClearColorImage(11, 112, 7, 0, 0, 0, 0) | WrongParent
CmdClearColorImage: not bound | Device Resources Recording | - | CmdClearColorImage(11, 32, 7, 0, 0, 0, 0) | NotBound
CmdClearColorImage: may not be written | Device Resources Recording | - | CmdClearColorImage(11, 42, 7, 0, 0, 0, 0) | UsageMissing
CmdClearColorImage: a layout to read from | Device Resources Recording | - | CmdClearColorImage(11, 12, 6, 0, 0, 0, 0) | BadValue
CmdClearColorImage: UNDEFINED | Device Resources Recording | - | CmdClearColorImage(11, 12, 0, 0, 0, 0, 0) | BadValue
CmdClearColorImage: no UINTs | Device Resources Recording | - | CmdClearColorImage(11, 72, 7, 0, 0, 0, 0) | FormatDiffers
CmdClearColorImage: its swapchain is ended | Device Resources Swapchain Fetched Recording | DestroySwapchainKHR(3, 5) | CmdClearColorImage(11, 6, 7, 0, 0, 0, 0) | NotLive
CmdClearColorImage: the layout of a present | Device Resources Recording | - | CmdClearColorImage(11, 12, SHOWN, 0, 0, 0, 0) | BadValue
CmdClearColorImage: BGRA | Device Resources Recording | CreateImage(3, 92, 44, 2, 2, 3); BindImageMemory(3, 92, 8, 208) | CmdClearColorImage(11, 92, 1, 0, 0, 0, 0) | FormatDiffers
CmdFillBuffer: its memory was freed | Device Resources Recording | FreeMemory(3, 8) | CmdFillBuffer(11, 9, 0, 4, 0) | NotBound
";

/// Two checks broken, of which the earlier decides.
pub const EARLIER: &str = "\
CmdPipelineBarrier: the state before an image | Device Resources | - | CmdPipelineBarrier(11, 1, 9, 0, 7) | CommandState
CmdPipelineBarrier: the state before too many | Device Resources | - | CmdPipelineBarrier(11, 257) | CommandState
CmdPipelineBarrier: one image after another, not bound first | Device Resources Recording | - | CmdPipelineBarrier(11, 2, 32, 0, 7, 9, 0, 7) | NotBound
CmdPipelineBarrier: one image after another, another device first | Device Other Others Resources Recording | - | CmdPipelineBarrier(11, 2, 112, 0, 7, 9, 0, 7) | WrongParent
CmdPipelineBarrier: one image after another, none first | Device Resources Recording | - | CmdPipelineBarrier(11, 2, 9, 0, 7, 32, 0, 7) | NotLive
CmdPipelineBarrier: another device before not bound | Device Other Resources Recording | CreateImage(103, 112, 13, 4, 4, 3) | CmdPipelineBarrier(11, 1, 112, 0, 7) | WrongParent
CmdPipelineBarrier: all images before a layout | Device Resources Recording | - | CmdPipelineBarrier(11, 2, 12, 5, 7, 32, 0, 7) | NotBound
CmdFillBuffer: the state before a buffer | Device Resources | - | CmdFillBuffer(11, 12, 0, 4, 0) | CommandState
CmdFillBuffer: not bound before its usage | Device Resources Recording | CreateBuffer(3, 59, 64, 1) | CmdFillBuffer(11, 59, 0, 4, 0) | NotBound
CmdFillBuffer: usage before a place | Device Resources Recording | - | CmdFillBuffer(11, 39, 2, 4, 0) | UsageMissing
CmdFillBuffer: a place before a range | Device Resources Recording | - | CmdFillBuffer(11, 9, 66, 4, 0) | BadValue
CmdFillBuffer: a size before a range | Device Resources Recording | - | CmdFillBuffer(11, 9, 0, 66, 0) | BadValue
CmdUpdateBuffer: the state before a buffer | Device Resources | - | CmdUpdateBuffer(11, 12, 0, 4) | CommandState
CmdUpdateBuffer: usage before a length | Device Resources Recording | - | CmdUpdateBuffer(11, 39, 0, 6) | UsageMissing
CmdUpdateBuffer: a length before a range | Device Resources Recording | - | CmdUpdateBuffer(11, 9, 64, 6) | BadValue
CmdUpdateBuffer: too many bytes before a range | Device Resources Recording | - | CmdUpdateBuffer(11, 9, 0, 65540) | BadValue
CmdClearColorImage: the state before an image | Device Resources | - | CmdClearColorImage(11, 9, 7, 0, 0, 0, 0) | CommandState
CmdClearColorImage: usage before a layout | Device Resources Recording | - | CmdClearColorImage(11, 42, 6, 0, 0, 0, 0) | UsageMissing
CmdClearColorImage: a layout before a format | Device Resources Recording | - | CmdClearColorImage(11, 72, 6, 0, 0, 0, 0) | BadValue
CmdClearColorImage: usage before a format | Device Resources Recording | CreateImage(3, 92, 37, 2, 2, 1); BindImageMemory(3, 92, 8, 208) | CmdClearColorImage(11, 92, 7, 0, 0, 0, 0) | UsageMissing
";

/// No check is broken.
pub const GOOD: &str = "\
CmdPipelineBarrier | Device Resources Recording | - | CmdPipelineBarrier(11, 3, 12, 7, 6, 12, 1, 7, 22, SHOWN, SHOWN) | taken
CmdPipelineBarrier: none | Device Resources Recording | - | CmdPipelineBarrier(11, 0) | taken
CmdPipelineBarrier: an image of a swapchain | Device Resources Swapchain Fetched Recording | - | CmdPipelineBarrier(11, 1, 7, 0, SHOWN) | taken
CmdFillBuffer | Device Resources Recording | - | CmdFillBuffer(11, 9, 4, 60, 1) | taken
CmdFillBuffer: the whole | Device Resources Recording | - | CmdFillBuffer(11, 49, 60, WHOLE, 1) | taken
CmdFillBuffer: less than a word is left | Device Resources | CreateBuffer(3, 59, 10, 2); BindBufferMemory(3, 59, 8, 0); BeginCommandBuffer(11, 0) | CmdFillBuffer(11, 59, 8, WHOLE, 1) | taken
CmdUpdateBuffer | Device Resources Recording | - | CmdUpdateBuffer(11, 49, 60, 4, 1, 2, 3, 4) | taken
CmdUpdateBuffer: as many bytes as may be | Device Resources | CreateBuffer(3, 59, 100000, 3); AllocateMemory(3, 18, 100000); BindBufferMemory(3, 59, 18, 0); BeginCommandBuffer(11, 0) | CmdUpdateBuffer(11, 59, 0, 65536) | taken
CmdClearColorImage | Device Resources Recording | - | CmdClearColorImage(11, 52, 7, 1, 2, 3, 4) | taken
CmdClearColorImage: GENERAL | Device Resources Recording | - | CmdClearColorImage(11, 62, 1, 1, 2, 3, 4) | taken
CmdClearColorImage: four UINTs | Device Resources Recording | - | CmdClearColorImage(11, 82, 1, 1, 2, 3, 4) | taken
CmdClearColorImage: an image of a swapchain | Device Resources Swapchain Fetched Recording | - | CmdClearColorImage(11, 7, 7, 0, 0, 0, 0) | taken
CmdPipelineBarrier: once more, in a buffer that began anew | Device Resources Executable Recording | - | CmdPipelineBarrier(11, 1, 12, 0, 7) | taken
";
