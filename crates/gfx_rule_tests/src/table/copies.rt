//! Copies between buffers, and between images.

/// Each check broken alone.
pub const BROKEN: &str = "\
CmdCopyBuffer: no buffer to record | Device Resources Recording | - | CmdCopyBuffer(10, 9, 19, 1, 0, 0, 4) | NotLive
CmdCopyBuffer: initial | Device Resources | - | CmdCopyBuffer(11, 9, 19, 1, 0, 0, 4) | CommandState
CmdCopyBuffer: no source | Device Resources Recording | - | CmdCopyBuffer(11, 12, 19, 1, 0, 0, 4) | NotLive
CmdCopyBuffer: a source of another device | Device Other Others Resources Recording | - | CmdCopyBuffer(11, 109, 19, 1, 0, 0, 4) | WrongParent
CmdCopyBuffer: a source that is not bound | Device Resources Recording | - | CmdCopyBuffer(11, 29, 19, 1, 0, 0, 4) | NotBound
CmdCopyBuffer: no target | Device Resources Recording | - | CmdCopyBuffer(11, 9, 12, 1, 0, 0, 4) | NotLive
CmdCopyBuffer: a target of another device | Device Other Others Resources Recording | - | CmdCopyBuffer(11, 9, 109, 1, 0, 0, 4) | WrongParent
CmdCopyBuffer: a target that is not bound | Device Resources Recording | - | CmdCopyBuffer(11, 9, 29, 1, 0, 0, 4) | NotBound
CmdCopyBuffer: a source that may not be read | Device Resources Recording | - | CmdCopyBuffer(11, 49, 19, 1, 0, 0, 4) | UsageMissing
CmdCopyBuffer: a target that may not be written | Device Resources Recording | - | CmdCopyBuffer(11, 9, 39, 1, 0, 0, 4) | UsageMissing
CmdCopyBuffer: no regions | Device Resources Recording | - | CmdCopyBuffer(11, 9, 19, 0) | BadValue
CmdCopyBuffer: too many regions | Device Resources Recording | - | CmdCopyBuffer(11, 9, 19, 257) | LimitReached
CmdCopyBuffer: no bytes | Device Resources Recording | - | CmdCopyBuffer(11, 9, 19, 2, 0, 0, 4, 0, 0, 0) | BadValue
CmdCopyBuffer: too far in the source | Device Resources Recording | - | CmdCopyBuffer(11, 9, 19, 1, 61, 0, 4) | OutOfRange
CmdCopyBuffer: too far in the target | Device Resources Recording | - | CmdCopyBuffer(11, 9, 19, 1, 0, 61, 4) | OutOfRange
CmdCopyBuffer: further than any number in the source | Device Resources Recording | - | CmdCopyBuffer(11, 9, 19, 1, WHOLE, 0, 4) | OutOfRange
CmdCopyBuffer: further than any number in the target | Device Resources Recording | - | CmdCopyBuffer(11, 9, 19, 1, 0, WHOLE, 4) | OutOfRange
CmdCopyBuffer: more bytes than any number | Device Resources Recording | - | CmdCopyBuffer(11, 9, 19, 2, 0, 0, 4, 4, 4, WHOLE) | OutOfRange

CmdCopyImage: no buffer to record | Device Resources Recording | - | CmdCopyImage(10, 12, 6, 22, 7, 1, 0, 0, 0, 0, 4, 4) | NotLive
CmdCopyImage: executable | Device Resources Executable | - | CmdCopyImage(11, 12, 6, 22, 7, 1, 0, 0, 0, 0, 4, 4) | CommandState
CmdCopyImage: no source | Device Resources Recording | - | CmdCopyImage(11, 9, 6, 22, 7, 1, 0, 0, 0, 0, 4, 4) | NotLive
CmdCopyImage: a source of another device | Device Other Others Resources Recording | - | CmdCopyImage(11, 112, 6, 22, 7, 1, 0, 0, 0, 0, 4, 4) | WrongParent
CmdCopyImage: a source that is not bound | Device Resources Recording | - | CmdCopyImage(11, 32, 6, 22, 7, 1, 0, 0, 0, 0, 4, 4) | NotBound
CmdCopyImage: no target | Device Resources Recording | - | CmdCopyImage(11, 12, 6, 9, 7, 1, 0, 0, 0, 0, 4, 4) | NotLive
CmdCopyImage: a target of another device | Device Other Others Resources Recording | - | CmdCopyImage(11, 12, 6, 112, 7, 1, 0, 0, 0, 0, 4, 4) | WrongParent
CmdCopyImage: a target that is not bound | Device Resources Recording | - | CmdCopyImage(11, 12, 6, 32, 7, 1, 0, 0, 0, 0, 4, 4) | NotBound
CmdCopyImage: a source that may not be read | Device Resources Recording | - | CmdCopyImage(11, 52, 6, 22, 7, 1, 0, 0, 0, 0, 4, 4) | UsageMissing
CmdCopyImage: a target that may not be written | Device Resources Recording | - | CmdCopyImage(11, 12, 6, 42, 7, 1, 0, 0, 0, 0, 4, 4) | UsageMissing
CmdCopyImage: a layout to write to | Device Resources Recording | - | CmdCopyImage(11, 12, 7, 22, 7, 1, 0, 0, 0, 0, 4, 4) | BadValue
CmdCopyImage: a layout to read from | Device Resources Recording | - | CmdCopyImage(11, 12, 6, 22, 6, 1, 0, 0, 0, 0, 4, 4) | BadValue
CmdCopyImage: from UNDEFINED | Device Resources Recording | - | CmdCopyImage(11, 12, 0, 22, 7, 1, 0, 0, 0, 0, 4, 4) | BadValue
CmdCopyImage: texels of other sizes | Device Resources Recording | - | CmdCopyImage(11, 12, 6, 62, 7, 1, 0, 0, 0, 0, 1, 1) | FormatDiffers
CmdCopyImage: no regions | Device Resources Recording | - | CmdCopyImage(11, 12, 6, 22, 7, 0) | BadValue
CmdCopyImage: too many regions | Device Resources Recording | - | CmdCopyImage(11, 12, 6, 22, 7, 257) | LimitReached
CmdCopyImage: no width | Device Resources Recording | - | CmdCopyImage(11, 12, 6, 22, 7, 1, 0, 0, 0, 0, 0, 4) | BadValue
CmdCopyImage: no height | Device Resources Recording | - | CmdCopyImage(11, 12, 6, 22, 7, 1, 0, 0, 0, 0, 4, 0) | BadValue
CmdCopyImage: too far right in the source | Device Resources Recording | - | CmdCopyImage(11, 12, 6, 22, 7, 1, 1, 0, 0, 0, 4, 4) | OutOfRange
CmdCopyImage: too far down in the source | Device Resources Recording | - | CmdCopyImage(11, 12, 6, 22, 7, 1, 0, 1, 0, 0, 4, 4) | OutOfRange
CmdCopyImage: too far right in the target | Device Resources Recording | - | CmdCopyImage(11, 12, 6, 22, 7, 1, 0, 0, 1, 0, 4, 4) | OutOfRange
CmdCopyImage: too far down in the target | Device Resources Recording | - | CmdCopyImage(11, 12, 6, 22, 7, 1, 0, 0, 0, 1, 4, 4) | OutOfRange
CmdCopyImage: further than any number of four bytes | Device Resources Recording | - | CmdCopyImage(11, 12, 6, 22, 7, 1, 4294967295, 0, 0, 0, 2, 1) | OutOfRange
CmdCopyImage: a later region | Device Resources Recording | - | CmdCopyImage(11, 12, 6, 22, 7, 2, 0, 0, 0, 0, 4, 4, 0, 0, 3, 3, 2, 1) | OutOfRange
";

/// Two checks broken, of which the earlier decides.
pub const EARLIER: &str = "\
CmdCopyBuffer: the state before a source | Device Resources | - | CmdCopyBuffer(11, 12, 19, 1, 0, 0, 4) | CommandState
CmdCopyBuffer: a source that is not bound before no target | Device Resources Recording | - | CmdCopyBuffer(11, 29, 12, 1, 0, 0, 4) | NotBound
CmdCopyBuffer: a target before the usage of the source | Device Resources Recording | - | CmdCopyBuffer(11, 49, 29, 1, 0, 0, 4) | NotBound
CmdCopyBuffer: usage before regions | Device Resources Recording | - | CmdCopyBuffer(11, 9, 39, 0) | UsageMissing
CmdCopyBuffer: usage before too many regions | Device Resources Recording | - | CmdCopyBuffer(11, 49, 19, 257) | UsageMissing
CmdCopyBuffer: no bytes anywhere before a range | Device Resources Recording | - | CmdCopyBuffer(11, 9, 19, 2, 61, 0, 4, 0, 0, 0) | BadValue
CmdCopyBuffer: too many regions before no bytes | Device Resources Recording | - | CmdCopyBuffer(11, 9, 19, 257, 0, 0, 0) | LimitReached
CmdCopyImage: the state before a source | Device Resources | - | CmdCopyImage(11, 9, 6, 22, 7, 1, 0, 0, 0, 0, 4, 4) | CommandState
CmdCopyImage: a source that is not bound before no target | Device Resources Recording | - | CmdCopyImage(11, 32, 6, 9, 7, 1, 0, 0, 0, 0, 4, 4) | NotBound
CmdCopyImage: a target before the usage of the source | Device Resources Recording | - | CmdCopyImage(11, 52, 6, 9, 7, 1, 0, 0, 0, 0, 4, 4) | NotLive
CmdCopyImage: usage before a layout | Device Resources Recording | - | CmdCopyImage(11, 12, 0, 42, 7, 1, 0, 0, 0, 0, 4, 4) | UsageMissing
CmdCopyImage: a layout before texels | Device Resources Recording | - | CmdCopyImage(11, 12, 6, 62, 0, 1, 0, 0, 0, 0, 1, 1) | BadValue
CmdCopyImage: a layout before too many regions | Device Resources Recording | - | CmdCopyImage(11, 12, 0, 22, 7, 257) | BadValue
CmdCopyImage: texels before regions | Device Resources Recording | - | CmdCopyImage(11, 12, 6, 62, 7, 0) | FormatDiffers
CmdCopyImage: texels before too many regions | Device Resources Recording | - | CmdCopyImage(11, 12, 6, 62, 7, 257) | FormatDiffers
CmdCopyImage: too many regions before no width | Device Resources Recording | - | CmdCopyImage(11, 12, 6, 22, 7, 257, 0, 0, 0, 0, 0, 4) | LimitReached
CmdCopyImage: no width anywhere before a range | Device Resources Recording | - | CmdCopyImage(11, 12, 6, 22, 7, 2, 1, 0, 0, 0, 4, 4, 0, 0, 0, 0, 0, 4) | BadValue
CmdCopyImage: no height before a range | Device Resources Recording | - | CmdCopyImage(11, 12, 6, 22, 7, 1, 5, 0, 0, 0, 4, 0) | BadValue
CmdCopyBuffer: another device before not bound | Device Other Resources Recording | CreateBuffer(103, 109, 64, 3) | CmdCopyBuffer(11, 109, 19, 1, 0, 0, 4) | WrongParent
CmdCopyImage: another device before not bound | Device Other Resources Recording | CreateImage(103, 112, 13, 4, 4, 3) | CmdCopyImage(11, 112, 6, 22, 7, 1, 0, 0, 0, 0, 4, 4) | WrongParent
";

/// No check is broken.
pub const GOOD: &str = "\
CmdCopyBuffer | Device Resources Recording | - | CmdCopyBuffer(11, 39, 49, 2, 0, 0, 64, 63, 0, 1) | taken
CmdCopyBuffer: in one buffer | Device Resources Recording | - | CmdCopyBuffer(11, 9, 9, 1, 0, 2, 4) | taken
CmdCopyImage | Device Resources Recording | - | CmdCopyImage(11, 42, 6, 52, 7, 2, 0, 0, 0, 0, 4, 4, 1, 2, 3, 3, 1, 1) | taken
CmdCopyImage: GENERAL | Device Resources Recording | - | CmdCopyImage(11, 12, 1, 22, 1, 1, 0, 0, 0, 0, 4, 4) | taken
CmdCopyImage: in one image | Device Resources Recording | - | CmdCopyImage(11, 12, 1, 12, 1, 1, 0, 0, 1, 1, 3, 3) | taken
CmdCopyImage: another format of texels of one size | Device Resources Recording | - | CmdCopyImage(11, 62, 6, 72, 7, 1, 0, 0, 0, 0, 2, 2) | taken
CmdCopyImage: to an image of a swapchain | Device Resources Swapchain Fetched Recording | - | CmdCopyImage(11, 12, 6, 6, 7, 1, 0, 0, 0, 0, 4, 4) | taken
";
