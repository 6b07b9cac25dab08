//! Copies between buffers and images.

/// Each check of a copy to an image broken alone.
pub const TO_IMAGES: &str = "\
CmdCopyBufferToImage: no buffer to record | Device Resources Recording | - | CmdCopyBufferToImage(10, 9, 12, 7, 1, 0, 0, 0, 0, 0, 4, 4) | NotLive
CmdCopyBufferToImage: initial | Device Resources | - | CmdCopyBufferToImage(11, 9, 12, 7, 1, 0, 0, 0, 0, 0, 4, 4) | CommandState
CmdCopyBufferToImage: no source | Device Resources Recording | - | CmdCopyBufferToImage(11, 12, 12, 7, 1, 0, 0, 0, 0, 0, 4, 4) | NotLive
CmdCopyBufferToImage: a source of another device | Device Other Others Resources Recording | - | CmdCopyBufferToImage(11, 109, 12, 7, 1, 0, 0, 0, 0, 0, 4, 4) | WrongParent
CmdCopyBufferToImage: a source that is not bound | Device Resources Recording | - | CmdCopyBufferToImage(11, 29, 12, 7, 1, 0, 0, 0, 0, 0, 4, 4) | NotBound
CmdCopyBufferToImage: no target | Device Resources Recording | - | CmdCopyBufferToImage(11, 9, 9, 7, 1, 0, 0, 0, 0, 0, 4, 4) | NotLive
CmdCopyBufferToImage: a target of another device | Device Other Others Resources Recording | - | CmdCopyBufferToImage(11, 9, 112, 7, 1, 0, 0, 0, 0, 0, 4, 4) | WrongParent
CmdCopyBufferToImage: a target that is not bound | Device Resources Recording | - | CmdCopyBufferToImage(11, 9, 32, 7, 1, 0, 0, 0, 0, 0, 4, 4) | NotBound
CmdCopyBufferToImage: a source that may not be read | Device Resources Recording | - | CmdCopyBufferToImage(11, 49, 12, 7, 1, 0, 0, 0, 0, 0, 4, 4) | UsageMissing
CmdCopyBufferToImage: a target that may not be written | Device Resources Recording | - | CmdCopyBufferToImage(11, 9, 42, 7, 1, 0, 0, 0, 0, 0, 4, 4) | UsageMissing
CmdCopyBufferToImage: a layout to read from | Device Resources Recording | - | CmdCopyBufferToImage(11, 9, 12, 6, 1, 0, 0, 0, 0, 0, 4, 4) | BadValue
CmdCopyBufferToImage: no regions | Device Resources Recording | - | CmdCopyBufferToImage(11, 9, 12, 7, 0) | BadValue
CmdCopyBufferToImage: too many regions | Device Resources Recording | - | CmdCopyBufferToImage(11, 9, 12, 7, 257) | LimitReached
CmdCopyBufferToImage: no width | Device Resources Recording | - | CmdCopyBufferToImage(11, 9, 12, 7, 1, 0, 0, 0, 0, 0, 0, 4) | BadValue
CmdCopyBufferToImage: no height | Device Resources Recording | - | CmdCopyBufferToImage(11, 9, 12, 7, 1, 0, 0, 0, 0, 0, 4, 0) | BadValue
CmdCopyBufferToImage: rows that are too short | Device Resources Recording | - | CmdCopyBufferToImage(11, 9, 12, 7, 1, 0, 3, 0, 0, 0, 4, 4) | BadValue
CmdCopyBufferToImage: too few rows | Device Resources Recording | - | CmdCopyBufferToImage(11, 9, 12, 7, 1, 0, 0, 3, 0, 0, 4, 4) | BadValue
CmdCopyBufferToImage: between texels | Device Resources Recording | - | CmdCopyBufferToImage(11, 9, 62, 7, 1, 2, 0, 0, 0, 0, 2, 2) | BadValue
CmdCopyBufferToImage: too far right | Device Resources Recording | - | CmdCopyBufferToImage(11, 9, 12, 7, 1, 0, 0, 0, 1, 0, 4, 4) | OutOfRange
CmdCopyBufferToImage: too far down | Device Resources Recording | - | CmdCopyBufferToImage(11, 9, 12, 7, 1, 0, 0, 0, 0, 1, 4, 4) | OutOfRange
CmdCopyBufferToImage: too far in the buffer | Device Resources Recording | - | CmdCopyBufferToImage(11, 9, 12, 7, 1, 49, 0, 0, 0, 0, 4, 4) | OutOfRange
CmdCopyBufferToImage: rows that are too long | Device Resources Recording | - | CmdCopyBufferToImage(11, 9, 12, 7, 1, 0, 21, 0, 0, 0, 4, 4) | OutOfRange
CmdCopyBufferToImage: texels of four bytes too far | Device Resources Recording | - | CmdCopyBufferToImage(11, 9, 62, 7, 1, 52, 0, 0, 0, 0, 2, 2) | OutOfRange
CmdCopyBufferToImage: further than any number | Device Resources Recording | - | CmdCopyBufferToImage(11, 9, 12, 7, 1, WHOLE, 0, 0, 0, 0, 4, 4) | OutOfRange
";

/// Each check of a copy to a buffer broken alone.
pub const TO_BUFFERS: &str = "\
CmdCopyImageToBuffer: no buffer to record | Device Resources Recording | - | CmdCopyImageToBuffer(10, 12, 6, 9, 1, 0, 0, 0, 0, 0, 4, 4) | NotLive
CmdCopyImageToBuffer: executable | Device Resources Executable | - | CmdCopyImageToBuffer(11, 12, 6, 9, 1, 0, 0, 0, 0, 0, 4, 4) | CommandState
CmdCopyImageToBuffer: no source | Device Resources Recording | - | CmdCopyImageToBuffer(11, 9, 6, 9, 1, 0, 0, 0, 0, 0, 4, 4) | NotLive
CmdCopyImageToBuffer: a source of another device | Device Other Others Resources Recording | - | CmdCopyImageToBuffer(11, 112, 6, 9, 1, 0, 0, 0, 0, 0, 4, 4) | WrongParent
CmdCopyImageToBuffer: a source that is not bound | Device Resources Recording | - | CmdCopyImageToBuffer(11, 32, 6, 9, 1, 0, 0, 0, 0, 0, 4, 4) | NotBound
CmdCopyImageToBuffer: no target | Device Resources Recording | - | CmdCopyImageToBuffer(11, 12, 6, 12, 1, 0, 0, 0, 0, 0, 4, 4) | NotLive
CmdCopyImageToBuffer: a target of another device | Device Other Others Resources Recording | - | CmdCopyImageToBuffer(11, 12, 6, 109, 1, 0, 0, 0, 0, 0, 4, 4) | WrongParent
CmdCopyImageToBuffer: a target that is not bound | Device Resources Recording | - | CmdCopyImageToBuffer(11, 12, 6, 29, 1, 0, 0, 0, 0, 0, 4, 4) | NotBound
CmdCopyImageToBuffer: a source that may not be read | Device Resources Recording | - | CmdCopyImageToBuffer(11, 52, 6, 9, 1, 0, 0, 0, 0, 0, 4, 4) | UsageMissing
CmdCopyImageToBuffer: a target that may not be written | Device Resources Recording | - | CmdCopyImageToBuffer(11, 12, 6, 39, 1, 0, 0, 0, 0, 0, 4, 4) | UsageMissing
CmdCopyImageToBuffer: a layout to write to | Device Resources Recording | - | CmdCopyImageToBuffer(11, 12, 7, 9, 1, 0, 0, 0, 0, 0, 4, 4) | BadValue
CmdCopyImageToBuffer: no regions | Device Resources Recording | - | CmdCopyImageToBuffer(11, 12, 6, 9, 0) | BadValue
CmdCopyImageToBuffer: too many regions | Device Resources Recording | - | CmdCopyImageToBuffer(11, 12, 6, 9, 257) | LimitReached
CmdCopyImageToBuffer: no width | Device Resources Recording | - | CmdCopyImageToBuffer(11, 12, 6, 9, 1, 0, 0, 0, 0, 0, 0, 4) | BadValue
CmdCopyImageToBuffer: no height | Device Resources Recording | - | CmdCopyImageToBuffer(11, 12, 6, 9, 1, 0, 0, 0, 0, 0, 4, 0) | BadValue
CmdCopyImageToBuffer: rows that are too short | Device Resources Recording | - | CmdCopyImageToBuffer(11, 12, 6, 9, 1, 0, 3, 0, 0, 0, 4, 4) | BadValue
CmdCopyImageToBuffer: too few rows | Device Resources Recording | - | CmdCopyImageToBuffer(11, 12, 6, 9, 1, 0, 0, 3, 0, 0, 4, 4) | BadValue
CmdCopyImageToBuffer: between texels | Device Resources Recording | - | CmdCopyImageToBuffer(11, 62, 6, 9, 1, 2, 0, 0, 0, 0, 2, 2) | BadValue
CmdCopyImageToBuffer: too far right | Device Resources Recording | - | CmdCopyImageToBuffer(11, 12, 6, 9, 1, 0, 0, 0, 1, 0, 4, 4) | OutOfRange
CmdCopyImageToBuffer: too far down | Device Resources Recording | - | CmdCopyImageToBuffer(11, 12, 6, 9, 1, 0, 0, 0, 0, 1, 4, 4) | OutOfRange
CmdCopyImageToBuffer: too far in the buffer | Device Resources Recording | - | CmdCopyImageToBuffer(11, 12, 6, 9, 1, 49, 0, 0, 0, 0, 4, 4) | OutOfRange
CmdCopyImageToBuffer: rows that are too long | Device Resources Recording | - | CmdCopyImageToBuffer(11, 12, 6, 9, 1, 0, 21, 0, 0, 0, 4, 4) | OutOfRange
CmdCopyImageToBuffer: texels of four bytes too far | Device Resources Recording | - | CmdCopyImageToBuffer(11, 62, 6, 9, 1, 52, 0, 0, 0, 0, 2, 2) | OutOfRange
CmdCopyImageToBuffer: further than any number | Device Resources Recording | - | CmdCopyImageToBuffer(11, 12, 6, 9, 1, WHOLE, 0, 0, 0, 0, 4, 4) | OutOfRange
";

/// Two checks broken, of which the earlier decides.
pub const EARLIER: &str = "\
CmdCopyBufferToImage: the state before a source | Device Resources | - | CmdCopyBufferToImage(11, 12, 12, 7, 1, 0, 0, 0, 0, 0, 4, 4) | CommandState
CmdCopyBufferToImage: a source that is not bound before no target | Device Resources Recording | - | CmdCopyBufferToImage(11, 29, 9, 7, 1, 0, 0, 0, 0, 0, 4, 4) | NotBound
CmdCopyBufferToImage: a target before the usage of the source | Device Resources Recording | - | CmdCopyBufferToImage(11, 49, 32, 7, 1, 0, 0, 0, 0, 0, 4, 4) | NotBound
CmdCopyBufferToImage: usage before a layout | Device Resources Recording | - | CmdCopyBufferToImage(11, 9, 42, 6, 1, 0, 0, 0, 0, 0, 4, 4) | UsageMissing
CmdCopyBufferToImage: a layout before too many regions | Device Resources Recording | - | CmdCopyBufferToImage(11, 9, 12, 6, 257) | BadValue
CmdCopyBufferToImage: too many regions before no width | Device Resources Recording | - | CmdCopyBufferToImage(11, 9, 12, 7, 257, 0, 0, 0, 0, 0, 0, 4) | LimitReached
CmdCopyBufferToImage: no width anywhere before a range | Device Resources Recording | - | CmdCopyBufferToImage(11, 9, 12, 7, 2, 49, 0, 0, 0, 0, 4, 4, 0, 0, 0, 0, 0, 0, 4) | BadValue
CmdCopyBufferToImage: between texels before a range | Device Resources Recording | - | CmdCopyBufferToImage(11, 9, 62, 7, 2, 0, 0, 0, 1, 0, 2, 2, 2, 0, 0, 0, 0, 2, 2) | BadValue
CmdCopyImageToBuffer: a source that is not bound before no target | Device Resources Recording | - | CmdCopyImageToBuffer(11, 32, 6, 12, 1, 0, 0, 0, 0, 0, 4, 4) | NotBound
CmdCopyImageToBuffer: a target before the usage of the source | Device Resources Recording | - | CmdCopyImageToBuffer(11, 52, 6, 29, 1, 0, 0, 0, 0, 0, 4, 4) | NotBound
CmdCopyImageToBuffer: usage before a layout | Device Resources Recording | - | CmdCopyImageToBuffer(11, 52, 7, 9, 1, 0, 0, 0, 0, 0, 4, 4) | UsageMissing
CmdCopyImageToBuffer: a layout before too many regions | Device Resources Recording | - | CmdCopyImageToBuffer(11, 12, 7, 9, 257) | BadValue
CmdCopyImageToBuffer: rows that are too short before a range | Device Resources Recording | - | CmdCopyImageToBuffer(11, 12, 6, 9, 2, 49, 0, 0, 0, 0, 4, 4, 0, 3, 0, 0, 0, 4, 4) | BadValue
";

/// No check is broken.
pub const GOOD: &str = "\
CmdCopyBufferToImage | Device Resources Recording | - | CmdCopyBufferToImage(11, 39, 52, 7, 2, 48, 0, 0, 0, 0, 4, 4, 0, 20, 9, 0, 0, 4, 4) | taken
CmdCopyBufferToImage: GENERAL | Device Resources Recording | - | CmdCopyBufferToImage(11, 9, 12, 1, 1, 1, 0, 0, 3, 3, 1, 1) | taken
CmdCopyBufferToImage: texels of four bytes | Device Resources Recording | - | CmdCopyBufferToImage(11, 9, 62, 7, 1, 48, 0, 0, 0, 0, 2, 2) | taken
CmdCopyBufferToImage: to an image of a swapchain | Device Resources Swapchain Fetched Recording | - | CmdCopyBufferToImage(11, 9, 6, 7, 1, 0, 0, 0, 0, 0, 4, 4) | taken
CmdCopyImageToBuffer | Device Resources Recording | - | CmdCopyImageToBuffer(11, 42, 6, 49, 2, 48, 4, 4, 0, 0, 4, 4, 0, 20, 0, 0, 0, 4, 4) | taken
CmdCopyImageToBuffer: GENERAL | Device Resources Recording | - | CmdCopyImageToBuffer(11, 12, 1, 9, 1, 63, 0, 0, 3, 3, 1, 1) | taken
CmdCopyImageToBuffer: more rows than there are | Device Resources Recording | - | CmdCopyImageToBuffer(11, 12, 6, 9, 1, 0, 0, 4294967295, 0, 0, 4, 4) | taken
";
