//! Limits on what recording and executable buffers keep: 2^20 commands, and 2^28 bytes of their fields.

/// As many commands as there may be, in two buffers.
pub const COMMANDS: &str = "\
1 | BeginCommandBuffer(11, 0) | taken
1 | BeginCommandBuffer(15, 0) | taken
1048574 | CmdPipelineBarrier(11, 0) | taken
2 | CmdPipelineBarrier(15, 0) | taken
1 | CmdPipelineBarrier(11, 0) | LimitReached
1 | CmdPipelineBarrier(15, 0) | LimitReached
1 | CmdPipelineBarrier(11, 1, 4, 0, 7) | NotLive

1 | EndCommandBuffer(15) | taken
1 | CmdPipelineBarrier(15, 0) | CommandState
1 | CmdPipelineBarrier(11, 0) | LimitReached
1 | ResetCommandBuffer(15) | taken
2 | CmdPipelineBarrier(11, 0) | taken
1 | CmdPipelineBarrier(11, 0) | LimitReached
1 | EndCommandBuffer(11) | taken
";

/// As many bytes as there may be: 4,094 updates of 65,568 bytes, of which 65,536 are written, leave room for 64. Seven of the
/// updates are in buffers of their own, which give their room back one after another.
pub const BYTES: &str = "\
1 | AllocateMemory(3, 208, 65536) | taken
1 | CreateBuffer(3, 209, 65536, 2) | taken
1 | BindBufferMemory(3, 209, 208, 0) | taken
1 | AllocateMemory(3, 218, 65536) | taken
1 | CreateBuffer(3, 219, 65536, 2) | taken
1 | BindBufferMemory(3, 219, 218, 0) | taken
1 | AllocateCommandBuffers(3, 10, 5, 221, 222, 223, 224, 225) | taken
1 | CreateCommandPool(3, 230, 0) | taken
1 | AllocateCommandBuffers(3, 230, 1, 231) | taken
1 | CreateCommandPool(3, 240, 0) | taken
1 | AllocateCommandBuffers(3, 240, 1, 241) | taken

1 | BeginCommandBuffer(221, 0) | taken
1 | CmdUpdateBuffer(221, 209, 0, 65536) | taken
1 | BeginCommandBuffer(222, 0) | taken
1 | CmdUpdateBuffer(222, 209, 0, 65536) | taken
1 | EndCommandBuffer(222) | taken
1 | BeginCommandBuffer(223, 0) | taken
1 | CmdUpdateBuffer(223, 209, 0, 65536) | taken
1 | EndCommandBuffer(223) | taken
1 | BeginCommandBuffer(224, 0) | taken
1 | CmdUpdateBuffer(224, 219, 0, 65536) | taken
1 | EndCommandBuffer(224) | taken
1 | BeginCommandBuffer(225, 1) | taken
1 | CmdUpdateBuffer(225, 209, 0, 65536) | taken
1 | EndCommandBuffer(225) | taken
1 | BeginCommandBuffer(231, 0) | taken
1 | CmdUpdateBuffer(231, 209, 0, 65536) | taken
1 | BeginCommandBuffer(241, 0) | taken
1 | CmdUpdateBuffer(241, 209, 0, 65536) | taken

1 | BeginCommandBuffer(11, 0) | taken
4087 | CmdUpdateBuffer(11, 209, 0, 65536) | taken
1 | CmdUpdateBuffer(11, 209, 0, 36) | LimitReached
1 | CmdUpdateBuffer(11, 209, 0, 32) | taken

1 | CmdPipelineBarrier(11, 0) | LimitReached
1 | CmdPipelineBarrier(11, 1, 12, 0, 7) | LimitReached
1 | CmdFillBuffer(11, 9, 0, 4, 0) | LimitReached
1 | CmdUpdateBuffer(11, 9, 0, 4) | LimitReached
1 | CmdCopyBuffer(11, 9, 19, 1, 0, 0, 4) | LimitReached
1 | CmdCopyImage(11, 12, 6, 22, 7, 1, 0, 0, 0, 0, 1, 1) | LimitReached
1 | CmdCopyBufferToImage(11, 9, 12, 7, 1, 0, 0, 0, 0, 0, 1, 1) | LimitReached
1 | CmdCopyImageToBuffer(11, 12, 6, 9, 1, 0, 0, 0, 0, 0, 1, 1) | LimitReached
1 | CmdClearColorImage(11, 12, 7, 0, 0, 0, 0) | LimitReached

1 | CmdPipelineBarrier(222, 0) | CommandState
1 | CmdPipelineBarrier(11, 1, 12, 0, 0) | BadValue
1 | CmdFillBuffer(11, 9, 60, 8, 0) | OutOfRange
1 | CmdUpdateBuffer(11, 9, 64, 4) | OutOfRange
1 | CmdCopyBuffer(11, 9, 19, 1, 0, 61, 4) | OutOfRange
1 | CmdCopyImage(11, 12, 6, 22, 7, 1, 0, 0, 0, 4, 1, 1) | OutOfRange
1 | CmdCopyBufferToImage(11, 9, 12, 7, 1, 64, 0, 0, 0, 0, 1, 1) | OutOfRange
1 | CmdCopyImageToBuffer(11, 12, 6, 9, 1, 64, 0, 0, 0, 0, 1, 1) | OutOfRange
1 | CmdClearColorImage(11, 72, 7, 0, 0, 0, 0) | FormatDiffers

1 | ResetCommandBuffer(221) | taken
1 | CmdUpdateBuffer(11, 209, 0, 65536) | taken
1 | CmdPipelineBarrier(11, 0) | LimitReached
1 | FreeCommandBuffers(3, 10, 1, 222) | taken
1 | CmdUpdateBuffer(11, 209, 0, 65536) | taken
1 | CmdPipelineBarrier(11, 0) | LimitReached
1 | BeginCommandBuffer(223, 0) | taken
1 | CmdUpdateBuffer(11, 209, 0, 65536) | taken
1 | CmdPipelineBarrier(11, 0) | LimitReached
1 | FreeMemory(3, 218) | taken
1 | CmdUpdateBuffer(11, 209, 0, 65536) | taken
1 | CmdPipelineBarrier(11, 0) | LimitReached
1 | QueueSubmit(4, 1, 0, 1, 225, 0, 0) | taken
1 | CmdUpdateBuffer(11, 209, 0, 65536) | taken
1 | CmdPipelineBarrier(11, 0) | LimitReached
1 | ResetCommandPool(3, 230) | taken
1 | CmdUpdateBuffer(11, 209, 0, 65536) | taken
1 | CmdPipelineBarrier(11, 0) | LimitReached
1 | DestroyCommandPool(3, 240) | taken
1 | CmdUpdateBuffer(11, 209, 0, 65536) | taken
1 | CmdPipelineBarrier(11, 0) | LimitReached

1 | EndCommandBuffer(11) | taken
1 | CmdPipelineBarrier(223, 0) | LimitReached
1 | ResetCommandBuffer(11) | taken
1 | CmdPipelineBarrier(223, 0) | taken
";
