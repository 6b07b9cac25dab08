//! Limits of 65,536: in lists, and of live objects.

/// Too many items, alone and before a later check.
pub const LISTS: &str = "\
AllocateCommandBuffers: too many | Device Pool | - | AllocateCommandBuffers(3, 10, 65537) | LimitReached
FreeCommandBuffers: too many | Device Pool | - | FreeCommandBuffers(3, 10, 65537) | LimitReached
AllocateCommandBuffers: too many before a used id | Device Pool | - | AllocateCommandBuffers(3, 10, 65537, 11) | LimitReached
FreeCommandBuffers: too many before no buffer | Device Pool | - | FreeCommandBuffers(3, 10, 65537, 12) | LimitReached
ResetFences: too many | Device Fences | - | ResetFences(3, 65537) | LimitReached
WaitForFences: too many | Device Fences | - | WaitForFences(3, 65537) | LimitReached
ResetFences: too many before no fence | Device Fences | - | ResetFences(3, 65537, 22) | LimitReached
";

/// As many live objects as there may be. With an instance, two surfaces, two devices, a queue, a swapchain and a pool these are
/// 65,528 command buffers and fences.
pub const OBJECTS: &str = "\
1 | CreateDevice(1, 103) | taken
1 | CreateHeadlessSurfaceEXT(1, 52) | taken
1 | CreateCommandPool(3, 10, 2) | taken
1 | AllocateCommandBuffers(3, 10, 65536) | LimitReached
1 | AllocateCommandBuffers(3, 10, 65524) | taken

1 | AllocateCommandBuffers(3, 10, 5, 900, 901, 902, 903, 904) | LimitReached
1 | AllocateCommandBuffers(3, 10, 3, 900, 901, 902) | taken
1 | AllocateCommandBuffers(3, 10, 2, 903, 904) | LimitReached
1 | GetSwapchainImagesKHR(3, 5, 2, 903, 904) | LimitReached
1 | GetSwapchainImagesKHR(3, 5, 2, 903, 4) | IdTaken
1 | CreateFence(3, 903, 0) | taken

1 | CreateInstance(904, 0) | LimitReached
1 | CreateHeadlessSurfaceEXT(1, 904) | LimitReached
1 | CreateDevice(1, 904) | LimitReached
1 | GetDeviceQueue(103, 904) | LimitReached
1 | AllocateMemory(3, 904, 16) | LimitReached
1 | CreateBuffer(3, 904, 16, 1) | LimitReached
1 | CreateImage(3, 904, 13, 4, 4, 1) | LimitReached
1 | CreateCommandPool(3, 904, 0) | LimitReached
1 | AllocateCommandBuffers(3, 10, 1, 904) | LimitReached
1 | CreateFence(3, 904, 0) | LimitReached
1 | CreateSemaphore(3, 904) | LimitReached
1 | CreateSwapchainKHR(3, 904, 52, 2, 13, 4, 4, 3) | LimitReached
1 | GetSwapchainImagesKHR(3, 5, 2, 904, 905) | LimitReached

1 | CreateInstance(4, 0) | IdTaken
1 | CreateHeadlessSurfaceEXT(1, 4) | IdTaken
1 | CreateDevice(1, 4) | IdTaken
1 | GetDeviceQueue(103, 903) | IdTaken
1 | AllocateMemory(3, 904, 0) | BadValue
1 | CreateBuffer(3, 904, 0, 1) | BadValue
1 | CreateImage(3, 904, 13, 0, 4, 1) | BadValue
1 | CreateCommandPool(3, 904, 4) | BadValue
1 | AllocateCommandBuffers(3, 10, 2, 904, 904) | IdTaken
1 | CreateFence(3, 904, 2) | BadValue
1 | CreateSemaphore(3, 903) | IdTaken
1 | CreateSwapchainKHR(3, 904, 2, 2, 13, 4, 4, 3) | SwapState
1 | CreateSwapchainKHR(3, 904, 52, 0, 13, 4, 4, 3) | BadValue

1 | DestroyFence(3, 903) | taken
1 | CreateSemaphore(3, 904) | taken
1 | CreateSemaphore(3, 905) | LimitReached
1 | FreeCommandBuffers(3, 10, 1, 900) | taken
1 | GetDeviceQueue(103, 905) | taken
1 | GetDeviceQueue(103, 905) | taken
1 | CreateSemaphore(3, 906) | LimitReached
1 | FreeCommandBuffers(3, 10, 2, 901, 902) | taken
1 | GetSwapchainImagesKHR(3, 5, 2, 906, 907) | taken
1 | GetSwapchainImagesKHR(3, 5, 2, 906, 907) | taken
1 | CreateSemaphore(3, 908) | LimitReached
1 | DestroyCommandPool(3, 10) | taken
1 | CreateInstance(908, 0) | taken
1 | CreateCommandPool(3, 909, 2) | taken
1 | AllocateCommandBuffers(3, 909, 2, 910, 911) | taken
";
