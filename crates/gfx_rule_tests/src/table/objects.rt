//! Instances, surfaces, devices and queues.

/// Each check broken alone, and two broken of which the earlier decides.
pub const BROKEN: &str = "\
CreateInstance: id 0 | - | - | CreateInstance(0, 0) | BadValue
CreateInstance: a used id | Device | - | CreateInstance(1, 0) | IdTaken
CreateInstance: the id of an ended instance | - | CreateInstance(1, 0); DestroyInstance(1) | CreateInstance(1, 0) | IdTaken
CreateInstance: the id of another kind | Device | - | CreateInstance(4, 0) | IdTaken

DestroyInstance: no instance | - | - | DestroyInstance(1) | NotLive
DestroyInstance: of another kind | Device | - | DestroyInstance(3) | NotLive
DestroyInstance: ended | - | CreateInstance(1, 0); DestroyInstance(1) | DestroyInstance(1) | NotLive
DestroyInstance: with a surface | - | CreateInstance(1, 0); CreateHeadlessSurfaceEXT(1, 2) | DestroyInstance(1) | HasChildren
DestroyInstance: with a device | - | CreateInstance(1, 0); CreateDevice(1, 3) | DestroyInstance(1) | HasChildren

CreateHeadlessSurfaceEXT: no instance | - | CreateInstance(1, 0) | CreateHeadlessSurfaceEXT(9, 2) | NotLive
CreateHeadlessSurfaceEXT: id 0 | - | CreateInstance(1, 0) | CreateHeadlessSurfaceEXT(1, 0) | BadValue
CreateHeadlessSurfaceEXT: a used id | Device | - | CreateHeadlessSurfaceEXT(1, 2) | IdTaken
CreateHeadlessSurfaceEXT: no instance before id 0 | - | CreateInstance(1, 0) | CreateHeadlessSurfaceEXT(9, 0) | NotLive

DestroySurfaceKHR: no instance | Device | - | DestroySurfaceKHR(9, 2) | NotLive
DestroySurfaceKHR: no surface | Device | - | DestroySurfaceKHR(1, 3) | NotLive
DestroySurfaceKHR: of another instance | Device Instance | - | DestroySurfaceKHR(101, 2) | WrongParent
DestroySurfaceKHR: with a swapchain | Device Swapchain | - | DestroySurfaceKHR(1, 2) | HasChildren
DestroySurfaceKHR: of another instance before its swapchain | Device Instance Swapchain | - | DestroySurfaceKHR(101, 2) | WrongParent

CreateDevice: no instance | Device | - | CreateDevice(2, 5) | NotLive
CreateDevice: id 0 | Device | - | CreateDevice(1, 0) | BadValue
CreateDevice: a used id | Device | - | CreateDevice(1, 4) | IdTaken
CreateDevice: no instance before a used id | Device | - | CreateDevice(9, 3) | NotLive

DestroyDevice: no device | Device | - | DestroyDevice(2) | NotLive
DestroyDevice: with a memory | Device Memory | - | DestroyDevice(3) | HasChildren
DestroyDevice: with a swapchain | Device Swapchain | - | DestroyDevice(3) | HasChildren

GetDeviceQueue: no device | Device | - | GetDeviceQueue(1, 5) | NotLive
GetDeviceQueue: another queue | Device | - | GetDeviceQueue(3, 5) | ResultDiffers
GetDeviceQueue: id 0 | - | CreateInstance(1, 0); CreateDevice(1, 3) | GetDeviceQueue(3, 0) | BadValue
GetDeviceQueue: a used id | - | CreateInstance(1, 0); CreateDevice(1, 3) | GetDeviceQueue(3, 1) | IdTaken
";

/// Two checks broken, of which the earlier decides.
pub const EARLIER: &str = "\
GetDeviceQueue: no device before id 0 | Device | - | GetDeviceQueue(9, 0) | NotLive
GetDeviceQueue: another queue, of id 0 | Device | - | GetDeviceQueue(3, 0) | ResultDiffers
GetDeviceQueue: another queue, of a used id | Device | - | GetDeviceQueue(3, 2) | ResultDiffers
DestroySurfaceKHR: no instance before another parent | Device | - | DestroySurfaceKHR(3, 2) | NotLive
";

/// No check is broken.
pub const GOOD: &str = "\
CreateInstance | - | - | CreateInstance(1, 0) | taken
DestroyInstance | Device | DestroySurfaceKHR(1, 2); DestroyDevice(3) | DestroyInstance(1) | taken
CreateHeadlessSurfaceEXT | - | CreateInstance(1, 0) | CreateHeadlessSurfaceEXT(1, 2) | taken
DestroySurfaceKHR | Device Swapchain | DestroySwapchainKHR(3, 5) | DestroySurfaceKHR(1, 2) | taken
CreateDevice | Device | - | CreateDevice(1, 5) | taken
DestroyDevice: with its queue | Device | - | DestroyDevice(3) | taken
GetDeviceQueue | - | CreateInstance(1, 0); CreateDevice(1, 3) | GetDeviceQueue(3, 4) | taken
GetDeviceQueue: again | Device | - | GetDeviceQueue(3, 4) | taken
";
