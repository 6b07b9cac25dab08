//! Which fences and semaphores are signalled, and which swapchain images are acquired.
#![tactic(auto)]

mod marks;
mod signals;
mod swapchains;

pub use signals::Sync;
pub use swapchains::Swaps;
