//! A software device: the bytes of memories and of images, and the operations that change them.
#![tactic(auto)]

mod device;
mod op;
mod rows;
mod state;

pub use device::Device;
pub use op::{DeviceOp, Handle};
pub use state::StateBytes;
