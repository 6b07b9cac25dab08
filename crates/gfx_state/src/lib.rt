//! The state section of a capture, written block by block.
#![tactic(auto)]

ghost use Rattle.gfx_state.specs.Versions.{SectionInVersions, KeptInVersions};

mod fault;
mod ids;
mod keep;
mod made;
mod memory;
mod object;
mod owned;
mod parts;
mod piece;
mod pool;
mod resource;
mod room;
mod section;
mod shape;
mod state;
mod swapchain;
mod writer;

pub use fault::StateFault;
pub use ids::fetched;
pub use keep::Keep;
pub use state::{write_some, write_state};

/// The section for a valid history has the same blocks in both versions of a file.
pub fn section_in_versions()
    ensures { SectionInVersions }
{}

/// What is kept of the section for a valid history has the same blocks in both versions of a file.
pub fn kept_in_versions()
    ensures { KeptInVersions }
{}
