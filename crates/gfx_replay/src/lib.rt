//! The replay of a capture: the bytes of memories and of images, and the frames that are shown.
#![tactic(auto)]

mod fault;
mod id_map;
mod places;
mod present;
mod replayer;
mod shown;
mod updates;

ghost use Rattle.gfx_replay.specs.Laws.{PlacesAreStored};

pub use fault::FeedFault;
pub use replayer::Replayer;
pub use shown::{ShownFrame, ShownPicture};

/// Places that stand for a history have the bytes that its changes left, one for each live memory and each fetched image.
pub fn places_are_stored()
    ensures { PlacesAreStored }
{}
