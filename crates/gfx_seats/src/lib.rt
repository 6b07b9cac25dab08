//! A desk at which several threads draw ids that differ and, in turns, let one value grow.
#![tactic(auto)]

mod closing;
mod desk;
mod error;
mod grows;
mod hand;
mod meeting;
mod note;
mod opening;
mod rule;
mod seat;
mod stage;
mod start;
mod steps;
mod turn;
mod turns;
mod view;
mod words;

pub use desk::Desk;
pub use error::WantMemory;
pub use grows::Grows;
pub use hand::Hand;
pub use note::Note;
pub use rule::DeskRule;
pub use seat::Seat;
pub use stage::Stage;
pub use start::Start;
pub use turn::Turn;
pub use view::View;
