//! What a command does, as operations of the device.
#![tactic(auto)]

mod command;
mod copies;
mod fills;
mod region;
mod shape;
#[cfg(test)]
mod tests;

ghost use Rattle.gfx_ops.specs.Laws.{OperationsAreChanges};

pub use command::append_ops;
pub use shape::Shape;

/// The operations of a command make its changes.
pub fn operations_are_changes()
    ensures { OperationsAreChanges }
{}
