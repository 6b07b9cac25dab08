//! Scripts: their phases, the threads of a phase, and the lines of a thread.
ghost use Rattle.std.specs.Prelude.{◌≡◌};

use crate::line::Line;
use std::marker::Model;

/// A script: its minor version, 1 or 2, and its phases, in order.
#[derive(Debug, Drop)]
pub struct Script {
    pub minor: u32,
    pub phases: Phases,
}

/// The threads of a phase, in the order of the text.
#[derive(Debug, Drop)]
pub struct Phase {
    pub threads: Parts,
}

/// The lines of a thread in a phase.
#[derive(Debug, Drop)]
pub struct Part {
    pub thread: u32,
    pub lines: Lines,
}

/// A list of phases.
#[derive(Debug, Drop)]
pub struct Phases {
    items: Vec<Phase>,
}

impl Model for Phases {
    ghost use Rattle.std.specs.Prelude.{List};
    ghost use Rattle.gfx_script.specs.declared.script.Phase.{Phase};

    ghost Value = { List Phase };

    ghost view = { λ s. s.items.items };
}

impl Phases {
    /// The list of these items. Takes no memory.
    pub fn of(items: Vec<Phase>) -> Self
        ensures { result ≡ items.items }
    {
        Phases { items }
    }

    /// The items, in order.
    pub fn items(&self) -> &[Phase]
        ensures { result.now ≡ self.now }
    {
        self.items.as_slice()
    }
}

/// A list of threads with their lines.
#[derive(Debug, Drop)]
pub struct Parts {
    items: Vec<Part>,
}

impl Model for Parts {
    ghost use Rattle.std.specs.Prelude.{List};
    ghost use Rattle.gfx_script.specs.declared.script.Part.{Part};

    ghost Value = { List Part };

    ghost view = { λ s. s.items.items };
}

impl Parts {
    /// The list of these items. Takes no memory.
    pub fn of(items: Vec<Part>) -> Self
        ensures { result ≡ items.items }
    {
        Parts { items }
    }

    /// The items, in order.
    pub fn items(&self) -> &[Part]
        ensures { result.now ≡ self.now }
    {
        self.items.as_slice()
    }
}

/// A list of lines.
#[derive(Debug, Drop)]
pub struct Lines {
    items: Vec<Line>,
}

impl Model for Lines {
    ghost use Rattle.std.specs.Prelude.{List};
    ghost use Rattle.gfx_script.specs.declared.line.Line.{Line};

    ghost Value = { List Line };

    ghost view = { λ s. s.items.items };
}

impl Lines {
    /// The list of these items. Takes no memory.
    pub fn of(items: Vec<Line>) -> Self
        ensures { result ≡ items.items }
    {
        Lines { items }
    }

    /// The items, in order.
    pub fn items(&self) -> &[Line]
        ensures { result.now ≡ self.now }
    {
        self.items.as_slice()
    }
}
