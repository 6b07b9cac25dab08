//! What is recorded in one command buffer.
ghost use Rattle.std.specs.Prelude.{◌≡◌, [], true};
ghost use Rattle.gfx_model.specs.Questions.{State, is_kept, is_once, invalidated};
ghost use Rattle.gfx_model.specs.Views.{commands_in, bytes_in};
ghost use Rattle.gfx_commands.specs.Recording.{state_of, buffer_of};

use crate::commands::Commands;
use std::alloc::Global;

/// The state of a command buffer.
#[derive(Clone, Copy, Debug, PartialEq, Eq)]
pub enum CbState {
    Initial,
    Recording,
    Executable,
    Invalid,
}

/// The state of a command buffer, the flags with which it was begun, and its commands.
#[derive(Drop)]
pub(crate) struct Recording {
    pub(crate) state: CbState,
    pub(crate) flags: u32,
    pub(crate) commands: Commands,
}

impl Recording {
    /// A buffer in this state, without commands.
    pub(crate) fn new(alloc: Global, state: CbState, flags: u32) -> Self
        ensures { buffer_of result ≡ record { state = state_of state; flags = flags; commands = [] } }
    {
        Recording {
            state,
            flags,
            commands: Commands::new(alloc),
        }
    }

    /// Begins to record anew, in the room that there is.
    pub(crate) fn restart(&mut self, flags: u32)
        ensures { buffer_of self.new ≡ record { state = State.recording; flags = flags; commands = [] } }
    {
        self.state = CbState::Recording;
        self.flags = flags;
        self.commands.clear();
    }

    /// Whether its commands count: it is recording or executable.
    fn is_kept(&self) -> bool
        ensures { result ≡ is_kept (state_of self.now.state) }
    {
        match self.state {
            CbState::Recording | CbState::Executable => true,
            CbState::Initial | CbState::Invalid => false,
        }
    }

    /// How many commands count.
    pub(crate) fn commands_kept(&self) -> usize
        ensures { result ≡ commands_in (buffer_of self.now) }
    {
        if self.is_kept() {
            self.commands.len()
        } else {
            0
        }
    }

    /// How many bytes of commands count.
    pub(crate) fn bytes_kept(&self) -> u64
        ensures { result ≡ bytes_in (buffer_of self.now) }
    {
        if self.is_kept() {
            self.commands.bytes()
        } else {
            0
        }
    }

    /// Whether it is executed once.
    pub(crate) fn is_once(&self) -> bool
        ensures { result ≡ is_once (buffer_of self.now) }
    {
        self.flags % 2 == 1
    }

    /// A recording or executable buffer becomes invalid.
    pub(crate) fn invalidate(&mut self)
        ensures { buffer_of self.new ≡ invalidated true (buffer_of self.old) }
    {
        if self.is_kept() {
            self.state = CbState::Invalid;
        }
    }
}
