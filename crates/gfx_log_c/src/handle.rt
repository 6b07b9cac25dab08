//! The handle that C holds.
ghost use Rattle.std.specs.Prelude.{◌≡◌, Some, Option};
ghost use Rattle.gfx_log_c.specs.declared.state.State.{State};
ghost use Rattle.gfx_log_c.specs.Owned.{IsOpen, held_coded, handle_owns};

use crate::parts::Parts;
use crate::state::State;
use std::alloc::Global;
use std::marker::Model;

/// An address that C may not look behind. A handle of zeros holds nothing.
#[repr(C)]
#[derive(Drop)]
pub struct Handle {
    at: *mut (),
    alloc: Global,
    pub ghost held: { Option State } by { held_coded },
}

impl Model for Handle {
    ghost also_owns = { λ h. handle_owns h.alloc h.at h.held };
}

impl Handle {
    pub(crate) fn of_box(state: Box<State>) -> Handle
        ensures { result.held ≡ Some state.value }
    {
        Handle::of_parts(Parts::of(state))
    }

    pub(crate) fn into_box(self) -> Box<State>
        requires { IsOpen self.held }
        ensures { self.held ≡ Some result.value }
    {
        self.into_parts().into_box()
    }

    fn of_parts(parts: Parts<State, Global>) -> Handle
        ensures { result.held ≡ Some parts.value }
    {
        let Parts { ptr, alloc } = parts;
        Handle {
            at: ptr as *mut (),
            alloc,
        }
    }

    fn into_parts(self) -> Parts<State, Global>
        requires { IsOpen self.held }
        ensures { self.held ≡ Some result.value }
    {
        let Handle { at, alloc } = self;
        Parts {
            ptr: at as *mut State,
            alloc,
        }
    }
}

// C may hold it on any thread, under a lock: what it owns may be used and freed on each.
unsafe impl Send for Handle {}
