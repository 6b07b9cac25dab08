//! The objects with which a thread records and submits.
ghost use Rattle.gfx_callers.specs.Caller.{CallsAt};

use crate::caller::Caller;
use crate::effects::Creation;
use gfx_capture::{AppendFault, Capture};
use std::alloc::Global;
use std::sync::Wait;

/// An instance, its device, and of this a queue, a pool and a command buffer.
#[derive(Clone, Copy, Debug)]
pub struct Objects {
    pub instance: u64,
    pub device: u64,
    pub queue: u64,
    pub pool: u64,
    pub cb: u64,
}

impl Objects {
    /// Creates them, in this order.
    pub fn create<R: Wait>(
        rt: &R,
        alloc: Global,
        capture: &Capture,
        caller: &mut Caller,
    ) -> Result<Objects, AppendFault>
        requires { CallsAt caller.old capture.now }
        ensures { CallsAt caller.new capture.now }
    {
        let (instance, _) = caller.create(rt, alloc, capture, Creation::Instance)?;
        let (device, _) = caller.create(rt, alloc, capture, Creation::Device { instance })?;
        let (queue, _) = caller.create(rt, alloc, capture, Creation::Queue { device })?;
        let (pool, _) = caller.create(rt, alloc, capture, Creation::Pool { device })?;
        let (cb, _) = caller.create(rt, alloc, capture, Creation::CommandBuffer { device, pool })?;
        Ok(Objects {
            instance,
            device,
            queue,
            pool,
            cb,
        })
    }
}
