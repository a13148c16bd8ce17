//! What is done with a wire.

use crate::sitting::Sitting;
use crossbeam_channel::Sender;
use fluid_front::Handler;
use fluid_hints::{Bell, HintWire};
use fluid_io::Clock;
use fluid_lines::Wire;
use fluid_log::Shelves;
use fluid_service::Service;
use fluid_store::Objects;
use std::alloc::Global;
use std::sync::{Mutex, Wait};

/// Runs a session on each wire, with a key of its own and the one store behind its lock.
#[derive(Drop)]
pub(crate) struct Sessions<'a, B: Shelves, O: Objects, C: Clock> {
    pub(crate) alloc: Global,
    pub(crate) service: &'a Service<B>,
    pub(crate) objects: &'a Mutex<O>,
    pub(crate) clock: &'a C,
    pub(crate) bell: &'a Mutex<Bell>,
    pub(crate) hints: &'a Sender<()>,
}

impl<'a, B: Shelves, O: Objects, C: Clock, W: Wire + Drop> Handler<W> for Sessions<'a, B, O, C>
where
    B::K: Drop,
{
    type Job = Sitting<'a, B, W>;

    ghost is_over = { λ s. s.hosting.is_over };

    fn begin<R: Wait>(&self, _rt: &R, _number: u64, wire: W) -> Sitting<'a, B, W> {
        Sitting::new(self.service, HintWire::new(wire, self.bell, self.hints))
    }

    /// However the session ends, nothing else does. Where the peer hasn't taken what it was sent, there is nothing to do. Behind the last
    /// cycle the wire stays until the peer has taken all.
    fn cycle<R: Wait>(&self, rt: &R, job: &mut Sitting<'a, B, W>) -> bool {
        if !job.is_over() {
            if !job.is_free(rt) {
                return true;
            }
            let _report = job.cycle(rt, self.alloc, self.objects, self.clock);
        }
        !job.is_over() || !job.is_handed_on(rt)
    }

    fn end<R: Wait>(&self, _rt: &R, job: Sitting<'a, B, W>) {
        drop(job);
    }
}
