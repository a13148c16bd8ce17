//! What is done with a wire.
ghost use Rattle.std.specs.Prelude.{◌≡◌, ◌<◌, Bool, true, false};

use std::sync::Wait;

/// The work on wires: a job for each, done in steps.
pub trait Handler<W> {
    /// The work on one wire, between two of its steps.
    type Job;

    /// Whether the work has no more steps.
    ghost is_over: { Self.Job → Bool };

    /// Begins the work on the wire of this number. Wires are numbered from 1, in the order in which the front gave them.
    fn begin<R: Wait>(&self, rt: &R, number: u64, wire: W) -> Self::Job
        requires { 0 < number };

    /// One step, in which it may wait as its wire does. It says whether there is one more.
    fn cycle<R: Wait>(&self, rt: &R, job: &mut Self::Job) -> bool
        ensures { result ≡ false → is_over job.new ≡ true };

    /// Ends the work behind its last step.
    fn end<R: Wait>(&self, rt: &R, job: Self::Job)
        requires { is_over job ≡ true };

    /// Works on the wire of this number until its end.
    final fn handle<R: Wait>(&self, rt: &R, number: u64, wire: W)
        requires { 0 < number }
    {
        let mut job = self.begin(rt, number, wire);
        for _ in rt.forever() {
            if !self.cycle(rt, &mut job) {
                self.end(rt, job);
                return;
            }
        }
        unreachable!()
    }
}

/// A place that each job passes before it begins, so that a test can hold it there. At a station it holds all others of its thread.
pub trait Gate {
    fn at<R: Wait>(&self, rt: &R, number: u64)
        requires { 0 < number };
}

/// A gate at which nobody waits.
#[derive(Drop)]
pub struct OpenGate;

impl Gate for OpenGate {
    fn at<R: Wait>(&self, _rt: &R, _number: u64) {}
}
