// A job with its bytes.
ghost use Rattle.std.specs.Prelude.{◌≡◌, ◌≤◌, length};
ghost use Rattle.uu_core.specs.State.{head_of, most_bytes};
ghost use Rattle.uu_core.specs.After.{job_of};

use std::marker::Model;
use uu_core::{JobHead, NewJob};
use uu_names::{Grade, Listed};
use uu_times::Moment;

/// A job of a spool with all its bytes.
#[derive(Drop)]
pub struct PlainJob {
    head: JobHead,
    bytes: Listed<u8>,
}

impl Model for PlainJob {
    ghost use Rattle.std.specs.Prelude.{◌≡◌, length};
    ghost use Rattle.uu_core.specs.State.{Job};

    ghost Value = { Job };

    ghost view = { λ job. record { number = job.head.number; system = job.head.system; grade = job.head.grade; user = job.head.user; kind = job.head.kind; queued = job.head.queued; bytes = job.bytes } };

    ghost invariant = { λ job. job.head.size ≡ length job.bytes };
}

impl PlainJob {
    /// The job without its bytes.
    pub fn head(&self) -> &JobHead
        ensures { result.now ≡ head_of self.now }
    {
        &self.head
    }

    /// Its bytes.
    pub fn bytes(&self) -> &[u8]
        ensures { result.now ≡ self.now.bytes }
    {
        self.bytes.as_slice()
    }

    // A job that is handed in, under its number.
    pub(crate) fn new(number: u32, job: NewJob) -> PlainJob
        requires { length job.bytes ≤ most_bytes }
        ensures { result ≡ job_of number job }
    {
        let size = job.bytes.as_slice().len() as u32;
        PlainJob {
            head: JobHead {
                number,
                system: job.system,
                grade: job.grade,
                user: job.user,
                kind: job.kind,
                queued: job.at.second,
                size,
            },
            bytes: job.bytes,
        }
    }

    pub(crate) fn regrade(&mut self, grade: Grade)
        ensures { self.new ≡ record self.old { grade = grade } }
    {
        self.head.grade = grade;
    }

    pub(crate) fn rejuvenate(&mut self, at: &Moment)
        ensures { self.new ≡ record self.old { queued = at.now.second } }
    {
        self.head.queued = at.second;
    }
}
