// The message of a delivery, as a job of threads.
ghost use Rattle.std.specs.Prelude.{◌≡◌, All, IfOk, map};
ghost use Rattle.script_text.specs.Script.{FitsScript};
ghost use Rattle.mdbox_threads.specs.Jobs.{IsDeliveryAt, IsDoneOf, places_from};

use attach_detach::{Prepared, take_apart};
use mdbox_base::{NoMemory, Request};
use std::alloc::Global;

/// A message that is to be prepared: the place of its delivery in the script, counted from 0, and what came of it.
#[derive(Drop)]
pub(crate) struct Job {
    pub(crate) place: usize,
    pub(crate) made: Made,
}

/// What came of a message.
#[derive(Drop)]
pub(crate) enum Made {
    /// It wasn't prepared yet.
    Waiting,
    /// With its attachments taken out, or None where it has none.
    Ready(Option<Prepared>),
    /// There was no memory for it.
    NoMemory,
}

/// A job for each delivery of a script, in order. None is done.
pub(crate) fn jobs_of(alloc: Global, requests: &[(u32, Request)]) -> Result<Vec<Job>, NoMemory>
    ensures { IfOk result (λ jobs. map (λ job. job.place) jobs.items ≡ places_from 0 requests.now) }
{
    let mut jobs = Vec::new(alloc);
    for (place, request) in requests.iter().enumerate() {
        if let Request::Deliver { .. } = &request.1 {
            let made = Made::Waiting;
            jobs.push(Job { place, made })?;
        }
    }
    Ok(jobs)
}

/// Prepares the message of a delivery.
pub(crate) fn do_job(alloc: Global, requests: &[(u32, Request)], job: &mut Job)
    requires fits { All (λ asked. FitsScript asked.1) requests.now }
    requires place { IsDeliveryAt requests.now job.old.place }
    ensures same { job.new.place ≡ job.old.place }
    ensures done { IsDoneOf requests.now job.new }
{
    let Request::Deliver { message, .. } = &requests[job.place].1 else {
        unreachable!()
    };
    job.made = match take_apart(alloc, message.as_slice()) {
        Ok(given) => Made::Ready(given),
        Err(NoMemory) => Made::NoMemory,
    };
}
