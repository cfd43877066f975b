// The messages of a script, prepared in threads.
ghost use Rattle.std.specs.Prelude.{◌≡◌, ◌<◌, ◌≤◌, true, All, IfOk, drop, if◌then◌else◌, map};
ghost use Rattle.std.specs.Vec.Iter.{into_iter_items};
ghost use Rattle.lanes.specs.Worlds.{AreGiven, HasItsMessage};
ghost use Rattle.script_text.specs.Script.{FitsScript};
ghost use Rattle.mdbox_threads.specs.Jobs.{IsDeliveryAt, IsDoneOf, IsNextDone, delivers, places_from};

use crate::job::{Job, Made, do_job, jobs_of};
use crate::turn::prepare_in_turn;
use attach_detach::Prepared;
use mdbox_base::{NoMemory, Request, Seq};
use std::alloc::Global;
use std::thread;
use std::thread::Threads;
use std::vec::IntoIter;

/// With fewer messages than these no thread is started.
const LEAST_MESSAGES: u64 = 8;

/// With fewer octets of messages than these no thread is started.
const LEAST_OCTETS: u64 = 1_048_576;

/// How many threads are started at the most.
const MOST_THREADS: usize = 64;

/// How many processors there are if the system doesn't tell.
const PROCESSORS: usize = 4;

/// What each request is given beside: a delivery its message with its attachments taken out, any other nothing. The messages are
/// prepared in threads, unless there are few of them or one processor.
pub fn prepare_all<R: Threads + Sync>(
    rt: &R,
    alloc: Global,
    requests: &[(u32, Request)],
) -> Result<Seq<Option<Prepared>>, NoMemory>
    requires { All (λ asked. FitsScript asked.1) requests.now }
    ensures { IfOk result (AreGiven requests.now) }
{
    if !are_worth_threads(requests) {
        return prepare_in_turn(alloc, requests);
    }
    let threads = threads_of(rt);
    if threads == 1 {
        return prepare_in_turn(alloc, requests);
    }
    let mut jobs = jobs_of(alloc, requests)?;
    do_jobs(rt, threads, alloc, requests, jobs.as_mut_slice());
    deal_out(alloc, requests, jobs)
}

/// Whether a script delivers so much that threads are worth starting.
fn are_worth_threads(requests: &[(u32, Request)]) -> bool {
    let mut messages = 0u64;
    let mut octets = 0u64;
    for request in requests {
        if let Request::Deliver { message, .. } = &request.1 {
            messages = messages.saturating_add(1);
            octets = octets.saturating_add(message.length() as u64);
        }
    }
    LEAST_MESSAGES <= messages && LEAST_OCTETS <= octets
}

/// How many threads to prepare messages in: as many as there are processors.
fn threads_of<R: Threads>(rt: &R) -> usize
    ensures { (0 < result) × (result ≤ 64) }
{
    match thread::available_parallelism(rt) {
        Ok(count) => count.get().min(MOST_THREADS),
        Err(_) => PROCESSORS,
    }
}

/// Does jobs in so many threads at the most.
fn do_jobs<R: Threads + Sync>(
    rt: &R,
    threads: usize,
    alloc: Global,
    requests: &[(u32, Request)],
    jobs: &mut [Job],
)
    requires threads { 0 < threads }
    requires fits { All (λ asked. FitsScript asked.1) requests.now }
    requires places { All (λ job. IsDeliveryAt requests.now job.place) jobs.old }
    ensures same { map (λ job. job.place) jobs.new ≡ map (λ job. job.place) jobs.old }
    ensures done { All (IsDoneOf requests.now) jobs.new }
{
    thread::for_each_mut(
        rt,
        jobs,
        threads,
        &|_i, job| -> ()
            requires { All (λ asked. FitsScript asked.1) requests.now × IsDeliveryAt requests.now job.now.place }
            ensures { (job.exit.now.place ≡ job.entry.now.place) × IsDoneOf requests.entry.now job.exit.now }
        { do_job(alloc, requests, job) },
    );
}

/// Gives each delivery what came of its job, and any other request nothing.
fn deal_out(
    alloc: Global,
    requests: &[(u32, Request)],
    jobs: Vec<Job>,
) -> Result<Seq<Option<Prepared>>, NoMemory>
    requires fits { All (λ asked. FitsScript asked.1) requests.now }
    requires places { map (λ job. job.place) jobs.items ≡ places_from 0 requests.now }
    requires done { All (IsDoneOf requests.now) jobs.items }
    ensures { IfOk result (AreGiven requests.now) }
{
    let mut jobs = jobs.into_iter();
    let mut given = Seq::empty(alloc);
    for request in requests {
        given.push(next_given(&mut jobs, &request.1)?)?;
    }
    Ok(given)
}

/// What a request is given beside: a delivery what came of the next job, any other nothing.
fn next_given(jobs: &mut IntoIter<Job>, asked: &Request) -> Result<Option<Prepared>, NoMemory>
    requires fits { FitsScript asked.now }
    requires next { delivers asked.now ≡ true → IsNextDone asked.now (into_iter_items jobs.old) }
    ensures given { IfOk result (HasItsMessage asked.now) }
    ensures rest { into_iter_items jobs.new ≡ (if delivers asked.now then drop 1 (into_iter_items jobs.old) else into_iter_items jobs.old) }
{
    let Request::Deliver { .. } = asked else {
        return Ok(None);
    };
    let Some(job) = jobs.next() else {
        unreachable!()
    };
    match job.made {
        Made::Ready(given) => Ok(given),
        Made::NoMemory => Err(NoMemory),
        Made::Waiting => unreachable!(),
    }
}
