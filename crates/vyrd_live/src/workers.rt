//! All workers of a live run, each in a thread of its own, and what takes in their events.

ghost use Rattle.std.specs.Prelude.{◌≡◌, ◌<◌, ◌≤◌, ℕ, true, List, [], length, map, IfOk};
ghost use Rattle.std.specs.Prelude.{IfSome, vec_len, slice_index, slice_index_or};
ghost use Rattle.std.specs.List.{All};
ghost use Rattle.std.specs.Thread.{IsSync};
ghost use Rattle.vyrd_trace.specs.Hands.{AreAll};
ghost use Rattle.vyrd_live.specs.Endings.{IsFirstSpent};
ghost use Rattle.vyrd_live.specs.LiveRuns.{LeavesRun};
ghost use Rattle.vyrd_live.specs.Workers.{IsFresh, HasWorked, AreMadeFor, plan_of};
ghost use Rattle.vyrd_live.specs.Sending.{HasSent};
ghost use Rattle.vyrd_live.specs.Beside.{GoesOn, lanes_sent, lanes_made};

use crate::outbox::Outbox;
use crate::run::Played;
use crate::signals::Signals;
use crate::watch::Watch;
use crate::worker::{Ending, Stopped, Worker};
use std::alloc::{AllocError, Global};
use std::sync::Wait;
use std::thread;
use std::thread::{Threads, join};
use vyrd_base::{Gate, Header};
use vyrd_memory::{EventSink, Machine};
use vyrd_relay::{Relay, Sender};
use vyrd_trace::{Hand, Traced};

/// How many parcels of events the relay holds: more than one caller sends until it is so far ahead
/// that it waits. A worker that finds it full within an operation goes on, and sends them later:
/// after the operation it waits for room.
const RELAY_CAPACITY: u64 = 640;

/// Plays all workers, shows what they do to a sink that has taken nothing, and ends their memory.
/// The workers have all of its hands, in the order of their callers.
///
/// Each worker has a thread of its own, and so has what takes in their events. If one can't be
/// started, its work is done by the thread that would have started it. The error comes if there is
/// no memory.
pub(crate) fn play_all<
    R: Threads + Wait + Sync,
    G: Gate,
    M: Machine + Send,
    S: EventSink + Drop + Send,
>(
    rt: &R,
    alloc: Global,
    traced: Traced,
    gate: &G,
    header: Header,
    workers: Vec<Worker<M>>,
    sink: S,
) -> Result<Played<S>, AllocError>
    requires fresh { All (λ w. IsFresh M.header_of M.script traced w.machine w.hand) workers.items }
    requires hands { AreAll traced (map (λ w. w.hand) workers.items) }
    requires plan { traced.plan ≡ plan_of header traced.plan.limit }
    requires made { AreMadeFor header (map (λ w. M.header_of w.machine) workers.items) }
    requires none { S.has_taken sink [] }
    ensures played { IfOk result (λ played. LeavesRun header traced.plan.limit
        (map (λ w. M.script w.machine) workers.items) S.has_taken played.sink played.words.items
        played.spent) }
    ensures long { IfOk result (λ played. IfSome played.spent (λ caller.
        traced.plan.limit < slice_index (map (λ w. M.ahead w.machine) workers.items) caller)) }
    ensures fixed { IfOk result (λ played. S.fixed played.sink ≡ S.fixed sink) }
{
    let (relay, senders, receiver) = Relay::new(alloc, RELAY_CAPACITY, header.callers())?;
    let jobs = jobs_of(alloc, &relay, workers, senders)?;
    let watch = Watch::new(alloc, header.callers(), receiver, sink)?;
    let (done, mut watch) = beside(rt, &traced, gate, &relay, jobs, watch)?;
    let (stopped, outboxes) = part_all(rt, alloc, &relay, &mut watch, done)?;
    let spent = first_spent(&stopped)?;
    let hands = hands_of(alloc, stopped)?;
    watch.take_rest(rt, &relay, outboxes);
    let Ok(words) = traced.end(hands) else {
        return Err(AllocError);
    };
    let Some(sink) = watch.into_sink() else {
        return Err(AllocError);
    };
    Ok(Played { sink, words, spent })
}

/// Each worker with an outbox for its caller.
fn jobs_of<M: Machine>(
    alloc: Global,
    relay: &Relay,
    workers: Vec<Worker<M>>,
    senders: Vec<Sender>,
) -> Result<Vec<(Worker<M>, Outbox)>, AllocError>
    requires fresh { All (λ w. (w.hand.lane ≡ []) × (w.hand.forgotten ≡ 0)) workers.items }
    requires senders { All (λ s. (s.queue ≡ relay.now.queue) × (s.sent ≡ [])) senders.items }
    requires callers { map (λ w. w.hand.caller) workers.items ≡ map (λ s. s.caller) senders.items }
    ensures workers { IfOk result (λ jobs. map (λ j. j.0) jobs.items ≡ workers.items) }
    ensures sent { IfOk result
        (λ jobs. All (λ j. HasSent relay.now j.1.sender j.1.place j.0.hand) jobs.items) }
{
    let mut jobs = Vec::with_capacity(alloc, workers.len())?;
    let mut left = senders.into_iter();
    for worker in workers {
        let Some(sender) = left.next() else {
            unreachable!()
        };
        jobs.push((
            worker,
            Outbox {
                sender,
                place: 0,
                pause: 0,
            },
        ))?;
    }
    Ok(jobs)
}

/// Plays the workers, while what they do is taken in.
fn beside<R: Threads + Wait + Sync, G: Gate, M: Machine + Send, S: EventSink + Drop + Send>(
    rt: &R,
    traced: &Traced,
    gate: &G,
    relay: &Relay,
    jobs: Vec<(Worker<M>, Outbox)>,
    watch: Watch<S>,
) -> Result<(Vec<(Stopped, Outbox)>, Watch<S>), AllocError>
    requires fresh { All (λ j. IsFresh M.header_of M.script traced.now j.0.machine j.0.hand)
        jobs.items }
    requires sent { All (λ j. HasSent relay.now j.1.sender j.1.place j.0.hand) jobs.items }
    requires receiver { watch.receiver.queue ≡ relay.now.queue }
    ensures count { IfOk result (λ r. vec_len r.0 ≡ vec_len jobs) }
    ensures each { IfOk result (λ r. (i : ℕ) (j : _) (d : _) → i < vec_len jobs
        → HasWorked M.header_of M.script M.ahead traced.now
        (slice_index_or jobs.items i j).0.machine (slice_index_or jobs.items i j).0.hand
        (slice_index_or r.0.items i d).0.hand (slice_index_or r.0.items i d).0.ending) }
    ensures sent { IfOk result
        (λ r. All (λ d. HasSent relay.now d.1.sender d.1.place d.0.hand) r.0.items) }
    ensures goes_on { IfOk result (λ r. GoesOn S.has_taken S.fixed watch r.1) }
{
    let signals = Signals::new();
    let told = &signals;
    // If no thread can be made, the first closure is called last: it then finds that the workers
    // have ended. The other way round it would wait for them for ever.
    let (watch, done) = join(
        rt,
        move || -> Watch<S>
            requires { watch.receiver.queue ≡ relay.now.queue }
            ensures { GoesOn S.has_taken S.fixed watch result }
        { watch.watched(rt, relay, gate, told) },
        move || -> Result<Vec<(Stopped, Outbox)>, AllocError>
            requires { All (λ j. IsFresh M.header_of M.script traced.now j.0.machine j.0.hand)
                jobs.items
                × All (λ j. HasSent relay.now j.1.sender j.1.place j.0.hand) jobs.items }
            ensures count { IfOk result (λ all. vec_len all ≡ vec_len jobs) }
            ensures each { IfOk result (λ all. (i : ℕ) (j : _) (d : _) → i < vec_len jobs
                → HasWorked M.header_of M.script M.ahead traced.entry.now
                (slice_index_or jobs.items i j).0.machine (slice_index_or jobs.items i j).0.hand
                (slice_index_or all.items i d).0.hand (slice_index_or all.items i d).0.ending) }
            ensures sent { IfOk result (λ all.
                All (λ d. HasSent relay.entry.now d.1.sender d.1.place d.0.hand) all.items) }
        {
            let done = work_all(rt, traced, gate, relay, told, jobs);
            told.end();
            done
        },
    );
    Ok((done?, watch))
}

/// Plays each worker in a thread of its own, and waits for all.
fn work_all<R: Threads + Wait + Sync, G: Gate, M: Machine + Send>(
    rt: &R,
    traced: &Traced,
    gate: &G,
    relay: &Relay,
    signals: &Signals,
    jobs: Vec<(Worker<M>, Outbox)>,
) -> Result<Vec<(Stopped, Outbox)>, AllocError>
    requires fresh { All (λ j. IsFresh M.header_of M.script traced.now j.0.machine j.0.hand)
        jobs.items }
    requires sent { All (λ j. HasSent relay.now j.1.sender j.1.place j.0.hand) jobs.items }
    ensures count { IfOk result (λ all. vec_len all ≡ vec_len jobs) }
    ensures each { IfOk result (λ all. (i : ℕ) (j : _) (d : _) → i < vec_len jobs
        → HasWorked M.header_of M.script M.ahead traced.now
        (slice_index_or jobs.items i j).0.machine (slice_index_or jobs.items i j).0.hand
        (slice_index_or all.items i d).0.hand (slice_index_or all.items i d).0.ending) }
    ensures sent { IfOk result
        (λ all. All (λ d. HasSent relay.now d.1.sender d.1.place d.0.hand) all.items) }
{
    thread::map_vec(
        rt,
        jobs,
        &|job: (Worker<M>, Outbox)| -> (Stopped, Outbox)
            requires { IsSync G.row
                × IsFresh M.header_of M.script traced.now job.0.machine job.0.hand
                × HasSent relay.now job.1.sender job.1.place job.0.hand }
            ensures worked { HasWorked M.header_of M.script M.ahead traced.entry.now job.0.machine
                job.0.hand result.0.hand result.0.ending }
            ensures sent { HasSent relay.entry.now result.1.sender result.1.place result.0.hand }
        {
            let (worker, outbox) = job;
            worker.work(rt, traced, gate, relay, signals, outbox)
        },
    )
}

/// What the workers left, and their outboxes, which have sent the whole lanes.
fn part_all<R: Wait, S: EventSink + Drop>(
    rt: &R,
    alloc: Global,
    relay: &Relay,
    watch: &mut Watch<S>,
    done: Vec<(Stopped, Outbox)>,
) -> Result<(Vec<Stopped>, Vec<Outbox>), AllocError>
    requires sent { All (λ d. HasSent relay.now d.1.sender d.1.place d.0.hand) done.items }
    requires receiver { watch.old.receiver.queue ≡ relay.now.queue }
    ensures stopped { IfOk result (λ r. r.0.items ≡ map (λ d. d.0) done.items) }
    ensures lanes { IfOk result (λ r. lanes_sent r.1.items ≡ lanes_made r.0.items) }
    ensures senders { IfOk result (λ r. All (λ o. o.sender.queue ≡ relay.now.queue) r.1.items) }
    ensures goes_on { IfOk result (λ _. GoesOn S.has_taken S.fixed watch.old watch.new) }
{
    let mut stopped = Vec::with_capacity(alloc, done.len())?;
    let mut outboxes = Vec::with_capacity(alloc, done.len())?;
    for (one, outbox) in done {
        let mut outbox = outbox;
        outbox.send_rest(rt, relay, &one.hand, watch);
        stopped.push(one)?;
        outboxes.push(outbox)?;
    }
    Ok((stopped, outboxes))
}

/// The least caller that stopped because its next operation had no room. It is an error if one
/// stopped because there was no memory.
fn first_spent(stopped: &[Stopped]) -> Result<Option<u32>, AllocError>
    requires { length stopped.now ≤ 64 }
    ensures { IfOk result
        (λ first. IsFirstSpent (map (λ s. s.ending) stopped.now) (length stopped.now) first) }
{
    let mut first = None;
    for (caller, one) in stopped.iter().enumerate() {
        match one.ending {
            Ending::Finished => {}
            Ending::Spent => first = first.or(Some(caller as u32)),
            Ending::Memory => return Err(AllocError),
        }
    }
    Ok(first)
}

/// The hands, in their order.
fn hands_of(alloc: Global, stopped: Vec<Stopped>) -> Result<Vec<Hand>, AllocError>
    ensures { IfOk result (λ hands. hands.items ≡ map (λ s. s.hand) stopped.items) }
{
    stopped
        .into_iter()
        .map(|one| one.into_hand())
        .collect(alloc)
}
