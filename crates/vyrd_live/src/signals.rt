//! What the workers of a live run and what takes in their events tell each other.

use std::sync::Wait;
use std::sync::atomic::{AtomicBool, AtomicU64, Ordering};
use std::thread;
use std::time::Duration;

/// A caller waits with its next operation while its last event is this many numbers or more ahead
/// of the events that the sink has taken. So few are held at a time for the order's sake. The
/// further it is, the less often one waits for the other.
const AHEAD: u64 = 16384;

/// A caller that waits is woken once its last event is only this many numbers ahead. So it goes on
/// for a while before it waits again, and meanwhile the sink has events to take.
const WOKEN: u64 = AHEAD / 2;

/// The callers are told how far the sink has come each time that it has taken this many events
/// more. What is told more often is read more often.
const TOLD: u64 = 1024;

/// In how many rounds of the sink nothing comes before it sleeps.
const IDLE: u32 = 4;

/// For how many microseconds the sink sleeps at most when nothing comes.
const NAP: u64 = 100;

/// For how many microseconds a caller sleeps at most that waits for the sink.
const WAIT: u64 = 1000;

/// Three flags, each of which may be raised once, whether the sink is held or sleeps, how far it has
/// come, and for how many callers how far it has to come.
#[derive(Drop)]
pub(crate) struct Signals {
    begun: AtomicBool,
    left: AtomicBool,
    ended: AtomicBool,
    held: AtomicBool,
    asleep: AtomicU64,
    next: AtomicU64,
    waiting: AtomicU64,
    wanted: AtomicU64,
}

impl Signals {
    /// No flag is raised, and the sink has taken nothing.
    pub(crate) fn new() -> Signals {
        Signals {
            begun: AtomicBool::new(false),
            left: AtomicBool::new(false),
            ended: AtomicBool::new(false),
            held: AtomicBool::new(false),
            asleep: AtomicU64::new(0),
            next: AtomicU64::new(0),
            waiting: AtomicU64::new(0),
            wanted: AtomicU64::new(0),
        }
    }

    /// From now on what is in the relay is taken in, in a thread beside the workers.
    pub(crate) fn begin(&self) {
        self.begun.store(true, Ordering::SeqCst);
    }

    /// Whether that has begun. If the thread couldn't be started, it never does.
    fn has_begun(&self) -> bool {
        self.begun.load(Ordering::SeqCst)
    }

    /// A worker has ended and leaves events that are sent after the joins. Until then the sink
    /// can't come past them, and nobody must wait for it.
    pub(crate) fn leave(&self) {
        self.left.store(true, Ordering::SeqCst);
        self.next.wake_all();
    }

    /// All workers have ended.
    pub(crate) fn end(&self) {
        self.ended.store(true, Ordering::SeqCst);
        self.rouse();
    }

    /// Whether all workers have ended.
    pub(crate) fn has_ended(&self) -> bool {
        self.ended.load(Ordering::SeqCst)
    }

    /// The sink waits for its gate.
    pub(crate) fn hold(&self) {
        self.held.store(true, Ordering::SeqCst);
        self.next.wake_all();
    }

    /// The sink takes events again.
    pub(crate) fn release(&self) {
        self.held.store(false, Ordering::SeqCst);
    }

    /// Whether a worker that the relay has no room for, or that is far ahead, waits for the sink:
    /// it takes events beside the workers, and no gate holds it.
    pub(crate) fn is_awaited(&self) -> bool {
        self.has_begun() && !self.held.load(Ordering::SeqCst)
    }

    /// The sink has taken all events with numbers below this one. With none, it takes no more, and
    /// nobody waits for it.
    pub(crate) fn advance(&self, next: Option<u64>) {
        let next = next.unwrap_or(u64::MAX);
        if next.saturating_sub(self.next.load(Ordering::SeqCst)) >= TOLD {
            self.next.store(next, Ordering::SeqCst);
            if self.waiting.load(Ordering::SeqCst) != 0
                && next >= self.wanted.load(Ordering::SeqCst)
            {
                self.next.wake_all();
            }
        }
    }

    /// Whether the caller of the event with this number needn't wait: the sink is near to it, or
    /// won't come near before the joins.
    pub(crate) fn is_near(&self, number: u64) -> bool {
        number.saturating_sub(self.next.load(Ordering::SeqCst)) < AHEAD
            || self.left.load(Ordering::SeqCst)
    }

    /// Sleeps until the sink has come near to the event with this number, or nobody needs to wait
    /// for it, if that isn't so already. A sink that sleeps is woken. It may return for no reason.
    pub(crate) fn await_sink<R: Wait>(&self, rt: &R, number: u64) {
        let wanted = number.saturating_sub(WOKEN);
        self.wanted.store(wanted, Ordering::SeqCst);
        self.waiting.fetch_add(1, Ordering::SeqCst);
        let next = self.next.load(Ordering::SeqCst);
        if !self.is_near(number) && self.is_awaited() {
            self.rouse();
            self.next.park_timeout(rt, (next & 0xffff_ffff) as u32, Duration::from_micros(WAIT));
        }
        self.waiting.fetch_sub(1, Ordering::SeqCst);
    }

    /// Ends a round of the sink, in which something came or not. After some rounds in which nothing
    /// came, which `idle` counts, it sleeps for a short time, or until it is woken.
    pub(crate) fn rest<R: Wait>(&self, rt: &R, came: bool, idle: &mut u32) {
        if came {
            *idle = 0;
        } else if *idle < IDLE {
            *idle += 1;
            thread::yield_now();
        } else {
            self.nap(rt);
        }
    }

    /// Sleeps for a short time, or until the sink is woken. If the workers have ended it doesn't.
    fn nap<R: Wait>(&self, rt: &R) {
        self.asleep.store(1, Ordering::SeqCst);
        if !self.has_ended() {
            self.asleep.park_timeout(rt, 1, Duration::from_micros(NAP));
        }
        self.asleep.store(0, Ordering::SeqCst);
    }

    /// Wakes the sink, if it sleeps.
    fn rouse(&self) {
        if self.asleep.swap(0, Ordering::SeqCst) != 0 {
            self.asleep.wake_all();
        }
    }
}
