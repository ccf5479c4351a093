//! The run by turns of a small script, which two callers play: what the plain memory answers, and
//! where they get stuck.

ghost use Rattle.std.specs.Prelude.{◌≡◌, ◌<◌, ◌≤◌, All, IfSome, drop};
ghost use Rattle.vyrd_run_tests.specs.Visits.{visited, visit, listed, ahead_after};
ghost use Rattle.vyrd_run_tests.specs.Laws.Visits.{visit_is_sound, visit_ends, visit_bound};
ghost use Rattle.vyrd_run_tests.specs.Laws.Visits.{visit_sums, visit_is_ahead, visit_rests};
ghost use Rattle.vyrd_run_tests.specs.Laws.Visits.{visit_done, visit_few};

use std::alloc::Global;
use vyrd_base::{Args, Did, Header, Kind, Method, MultisetMethod, Stamped, Subject};
use vyrd_memory::{Act, Machine, Ran, StepFault, Turn, run_turns};

/// The acts of a visit: both locks, a load and a store.
fn acts(crosses: bool) -> [Act; 9]
    ensures { result ≡ visit crosses }
{
    let (first, second, value) = if crosses { (17, 16, 6) } else { (16, 17, 5) };
    [
        Act::Mark(Kind::Call(Method::Multiset(MultisetMethod::Insert), INSERT)),
        Act::Take(first),
        Act::Take(second),
        Act::Load(1),
        Act::Store(1, value),
        Act::Mark(Kind::Commit),
        Act::Give(second),
        Act::Give(first),
        Act::Mark(Kind::Return(1)),
    ]
}

const INSERT: Args = Args { a: 5, b: 0, c: 0 };

/// A caller that makes one visit. `done` says how many of its acts are done.
#[derive(Drop)]
struct Visitor {
    caller: u32,
    crosses: bool,
    done: u32,
    ghost within: { done ≤ 9 },
}

impl Machine for Visitor {
    ghost header_of = { λ _. visited };

    ghost caller_of = { λ m. m.caller };

    ghost script = { λ m. listed (drop m.done (visit m.crosses)) };

    ghost ahead = { λ m. ahead_after m.done };

    ghost op_ahead = { λ m. ahead_after m.done };

    fn wants(&self) -> Act {
        match acts(self.crosses).get(self.done as usize) {
            Some(act) => *act,
            None => Act::Done,
        }
    }

    fn took(&mut self, _answer: u64) {
        self.done += 1;
    }

    fn left(&self) -> u64 {
        match self.done {
            0 => 32,
            done => 9 - u64::from(done),
        }
    }

    fn op_left(&self) -> u64 {
        self.left()
    }

    fn between(&self) -> bool {
        matches!(self.wants(), Act::Mark(Kind::Call(..)) | Act::Done)
    }

    ghost is_sound = { λ m. visit_is_sound m.crosses m.done };

    ghost ends_in_time = { λ m. visit_ends m.crosses m.done };

    ghost next_bound = { λ m. visit_bound m.crosses m.done };

    ghost sums = { λ m. visit_sums m.crosses m.done };

    ghost op_is_ahead = { λ m. visit_is_ahead m.done };

    ghost rests = { λ m. visit_rests m.crosses m.done };

    ghost few = { λ m. visit_few m.done };

    ghost done = { λ m. visit_done m.crosses m.done };
}

impl Visitor {
    fn new(caller: u32, crosses: bool) -> Visitor {
        Visitor {
            caller,
            crosses,
            done: 0,
        }
    }
}

/// A multiset of two buckets and two callers: words 0 to 15, and the locks 16 and 17.
fn header() -> Option<Header>
    ensures { IfSome result (λ h. h ≡ visited) }
{
    Header::new(1, Subject::Multiset, 2, 2)
}

/// How many turns there are of two callers: of the caller that comes first, and of the other one.
#[derive(Clone, Copy)]
enum Turns {
    /// Caller 0 comes first.
    ZeroFirst(u32, u32),
    /// Caller 1 does.
    OneFirst(u32, u32),
}

impl Turns {
    fn in_order(self) -> [Turn; 2]
        ensures { All (λ turn. turn.caller < 2) result }
    {
        match self {
            Turns::ZeroFirst(first, other) => [turn(0, first), turn(1, other)],
            Turns::OneFirst(first, other) => [turn(1, first), turn(0, other)],
        }
    }
}

fn turn(caller: u32, count: u32) -> Turn
    ensures { result.caller ≡ caller }
{
    Turn { caller, count }
}

/// The run of two callers by these turns. The second may take the locks in the other order.
fn run(alloc: Global, crosses: bool, turns: Turns) -> Option<Result<Ran, StepFault>> {
    let header = header()?;
    let mut machines = [Visitor::new(0, false), Visitor::new(1, crosses)];
    Some(run_turns(alloc, header, &mut machines, &turns.in_order()))
}

/// The event of an act, if a load finds this value.
fn event(act: Act, found: u64) -> Option<Did> {
    match act {
        Act::Load(cell) => Some(Did::Read(cell, found)),
        Act::Store(cell, value) => Some(Did::Wrote(cell, value)),
        Act::Take(lock) => Some(Did::Took(lock)),
        Act::Give(lock) => Some(Did::Gave(lock)),
        Act::Mark(kind) => Some(Did::Marked(kind)),
        Act::Done => None,
    }
}

/// The event of the caller that comes after these.
fn next_event(
    history: &[Stamped],
    crosses: bool,
    caller: u32,
    found: (u64, u64),
) -> Option<Stamped> {
    let place = history.iter().filter(|e| e.caller == caller).count();
    let (visit, found) = if caller == 0 {
        (acts(false), found.0)
    } else {
        (acts(crosses), found.1)
    };
    Some(Stamped {
        number: history.len() as u64,
        caller,
        did: event(*visit.get(place)?, found)?,
    })
}

/// The history in which the callers have their events in this order, and their loads find these
/// values.
fn history(alloc: Global, crosses: bool, order: &[u32], found: (u64, u64)) -> Option<Vec<Stamped>> {
    let mut history: Vec<Stamped> = Vec::new(alloc);
    for caller in order {
        let event = next_event(&history, crosses, *caller, found)?;
        history.push(event).ok()?;
    }
    Some(history)
}

/// Whether the second caller takes the locks crosswise, the turns, whose event each one is, what
/// the loads of the two callers find, and word 1 at the end.
struct Case {
    crosses: bool,
    turns: Turns,
    order: &'static [u32],
    found: (u64, u64),
    last: u64,
}

const CASES: &[Case] = &[
    Case {
        crosses: false,
        turns: Turns::ZeroFirst(0, 0),
        order: &[0, 1, 0, 0, 0, 0, 0, 0, 0, 1, 0, 1, 1, 1, 1, 1, 1, 1],
        found: (0, 5),
        last: 5,
    },
    Case {
        crosses: true,
        turns: Turns::ZeroFirst(20, 2),
        order: &[0, 0, 0, 0, 0, 0, 0, 0, 0, 1, 1, 1, 1, 1, 1, 1, 1, 1],
        found: (0, 5),
        last: 6,
    },
    Case {
        crosses: true,
        turns: Turns::OneFirst(4, 1),
        order: &[1, 1, 1, 1, 0, 1, 1, 1, 0, 1, 0, 1, 0, 0, 0, 0, 0, 0],
        found: (6, 0),
        last: 5,
    },
];

/// Whether the run leaves the history and the words that the case says.
fn holds(alloc: Global, case: &Case) -> bool {
    let Some(wanted) = history(alloc, case.crosses, case.order, case.found) else {
        return false;
    };
    match run(alloc, case.crosses, case.turns) {
        Some(Ok(ran)) => ran.history == wanted && has_only(&ran.words, case.last),
        _ => false,
    }
}

/// Whether word 1 is this, and all other words and locks are 0.
fn has_only(words: &[u64], last: u64) -> bool {
    let mut wanted = [0; 18];
    wanted[1] = last;
    words == wanted.as_slice()
}

#[test]
fn visits_by_turns(rt: HostRuntime) {
    for (row, case) in CASES.iter().enumerate() {
        assert!(rt; holds(rt.alloc(), case), "row {row}");
    }
}

#[test]
fn locks_taken_crosswise(rt: HostRuntime) {
    for turns in [
        Turns::ZeroFirst(0, 0),
        Turns::ZeroFirst(2, 2),
        Turns::OneFirst(2, 50),
    ] {
        let ran = run(rt.alloc(), true, turns);
        assert!(rt; matches!(ran, Some(Err(StepFault::Stuck))));
    }
}
