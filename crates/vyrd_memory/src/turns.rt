//! The run by turns: machines over plain memory, one event at a time.

ghost use Rattle.std.specs.Prelude.{◌≡◌, ◌<◌, ◌≤◌, ◌+◌, ◌^◌, true, false, MatchOption, IfOk};
ghost use Rattle.std.specs.Prelude.{All, [], ◌∷◌, ℕ, List, length, vec_len, map, replicate};
ghost use Rattle.std.specs.Prelude.{Ok, Err, IfSome, slice_get, slice_index, ◌≢◌};
ghost use Rattle.std.specs.List.{list_all};
ghost use Rattle.vyrd_base.specs.Places.{newest_first, numbers_below};
ghost use Rattle.vyrd_base.specs.Layout.{plain_words, lock_words};
ghost use Rattle.vyrd_memory.specs.declared.turns.StepFault.TheVariants.{Stuck};
ghost use Rattle.vyrd_memory.specs.Scripts.{next_act, answer_of};
ghost use Rattle.vyrd_memory.specs.Turns.{turns_of, is_done, RunsTo};
ghost use Rattle.vyrd_memory.specs.StuckThere.{AreStuckThere};
ghost use Rattle.vyrd_memory.specs.Unfinished.{LeavesOut};
ghost use Rattle.vyrd_base.specs.declared.history.Stamped.{Stamped};
ghost use Rattle.vyrd_memory.specs.Playing.{event_in, words_after_event, IsWithin, IsReady};
ghost use Rattle.vyrd_memory.specs.Playing.{memory_after, total};
ghost use Rattle.vyrd_memory.specs.Showing.{HasShown, ComesToRest, HasRun, stage};

use crate::act::Act;
use crate::event_sink::EventSink;
use crate::machine::Machine;
use crate::op::Turn;
use std::alloc::{AllocError, Global};
use std::error::Error;
use std::fmt;
use vyrd_base::{Did, Header, Stamped};

/// What a run by turns leaves.
#[derive(Debug, Drop)]
pub struct Ran {
    /// The events in their order, numbered from 0.
    pub history: Vec<Stamped>,
    /// The memory at the end: the plain words, and then the locks.
    pub words: Vec<u64>,
}

/// Why a run by turns has no end.
#[derive(Clone, Copy, Debug, PartialEq, Eq)]
pub enum StepFault {
    /// The turns are used up, some machine isn't done, and each such machine wants a lock that is
    /// held.
    Stuck,
    /// There was no memory.
    Memory,
}

impl fmt::Display for StepFault {
    fn fmt<W: fmt::Write>(&self, f: &mut fmt::Formatter<W>) -> fmt::Result {
        match self {
            StepFault::Stuck => write!(f, "the run by turns is stuck"),
            StepFault::Memory => write!(f, "out of memory"),
        }
    }
}

impl Error for StepFault {}

/// Does an act of the caller in the memory. There is no event if there is no act, or if it takes a
/// lock that is held.
#[inline(always)]
fn perform(words: &mut Vec<u64>, caller: u32, act: Act) -> Option<Did>
    requires { IsWithin (vec_len words.old) act }
    ensures event { result ≡ event_in words.old.items act }
    ensures words { words.new.items ≡ words_after_event words.old.items caller result }
{
    match act {
        Act::Load(cell) => Some(Did::Read(cell, words[cell as usize])),
        Act::Store(cell, value) => {
            words[cell as usize] = value;
            Some(Did::Wrote(cell, value))
        }
        Act::Take(lock) => {
            if words[lock as usize] != 0 {
                return None;
            }
            words[lock as usize] = u64::from(caller) + 1;
            Some(Did::Took(lock))
        }
        Act::Give(lock) => {
            words[lock as usize] = 0;
            Some(Did::Gave(lock))
        }
        Act::Mark(kind) => Some(Did::Marked(kind)),
        Act::Done => None,
    }
}

/// A turn of a caller. `false` says that there was no event.
#[inline(always)]
fn turn<M: Machine, S: EventSink>(
    header: &Header,
    machines: &mut [M],
    caller: u32,
    words: &mut Vec<u64>,
    sink: &mut S,
) -> Result<bool, AllocError>
    requires caller { caller < length machines.old }
    requires ready { IsReady header.now M.header_of machines.old words.old.items }
    requires few { S.count sink.old + total M.ahead machines.old ≤ 2 ^ 62 }
    ensures shown { IfOk result (λ _. HasShown header.now M.header_of M.script S.has_taken
        (caller ∷ []) (stage machines.old words.old.items sink.old)
        (stage machines.new words.new.items sink.new)) }
    ensures still { result ≡ Ok false → S.count sink.new ≡ S.count sink.old }
    ensures falls { result ≡ Ok true → total M.ahead machines.new < total M.ahead machines.old }
    ensures few { IfOk result (λ _. S.count sink.new + total M.ahead machines.new
        ≤ S.count sink.old + total M.ahead machines.old) }
    ensures fixed { IfOk result (λ _. S.fixed sink.new ≡ S.fixed sink.old) }
    ensures rests { IfOk result (λ _. total M.ahead machines.new ≤ total M.ahead machines.old) }
    ensures others { IfOk result (λ _. (c : ℕ) → caller ≢ c
        → slice_get machines.new c ≡ slice_get machines.old c) }
{
    let machine = &mut machines[caller as usize];
    let Some(did) = perform(words, caller, machine.wants()) else {
        return Ok(false);
    };
    machine.took(answer(did));
    sink.take(Stamped {
        number: sink.taken(),
        caller,
        did,
    })?;
    Ok(true)
}

/// The answer that an event gives: what was read, and 0 after any other event.
#[inline(always)]
fn answer(did: Did) -> u64
    ensures { result ≡ answer_of did }
{
    match did {
        Did::Read(_, value) => value,
        _ => 0,
    }
}

/// As many turns without an event as there are in so many rounds are worth a look at who is done.
const IDLE_ROUNDS: usize = 16;

/// What came of a turn of each of some callers.
#[derive(Clone, Copy)]
struct Turned {
    /// There was an event.
    moved: bool,
    /// How many turns had no event.
    idle: usize,
}

/// A turn of each of these callers, one after the other.
fn turn_each<M: Machine, S: EventSink>(
    header: &Header,
    machines: &mut [M],
    callers: &[u32],
    words: &mut Vec<u64>,
    sink: &mut S,
) -> Result<Turned, AllocError>
    requires callers { (i : ℕ) → i < length callers.now
        → slice_index callers.now i < length machines.old }
    requires ready { IsReady header.now M.header_of machines.old words.old.items }
    requires few { S.count sink.old + total M.ahead machines.old ≤ 2 ^ 62 }
    ensures shown { IfOk result (λ _. HasShown header.now M.header_of M.script S.has_taken
        callers.now (stage machines.old words.old.items sink.old)
        (stage machines.new words.new.items sink.new)) }
    ensures still { IfOk result
        (λ turned. turned.moved ≡ false → S.count sink.new ≡ S.count sink.old) }
    ensures falls { IfOk result (λ turned. turned.moved ≡ true
        → total M.ahead machines.new < total M.ahead machines.old) }
    ensures few { IfOk result (λ _. S.count sink.new + total M.ahead machines.new
        ≤ S.count sink.old + total M.ahead machines.old) }
    ensures fixed { IfOk result (λ _. S.fixed sink.new ≡ S.fixed sink.old) }
    ensures others { IfOk result (λ _. (c : ℕ)
        → ((i : ℕ) → i < length callers.now → slice_index callers.now i ≢ c)
        → slice_get machines.new c ≡ slice_get machines.old c) }
{
    let mut moved = false;
    let mut idle: usize = 0;
    for caller in callers {
        if turn(header, machines, *caller, words, sink)? {
            moved = true;
        } else {
            idle = idle.saturating_add(1);
        }
    }
    Ok(Turned { moved, idle })
}

/// Whether the machine is done.
fn is_done<M: Machine>(machine: &M) -> bool
    ensures { result ≡ is_done (next_act (M.script machine.now)) }
{
    machine.wants() == Act::Done
}

/// The callers whose machines aren't done.
fn unfinished<M: Machine>(alloc: Global, machines: &[M]) -> Result<Vec<u32>, AllocError>
    requires callers { length machines.now ≤ 1024 }
    ensures { IfOk result (λ callers. LeavesOut M.script machines.now callers.items) }
{
    let mut callers = Vec::new(alloc);
    for caller in 0..machines.len() {
        if !is_done(&machines[caller]) {
            callers.push(caller as u32)?;
        }
    }
    Ok(callers)
}

/// A round over all callers. It asks those in the list, which leaves out only callers that are
/// done. `false` says that there was no event.
///
/// `idle` counts the turns without an event since it was last looked who is done. That is looked
/// at again after so many that it costs little beside them.
fn round<M: Machine, S: EventSink>(
    alloc: Global,
    header: &Header,
    machines: &mut [M],
    callers: &mut Vec<u32>,
    idle: &mut usize,
    words: &mut Vec<u64>,
    sink: &mut S,
) -> Result<bool, AllocError>
    requires callers { length machines.old ≤ 1024 }
    requires left_out { LeavesOut M.script machines.old callers.old.items }
    requires ready { IsReady header.now M.header_of machines.old words.old.items }
    requires few { S.count sink.old + total M.ahead machines.old ≤ 2 ^ 62 }
    ensures shown { IfOk result (λ _. HasShown header.now M.header_of M.script S.has_taken
        (numbers_below (length machines.old)) (stage machines.old words.old.items sink.old)
        (stage machines.new words.new.items sink.new)) }
    ensures still { result ≡ Ok false → S.count sink.new ≡ S.count sink.old }
    ensures falls { result ≡ Ok true → total M.ahead machines.new < total M.ahead machines.old }
    ensures few { IfOk result (λ _. S.count sink.new + total M.ahead machines.new
        ≤ S.count sink.old + total M.ahead machines.old) }
    ensures fixed { IfOk result (λ _. S.fixed sink.new ≡ S.fixed sink.old) }
    ensures left_out { IfOk result (λ _. LeavesOut M.script machines.new callers.new.items) }
{
    let turned = turn_each(header, machines, callers, words, sink)?;
    *idle = idle.saturating_add(turned.idle);
    if *idle / IDLE_ROUNDS >= callers.len() {
        *callers = unfinished(alloc, machines)?;
        *idle = 0;
    }
    Ok(turned.moved)
}

/// That many turns of a caller.
fn repeat<M: Machine, S: EventSink>(
    header: &Header,
    machines: &mut [M],
    turns: &Turn,
    words: &mut Vec<u64>,
    sink: &mut S,
) -> Result<(), AllocError>
    requires caller { turns.now.caller < length machines.old }
    requires ready { IsReady header.now M.header_of machines.old words.old.items }
    requires few { S.count sink.old + total M.ahead machines.old ≤ 2 ^ 62 }
    ensures shown { IfOk result (λ _. HasShown header.now M.header_of M.script S.has_taken
        (replicate turns.now.count turns.now.caller)
        (stage machines.old words.old.items sink.old)
        (stage machines.new words.new.items sink.new)) }
    ensures few { IfOk result (λ _. S.count sink.new + total M.ahead machines.new
        ≤ S.count sink.old + total M.ahead machines.old) }
    ensures fixed { IfOk result (λ _. S.fixed sink.new ≡ S.fixed sink.old) }
{
    for _time in 0..turns.count {
        turn(header, machines, turns.caller, words, sink)?;
    }
    Ok(())
}

/// All turns, one after the other.
fn repeat_all<M: Machine, S: EventSink>(
    header: &Header,
    machines: &mut [M],
    turns: &[Turn],
    words: &mut Vec<u64>,
    sink: &mut S,
) -> Result<(), AllocError>
    requires callers { All (λ turn. turn.caller < length machines.old) turns.now }
    requires ready { IsReady header.now M.header_of machines.old words.old.items }
    requires few { S.count sink.old + total M.ahead machines.old ≤ 2 ^ 62 }
    ensures shown { IfOk result (λ _. HasShown header.now M.header_of M.script S.has_taken
        (turns_of turns.now) (stage machines.old words.old.items sink.old)
        (stage machines.new words.new.items sink.new)) }
    ensures few { IfOk result (λ _. S.count sink.new + total M.ahead machines.new
        ≤ S.count sink.old + total M.ahead machines.old) }
    ensures fixed { IfOk result (λ _. S.fixed sink.new ≡ S.fixed sink.old) }
{
    for turn in turns {
        repeat(header, machines, turn, words, sink)?;
    }
    Ok(())
}

/// Rounds over all callers, until one has no event. Those that are done are found so, and then no
/// round asks them again.
fn play_rounds<M: Machine, S: EventSink>(
    alloc: Global,
    header: &Header,
    machines: &mut [M],
    words: &mut Vec<u64>,
    sink: &mut S,
) -> Result<(), AllocError>
    requires callers { length machines.old ≤ 1024 }
    requires ready { IsReady header.now M.header_of machines.old words.old.items }
    requires few { S.count sink.old + total M.ahead machines.old ≤ 2 ^ 62 }
    ensures rest { IfOk result (λ _. (history : List Stamped) → S.has_taken sink.old history
        → ComesToRest header.now M.header_of M.script S.has_taken
        (stage machines.old words.old.items sink.old)
        (stage machines.new words.new.items sink.new) history) }
    ensures fixed { IfOk result (λ _. S.fixed sink.new ≡ S.fixed sink.old) }
{
    let mut callers = unfinished(alloc, machines)?;
    let mut idle = 0;
    while round(
        alloc,
        header,
        machines,
        &mut callers,
        &mut idle,
        words,
        sink,
    )? {}
    Ok(())
}

/// Whether all machines are done.
fn are_done<M: Machine>(machines: &[M]) -> bool
    ensures { result ≡ list_all (λ m. is_done (next_act (M.script m))) machines.now }
{
    for machine in machines {
        if !is_done(machine) {
            return false;
        }
    }
    true
}

/// All words 0 and all locks free.
fn zeros(alloc: Global, header: &Header) -> Result<Vec<u64>, AllocError>
    ensures { IfOk result
        (λ words. words.items ≡ replicate (plain_words header.now + lock_words header.now) 0) }
{
    let cells = header.plain_words() as usize + header.lock_words() as usize;
    Vec::from_elem(alloc, 0u64, cells)
}

/// Plays all turns and then rounds. There is nothing if the machines get stuck.
fn play<M: Machine, S: EventSink>(
    alloc: Global,
    header: &Header,
    machines: &mut [M],
    turns: &[Turn],
    sink: &mut S,
) -> Result<Option<Vec<u64>>, AllocError>
    requires count { length machines.old ≡ header.now.callers }
    requires header { All (λ m. M.header_of m ≡ header.now) machines.old }
    requires turns { All (λ turn. turn.caller < header.now.callers) turns.now }
    requires none { S.has_taken sink.old [] }
    ensures runs { IfOk result (λ words. MatchOption words
        (AreStuckThere M.script (map M.script machines.old) turns.now machines.new)
        (λ w. HasRun (map M.script machines.old) turns.now header.now S.has_taken sink.new
        w.items)) }
    ensures done { IfOk result (λ words. IfSome words
        (λ _. list_all (λ m. is_done (next_act (M.script m))) machines.new ≡ true)) }
    ensures fixed { IfOk result (λ _. S.fixed sink.new ≡ S.fixed sink.old) }
{
    let mut words = zeros(alloc, header)?;
    repeat_all(header, machines, turns, &mut words, sink)?;
    play_rounds(alloc, header, machines, &mut words, sink)?;
    if are_done(machines) {
        Ok(Some(words))
    } else {
        Ok(None)
    }
}

/// Plays machines over plain memory, from all words 0 and all locks free: first the turns that are
/// given, and then rounds over all callers, until all machines are done. Machine i is that of
/// caller i. A turn of a machine that is done, or that wants a lock which is held, has no event. A
/// round takes no time for callers that were done some rounds before.
///
/// The sink, which has taken nothing, takes each event as it is made; no event is kept beside it.
/// The answer is the memory at the end: the plain words, and then the locks. The events are a
/// function of the machines' scripts and the turns. After `Stuck` the machines are where their
/// scripts are held up, and tell which locks they wait for. Nothing is known of the sink after an
/// error.
pub fn show_turns<M: Machine, S: EventSink>(
    alloc: Global,
    header: Header,
    machines: &mut [M],
    turns: &[Turn],
    sink: &mut S,
) -> Result<Vec<u64>, StepFault>
    requires count { length machines.old ≡ header.callers }
    requires header { All (λ m. M.header_of m ≡ header) machines.old }
    requires turns { All (λ turn. turn.caller < header.callers) turns.now }
    requires none { S.has_taken sink.old [] }
    ensures run { IfOk result (λ words. HasRun (map M.script machines.old) turns.now header
        S.has_taken sink.new words.items) }
    ensures fixed { IfOk result (λ _. S.fixed sink.new ≡ S.fixed sink.old) }
    ensures done { IfOk result
        (λ _. list_all (λ m. is_done (next_act (M.script m))) machines.new ≡ true) }
    ensures stuck { result ≡ Err Stuck
        → AreStuckThere M.script (map M.script machines.old) turns.now machines.new }
{
    match play(alloc, &header, machines, turns, sink) {
        Ok(Some(words)) => Ok(words),
        Ok(None) => Err(StepFault::Stuck),
        Err(AllocError) => Err(StepFault::Memory),
    }
}

/// Plays machines as [`show_turns`] does, and hands their history out whole. It takes time and
/// memory for each event.
pub fn run_turns<M: Machine>(
    alloc: Global,
    header: Header,
    machines: &mut [M],
    turns: &[Turn],
) -> Result<Ran, StepFault>
    requires count { length machines.old ≡ header.callers }
    requires header { All (λ m. M.header_of m ≡ header) machines.old }
    requires turns { All (λ turn. turn.caller < header.callers) turns.now }
    ensures history { IfOk result
        (λ ran. RunsTo (map M.script machines.old) turns.now ran.history.items) }
    ensures words { IfOk result
        (λ ran. ran.words.items ≡ memory_after header (newest_first ran.history.items)) }
    ensures done { IfOk result
        (λ _. list_all (λ m. is_done (next_act (M.script m))) machines.new ≡ true) }
    ensures stuck { result ≡ Err Stuck
        → AreStuckThere M.script (map M.script machines.old) turns.now machines.new }
{
    let mut history = Vec::new(alloc);
    let words = show_turns(alloc, header, machines, turns, &mut history)?;
    Ok(Ran { history, words })
}
