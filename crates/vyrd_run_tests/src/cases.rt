//! Operations from words that are given, act by act.

ghost use Rattle.std.specs.Prelude.{◌≡◌, ◌<◌, ◌^◌, true};
ghost use Rattle.vyrd_base.specs.declared.header.Header.{Header};
ghost use Rattle.vyrd_memory.specs.Players.{is_callable};
ghost use Rattle.vyrd_memory.specs.Scripts.{IsAnswer};

use std::alloc::Global;
use std::process::Abort;
use vyrd_base::{Args, Header, Kind, Method, Subject};
use vyrd_memory::{Act, Machine, Op, Player, Progress, Variant};

/// A call, the words that it begins with, and what it does after the mark of the call.
pub(super) struct Case {
    pub(super) size: u32,
    pub(super) words: &'static [u64],
    pub(super) variant: Variant,
    pub(super) method: Method,
    pub(super) args: (u32, u32, u32),
    pub(super) acts: &'static [Act],
}

/// Asserts each of these cases.
pub(super) fn assert_cases<P: Progress>(
    rt: &impl Abort,
    alloc: Global,
    subject: Subject,
    cases: &[Case],
)
    requires { subject ≡ P.subject }
{
    for (row, case) in cases.iter().enumerate() {
        assert!(rt; holds::<P>(alloc, subject, case), "row {row}");
    }
}

/// Whether the call does what the case says.
fn holds<P: Progress>(alloc: Global, subject: Subject, case: &Case) -> bool
    requires { subject ≡ P.subject }
{
    let Some(header) = Header::new(1, subject, case.size, 1) else {
        return false;
    };
    let (a, b, c) = case.args;
    let op = Op {
        method: case.method,
        args: Args { a, b, c },
    };
    header.fits(op.method, op.args) && plays::<P>(alloc, header, op, case)
}

/// Whether an operation that may be called does what the case says.
fn plays<P: Progress>(alloc: Global, header: Header, op: Op, case: &Case) -> bool
    requires subject { header.subject ≡ P.subject }
    requires op { is_callable header op ≡ true }
{
    let Ok(mut words) = case.words.to_vec(alloc) else {
        return false;
    };
    match Player::<P>::new(alloc, header, 0, case.variant, &[op]) {
        Ok(mut machine) => calls(&mut machine, op) && does(&mut machine, &mut words, case.acts),
        Err(_) => false,
    }
}

/// Whether the machine marks this call next. It does so.
fn calls<M: Machine>(machine: &mut M, op: Op) -> bool {
    if machine.wants() != Act::Mark(Kind::Call(op.method, op.args)) {
        return false;
    }
    machine.took(0);
    true
}

/// Whether the machine does these acts in these words, and then is done.
fn does<M: Machine>(machine: &mut M, words: &mut [u64], acts: &[Act]) -> bool {
    for wanted in acts {
        let act = machine.wants();
        if act == Act::Done || act != *wanted {
            return false;
        }
        machine.took(answer(words, act));
    }
    machine.wants() == Act::Done
}

/// Plays the machine in these words to its end, 1,000 acts at most. The value is what it returned
/// last.
pub(super) fn reply<M: Machine>(machine: &mut M, words: &mut [u64]) -> Option<u64> {
    let mut reply = None;
    for _ in 0..1000 {
        let act = machine.wants();
        if act == Act::Done {
            return reply;
        }
        if let Act::Mark(Kind::Return(value)) = act {
            reply = Some(value);
        }
        machine.took(answer(words, act));
    }
    None
}

/// Does an act in these words: what a load finds is the answer, and a store changes a word.
fn answer(words: &mut [u64], act: Act) -> u64
    ensures { IsAnswer act result }
{
    match act {
        Act::Load(cell) => word(words, cell),
        Act::Store(cell, value) => {
            if let Some(word) = words.get_mut(cell as usize) {
                *word = value;
            }
            0
        }
        _ => 0,
    }
}

/// The word that a load finds. Words are below 2^63.
pub(super) fn word(words: &[u64], cell: u32) -> u64
    ensures { result < 2 ^ 63 }
{
    match words.get(cell as usize) {
        Some(word) if *word < 1 << 63 => *word,
        _ => 0,
    }
}
