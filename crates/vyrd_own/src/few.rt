//! Values that have a name, where there are few of them: they take no memory.

ghost use Rattle.std.specs.Prelude.{◌≡◌, ◌+◌, ◌<◌, ◌≤◌, ◌++◌, map, length, take};
ghost use Rattle.vyrd_own.specs.Layout.{expr_in, method_of, written};
ghost use Rattle.vyrd_base.specs.Own.Expressions.{value};
ghost use Rattle.vyrd_base.specs.Own.Steps.{with_lets, at_hand, answer_of};
ghost use Rattle.vyrd_own.specs.Prices.{nodes_of, lets_price, hand_price, answer_price};

use crate::code::Code;
use crate::program::{Method, Program};
use crate::state::StateOf;
use crate::steps::value_counted;
use std::marker::Brand;
use std::sync::ledger::{Blank, Ledger};
use vyrd_base::Steps;

/// As many values as most methods and parts have.
pub(crate) const USUAL: usize = 16;

/// The most values: 64 constants, 16 registers, 3 arguments and 16 names, or the words of a part in
/// place of the last three.
pub(crate) const MOST: usize = 128;

/// What an execution that commits nothing has to reply. It takes no memory.
#[inline(always)]
pub fn answer_of_few(
    program: &Program,
    method: &Method,
    args: &[u64],
    state: &StateOf,
) -> Option<u64>
    requires { length program.now.constants.items + length state.now.registers + length args.now
        + length method.now.lets.items ≤ 128 }
    ensures { result ≡ answer_of (written program.now) (method_of method.now) args.now state.now }
{
    answer_alone::<Brand>(Blank::new(1), program, method, args, state)
}

/// Answers with a count of its own.
#[inline(always)]
fn answer_alone<L: Ledger>(
    blank: Blank,
    program: &Program,
    method: &Method,
    args: &[u64],
    state: &StateOf,
) -> Option<u64>
    requires name { blank.name ≡ L.name }
    requires parts { blank.parts ≡ L.parts }
    requires some { 0 < blank.parts }
    requires few { length program.now.constants.items + length state.now.registers
        + length args.now + length method.now.lets.items ≤ 128 }
    ensures { result ≡ answer_of (written program.now) (method_of method.now) args.now state.now }
{
    let mut steps = Steps::<L>::new(blank);
    answer_of_few_counted(program, method, args, state, &mut steps)
}

/// What an execution that commits nothing has to reply, as `answer_of_few` says it, with its steps
/// counted.
#[tactic(auto, unfolding(vyrd_base::specs::Own::Steps::answer_of))]
pub fn answer_of_few_counted<L: Ledger>(
    program: &Program,
    method: &Method,
    args: &[u64],
    state: &StateOf,
    steps: &mut Steps<L>,
) -> Option<u64>
    requires { length program.now.constants.items + length state.now.registers + length args.now
        + length method.now.lets.items ≤ 128 }
    ensures answer { result
        ≡ answer_of (written program.now) (method_of method.now) args.now state.now }
    ensures steps { steps.new ≤ steps.old
        + answer_price (written program.now) (method_of method.now) state.now args.now }
{
    let Some(code) = &method.answer else {
        return None;
    };
    let count = program.constants.len() + state.registers().len() + args.len() + method.lets.len();
    if count <= USUAL {
        let mut room = [0; USUAL];
        return Some(answer_in(&mut room, program, method, args, state, code, steps));
    }
    let mut room = [0; MOST];
    Some(answer_in(&mut room, program, method, args, state, code, steps))
}

/// The value of the answer. `room` has a place for each value that has a name in the method.
fn answer_in<L: Ledger>(
    room: &mut [u64],
    program: &Program,
    method: &Method,
    args: &[u64],
    state: &StateOf,
    code: &Code,
    steps: &mut Steps<L>,
) -> u64
    requires { length program.now.constants.items + length state.now.registers + length args.now
        + length method.now.lets.items ≤ length room.old }
    ensures value { result ≡ value state.now
        (at_hand (written program.now) (method_of method.now) state.now args.now)
        (expr_in code.now) }
    ensures steps { steps.new ≤ steps.old
        + hand_price (written program.now) (method_of method.now) state.now args.now
        + nodes_of (expr_in code.now) }
{
    let constants = put_few_counted(room, 0, &program.constants, steps);
    let registers = put_few_counted(room, constants, state.registers(), steps);
    let count = put_few_counted(room, registers, args, steps);
    let count = put_few_lets(room, count, &method.lets, state, steps);
    value_counted(code, state, &room[..count], steps)
}

/// Puts these behind the first `count`, as `put_few` does, with a step for each.
#[inline(always)]
fn put_few_counted<L: Ledger>(
    room: &mut [u64],
    count: usize,
    more: &[u64],
    steps: &mut Steps<L>,
) -> usize
    requires { count + length more.now ≤ length room.old }
    ensures count { result ≡ count + length more.now }
    ensures len { length room.new ≡ length room.old }
    ensures items { take result room.new ≡ take count room.old ++ more.now }
    ensures steps { steps.new ≡ steps.old + length more.now }
{
    steps.add(more.len());
    put_few(room, count, more)
}

/// Puts these behind the first `count`, and answers how many there are with them.
#[inline(always)]
pub(crate) fn put_few(room: &mut [u64], count: usize, more: &[u64]) -> usize
    requires { count + length more.now ≤ length room.old }
    ensures count { result ≡ count + length more.now }
    ensures len { length room.new ≡ length room.old }
    ensures items { take result room.new ≡ take count room.old ++ more.now }
{
    let end = count + more.len();
    room[count..end].copy_from_slice(more);
    end
}

/// Puts the value of each `let` behind the first `count`, and answers how many there are with them.
fn put_few_lets<L: Ledger>(
    room: &mut [u64],
    count: usize,
    lets: &[Code],
    state: &StateOf,
    steps: &mut Steps<L>,
) -> usize
    requires { count + length lets.now ≤ length room.old }
    ensures count { result ≡ count + length lets.now }
    ensures len { length room.new ≡ length room.old }
    ensures items { take result room.new
        ≡ with_lets state.now (take count room.old) (map expr_in lets.now) }
    ensures steps { steps.new ≤ steps.old + lets_price (map expr_in lets.now) }
{
    let mut count = count;
    for code in lets {
        steps.tick();
        let found = value_counted(code, state, &room[..count], steps);
        room[count] = found;
        count += 1;
    }
    count
}
