//! What counts for whether a call may have a reply.

ghost use Rattle.std.specs.Prelude.{◌≡◌, ◌++◌, [], ◌∷◌, ◌≤◌, length, map, OnOk, if◌then◌else◌};
ghost use Rattle.std.specs.List.{flat_map};
ghost use Rattle.vyrd_base.specs.Own.Expressions.{value, holds};
ghost use Rattle.vyrd_own.specs.Layout.{expr_in, case_of, method_of, written};
ghost use Rattle.vyrd_own.specs.Nodes.{expr_of, exprs_of, earlier};
ghost use Rattle.vyrd_own.specs.Reads.{reads_of, worth_of, worths_in, worths};

use crate::code::Code;
use crate::evaluation::evaluate;
use crate::node::Node;
use crate::program::{Case, Method, Program};
use crate::state::StateOf;
use crate::steps::{Room, put_values};
use std::alloc::AllocError;

/// Which amount an expression reads, if it is one.
#[derive(Clone, Copy, Debug, PartialEq, Eq)]
pub enum Reads {
    /// The shown amount of this key.
    Shown(u64),
    /// The hidden amount of this key.
    Hidden(u64),
    /// It is no amount.
    Nothing,
}

/// What an expression is worth, and which amount it reads.
#[derive(Clone, Copy, Debug, PartialEq, Eq)]
pub struct Worth {
    /// Its value.
    pub value: u64,
    /// Which amount the value is.
    pub reads: Reads,
}

/// Puts what counts for whether a call may have a reply at the end of `found`: what each `let` of
/// the method and the test of each case are worth, each behind what its parts are worth. Of a choice
/// only the part that its test leads to counts. If memory runs out, `found` has some of it.
///
/// Each part is evaluated anew. So if each node is spoken of by one later node, the time grows with
/// the nodes of an expression times how deep they are nested, and `found` by one a node at most.
pub fn put_worths(
    program: &Program,
    method: &Method,
    args: &[u64],
    reply: u64,
    state: &StateOf,
    room: &mut Room,
    found: &mut Vec<Worth>,
) -> Result<(), AllocError>
    ensures { OnOk result (found.new.items ≡ found.old.items
        ++ worths (written program.now) (method_of method.now) state.now args.now reply) }
{
    put_values(program, method, args, state, &mut room.values)?;
    room.values.push(reply)?;
    put_of_lets(&method.lets, state, &room.values, found)?;
    put_of_cases(&method.cases, state, &room.values, found)
}

/// Puts what counts for the values of the `let`s at the end of `found`.
fn put_of_lets(
    lets: &[Code],
    state: &StateOf,
    values: &[u64],
    found: &mut Vec<Worth>,
) -> Result<(), AllocError>
    ensures { OnOk result (found.new.items ≡ found.old.items
        ++ flat_map (worths_in state.now values.now) (map expr_in lets.now)) }
{
    for code in lets {
        put_counted(&code.nodes, state, values, found)?;
    }
    Ok(())
}

/// Puts what counts for the tests of the cases at the end of `found`.
fn put_of_cases(
    cases: &[Case],
    state: &StateOf,
    values: &[u64],
    found: &mut Vec<Worth>,
) -> Result<(), AllocError>
    ensures { OnOk result (found.new.items ≡ found.old.items ++ flat_map
        (worths_in state.now values.now) (map (λ case. case.allow) (map case_of cases.now))) }
{
    for case in cases {
        put_counted(&case.allow.nodes, state, values, found)?;
    }
    Ok(())
}

/// Puts what counts for the expression of these nodes at the end of `found`.
#[cycle(reads)]
fn put_counted(
    nodes: &[Node],
    state: &StateOf,
    values: &[u64],
    found: &mut Vec<Worth>,
) -> Result<(), AllocError>
    ensures { OnOk result (found.new.items
        ≡ found.old.items ++ worths_in state.now values.now (expr_of nodes.now)) }
{
    put_inner(nodes, state, values, found)?;
    found.push(worth_of(nodes, state, values))?;
    Ok(())
}

/// Puts the same, but not yet what the expression itself is worth.
#[cycle(reads)]
fn put_inner(
    nodes: &[Node],
    state: &StateOf,
    values: &[u64],
    found: &mut Vec<Worth>,
) -> Result<(), AllocError>
    ensures { OnOk result
        (found.new.items ++ worth_of state.now values.now (expr_of nodes.now) ∷ []
        ≡ found.old.items ++ worths_in state.now values.now (expr_of nodes.now)) }
{
    let Some((last, front)) = nodes.split_last() else {
        return Ok(());
    };
    match *last {
        Node::Shown(a) | Node::Hidden(a) | Node::Least(a) | Node::Greatest(a) | Node::Not(a) => {
            put_counted(upto(front, a), state, values, found)
        }
        Node::Infix(_, a, b) => {
            put_counted(upto(front, a), state, values, found)?;
            put_counted(upto(front, b), state, values, found)
        }
        Node::Choice(test, a, b) => {
            let test = upto(front, test);
            put_counted(test, state, values, found)?;
            let chosen = chosen(test, a, b, state, values);
            put_counted(upto(front, chosen), state, values, found)
        }
        _ => Ok(()),
    }
}

/// The second or the third number, by the expression of these nodes.
fn chosen(test: &[Node], a: usize, b: usize, state: &StateOf, values: &[u64]) -> usize
    ensures { result ≡ (if holds (value state.now values.now (expr_of test.now)) then a else b) }
{
    if evaluate(test, state, values) != 0 {
        return a;
    }
    b
}

/// The nodes of an earlier expression, and none if it isn't there.
fn upto(front: &[Node], i: usize) -> &[Node]
    ensures is { expr_of result.now ≡ earlier (exprs_of front.now) i }
    ensures len { length result.now ≤ length front.now }
{
    if i < front.len() {
        return &front[..i + 1];
    }
    &front[..0]
}

/// What the expression of these nodes is worth.
fn worth_of(nodes: &[Node], state: &StateOf, values: &[u64]) -> Worth
    ensures { result ≡ worth_of state.now values.now (expr_of nodes.now) }
{
    Worth {
        value: evaluate(nodes, state, values),
        reads: reads_of(nodes, state, values),
    }
}

/// Which amount the expression of these nodes reads.
fn reads_of(nodes: &[Node], state: &StateOf, values: &[u64]) -> Reads
    ensures { result ≡ reads_of state.now values.now (expr_of nodes.now) }
{
    let Some((last, front)) = nodes.split_last() else {
        return Reads::Nothing;
    };
    match *last {
        Node::Shown(a) => Reads::Shown(evaluate(upto(front, a), state, values)),
        Node::Hidden(a) => Reads::Hidden(evaluate(upto(front, a), state, values)),
        _ => Reads::Nothing,
    }
}
