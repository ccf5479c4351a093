//! The value of an expression.

ghost use Rattle.std.specs.Prelude.{◌≡◌, ◌+◌, ◌<◌, ◌≤◌, slice_index};
ghost use Rattle.vyrd_base.specs.Own.Expressions.{value, operated};
ghost use Rattle.vyrd_own.specs.Nodes.{expr_of, expr_at, exprs_of, earlier};
ghost use Rattle.vyrd_own.specs.Prices.{looked_at, nodes_of};

use crate::node::Node;
use crate::state::StateOf;
use std::marker::Brand;
use std::sync::ledger::{Blank, Ledger};
use vyrd_base::{Op, Steps};

/// The value of the expression of these nodes, as `evaluate_counted` finds it.
#[inline(always)]
pub fn evaluate(nodes: &[Node], state: &StateOf, values: &[u64]) -> u64
    ensures { result ≡ value state.now values.now (expr_of nodes.now) }
{
    evaluate_alone::<Brand>(Blank::new(1), nodes, state, values)
}

/// Evaluates with a count of its own.
#[inline(always)]
fn evaluate_alone<L: Ledger>(blank: Blank, nodes: &[Node], state: &StateOf, values: &[u64]) -> u64
    requires name { blank.name ≡ L.name }
    requires parts { blank.parts ≡ L.parts }
    requires some { 0 < blank.parts }
    ensures { result ≡ value state.now values.now (expr_of nodes.now) }
{
    let mut steps = Steps::<L>::new(blank);
    evaluate_counted(nodes, state, values, &mut steps)
}

/// The value of the expression of these nodes. It takes no memory. It looks at a node once for each
/// later node that it looks at and that speaks of it; of the two parts of a choice it looks at one.
#[cycle(evaluation)]
pub fn evaluate_counted<L: Ledger>(
    nodes: &[Node],
    state: &StateOf,
    values: &[u64],
    steps: &mut Steps<L>,
) -> u64
    ensures value { result ≡ value state.now values.now (expr_of nodes.now) }
    ensures looked_at { steps.new
        ≤ steps.old + looked_at state.now values.now (expr_of nodes.now) }
    ensures steps { steps.new ≤ steps.old + nodes_of (expr_of nodes.now) }
{
    let Some((last, front)) = nodes.split_last() else {
        return 0;
    };
    node_value(*last, front, state, values, steps)
}

/// The value of a node, after those before it.
#[cycle(evaluation)]
#[inline(always)]
fn node_value<L: Ledger>(
    node: Node,
    front: &[Node],
    state: &StateOf,
    values: &[u64],
    steps: &mut Steps<L>,
) -> u64
    ensures value { result ≡ value state.now values.now (expr_at (exprs_of front.now) node) }
    ensures looked_at { steps.new ≤ steps.old
        + looked_at state.now values.now (expr_at (exprs_of front.now) node) }
{
    steps.tick();
    match node {
        Node::Number(n) => n,
        Node::At(i) => at(values, i),
        Node::Shown(a) => state
            .shown()
            .amount(earlier(front, a, state, values, steps)),
        Node::Hidden(a) => state
            .hidden()
            .amount(earlier(front, a, state, values, steps)),
        Node::Least(a) => state.shown().least(earlier(front, a, state, values, steps)),
        Node::Greatest(a) => state
            .shown()
            .greatest(earlier(front, a, state, values, steps)),
        Node::Count => state.shown().count(),
        Node::First(i) => state.first(i),
        Node::Last(i) => state.last(i),
        Node::Size(i) => state.size(i),
        Node::Not(a) => u64::from(earlier(front, a, state, values, steps) == 0),
        Node::Infix(op, a, b) => operate(
            op,
            earlier(front, a, state, values, steps),
            earlier(front, b, state, values, steps),
        ),
        Node::Choice(test, a, b) => {
            if earlier(front, test, state, values, steps) != 0 {
                earlier(front, a, state, values, steps)
            } else {
                earlier(front, b, state, values, steps)
            }
        }
    }
}

/// The value of an earlier node, and 0 if it isn't there.
#[cycle(evaluation)]
fn earlier<L: Ledger>(
    front: &[Node],
    i: usize,
    state: &StateOf,
    values: &[u64],
    steps: &mut Steps<L>,
) -> u64
    ensures value { result ≡ value state.now values.now (earlier (exprs_of front.now) i) }
    ensures looked_at { steps.new ≤ steps.old
        + looked_at state.now values.now (earlier (exprs_of front.now) i) }
{
    if i < front.len() {
        return match front[i] {
            Node::Number(n) => {
                steps.tick();
                n
            }
            Node::At(j) => {
                steps.tick();
                at(values, j)
            }
            _ => evaluate_counted(&front[..i + 1], state, values, steps),
        };
    }
    0
}

/// The value of that number, and 0 if it isn't there.
#[inline(always)]
fn at(values: &[u64], i: usize) -> u64
    ensures { result ≡ slice_index values.now i }
{
    values.get(i).copied().unwrap_or(0)
}

/// The value of an operation.
#[inline(always)]
fn operate(op: Op, a: u64, b: u64) -> u64
    ensures { result ≡ operated op a b }
{
    match op {
        Op::Plus => a.saturating_add(b),
        Op::Minus => a.saturating_sub(b),
        Op::Times => a.saturating_mul(b),
        Op::Over => a.checked_div(b).unwrap_or(0),
        Op::Rest => a.checked_rem(b).unwrap_or(0),
        Op::Equal => u64::from(a == b),
        Op::Unequal => u64::from(a != b),
        Op::Below => u64::from(a < b),
        Op::AtMost => u64::from(a <= b),
        Op::Above => u64::from(a > b),
        Op::AtLeast => u64::from(a >= b),
        Op::And => u64::from(a != 0 && b != 0),
        Op::Or => u64::from(a != 0 || b != 0),
    }
}
