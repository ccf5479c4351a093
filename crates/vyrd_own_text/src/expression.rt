//! An expression, read from its text.

ghost use Rattle.std.specs.Prelude.{◌≡◌, ◌<◌, ◌++◌, map, option_map, codes, List, ℕ, OnOk, IfOk};
ghost use Rattle.std.specs.Prelude.{length, Err, Ok};
ghost use Rattle.vyrd_base.specs.Own.Expressions.{Expr, number, at, count};
ghost use Rattle.vyrd_base.specs.Own.Spelling.{op_word};
ghost use Rattle.vyrd_own.specs.Nodes.{earlier, expr_at, exprs_of, expr_of};
ghost use Rattle.vyrd_own.specs.Layout.{texts};
ghost use Rattle.vyrd_own_text.specs.Growth.{Adds, wrap_of, ends_of, scope_of, read_as};
ghost use Rattle.vyrd_own_text.specs.Growth.{OnRest, found_as};
ghost use Rattle.vyrd_base.specs.Own.Reading.{op_read, one_read, infix_read, choice_read};
ghost use Rattle.vyrd_base.specs.Own.Reading.{round_read};
ghost use Rattle.vyrd_base.specs.Own.Reading.{whole_read, expr_read, atom_read, op_among, of_state};
ghost use Rattle.vyrd_base.specs.Own.Reading.{unknown, list_read, name_read};

use crate::scope::Names;
use crate::text::{after, find_name, is_lettered, is_same, read_number, split_word};
use std::alloc::AllocError;
use vyrd_base::{Op, SpecificationRule};
use vyrd_own::Node;

/// What was read of a text: what follows it, or the rule that is broken and the text from there on.
#[derive(Clone, Copy)]
pub enum Read<'a> {
    Rest(&'a [u8]),
    Stopped(SpecificationRule, &'a [u8]),
}

/// What is made of one expression.
#[derive(Clone, Copy)]
pub enum Wrap {
    Shown,
    Hidden,
    Least,
    Greatest,
    Not,
}

/// What is made of a list.
#[derive(Clone, Copy)]
pub enum Ends {
    First,
    Last,
    Size,
}

/// The node that makes this of an earlier expression.
fn wrapped(wrap: Wrap, i: usize) -> Node
    ensures { (exprs : List Expr) → expr_at exprs result ≡ wrap_of wrap (earlier exprs i) }
{
    match wrap {
        Wrap::Shown => Node::Shown(i),
        Wrap::Hidden => Node::Hidden(i),
        Wrap::Least => Node::Least(i),
        Wrap::Greatest => Node::Greatest(i),
        Wrap::Not => Node::Not(i),
    }
}

/// The node that makes this of a list.
fn of_list(ends: Ends, i: usize) -> Node
    ensures { (exprs : List Expr) → expr_at exprs result ≡ ends_of ends i }
{
    match ends {
        Ends::First => Node::First(i),
        Ends::Last => Node::Last(i),
        Ends::Size => Node::Size(i),
    }
}

/// The number of the last node.
fn last(nodes: &Vec<Node>) -> usize
    ensures number { earlier (exprs_of nodes.now.items) result ≡ expr_of nodes.now.items }
    ensures within { 0 < length nodes.now.items → result < length nodes.now.items }
{
    nodes.len().saturating_sub(1)
}

/// Puts a node at the end.
fn push(nodes: &mut Vec<Node>, node: Node) -> Result<(), AllocError>
    ensures expr { OnOk result (expr_of nodes.new.items ≡ expr_at (exprs_of nodes.old.items) node) }
    ensures adds { OnOk result (Adds nodes.old.items nodes.new.items) }
{
    nodes.push(node)?;
    Ok(())
}

/// The operation at the front of a text, between its spaces, and what follows it.
#[tactic(auto, unfolding(vyrd_base::specs::Own::Reading::op_read))]
fn read_op(text: &[u8]) -> Result<(Op, &[u8]), (SpecificationRule, &[u8])>
    ensures { found_as result ≡ op_read text.now }
{
    let ops = [
        Op::Plus,
        Op::Minus,
        Op::Times,
        Op::Over,
        Op::Rest,
        Op::Equal,
        Op::Unequal,
        Op::Below,
        Op::AtMost,
        Op::Above,
        Op::AtLeast,
        Op::And,
        Op::Or,
    ];
    read_op_among(&ops, text)
}

/// The first of these operations that stands at the front of a text, and what follows it.
fn read_op_among<'a>(
    ops: &[Op],
    text: &'a [u8],
) -> Result<(Op, &'a [u8]), (SpecificationRule, &'a [u8])>
    ensures { found_as result ≡ op_among ops.now text.now }
{
    for op in ops {
        if let Some(rest) = after(text, word_of_op(*op)) {
            return Ok((*op, rest));
        }
    }
    Err((SpecificationRule::BadLine, text))
}

/// The word of an operation, between its spaces.
fn word_of_op(op: Op) -> &'static [u8]
    ensures { result.now ≡ op_word op }
{
    match op {
        Op::Plus => b" + ",
        Op::Minus => b" - ",
        Op::Times => b" * ",
        Op::Over => b" / ",
        Op::Rest => b" % ",
        Op::Equal => b" == ",
        Op::Unequal => b" != ",
        Op::Below => b" < ",
        Op::AtMost => b" <= ",
        Op::Above => b" > ",
        Op::AtLeast => b" >= ",
        Op::And => b" and ",
        Op::Or => b" or ",
    }
}

/// Reads an expression that is nested less deep than `depth`, puts its nodes at the end of `nodes`,
/// and answers what follows it.
#[tactic(auto, unfolding(vyrd_base::specs::Own::Reading::whole_read))]
#[cycle(expr)]
pub fn read_expr<'a>(
    names: &Names,
    depth: u32,
    text: &'a [u8],
    nodes: &mut Vec<Node>,
) -> Result<Read<'a>, AllocError>
    ensures read { IfOk result (λ r. read_as (expr_of nodes.new.items) r
        ≡ expr_read (scope_of names.now) depth text.now) }
    ensures adds { IfOk result (λ r. OnRest r (Adds nodes.old.items nodes.new.items)) }
{
    if depth == 0 {
        return Ok(Read::Stopped(SpecificationRule::TooDeep, text));
    }
    let depth = depth - 1;
    if let Some(rest) = after(text, b"(") {
        return read_round(names, depth, rest, nodes);
    }
    if let Some(rest) = after(text, b"[") {
        return read_of_state(names, depth, Wrap::Shown, b"]", rest, text, nodes);
    }
    if let Some(rest) = after(text, b"{") {
        return read_of_state(names, depth, Wrap::Hidden, b"}", rest, text, nodes);
    }
    read_atom(names, text, nodes)
}

/// Reads `none`, `count`, a number or a name.
#[tactic(auto, unfolding(vyrd_base::specs::Own::Reading::atom_read))]
fn read_atom<'a>(
    names: &Names,
    text: &'a [u8],
    nodes: &mut Vec<Node>,
) -> Result<Read<'a>, AllocError>
    ensures read { IfOk result (λ r. read_as (expr_of nodes.new.items) r
        ≡ atom_read (scope_of names.now) text.now) }
    ensures adds { IfOk result (λ r. OnRest r (Adds nodes.old.items nodes.new.items)) }
{
    let (word, rest) = split_word(text);
    if is_same(word, b"none") {
        push(nodes, Node::Number(u64::MAX))?;
        return Ok(Read::Rest(rest));
    }
    if is_same(word, b"count") {
        if !names.reads {
            return Ok(Read::Stopped(SpecificationRule::StateIsRead, text));
        }
        push(nodes, Node::Count)?;
        return Ok(Read::Rest(rest));
    }
    if let Some(number) = read_number(word) {
        push(nodes, Node::Number(number))?;
        return Ok(Read::Rest(rest));
    }
    match read_name(&names.values, text) {
        Ok((place, rest)) => {
            push(nodes, Node::At(place))?;
            Ok(Read::Rest(rest))
        }
        Err((rule, at)) => Ok(Read::Stopped(rule, at)),
    }
}

/// Reads a name.
pub fn read_name<'a>(
    names: &[Vec<u8>],
    text: &'a [u8],
) -> Result<(usize, &'a [u8]), (SpecificationRule, &'a [u8])>
    ensures { found_as result ≡ name_read (texts names.now) text.now }
{
    let (word, rest) = split_word(text);
    if let Some(place) = find_name(names, word) {
        return Ok((place, rest));
    }
    if is_lettered(text) {
        return Err((SpecificationRule::UnknownName, text));
    }
    Err((SpecificationRule::BadLine, text))
}

/// Reads what stands after `(`.
#[tactic(auto, unfolding(vyrd_base::specs::Own::Reading::round_read))]
#[cycle(expr)]
fn read_round<'a>(
    names: &Names,
    depth: u32,
    text: &'a [u8],
    nodes: &mut Vec<Node>,
) -> Result<Read<'a>, AllocError>
    ensures read { IfOk result (λ r. read_as (expr_of nodes.new.items) r
        ≡ round_read (expr_read (scope_of names.now) depth) (scope_of names.now) text.now) }
    ensures adds { IfOk result (λ r. OnRest r (Adds nodes.old.items nodes.new.items)) }
{
    if let Some(rest) = after(text, b"if ") {
        return read_choice(names, depth, rest, nodes);
    }
    if let Some(rest) = after(text, b"not ") {
        return read_one(names, depth, Wrap::Not, b")", rest, nodes);
    }
    if let Some(rest) = after(text, b"least ") {
        return read_of_state(names, depth, Wrap::Least, b")", rest, text, nodes);
    }
    if let Some(rest) = after(text, b"greatest ") {
        return read_of_state(names, depth, Wrap::Greatest, b")", rest, text, nodes);
    }
    if let Some(rest) = after(text, b"first ") {
        return read_list(names, Ends::First, rest, text, nodes);
    }
    if let Some(rest) = after(text, b"last ") {
        return read_list(names, Ends::Last, rest, text, nodes);
    }
    if let Some(rest) = after(text, b"length ") {
        return read_list(names, Ends::Size, rest, text, nodes);
    }
    read_infix(names, depth, text, nodes)
}

/// Reads a list's name and the bracket that closes, where the state may be read.
fn read_list<'a>(
    names: &Names,
    ends: Ends,
    text: &'a [u8],
    whole: &'a [u8],
    nodes: &mut Vec<Node>,
) -> Result<Read<'a>, AllocError>
    ensures read { IfOk result (λ r. read_as (expr_of nodes.new.items) r
        ≡ of_state (scope_of names.now) whole.now
        (list_read (texts names.now.lists.items) (ends_of ends) text.now)) }
    ensures adds { IfOk result (λ r. OnRest r (Adds nodes.old.items nodes.new.items)) }
{
    if !names.reads {
        return Ok(Read::Stopped(SpecificationRule::StateIsRead, whole));
    }
    let (place, rest) = match read_name(&names.lists, text) {
        Ok((place, rest)) => (place, rest),
        Err((rule, at)) => return Ok(Read::Stopped(rule, at)),
    };
    let Some(rest) = after(rest, b")") else {
        return Ok(Read::Stopped(SpecificationRule::BadLine, rest));
    };
    push(nodes, of_list(ends, place))?;
    Ok(Read::Rest(rest))
}

/// Reads one expression and the bracket that closes it, where the state may be read.
#[cycle(expr)]
fn read_of_state<'a>(
    names: &Names,
    depth: u32,
    wrap: Wrap,
    close: &[u8],
    text: &'a [u8],
    whole: &'a [u8],
    nodes: &mut Vec<Node>,
) -> Result<Read<'a>, AllocError>
    ensures read { IfOk result (λ r. read_as (expr_of nodes.new.items) r
        ≡ of_state (scope_of names.now) whole.now
        (one_read (expr_read (scope_of names.now) depth) (wrap_of wrap) close.now text.now)) }
    ensures adds { IfOk result (λ r. OnRest r (Adds nodes.old.items nodes.new.items)) }
{
    if !names.reads {
        return Ok(Read::Stopped(SpecificationRule::StateIsRead, whole));
    }
    read_one(names, depth, wrap, close, text, nodes)
}

/// Reads one expression and the bracket that closes it.
#[cycle(expr)]
fn read_one<'a>(
    names: &Names,
    depth: u32,
    wrap: Wrap,
    close: &[u8],
    text: &'a [u8],
    nodes: &mut Vec<Node>,
) -> Result<Read<'a>, AllocError>
    ensures read { IfOk result (λ r. read_as (expr_of nodes.new.items) r
        ≡ one_read (expr_read (scope_of names.now) depth) (wrap_of wrap) close.now text.now) }
    ensures adds { IfOk result (λ r. OnRest r (Adds nodes.old.items nodes.new.items)) }
{
    let rest = match read_expr(names, depth, text, nodes)? {
        Read::Rest(rest) => rest,
        Read::Stopped(rule, at) => return Ok(Read::Stopped(rule, at)),
    };
    let Some(rest) = after(rest, close) else {
        return Ok(Read::Stopped(SpecificationRule::BadLine, rest));
    };
    let part = last(nodes);
    push(nodes, wrapped(wrap, part))?;
    Ok(Read::Rest(rest))
}

/// Reads two expressions with an operation between them, and the bracket that closes them.
#[cycle(expr)]
fn read_infix<'a>(
    names: &Names,
    depth: u32,
    text: &'a [u8],
    nodes: &mut Vec<Node>,
) -> Result<Read<'a>, AllocError>
    ensures read { IfOk result (λ r. read_as (expr_of nodes.new.items) r
        ≡ infix_read (expr_read (scope_of names.now) depth) text.now) }
    ensures adds { IfOk result (λ r. OnRest r (Adds nodes.old.items nodes.new.items)) }
{
    let rest = match read_expr(names, depth, text, nodes)? {
        Read::Rest(rest) => rest,
        Read::Stopped(rule, at) => return Ok(Read::Stopped(rule, at)),
    };
    let first = last(nodes);
    let (op, rest) = match read_op(rest) {
        Ok((op, rest)) => (op, rest),
        Err((rule, at)) => return Ok(Read::Stopped(rule, at)),
    };
    let rest = match read_expr(names, depth, rest, nodes)? {
        Read::Rest(rest) => rest,
        Read::Stopped(rule, at) => return Ok(Read::Stopped(rule, at)),
    };
    let Some(rest) = after(rest, b")") else {
        return Ok(Read::Stopped(SpecificationRule::BadLine, rest));
    };
    let second = last(nodes);
    push(nodes, Node::Infix(op, first, second))?;
    Ok(Read::Rest(rest))
}

/// Reads the three expressions of a choice, and the bracket that closes them.
#[cycle(expr)]
fn read_choice<'a>(
    names: &Names,
    depth: u32,
    text: &'a [u8],
    nodes: &mut Vec<Node>,
) -> Result<Read<'a>, AllocError>
    ensures read { IfOk result (λ r. read_as (expr_of nodes.new.items) r
        ≡ choice_read (expr_read (scope_of names.now) depth) text.now) }
    ensures adds { IfOk result (λ r. OnRest r (Adds nodes.old.items nodes.new.items)) }
{
    let rest = match read_expr(names, depth, text, nodes)? {
        Read::Rest(rest) => rest,
        Read::Stopped(rule, at) => return Ok(Read::Stopped(rule, at)),
    };
    let test = last(nodes);
    let Some(rest) = after(rest, b" then ") else {
        return Ok(Read::Stopped(SpecificationRule::BadLine, rest));
    };
    let rest = match read_expr(names, depth, rest, nodes)? {
        Read::Rest(rest) => rest,
        Read::Stopped(rule, at) => return Ok(Read::Stopped(rule, at)),
    };
    let first = last(nodes);
    let Some(rest) = after(rest, b" else ") else {
        return Ok(Read::Stopped(SpecificationRule::BadLine, rest));
    };
    let rest = match read_expr(names, depth, rest, nodes)? {
        Read::Rest(rest) => rest,
        Read::Stopped(rule, at) => return Ok(Read::Stopped(rule, at)),
    };
    let Some(rest) = after(rest, b")") else {
        return Ok(Read::Stopped(SpecificationRule::BadLine, rest));
    };
    let second = last(nodes);
    push(nodes, Node::Choice(test, first, second))?;
    Ok(Read::Rest(rest))
}
