//! Workloads of many operations, made from their number alone.

ghost use Rattle.std.specs.Prelude.{◌≡◌, ◌≤◌, ◌<◌, ◌^◌, ◌%◌, IfOk};
ghost use Rattle.vyrd_work.specs.Workloads.{workload_of};
ghost use Rattle.vyrd_work.specs.WorkLimits.{KeepsLimits};
ghost use Rattle.vyrd_work.specs.Generated.{generated, generated_header, next_draw, work_op_from};
ghost use Rattle.vyrd_work.specs.Generated.{ops_from, op_for};
ghost use Rattle.vyrd_memory.specs.Bounds.{most_ops};

use crate::work::{Work, WorkOp};
use std::alloc::{AllocError, Global};
use vyrd_base::{Args, Header, Method, MultisetMethod, Subject};
use vyrd_memory::{Op, Variant};

/// The factor between two numbers that are drawn, as C's standard shows it for `rand`.
const FACTOR: u64 = 1_103_515_245;

/// What is added to the product.
const STEP: u64 = 12_345;

/// Numbers that are drawn are below this one.
const BOUND: u64 = 2_147_483_648;

/// The operations use the bits of a number from this one on.
const UPPER: u64 = 65_536;

/// How many buckets the multiset has.
const SIZE: u32 = 64;

/// How many callers there are. They do the operations in turn.
const CALLERS: u32 = 4;

/// A workload of `n` operations on a correct multiset of 64 buckets with 4 callers. It has no
/// turns.
///
/// The same `n`, from 1 to 200,000, always gives the same workload. The time and the memory grow
/// with `n`.
pub fn generate(alloc: Global, n: u32) -> Result<Work, AllocError>
    requires low { 1 ≤ n }
    requires high { n ≤ most_ops }
    ensures work { IfOk result (λ work. workload_of work ≡ generated n) }
    ensures limits { IfOk result (λ work. KeepsLimits (workload_of work)) }
{
    let ops = draw_ops(alloc, n)?;
    Ok(Work {
        header: generated_header(),
        variant: Variant::Correct,
        ops,
        turns: Vec::new(alloc),
    })
}

/// The operations that `n` numbers give, each drawn from the one before it, and the first from `n`.
fn draw_ops(alloc: Global, n: u32) -> Result<Vec<WorkOp>, AllocError>
    ensures { IfOk result (λ ops. ops.items ≡ ops_from n 0 n) }
{
    let mut ops = Vec::with_capacity(alloc, n as usize)?;
    let mut number = u64::from(n);
    for i in 0..n {
        number = next_number(number);
        ops.push(work_op(i, number))?;
    }
    Ok(ops)
}

/// The header of all generated workloads.
fn generated_header() -> Header
    ensures { result ≡ generated_header }
{
    match Header::new(1, Subject::Multiset, SIZE, CALLERS) {
        Some(header) => header,
        None => unreachable!(),
    }
}

/// The number that is drawn after `number`.
fn next_number(number: u64) -> u64
    requires { number < 2 ^ 32 }
    ensures next { result ≡ next_draw number }
    ensures bound { result < 2147483648 }
{
    (number * FACTOR + STEP) % BOUND
}

/// Operation `i`, for its number.
fn work_op(i: u32, number: u64) -> WorkOp
    requires { number < 2147483648 }
    ensures { result ≡ work_op_from i number }
{
    let upper = number / UPPER;
    let value = (upper / 8 % 256) as u32;
    let second = (upper / 2048) as u32;
    WorkOp {
        caller: i % CALLERS,
        op: op_of_kind(upper % 8, value, second),
    }
}

/// Of eight operations three insert a value, one inserts a pair, two delete and two look up.
fn op_of_kind(kind: u64, value: u32, second: u32) -> Op
    ensures { result ≡ op_for kind value second }
{
    let (method, b) = if kind < 3 {
        (Method::Multiset(MultisetMethod::Insert), 0)
    } else if kind == 3 {
        (Method::Multiset(MultisetMethod::InsertPair), second)
    } else if kind < 6 {
        (Method::Multiset(MultisetMethod::Delete), 0)
    } else {
        (Method::Multiset(MultisetMethod::Lookup), 0)
    };
    Op {
        method,
        args: Args { a: value, b, c: 0 },
    }
}
