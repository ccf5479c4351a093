//! A machine of a multiset between its operations. What each operation does, act by act, stands in
//! the histories of `examples/`.

ghost use Rattle.std.specs.Prelude.{◌≡◌};
ghost use Rattle.vyrd_base.specs.declared.subject.Method.TheVariants.{Multiset as OfMultiset};

use std::test::Fail;
use vyrd_base::{Args, Header, Method, MultisetMethod, Subject};
use vyrd_memory::{Act, Machine, Op, Variant};
use vyrd_multiset::MultisetMachine;

/// Plays an operation to its end, in words that are all 0. It answers whether it came there.
fn pass(machine: &mut MultisetMachine) -> bool {
    for _ in 0..32 {
        if machine.wants() == Act::Done {
            return false;
        }
        machine.took(0);
        if machine.between() {
            return true;
        }
    }
    false
}

/// Whether no operation is under way, and these are the bounds of all and of the next one.
fn is_left(machine: &MultisetMachine, all: u64, next: u64) -> bool {
    machine.between() && machine.left() == all && machine.op_left() == next
}

/// Whether the machine plays two operations of at most 32 events each, and then is done.
fn plays_two(machine: &mut MultisetMachine) -> bool {
    is_left(machine, 64, 32)
        && pass(machine)
        && is_left(machine, 32, 32)
        && pass(machine)
        && is_left(machine, 0, 0)
        && machine.wants() == Act::Done
}

fn op(method: MultisetMethod) -> Op
    ensures { result
        ≡ record { method = OfMultiset method; args = record { a = 5; b = 0; c = 0 } } }
{
    Op {
        method: Method::Multiset(method),
        args: Args { a: 5, b: 0, c: 0 },
    }
}

#[test]
fn left_between_operations(rt: HostRuntime) -> Result<(), Fail> {
    let header = Header::new(1, Subject::Multiset, 1, 1).ok_or("a header")?;
    let ops = [op(MultisetMethod::Delete), op(MultisetMethod::Lookup)];
    let mut machine = MultisetMachine::new(rt.alloc(), header, 0, Variant::Correct, &ops)?;
    assert!(rt; plays_two(&mut machine));
    Ok(())
}
