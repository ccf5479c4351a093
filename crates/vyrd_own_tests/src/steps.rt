//! Specifications of known structures, stepped.

use crate::specifications::{
    COUNTER, DEQUE, LEAST_RECENTLY_USED, MAP, PRIORITY_QUEUE, QUEUE_IN_SLOTS, RING,
};
use Asked::{Amount, Answer, Refused, Step};
use std::alloc::{AllocError, Global};
use std::process::Abort;
use vyrd_own::{Method, Program, Room, StateOf, answer, put_parts, step};
use vyrd_own_text::{SpecificationLine, SpecificationReader};

/// What is asked of a state: a call by its method's name and its arguments first.
enum Asked {
    /// A reply that is allowed.
    Step(&'static str, &'static [u64], u64),
    /// A reply that is refused.
    Refused(&'static str, &'static [u64], u64),
    /// What an execution answers that commits nothing.
    Answer(&'static str, &'static [u64], u64),
    /// The shown amount of a key.
    Amount(u64, u64),
}

/// A specification, and what is asked of its state in turn.
const ROWS: &[(&str, &[Asked])] = &[
    (
        QUEUE_IN_SLOTS,
        &[
            Answer("dequeue", &[], 0),
            Step("enqueue", &[7], 1),
            Step("enqueue", &[5], 1),
            Step("enqueue", &[7], 1),
            Amount(7, 2),
            Answer("dequeue", &[], u64::MAX),
            Refused("dequeue", &[], 6),
            Step("dequeue", &[], 8),
            Step("dequeue", &[], 6),
            Amount(5, 0),
            Step("dequeue", &[], 8),
            Refused("dequeue", &[], 8),
            Answer("dequeue", &[], 0),
        ],
    ),
    (
        DEQUE,
        &[
            Step("push_first", &[1], 1),
            Step("push_last", &[2], 1),
            Step("push_first", &[3], 1),
            Refused("pop_last", &[], 4),
            Step("pop_last", &[], 3),
            Step("pop_first", &[], 4),
            Step("pop_last", &[], 2),
            Answer("pop_first", &[], 0),
            Refused("pop_first", &[], 1),
        ],
    ),
    (
        COUNTER,
        &[
            Step("add", &[5], 0),
            Step("add", &[2], 5),
            Refused("add", &[2], 5),
            Refused("compare_and_set", &[5, 9], 1),
            Answer("compare_and_set", &[5, 9], 0),
            Answer("compare_and_set", &[7, 9], u64::MAX),
            Step("compare_and_set", &[7, 9], 1),
            Answer("read", &[], 9),
            Amount(0, 9),
        ],
    ),
    (
        MAP,
        &[
            Answer("size", &[], 0),
            Step("put", &[4, 20], 0),
            Step("put", &[4, 30], 21),
            Step("put", &[9, 1], 0),
            Answer("size", &[], 2),
            Answer("get", &[4], 31),
            Answer("put_if_absent", &[4, 1], 31),
            Answer("put_if_absent", &[5, 1], u64::MAX),
            Step("compare_and_set", &[9, 1, 7], 1),
            Answer("get", &[9], 8),
            Step("remove", &[4], 31),
            Answer("size", &[], 1),
            Step("clear_all", &[], 1),
            Answer("size", &[], 0),
            Answer("get", &[9], 0),
        ],
    ),
    (
        PRIORITY_QUEUE,
        &[
            Answer("least_element", &[], 0),
            Step("push", &[30], 1),
            Step("push", &[10], 1),
            Step("push", &[20], 1),
            Answer("least_element", &[], 11),
            Refused("pop", &[], 21),
            Step("pop", &[], 11),
            Step("pop", &[], 21),
            Step("pop", &[], 31),
            Answer("pop", &[], 0),
        ],
    ),
    (
        LEAST_RECENTLY_USED,
        &[
            Step("put", &[1, 10], 1),
            Step("put", &[2, 20], 1),
            Step("put", &[3, 30], 1),
            Step("put", &[4, 40], 1),
            Step("get", &[1], 11),
            Step("put", &[5, 50], 1),
            Answer("get", &[2], 0),
            Step("get", &[1], 11),
            Step("get", &[3], 31),
        ],
    ),
    (
        RING,
        &[
            Answer("try_dequeue", &[], 0),
            Step("try_enqueue", &[5], 1),
            Step("try_enqueue", &[6], 1),
            Amount(0, 6),
            Amount(1, 7),
            Refused("try_dequeue", &[], 7),
            Step("try_dequeue", &[], 6),
            Step("try_dequeue", &[], 7),
            Answer("try_dequeue", &[], 0),
        ],
    ),
];

/// What is read of a specification, if it is one; its first line is the log's header.
fn read(alloc: Global, text: &str) -> Result<Option<Program>, AllocError> {
    let mut reader = SpecificationReader::new(alloc);
    for line in text.lines().skip(1) {
        match reader.take_line(alloc, line.as_bytes())? {
            SpecificationLine::More => {}
            SpecificationLine::Log => return Ok(Some(reader.program)),
            SpecificationLine::Refused(_, _) => return Ok(None),
        }
    }
    Ok(None)
}

/// The method of that name.
fn find<'a>(methods: &'a [Method], name: &str) -> Option<&'a Method> {
    for method in methods {
        if method.name.as_slice() == name.as_bytes() {
            return Some(method);
        }
    }
    None
}

/// Whether the state says so.
fn says(
    program: &Program,
    state: &mut StateOf,
    room: &mut Room,
    asked: &Asked,
) -> Result<bool, AllocError> {
    match asked {
        Step(name, args, reply) => match find(&program.methods, name) {
            Some(method) => step(program, method, args, *reply, state, room),
            None => Ok(false),
        },
        Refused(name, args, reply) => match find(&program.methods, name) {
            Some(method) => Ok(!step(program, method, args, *reply, state, room)?),
            None => Ok(false),
        },
        Answer(name, args, reply) => match find(&program.methods, name) {
            Some(method) => Ok(answer(program, method, args, state, room)? == Some(*reply)),
            None => Ok(false),
        },
        Amount(key, amount) => Ok(state.shown().amount(*key) == *amount),
    }
}

/// Whether a state of the specification says all of that in turn.
fn says_all(alloc: Global, program: &Program, all: &[Asked]) -> Result<bool, AllocError> {
    let mut state = StateOf::new(alloc, program, 64)?;
    let mut room = Room::new(alloc);
    for asked in all {
        if !says(program, &mut state, &mut room, asked)? {
            return Ok(false);
        }
    }
    Ok(true)
}

/// Whether each row holds.
fn are_stepped(alloc: Global) -> Result<bool, AllocError> {
    for (text, asked) in ROWS {
        let Some(program) = read(alloc, text)? else {
            return Ok(false);
        };
        if !says_all(alloc, &program, asked)? {
            return Ok(false);
        }
    }
    Ok(true)
}

#[test]
fn known_structures_are_stepped(rt: HostRuntime) -> Result<(), AllocError> {
    assert!(&rt; are_stepped(rt.alloc())?);
    Ok(())
}
