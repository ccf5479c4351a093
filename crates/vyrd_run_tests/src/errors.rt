//! The texts of errors.

use std::alloc::Global;
use std::fmt::Display;
use vyrd_live::{LiveFault, Overrun};
use vyrd_memory::StepFault;
use vyrd_relay::Full;
use vyrd_trace::{Busy, Reserve};
use vyrd_work::{WorkFault, WorkRule};

/// Whether this is the text of the error.
fn says<E: Display>(alloc: Global, error: &E, wanted: &str) -> bool {
    match format!(in alloc; "{error}") {
        Ok(text) => text.as_str() == wanted,
        Err(_) => false,
    }
}

#[test]
fn errors_say_what_is_wrong(rt: HostRuntime) {
    let alloc = rt.alloc();
    assert!(rt; says(alloc, &StepFault::Stuck, "the run by turns is stuck"));
    assert!(rt; says(alloc, &Full, "the relay is full"));
    assert!(rt; says(alloc, &Busy { found: 5 }, "the cell is busy"));
    assert!(rt; says(alloc, &Reserve::Spent, "the limit of events is reached"));
    let line = WorkFault::Refused {
        line: 2,
        rule: WorkRule::BadLine,
    };
    assert!(rt; says(alloc, &line, "line 2: BadLine"));
    let spent = LiveFault::Spent(Overrun {
        caller: 4,
        history: Vec::new(alloc),
    });
    assert!(rt; says(alloc, &spent, "caller 4 has spent its events"));
}

#[test]
fn errors_say_that_memory_ran_out(rt: HostRuntime) {
    let alloc = rt.alloc();
    assert!(rt; says(alloc, &StepFault::Memory, "out of memory"));
    assert!(rt; says(alloc, &Reserve::Memory, "out of memory"));
    assert!(rt; says(alloc, &WorkFault::Memory, "out of memory"));
    assert!(rt; says(alloc, &LiveFault::Memory, "out of memory"));
}
