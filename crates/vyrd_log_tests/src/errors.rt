//! The texts of errors.

use std::alloc::Global;
use std::fmt::Display;
use vyrd_base::{Failed, Rule};
use vyrd_batch::BatchFault;
use vyrd_mover::{HistoryFault, HistoryRule};
use vyrd_shape::ShapeFault;
use vyrd_text::TextFault;

/// Whether this is the text of the error.
fn says<E: Display>(alloc: Global, error: &E, wanted: &str) -> bool {
    match format!(in alloc; "{error}") {
        Ok(text) => text.as_str() == wanted,
        Err(_) => false,
    }
}

#[test]
fn errors_say_what_is_wrong(rt: HostRuntime) {
    let alloc = rt.alloc();
    assert!(rt; says(alloc, &Failed, "a read or a write failed"));
    let shape = ShapeFault {
        rule: Rule::BlockRaced,
    };
    assert!(rt; says(alloc, &shape, "BlockRaced"));
    let line = TextFault::Malformed {
        line: 7,
        rule: Rule::AfterEnd,
    };
    assert!(rt; says(alloc, &line, "line 7: AfterEnd"));
    let history = HistoryFault::Refused {
        line: 12,
        rule: HistoryRule::BadHeader,
    };
    assert!(rt; says(alloc, &history, "line 12: BadHeader"));
    assert!(rt;
        says(
            alloc,
            &BatchFault::Refused { log: 3 },
            "batch refused at log 3"
        )
    );
}

#[test]
fn errors_say_that_memory_ran_out(rt: HostRuntime) {
    let alloc = rt.alloc();
    assert!(rt; says(alloc, &TextFault::Memory, "out of memory"));
    assert!(rt; says(alloc, &HistoryFault::Memory, "out of memory"));
    assert!(rt; says(alloc, &BatchFault::Memory, "out of memory"));
}
