//! `vyrd`: reads the log of a run of a concurrent data structure, and says whether the run refines
//! its sequential specification.
//!
//! It is the call `vyrd` of `vyrd_command`, whose contract says what it answers, over the arguments
//! that the program is started with, standard input and standard output. Its status is the call's.
#![tactic(auto)]

use std::process::ExitCode;
use vyrd_base::{OpenGate, StdSink, StdSource};
use vyrd_check_command::{as_text, words_given};
use vyrd_command::{status, vyrd};

fn main(rt: HostRuntime) -> ExitCode {
    let alloc = rt.alloc();
    let Ok(owned) = words_given(&rt) else {
        return ExitCode::from(status::MEMORY);
    };
    let Ok(words) = as_text(alloc, &owned) else {
        return ExitCode::from(status::MEMORY);
    };
    let mut source = StdSource::new(rt.stdin());
    let mut sink = StdSink::new(rt.stdout());
    let ended = vyrd(&rt, alloc, &words, &mut source, &mut sink, &OpenGate);
    ExitCode::from(ended.status)
}
