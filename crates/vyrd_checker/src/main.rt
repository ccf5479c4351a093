//! `vyrd_checker`: `vyrd check` as a program of its own, which stands on fewer crates, so that it
//! is proved and built sooner.
//!
//! It is the call `check_only` of `vyrd_check_command`, whose contract says what it answers, over
//! the arguments that the program is started with, standard input and standard output. Its status
//! is the call's.
#![tactic(auto)]

use std::process::ExitCode;
use vyrd_base::{StdSink, StdSource};
use vyrd_check_command::{as_text, check_only, status, words_given};

fn main(rt: HostRuntime) -> ExitCode {
    let alloc = rt.alloc();
    let Ok(owned) = words_given(&rt) else {
        return ExitCode::from(status::MEMORY);
    };
    let Ok(words) = as_text(alloc, &owned) else {
        return ExitCode::from(status::MEMORY);
    };
    let mut source = StdSource::new(rt.stdin());
    let mut sink = StdSink::new(rt.stdout());
    let ended = check_only(alloc, &words, &mut source, &mut sink);
    ExitCode::from(ended.status)
}
