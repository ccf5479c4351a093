//! What a commit of a log of version 3 costs.

use std::alloc::{AllocError, Global};
use std::process::Abort;
use vyrd_base::Verdict;
use vyrd_log_check::LogChecker;

/// Numbers with their amounts, one a slot.
const SLOTS: &[u8] = b"vyrd 3 own 65536 1
part 2
  shows w1 w0
method put x
  allow (reply == 1)
    set [x] ([x] + 1)
method take x
  allow (reply == 1)
    set [x] ([x] - 1)
log
";

/// Goes on with a put of x, in slot x.
fn put(alloc: Global, checker: &mut LogChecker, x: u32) -> Result<(), AllocError> {
    let word = 2 * u64::from(x);
    let value = word + 1;
    let lines = format!(in alloc;
        "0 call put {x}\n0 write {value} {x}\n0 write {word} 1\n0 commit\n0 return 1\n"
    )?;
    checker.feed(lines.as_bytes())?;
    Ok(())
}

/// Goes on with a take of x, from slot x.
fn take(alloc: Global, checker: &mut LogChecker, x: u32) -> Result<(), AllocError> {
    let word = 2 * u64::from(x);
    let lines = format!(in alloc; "0 call take {x}\n0 write {word} 0\n0 commit\n0 return 1\n")?;
    checker.feed(lines.as_bytes())?;
    Ok(())
}

/// All 32,768 slots are filled, and then the last number leaves and comes back 200,000 times. A
/// judge that takes all words, or all keys, at each commit looks at more than ten thousand million
/// of them here.
#[test]
fn a_commit_costs_what_it_changed(rt: HostRuntime) -> Result<(), AllocError> {
    let alloc = rt.alloc();
    let mut checker = LogChecker::new(alloc, 3_000_000);
    checker.feed(SLOTS)?;
    for x in 0..32_768_u32 {
        put(alloc, &mut checker, x)?;
    }
    for _ in 0..200_000_u32 {
        take(alloc, &mut checker, 32_767)?;
        put(alloc, &mut checker, 32_767)?;
    }
    checker.feed(b"end\n")?;
    let all = Verdict::Accepted {
        entries: 1_963_840,
        commits: 432_768,
        observers: 0,
    };
    assert!(&rt; checker.finish()? == all);
    Ok(())
}
