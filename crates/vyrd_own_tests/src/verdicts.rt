//! What a checker answers about logs of version 3, in every cutting.

use crate::specifications::COUNTER;
use std::alloc::{AllocError, Global};
use std::process::Abort;
use vyrd_base::{Rule, Verdict, Why};
use vyrd_own_check::{OwnChecker, own_verdict_of};

/// What stands behind the specification of the counter, which has 14 lines, and the verdict.
const LOGS: &[(&str, Verdict)] = &[
    (
        "start 0 5
0 call add 2
0 write 0 7
0 commit
0 return 5
1 call compare_and_set 8 9
1 return 0
2 call read
2 return 7
end
",
        Verdict::Accepted {
            entries: 8,
            commits: 1,
            observers: 2,
        },
    ),
    (
        "# a note
start 0 5
0 call add 2
# the word is written before the commit
0 write 0 8
0 commit
0 return 5
1 call read
# not 7
1 return 6
end
",
        Verdict::Violation {
            line: 20,
            why: Why::View(0),
        },
    ),
    (
        "1 call read
# it was never 1
1 return 1
end
",
        Verdict::Violation {
            line: 17,
            why: Why::Observer(1),
        },
    ),
    (
        "# a note
0 call read
# a note
end
",
        Verdict::Malformed {
            line: 18,
            rule: Rule::CallOpen,
        },
    ),
    (
        "0 call read
0 return 0
",
        Verdict::Malformed {
            line: 17,
            rule: Rule::NoEnd,
        },
    ),
];

/// The verdict about a text that comes in two pieces, of which the first has so many bytes.
fn verdict_in_two(alloc: Global, text: &[u8], first: usize) -> Result<Verdict, AllocError> {
    let mut checker = OwnChecker::new(alloc, 100);
    let (front, back) = text.split_at(first.min(text.len()));
    checker.feed(front)?;
    checker.feed(back)?;
    checker.finish()
}

/// Whether this is the verdict, however the text is cut.
fn is_verdict(alloc: Global, text: &[u8], verdict: Verdict) -> Result<bool, AllocError> {
    for first in 0..=text.len() {
        if verdict_in_two(alloc, text, first)? != verdict {
            return Ok(false);
        }
    }
    Ok(own_verdict_of(alloc, 100, text)? == verdict)
}

/// Whether each row has its verdict.
fn are_verdicts(alloc: Global) -> Result<bool, AllocError> {
    for (log, verdict) in LOGS {
        let mut text = Vec::from_slice(alloc, COUNTER.as_bytes())?;
        text.extend_from_slice(log.as_bytes())?;
        if !is_verdict(alloc, &text, *verdict)? {
            return Ok(false);
        }
    }
    Ok(true)
}

#[test]
fn logs_of_the_counter(rt: HostRuntime) -> Result<(), AllocError> {
    assert!(&rt; are_verdicts(rt.alloc())?);
    Ok(())
}

/// A part has two words, and the log has three.
const CUT: &str = "vyrd 3 own 3 1
part 2
  shows part w0
method look
  answer 0
log
# a note
0 call look
0 return 0
end
";

#[test]
fn words_that_cut_a_part(rt: HostRuntime) -> Result<(), AllocError> {
    let stateless = Verdict::Malformed {
        line: 8,
        rule: Rule::StartState,
    };
    assert!(&rt; is_verdict(rt.alloc(), CUT.as_bytes(), stateless)?);
    Ok(())
}
