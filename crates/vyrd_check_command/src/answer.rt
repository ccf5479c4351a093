//! What is answered, before it is written.

ghost use Rattle.std.specs.Prelude.{◌≡◌, []};
ghost use Rattle.vyrd_check_command.specs.Outputs.{status_of};

use std::alloc::Global;
use vyrd_base::Verdict;

/// An answer that isn't written yet.
#[derive(Debug, Drop)]
pub struct Answer {
    /// The status of a call that writes it whole, as [`Ended`](crate::Ended) lists them.
    pub status: u8,
    /// What such a call writes. It is empty after a failed read, and if there was no memory.
    pub text: Vec<u8>,
}

impl Answer {
    /// An answer without text.
    pub fn silent(alloc: Global, status: u8) -> Answer
        ensures status { result.status ≡ status }
        ensures text { result.text.items ≡ [] }
    {
        Answer {
            status,
            text: Vec::new(alloc),
        }
    }
}

/// The status that a verdict ends with.
pub fn status_of(verdict: Verdict) -> u8
    ensures { result ≡ status_of verdict }
{
    match verdict {
        Verdict::Accepted { .. } => 0,
        Verdict::Violation { .. } => 1,
        Verdict::Malformed { .. } => 2,
    }
}
