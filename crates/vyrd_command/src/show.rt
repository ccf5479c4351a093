//! What is written about a run.

/// What the answer to a workload shows of a run that came to its end. Its status is that of the
/// verdict in each case.
#[derive(Clone, Copy, Debug, PartialEq, Eq)]
pub enum Show {
    /// The verdict's line.
    Verdict,
    /// The text of the run's log, and then the verdict's line: `--log`.
    Log,
    /// The text of the run's history, and nothing else: `--history`.
    History,
}
