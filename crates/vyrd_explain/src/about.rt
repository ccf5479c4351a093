//! What is told behind a verdict.

/// What the lines behind a verdict are about.
#[derive(Clone, Copy)]
pub enum About {
    /// What in the log has to do with the verdict.
    Fault,
    /// What changes along the log.
    Changes,
}
