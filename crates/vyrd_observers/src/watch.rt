//! A caller's open observer.

/// A caller's open observer: which trail it asks, and how many answers of it, the latest one not
/// counted, stood there before its call.
#[derive(Clone, Copy)]
pub(crate) struct Watch {
    pub trail: usize,
    pub since: usize,
}
