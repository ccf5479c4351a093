//! Every schedule of the correct multiset, cache, B-link tree and string buffers is accepted.
//!
//! A schedule is a legal history in which each caller of a workload plays its script to the end.
//! `laws` says of each that its log is accepted, and that the run by turns doesn't get stuck;
//! `tree_laws` says more of the single acts of the tree. Nothing here runs: the proofs speak of
//! scripts and histories alone, of no thread and of no machine. `docs/EVERY-SCHEDULE.md` tells how
//! they go, and `specs/Lib.antt` in which order the definitions read best.
#![tactic(auto)]

pub mod laws;
pub mod tree_laws;
pub mod worked;
