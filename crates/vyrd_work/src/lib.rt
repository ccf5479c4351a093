//! Workloads: who calls what, and whose turns come in which order, as text and as data.
//!
//! The central type is [`Work`]. [`read_work`] reads a workload's text and answers exactly the
//! workload that the bytes say, or the first bad line with the first rule that it breaks.
//! [`write_work`] writes the one text that is read as a workload, and [`generate`] makes a workload
//! of many operations from their number alone.
//!
//! What the text is and what bytes say stands in `specs/`: `Workloads` has the one text of a
//! workload, `WorkLines` and `WorkReading` what bytes say, `WorkLimits` the limits, `LongInputs`
//! how many bytes settle what they say, `Refusals` the line about a bad line, and `Generated` the
//! generated workloads. `laws` says that text and reading agree, and that long inputs are settled;
//! `worked` has small cases of the definitions.
#![tactic(auto)]

mod fault;
mod generator;
pub mod laws;
mod line;
mod machine;
mod reader;
mod work;
pub mod worked;
mod writer;

pub use fault::{WorkFault, WorkRule, write_refusal};
pub use generator::generate;
pub use machine::{AnyMachine, MachineOf, WorkMachine};
pub use reader::read_work;
pub use work::{Work, WorkOp};
pub use writer::write_work;
