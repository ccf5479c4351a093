//! The plain data of a log and of its verdict, the devices at the program's edge, and every
//! definition of judging.
//!
//! A log tells of a concurrent run: who called what, which words were written, and where each call
//! took effect. A log is a `Header`, in version 2 words that aren't 0 at the start, and a list of
//! entries, and the central type is `Entry`: one caller and what it did. The answer about a log is
//! a `Verdict`. The crate decides nothing itself. It says, once and for all other crates, which
//! verdict a log has by given rules, a header with a specification. Its own calls meet the same
//! definitions: a header's numbers, amounts by key, and what devices give and take.
//!
//! What stands in `src/`:
//!
//! - `Header`, `Subject`, `Method` with the methods of each structure, `Args`: what is watched, and
//!   what may be called;
//! - `Entry`, `Kind`, `StartWord`: the lines of a log; `Stamped`, `Did`: the events of a run, of
//!   which a log shows a part;
//! - `Verdict`, `Rule`, `Why`, `Stop`: the answer, and how a text stops;
//! - `View`: what a state or the words show, as amounts by key, to be read; `AmountMap`: such
//!   amounts, to be looked up and changed;
//! - `Op`, `Effect`, `Last`, `SpecificationLine`, `SpecificationRule`: what the definitions of a
//!   user's own specification name;
//! - `Steps`: how many steps a call took, for contracts alone;
//! - `Source`, `Sink`, `Gate`: where bytes come from and go to, and what a live run asks. Each has
//!   a device in memory whose calls can be made to fail, or one over std's readers and writers.
//!
//! What stands in `specs/`, one file for each notion: the limits of a header (`Limits`, `Layout`),
//! the structures that are built in, each a value with a file of its own (`Structures`, `Multiset`,
//! `Cache`, `Tree`, `Buffers`), and to which of them a subject and a method belong (`Subjects`),
//! the places of a list (`Places`), what a caller is in the middle of (`Callers`), the rules of
//! shape and the well-formed front (`Shape`, `Front`), the words (`Words`), what they show
//! (`Views`, `Amounts`), the specification of the structures (`Specification`), rules, which are a
//! specification as a value, and those of a header (`Rules`), the words and the state at the start
//! (`Starts`), commit order and its states (`Commits`), the faults (`Faults`), the verdict
//! (`Verdicts`), the words with each block's writes taking effect at its end (`BlockEnds`), by them
//! the verdict as it was while version 1 was the only one (`FirstVersion`), the text of a log and
//! what its bytes say (`Spelling`, `Lines`, `Reading`), the verdict about bytes and its line
//! (`TextVerdicts`, `VerdictText`), histories (`Histories`), words that represent a state
//! (`Represented`), and devices (`Devices`). Shape, words, states, faults and the verdict are those
//! of any rules, and name no structure.
//!
//! The language in which a user writes a specification of their own has its definitions here too,
//! in the folder `Own`: what a text spells, what that says of calls, states and words, and so the
//! rules that it gives (`Own/OwnRules`). The code that meets them stands in `vyrd_own` and
//! `vyrd_own_text`.
//!
//! A definition alone claims nothing. So each law of the definitions is a clause of an empty
//! function in `laws`, and small cases are worked out: in `worked`, as lists of entries; in
//! `worked_own`, by rules of no built-in subject; in `worked_language`, what a user's own
//! specification says; and in `worked_text`, and for version 2 in `worked_second`, from the bytes
//! of a log to the bytes of the answer.
#![tactic(auto)]

mod amount_map;
mod buffers;
mod cache;
mod calls;
mod device;
mod header;
mod history;
pub mod laws;
mod log;
mod memory_sink;
mod memory_source;
mod multiset;
mod own;
mod steps;
mod streams;
mod subject;
mod tree;
mod verdict;
mod view;
pub mod worked;
pub mod worked_language;
pub mod worked_own;
pub mod worked_second;
pub mod worked_text;

pub use amount_map::AmountMap;
pub use buffers::{BUFFER_WORDS, BuffersMethod, MOST_CHARACTERS, TEXT_BASE, buffer_text};
pub use cache::CacheMethod;
pub use device::{Failed, Gate, OpenGate, Sink, Source};
pub use header::Header;
pub use history::{Did, Stamped};
pub use log::{Entry, Kind, StartWord};
pub use memory_sink::MemorySink;
pub use memory_source::MemorySource;
pub use multiset::MultisetMethod;
pub use own::{Effect, Last, Op, OwnMethod, SpecificationLine, SpecificationRule};
pub use steps::Steps;
pub use streams::{StdSink, StdSource};
pub use subject::{Args, Commits, Method, Subject};
pub use tree::TreeMethod;
pub use verdict::{Rule, Stop, Verdict, Why};
pub use view::View;
