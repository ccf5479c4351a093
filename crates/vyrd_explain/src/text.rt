//! What is said of a verdict about a log whose structure is built in.

ghost use Rattle.std.specs.Prelude.{◌≡◌, ◌<◌, ◌^◌, ℕ, List, length, IfOk, Some, true};
ghost use Rattle.vyrd_base.specs.declared.header.Header.{Header};
ghost use Rattle.vyrd_base.specs.Rules.{built_in};
ghost use Rattle.vyrd_base.specs.Starts.{may_start};
ghost use Rattle.vyrd_base.specs.Subjects.{is_built_in};
ghost use Rattle.vyrd_base.specs.Verdicts.{line_of};
ghost use Rattle.vyrd_text.specs.Readers.{HasRead};
ghost use Rattle.vyrd_item_text.specs.ItemText.{items_text};
ghost use Rattle.vyrd_explain.specs.Explained.{items_about, read_as, said_of};

use crate::about::About;
use crate::changes::changes_text;
use crate::items::verdict_items;
use crate::structure::BuiltInStructure;
use std::alloc::{AllocError, Global};
use vyrd_base::{Entry, Header, StartWord, Verdict};
use vyrd_item_text::{InRow, text_of};
use vyrd_text::LogReader;

/// What is said of a verdict or of its log, given the reader of the log and the entries that were
/// read.
pub(crate) fn said_about(
    alloc: Global,
    about: About,
    reader: &LogReader,
    entries: &[Entry],
    verdict: Verdict,
) -> Result<Vec<u8>, AllocError>
    requires built_in { (h : Header) → reader.now.header ≡ Some h
        → is_built_in h.subject ≡ true }
    requires may_start { (h : Header) → reader.now.header ≡ Some h
        → may_start h reader.now.start ≡ true }
    requires few { length entries.now < 2 ^ 62 }
    ensures { (bytes : List ℕ) → HasRead reader.now bytes
        → entries.now ≡ (read_as reader.now.max_lines bytes).entries
        → IfOk result
        (λ text. text.items ≡ said_of about (read_as reader.now.max_lines bytes) verdict) }
{
    match reader.header() {
        Some(header) => said_text(alloc, about, header, reader.start(), entries, verdict),
        None => Ok(Vec::new(alloc)),
    }
}

/// What is said of a verdict about the entries of a built-in structure, or of these entries.
fn said_text(
    alloc: Global,
    about: About,
    header: Header,
    starting: &[StartWord],
    entries: &[Entry],
    verdict: Verdict,
) -> Result<Vec<u8>, AllocError>
    requires built_in { is_built_in header.subject ≡ true }
    requires may_start { may_start header starting.now ≡ true }
    requires few { length entries.now < 2 ^ 62 }
    ensures { IfOk result (λ text. text.items ≡ items_text (line_of starting.now)
        (items_about about (built_in header) (line_of starting.now) starting.now entries.now
        verdict)) }
{
    let lines = InRow {
        starting: starting.len(),
    };
    match about {
        About::Fault => {
            let shown = BuiltInStructure::new(header);
            let items = verdict_items(alloc, &shown, &lines, starting, entries, verdict)?;
            text_of(alloc, &lines, &items)
        }
        About::Changes => changes_text(alloc, header, &lines, starting, entries),
    }
}
