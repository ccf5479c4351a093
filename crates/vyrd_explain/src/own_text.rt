//! What is said of a verdict about a log with a specification in front.

ghost use Rattle.std.specs.Prelude.{◌≡◌, ◌<◌, ◌^◌, ℕ, List, length, IfOk, Some};
ghost use Rattle.vyrd_base.specs.declared.header.Header.{Header};
ghost use Rattle.vyrd_base.specs.declared.subject.Subject.TheVariants.{Own};
ghost use Rattle.vyrd_own_log.specs.States.{header_at};
ghost use Rattle.vyrd_own_log.specs.Readers.{HasRead};
ghost use Rattle.vyrd_own_log.specs.ReaderView.{state_in};
ghost use Rattle.vyrd_explain.specs.Explained.{own_read_as, own_items_said, own_said_of};
ghost use Rattle.vyrd_explain.specs.Explaining.{own_limit};

use crate::about::About;
use crate::changes::own_changes_text;
use crate::items::verdict_items;
use crate::own_lines::OwnLines;
use std::alloc::{AllocError, Global};
use std::sync::Arc;
use vyrd_base::{Entry, Header, Verdict};
use vyrd_item_text::text_of;
use vyrd_own_check::read_specification;
use vyrd_own_log::OwnLogReader;
use vyrd_own_states::OwnShown;

/// What is said of a verdict or of its log, given the reader of the log, and the entries and the
/// numbers of lines that were read.
pub(crate) fn own_said_about(
    alloc: Global,
    about: About,
    reader: &OwnLogReader,
    entries: &[Entry],
    numbers: &[u64],
    verdict: Verdict,
) -> Result<Vec<u8>, AllocError>
    requires own { (h : Header) → header_at (state_in reader.now).kept.lines.stage ≡ Some h
        → h.subject ≡ Own }
    requires few { length entries.now < 2 ^ 62 }
    ensures { (bytes : List ℕ) → HasRead (state_in reader.now) bytes
        → entries.now ≡ (own_read_as (own_limit reader.now) bytes).entries
        → numbers.now ≡ (own_read_as (own_limit reader.now) bytes).numbers
        → IfOk result (λ text. text.items
        ≡ own_said_of about (own_read_as (own_limit reader.now) bytes) verdict) }
{
    match reader.header() {
        Some(header) => own_said_text(alloc, about, header, reader, entries, numbers, verdict),
        None => Ok(Vec::new(alloc)),
    }
}

/// What is said of a verdict about the entries of a log with this header, or of these entries.
fn own_said_text(
    alloc: Global,
    about: About,
    header: Header,
    reader: &OwnLogReader,
    entries: &[Entry],
    numbers: &[u64],
    verdict: Verdict,
) -> Result<Vec<u8>, AllocError>
    requires own { header.subject ≡ Own }
    requires few { length entries.now < 2 ^ 62 }
    ensures { (bytes : List ℕ) → HasRead (state_in reader.now) bytes
        → entries.now ≡ (own_read_as (own_limit reader.now) bytes).entries
        → numbers.now ≡ (own_read_as (own_limit reader.now) bytes).numbers
        → IfOk result (λ text. text.items
        ≡ own_items_said about (own_read_as (own_limit reader.now) bytes) verdict header) }
{
    let specification = Arc::new(alloc, read_specification(alloc, reader.lines())?)?;
    let lines = OwnLines::new(reader.start().len(), numbers);
    let starting = reader.start();
    match about {
        About::Fault => {
            let shown = OwnShown::new(alloc, header, specification)?;
            let items = verdict_items(alloc, &shown, &lines, starting, entries, verdict)?;
            text_of(alloc, &lines, &items)
        }
        About::Changes => {
            own_changes_text(alloc, header, specification, &lines, starting, entries)
        }
    }
}
