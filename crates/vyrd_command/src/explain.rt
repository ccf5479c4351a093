//! What `explain` and `follow` answer.

ghost use Rattle.std.specs.Prelude.{◌≡◌, ◌≤◌, ◌⊎◌, ◌==◌, false, [], OnOk};
ghost use Rattle.vyrd_base.specs.Devices.{AfterReads};
ghost use Rattle.vyrd_base.specs.Limits.{most_lines};
ghost use Rattle.vyrd_explain.specs.Explaining.{HasTaken, limit_of};
ghost use Rattle.vyrd_check_command.specs.Inputs.{is_failed};
ghost use Rattle.vyrd_command.specs.Explains.{AnswersExplain, IsExplainTaken, IsExplainNoFurther};
ghost use Rattle.vyrd_command.specs.Explains.{IsLogTaken, longest_explained};

use crate::read_input::read_more;
use crate::status::{MEMORY, READ_FAULT};
use std::alloc::Global;
use vyrd_base::Source;
use vyrd_check_command::{Answer, ReadFault, status_of};
use vyrd_explain::{About, Explainer};

/// How many lines a log may have that the program explains. Its entries are kept, some 24 bytes for
/// each, so these take up to 400 MB.
pub(crate) const MOST_EXPLAINED: u64 = 16_777_216;

/// How many bytes a line of a log has at most, with its line feed, if it isn't too long.
const LONGEST_LINE: usize = 201;

/// The answer to a log of at most `max_lines` lines, from 1 to 268,435,456: the line of its
/// verdict, and a line for each thing in the log that has to do with it, or that changes along the
/// log; or nothing after a failed read (status 4) or out of memory (6).
///
/// It takes no more of the source once nothing further can change the answer: the verdict stands,
/// and a line is no line of a log. Behind a violation it reads on, for what comes later may have to
/// do with it. The entries that are read are kept, as an [`Explainer`] keeps them.
pub fn answer_explained<S: Source>(
    alloc: Global,
    about: About,
    max_lines: u64,
    source: &mut S,
) -> Answer
    requires low { 1 ≤ max_lines }
    requires high { max_lines ≤ most_lines }
    requires unended { (S.known source.old).ended ≡ false }
    ensures statuses { (result.status ≤ 2) ⊎ (result.status ≡ 4) ⊎ (result.status ≡ 6) }
    ensures answers { result.status ≤ 2
        → AnswersExplain about max_lines (S.known source.old).rest result.status
        result.text.items }
    ensures consumed { result.status ≤ 2
        → IsExplainTaken max_lines (S.known source.old) (S.known source.new) }
    ensures no_further { IsExplainNoFurther max_lines (S.known source.old) (S.known source.new) }
    ensures silent { result.status ≡ 4 ⊎ result.status ≡ 6 → result.text.items ≡ [] }
    ensures source { AfterReads (result.status == 4) (S.known source.old) (S.known source.new) }
{
    let mut explainer = Explainer::new(alloc, max_lines);
    match take_log(alloc, max_lines, &mut explainer, source) {
        Ok(()) => match explainer.finish(about) {
            Ok(said) => Answer {
                status: status_of(said.verdict),
                text: said.text,
            },
            Err(_) => Answer::silent(alloc, MEMORY),
        },
        Err(ReadFault::Failed) => Answer::silent(alloc, READ_FAULT),
        Err(ReadFault::Memory) => Answer::silent(alloc, MEMORY),
    }
}

/// Reads a log of at most `max_lines` lines, until nothing further changes what is said of it, or
/// to the source's end.
///
/// Each read takes at most 65,536 bytes. The bytes of a read are forgotten at the next, so the
/// memory is that of an [`Explainer`].
fn take_log<S: Source>(
    alloc: Global,
    max_lines: u64,
    explainer: &mut Explainer,
    source: &mut S,
) -> Result<(), ReadFault>
    requires low { 1 ≤ max_lines }
    requires high { max_lines ≤ most_lines }
    requires limit { limit_of explainer.old ≡ max_lines }
    requires fresh { HasTaken explainer.old [] }
    requires unended { (S.known source.old).ended ≡ false }
    ensures taken { OnOk result
        (IsLogTaken max_lines (S.known source.old) (S.known source.new) explainer.new) }
    ensures no_further { IsExplainNoFurther max_lines (S.known source.old) (S.known source.new) }
    ensures source { AfterReads (is_failed result) (S.known source.old) (S.known source.new) }
{
    let most = longest_explained(max_lines);
    let mut piece = Vec::new(alloc);
    let mut count = 0;
    while count < most {
        piece.clear();
        let n = read_more(most - count, &mut piece, source)?;
        if n == 0 {
            return Ok(());
        }
        let is_settled = explainer.feed(&piece)?;
        if is_settled {
            return Ok(());
        }
        count += n;
    }
    Ok(())
}

/// How many bytes are read at most of a log of at most so many lines. By then nothing further
/// changes what is said of it.
fn longest_explained(max_lines: u64) -> usize
    requires { max_lines ≤ most_lines }
    ensures { result ≡ longest_explained max_lines }
{
    LONGEST_LINE * max_lines as usize + 1
}
