//! What `movers` answers.

ghost use Rattle.std.specs.Prelude.{◌≡◌, ◌⊎◌, ◌==◌, ℕ, false, List, [], IfOk, OnOk};
ghost use Rattle.vyrd_base.specs.Devices.{AfterReads};
ghost use Rattle.vyrd_mover.specs.BlocksText.{blocks_text};
ghost use Rattle.vyrd_mover.specs.HistoryReading.{history_reading};
ghost use Rattle.vyrd_mover.specs.HistoryReaders.{HasRead};
ghost use Rattle.vyrd_mover.specs.LongHistories.{longest_history};
ghost use Rattle.vyrd_mover.specs.Refusals.{history_refusal_text};
ghost use Rattle.vyrd_check_command.specs.Inputs.{is_failed};
ghost use Rattle.vyrd_command.specs.Inputs.{IsInputTaken, IsFewTaken};
ghost use Rattle.vyrd_command.specs.Moved.{AnswersMovers, IsMoversAnswer, IsMoversStatus};
ghost use Rattle.vyrd_command.specs.Moved.{IsHistoryRead};
ghost use Rattle.vyrd_command.specs.Moved.{status_of_blocks};

use crate::read_input::read_more;
use crate::status::{HISTORY_REFUSED, MEMORY, READ_FAULT};
use std::alloc::{AllocError, Global};
use vyrd_base::Source;
use vyrd_check_command::{Answer, ReadFault};
use vyrd_mover::{
    Blocks, HistoryFault, HistoryReader, HistoryRule, write_blocks, write_history_refusal,
};

/// How many bytes of a history are read at most: 256 MiB, and one byte that shows that there are
/// more.
const LONGEST_HISTORY: usize = 268_435_457;

/// The answer to a history: whether its blocks are reducible, or the first that isn't; or that it
/// is refused; or nothing after a failed read or if there is no memory.
pub fn movers<S: Source>(alloc: Global, source: &mut S) -> Answer
    requires unended { (S.known source.old).ended ≡ false }
    ensures statuses { IsMoversStatus result.status ⊎ (result.status ≡ 4) ⊎ (result.status ≡ 6) }
    ensures answers { IsMoversStatus result.status
        → AnswersMovers (S.known source.old).rest result.status result.text.items }
    ensures consumed { IsMoversStatus result.status
        → IsInputTaken longest_history 10 result.status (S.known source.old) (S.known source.new) }
    ensures few { IsFewTaken longest_history (S.known source.old) (S.known source.new) }
    ensures silent { result.status ≡ 4 ⊎ result.status ≡ 6 → result.text.items ≡ [] }
    ensures source { AfterReads (result.status == 4) (S.known source.old) (S.known source.new) }
{
    let mut reader = HistoryReader::new(alloc);
    match read_history(alloc, &mut reader, source) {
        Ok(()) => match answer_of(alloc, &reader) {
            Ok(answer) => answer,
            Err(_) => Answer::silent(alloc, MEMORY),
        },
        Err(ReadFault::Failed) => Answer::silent(alloc, READ_FAULT),
        Err(ReadFault::Memory) => Answer::silent(alloc, MEMORY),
    }
}

/// Reads to the source's end, or at most 256 MiB and one byte.
///
/// Each read takes at most 65,536 bytes. The bytes of a read are forgotten at the next, so the
/// memory is that of a [`HistoryReader`].
fn read_history<S: Source>(
    alloc: Global,
    reader: &mut HistoryReader,
    source: &mut S,
) -> Result<(), ReadFault>
    requires fresh { HasRead reader.old [] }
    requires unended { (S.known source.old).ended ≡ false }
    ensures read { OnOk result
        (IsHistoryRead (S.known source.old) (S.known source.new) reader.new) }
    ensures few { IsFewTaken longest_history (S.known source.old) (S.known source.new) }
    ensures source { AfterReads (is_failed result) (S.known source.old) (S.known source.new) }
{
    let mut piece = Vec::new(alloc);
    let mut count = 0;
    while count < LONGEST_HISTORY {
        piece.clear();
        let n = read_more(LONGEST_HISTORY - count, &mut piece, source)?;
        if n == 0 {
            break;
        }
        reader.feed(&piece);
        count += n;
    }
    Ok(())
}

/// The answer to the bytes that were read.
fn answer_of(alloc: Global, reader: &HistoryReader) -> Result<Answer, AllocError>
    ensures { (bytes : List ℕ) → HasRead reader.now bytes → IfOk result
        (λ answer. IsMoversAnswer (history_reading bytes) answer.status answer.text.items) }
{
    match reader.finish() {
        Ok(said) => tell(alloc, said),
        Err(HistoryFault::Refused { line, rule }) => refuse(alloc, line, rule),
        Err(HistoryFault::Memory) => Err(AllocError),
    }
}

/// The answer that says this of the blocks of a history.
fn tell(alloc: Global, blocks: Blocks) -> Result<Answer, AllocError>
    ensures status { IfOk result (λ answer. answer.status ≡ status_of_blocks blocks) }
    ensures text { IfOk result (λ answer. answer.text.items ≡ blocks_text blocks) }
{
    let mut text = Vec::new(alloc);
    write_blocks(blocks, &mut text)?;
    let status = status_of_blocks(blocks);
    Ok(Answer { status, text })
}

/// The status that what is said of blocks ends with.
fn status_of_blocks(blocks: Blocks) -> u8
    ensures { result ≡ status_of_blocks blocks }
{
    match blocks {
        Blocks::Reducible { .. } => 0,
        Blocks::Broken { .. } => 1,
    }
}

/// The answer that a history is refused.
fn refuse(alloc: Global, line: u64, rule: HistoryRule) -> Result<Answer, AllocError>
    ensures status { IfOk result (λ answer. answer.status ≡ 10) }
    ensures text { IfOk result (λ answer. answer.text.items ≡ history_refusal_text line rule) }
{
    let mut text = Vec::new(alloc);
    write_history_refusal(line, rule, &mut text)?;
    Ok(Answer {
        status: HISTORY_REFUSED,
        text,
    })
}
