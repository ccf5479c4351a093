//! The top call.

ghost use Rattle.std.specs.Prelude.{◌≡◌, ◌≢◌, ◌⊎◌, ◌==◌, false, ℕ};
ghost use Rattle.std.specs.Prelude.{Some};
ghost use Rattle.vyrd_base.specs.Devices.{IsAtEnd, AfterReads, AfterWrites};
ghost use Rattle.vyrd_base.specs.Limits.{most_lines};
ghost use Rattle.vyrd_check_command.specs.Checks.{IsUnsettled};
ghost use Rattle.vyrd_command.specs.declared.show.Show.{Show};
ghost use Rattle.vyrd_command.specs.declared.form.Form.TheVariants.{Check, Step, Run, Gen};
ghost use Rattle.vyrd_command.specs.Forms.{form_said};
ghost use Rattle.vyrd_command.specs.Commands.{IsStatus, IsAnswerStatus, HasAnswered};
ghost use Rattle.vyrd_command.specs.Commands.{HasAnsweredInPart, HasRoom, reads, IsEnough};
ghost use Rattle.vyrd_command.specs.Commands.{IsNoFurther};
ghost use Rattle.vyrd_command.specs.Steps.{IsStepStatus};
ghost use Rattle.vyrd_command.specs.Runs.{IsRunStatus};
ghost use Rattle.vyrd_command.specs.Generated.{IsGenStatus};
ghost use Rattle.vyrd_command.specs.CorrectInputs.{SaysCorrect, SaysFewEvents};

use crate::command::carry_out;
use crate::form::{Form, form_of};
use std::alloc::Global;
use std::sync::Wait;
use std::thread::Threads;
use vyrd_base::{Gate, Sink, Source};
use vyrd_check_command::{Ended, MAX_LINES, check_limited, give, give_usage};

/// The usage line.
const USAGE_LINE: &[u8] =
    b"usage: vyrd check | step [--log|--history] | run [--log|--history] | gen N | movers | batch | explain | follow\n";

/// Carries out the words that stand after the program's name, over a source and a sink.
///
/// `check` reads a log of at most 268,435,456 lines and writes its verdict's line. `step` reads a
/// workload, plays it by turns over plain memory and writes the verdict's line about the log of
/// that run. `run` plays it by callers on threads of their own, who ask the gate before each event,
/// and may wait forever if the workload's callers do. With `--log` these two write the log before
/// the verdict's line, and with `--history` the text of the run's history in place of both; the
/// status stays that of the verdict. `gen N` generates a workload of N operations, from 1 to
/// 200,000, plays it by turns, and writes how many operations and events there were and then the
/// verdict's line. `movers` reads a history, and writes whether its commit blocks are reducible
/// (Lipton, CACM 1975), or which of them is the first that isn't. `batch` reads many logs in one
/// text, judges them on as many threads as there are processors, and writes a line for each log's
/// verdict, in the order of the logs, and one that counts them. `explain` reads a log of at most
/// 16,777,216 lines and writes its verdict's line, and then a line for each thing in the log that
/// has to do with the verdict; `follow` writes a line for each thing that changes along the log in
/// place of these. All other words are answered with the usage line, and the source is
/// left alone. All output is made before its first byte is written.
///
/// The status is 0 accepted, 1 a violation, 2 malformed, 3 arguments that aren't a command, 4 a
/// failed read, 5 a failed write, 6 no memory, 7 a workload that is refused, 8 a run by turns that
/// gets stuck, 9 a live run in which a caller's events are spent, 10 a history that is refused, 11
/// a batch that is refused. Of a history's blocks 0 says that all are reducible, and 1 that one
/// isn't.
pub fn vyrd<R: Threads + Wait + Sync, S: Source, K: Sink, G: Gate>(
    rt: &R,
    alloc: Global,
    words: &[&str],
    source: &mut S,
    sink: &mut K,
    gate: &G,
) -> Ended
    requires unended { (S.known source.old).ended ≡ false }

    // Which statuses come under which form, and what is written in those of an answer: the text of
    // the answer with this status to all that the source held.
    ensures statuses { IsStatus (form_said words.now) result.status }
    ensures answered { IsAnswerStatus (form_said words.now) result.status
        → HasAnswered (form_said words.now) (S.known source.old).rest result.status
        (K.known sink.old).taken (K.known sink.new).taken }

    // What is taken of the source: as much as an answer needs, and no more. `check` accepts a log
    // at the source's end alone, and never makes a read that fails after its verdict.
    ensures consumed { IsAnswerStatus (form_said words.now) result.status
        → IsEnough (form_said words.now) result.status (S.known source.old) (S.known source.new) }
    ensures no_further { IsNoFurther (form_said words.now) (S.known source.old)
        (S.known source.new) }
    ensures untouched { reads (form_said words.now) ≡ false → source.new ≡ source.old }
    ensures accepted_at_end { form_said words.now ≡ Some Check → result.status ≡ 0
        → IsAtEnd (S.known source.new) }
    ensures unsettled { form_said words.now ≡ Some Check → result.status ≡ 4
        → IsUnsettled most_lines (S.known source.old) (S.known source.new) }

    // A correct structure is accepted, in whatever order its callers' events come. Only a tree may
    // have more events than there is room for.
    ensures every_step { (show : Show) → form_said words.now ≡ Some (Step show)
        → SaysCorrect (S.known source.old).rest → IsStepStatus result.status
        → result.status ≡ 0 }
    ensures every_run { (show : Show) → form_said words.now ≡ Some (Run show)
        → SaysCorrect (S.known source.old).rest → IsRunStatus result.status
        → (result.status ≡ 0) ⊎ (result.status ≡ 9) }
    ensures run_has_room { (show : Show) → form_said words.now ≡ Some (Run show)
        → SaysFewEvents (S.known source.old).rest
        → result.status ≢ 9 }
    ensures every_gen { (n : ℕ) → form_said words.now ≡ Some (Gen n) → IsGenStatus result.status
        → result.status ≡ 0 }

    // 4, exactly when a read failed, and 6 if there was no memory: nothing was written.
    ensures source { AfterReads (result.status == 4) (S.known source.old) (S.known source.new) }
    ensures silent { (result.status ≡ 4) ⊎ (result.status ≡ 6)
        → (K.known sink.new).taken ≡ (K.known sink.old).taken }

    // 5, exactly when a write failed: some of the first bytes of an answer were written.
    ensures sink { AfterWrites (result.status == 5)
        (HasRoom (form_said words.now) (S.known source.old).rest (K.known sink.old).sure_room)
        (K.known sink.old) (K.known sink.new) }
    ensures answered_in_part { result.status ≡ 5
        → HasAnsweredInPart (form_said words.now) (S.known source.old).rest (K.known sink.old).taken
        (K.known sink.new).taken }
{
    match form_of(words) {
        Some(Form::Check) => check_limited(alloc, MAX_LINES, source, sink),
        Some(form) => {
            let answer = carry_out(rt, alloc, form, source, gate);
            give(sink, answer)
        }
        None => give_usage(sink, USAGE_LINE),
    }
}
