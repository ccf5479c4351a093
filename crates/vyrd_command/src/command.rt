//! What words of a form are answered, made ready before its first byte is written.

ghost use Rattle.std.specs.Prelude.{◌≡◌, ◌≢◌, ◌≤◌, ◌⊎◌, ◌==◌, ℕ, false, [], Some};
ghost use Rattle.vyrd_base.specs.Devices.{AfterReads};
ghost use Rattle.vyrd_memory.specs.Bounds.{most_ops};
ghost use Rattle.vyrd_command.specs.declared.form.Form.TheVariants.{Check, Gen};
ghost use Rattle.vyrd_command.specs.Commands.{IsStatus, IsAnswerStatus, IsAnswer, reads, IsEnough};
ghost use Rattle.vyrd_command.specs.Commands.{IsNoFurther};

use crate::batch::batch;
use crate::explain::{MOST_EXPLAINED, answer_explained};
use crate::form::Form;
use crate::generate::answer_generated;
use crate::movers::movers;
use crate::run::run;
use crate::step::step;
use std::alloc::Global;
use std::sync::Wait;
use std::thread::Threads;
use vyrd_base::{Gate, Source};
use vyrd_check_command::Answer;

/// The answer to words of any other form than `check`; or nothing after a failed read or out of
/// memory.
pub(crate) fn carry_out<R: Threads + Wait + Sync, S: Source, G: Gate>(
    rt: &R,
    alloc: Global,
    form: Form,
    source: &mut S,
    gate: &G,
) -> Answer
    requires other { form ≢ Check }
    requires some { (n : ℕ) → form ≡ Gen n → 1 ≤ n }
    requires few { (n : ℕ) → form ≡ Gen n → n ≤ most_ops }
    requires unended { (S.known source.old).ended ≡ false }
    ensures statuses { IsStatus (Some form) result.status }
    ensures unwritten { result.status ≢ 5 }
    ensures answer { IsAnswerStatus (Some form) result.status
        → IsAnswer (Some form) (S.known source.old).rest result.status result.text.items }
    ensures consumed { IsAnswerStatus (Some form) result.status
        → IsEnough (Some form) result.status (S.known source.old) (S.known source.new) }
    ensures no_further { IsNoFurther (Some form) (S.known source.old) (S.known source.new) }
    ensures untouched { reads (Some form) ≡ false → source.new ≡ source.old }
    ensures silent { (result.status ≡ 4) ⊎ (result.status ≡ 6) → result.text.items ≡ [] }
    ensures source { AfterReads (result.status == 4) (S.known source.old) (S.known source.new) }
{
    match form {
        Form::Check => unreachable!(),
        Form::Step { show } => step(alloc, show, source),
        Form::Run { show } => run(rt, alloc, show, source, gate),
        Form::Gen { count } => answer_generated(alloc, count),
        Form::Movers => movers(alloc, source),
        Form::Batch => batch(rt, alloc, source),
        Form::Tell { about } => answer_explained(alloc, about, MOST_EXPLAINED, source),
    }
}
