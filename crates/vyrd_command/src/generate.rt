//! What `gen` answers.

ghost use Rattle.std.specs.Prelude.{◌≡◌, ◌≤◌, ◌⊎◌, [], IfOk};
ghost use Rattle.vyrd_memory.specs.Bounds.{most_ops};
ghost use Rattle.vyrd_command.specs.Generated.{IsGenAnswer, IsGenStatus};

use crate::account::Account;
use crate::show::Show;
use crate::status::MEMORY;
use crate::telling::{generated, stuck};
use std::alloc::{AllocError, Global};
use vyrd_check_command::Answer;
use vyrd_live::show_by_turns;
use vyrd_work::{AnyMachine, generate};

/// The answer to this many operations, from 1 to 200,000: the verdict about the run by turns of the
/// workload that is generated of them; or that the run gets stuck; or nothing if there is no
/// memory.
pub fn answer_generated(alloc: Global, count: u32) -> Answer
    requires some { 1 ≤ count }
    requires few { count ≤ most_ops }
    ensures statuses { IsGenStatus result.status ⊎ (result.status ≡ 6) }
    ensures answer { IsGenStatus result.status
        → IsGenAnswer count result.status result.text.items }
    ensures silent { result.status ≡ 6 → result.text.items ≡ [] }
{
    match try_answer(alloc, count) {
        Ok(answer) => answer,
        Err(_) => Answer::silent(alloc, MEMORY),
    }
}

/// The same, with an error if there is no memory.
fn try_answer(alloc: Global, count: u32) -> Result<Answer, AllocError>
    requires some { 1 ≤ count }
    requires few { count ≤ most_ops }
    ensures { IfOk result (λ answer. IsGenAnswer count answer.status answer.text.items) }
{
    let work = generate(alloc, count)?;
    let mut account = Account::new(alloc, work.header, Show::Verdict)?;
    match show_by_turns::<AnyMachine, Account>(alloc, work, &mut account)? {
        Some(_) => generated(alloc, count, account),
        None => stuck(alloc),
    }
}
