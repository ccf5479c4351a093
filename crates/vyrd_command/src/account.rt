//! The account of a run, kept while the run is played.

ghost use Rattle.std.specs.Prelude.{◌≡◌, ◌+◌, ◌<◌, ◌≤◌, ◌^◌, ◌∷◌, ◌++◌, [], ℕ, true, List, length, IfOk};
ghost use Rattle.std.specs.Prelude.{OnOk};
ghost use Rattle.vyrd_base.specs.declared.header.Header.{Header};
ghost use Rattle.vyrd_base.specs.declared.history.Stamped.{Stamped};
ghost use Rattle.vyrd_base.specs.Histories.{log_of};
ghost use Rattle.vyrd_base.specs.Rules.{Charter, built_in, rules_by};
ghost use Rattle.vyrd_base.specs.Subjects.{is_built_in};
ghost use Rattle.vyrd_base.specs.Verdicts.{verdict};
ghost use Rattle.vyrd_command.specs.declared.show.Show.{Show};
ghost use Rattle.vyrd_command.specs.Inside.Accounts.{HasTaken, text_so_far};
ghost use Rattle.vyrd_command.specs.Steps.{run_text};

use crate::show::Show;
use std::alloc::{AllocError, Global};
use std::marker::Model;
use vyrd_base::{Header, Stamped, Verdict};
use vyrd_judge::{AnyJudge, entry_of};
use vyrd_memory::EventSink;
use vyrd_mover::{write_event, write_history_header};
use vyrd_text::{write_entry, write_header, write_verdict};

/// Judges a run and writes what is to be shown of it, event by event. It keeps the judge and the
/// text, and no event.
#[derive(Drop)]
pub struct Account {
    judge: AnyJudge,
    count: u64,
    show: Show,
    text: Vec<u8>,
}

/// What is told of a run: its verdict, how many events it has, and the text that shows it.
#[derive(Drop)]
pub struct Told {
    pub verdict: Verdict,
    pub count: u64,
    pub text: Vec<u8>,
}

impl Model for Account {
    ghost use Rattle.std.specs.Prelude.{◌≤◌};
    ghost use Rattle.vyrd_command.specs.Inside.Accounts.{AccountView};

    ghost Value = { AccountView };

    ghost view = { λ a. record {
      judge = a.judge;
      count = a.count;
      show = a.show;
      text = a.text.items;
    } };

    ghost invariant = { λ a. a.judge.kept.entries ≤ a.count };
}

impl Account {
    /// An account of a run in which nothing was done yet.
    pub fn new(alloc: Global, header: Header, show: Show) -> Result<Account, AllocError>
        requires built_in { is_built_in header.subject ≡ true }
        ensures taken { IfOk result (λ a. HasTaken a []) }
        ensures charter { IfOk result (λ a. a.judge.kept.charter ≡ built_in header) }
        ensures show { IfOk result (λ a. a.show ≡ show) }
    {
        let judge = AnyJudge::new(alloc, header)?;
        let mut text = Vec::new(alloc);
        match show {
            Show::Verdict => {}
            Show::Log => write_header(header, &mut text)?,
            Show::History => write_history_header(header, &mut text)?,
        }
        Ok(Account {
            judge,
            count: 0,
            show,
            text,
        })
    }

    /// What is told of the run, if nothing more is done in it.
    pub fn close(self) -> Result<Told, AllocError>
        ensures verdict { (history : List Stamped) → HasTaken self history → IfOk result
            (λ told. told.verdict
            ≡ verdict (rules_by self.judge.kept.charter) [] (log_of history)) }
        ensures count { IfOk result (λ told. told.count ≡ self.count) }
        ensures text { (history : List Stamped) → HasTaken self history → IfOk result
            (λ told. told.text.items
            ≡ run_text self.show (rules_by self.judge.kept.charter).header history told.verdict) }
    {
        let Account {
            judge,
            count,
            show,
            mut text,
        } = self;
        let verdict = judge.finish()?;
        match show {
            Show::Verdict => write_verdict(&verdict, &mut text)?,
            Show::Log => {
                text.extend_from_slice(b"end\n")?;
                write_verdict(&verdict, &mut text)?;
            }
            Show::History => text.extend_from_slice(b"end\n")?,
        }
        Ok(Told {
            verdict,
            count,
            text,
        })
    }
}

impl EventSink for Account {
    ghost Fixed = { Charter × Show };

    ghost fixed = { λ a. (a.judge.kept.charter, a.show) };

    ghost count = { λ a. a.count };

    ghost has_taken = { HasTaken };

    fn taken(&self) -> u64 {
        self.count
    }

    #[inline(always)]
    fn take(&mut self, event: Stamped) -> Result<(), AllocError> {
        self.count += 1;
        if let Some(entry) = entry_of(event) {
            self.judge.feed(entry)?;
        }
        show_event(self.show, event, &mut self.text)
    }

    ghost counted = { λ a history taken. taken.counted };
}

/// Appends what is shown of an event: its line in the log, if it has one there, or its line in the
/// history.
#[inline(always)]
fn show_event(show: Show, event: Stamped, text: &mut Vec<u8>) -> Result<(), AllocError>
    ensures { (h : Header) (history : List Stamped) → text.old.items ≡ text_so_far show h history
        → OnOk result (text.new.items ≡ text_so_far show h (history ++ event ∷ [])) }
{
    match show {
        Show::Verdict => Ok(()),
        Show::Log => match entry_of(event) {
            Some(entry) => write_entry(&entry, text),
            None => Ok(()),
        },
        Show::History => write_event(event, text),
    }
}
