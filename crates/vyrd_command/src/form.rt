//! The forms of words that the program takes.

ghost use Rattle.std.specs.Prelude.{◌≡◌, ◌≤◌, ℕ, List, decimal, if◌then◌else◌, Some, None};
ghost use Rattle.vyrd_base.specs.Lines.{number_of};
ghost use Rattle.vyrd_memory.specs.Bounds.{most_ops};
ghost use Rattle.vyrd_command.specs.declared.form.Form.TheVariants.{Gen};
ghost use Rattle.vyrd_command.specs.Forms.{form_said, one_word, shown_by, shown_form, two_words};
ghost use Rattle.vyrd_command.specs.Forms.{is_count};

use crate::show::Show;
use vyrd_explain::About;
use vyrd_text::read_u32;

/// The most operations that are generated.
const MOST_OPS: u32 = 200_000;

/// What the words ask for.
#[derive(Clone, Copy)]
pub enum Form {
    /// `check`: the verdict about a log.
    Check,
    /// `step`: a workload is played by turns and judged. `--log` asks for the log before the
    /// verdict, `--history` for the history in place of both.
    Step { show: Show },
    /// `run`: a workload is played by callers on threads of their own and judged. `--log` and
    /// `--history` ask for the same.
    Run { show: Show },
    /// `gen N`: a workload of N operations is generated, played by turns and judged.
    Gen { count: u32 },
    /// `movers`: whether the commit blocks of a history are reducible.
    Movers,
    /// `batch`: the verdicts about the logs of a batch.
    Batch,
    /// `explain` or `follow`: the verdict about a log, and what in the log has to do with it, or
    /// what changes along the log.
    Tell { about: About },
}

/// The form of the words that stand after the program's name, if they have one.
pub fn form_of(words: &[&str]) -> Option<Form>
    ensures form { result ≡ form_said words.now }
    ensures some { (n : ℕ) → result ≡ Some (Gen n) → 1 ≤ n }
    ensures few { (n : ℕ) → result ≡ Some (Gen n) → n ≤ most_ops }
{
    match words {
        [word] => one_word(word),
        [word, other] => two_words(word, other),
        _ => None,
    }
}

/// The form of one word.
fn one_word(word: &str) -> Option<Form>
    ensures { result ≡ one_word word.now }
{
    match word {
        "check" => Some(Form::Check),
        "step" => Some(Form::Step {
            show: Show::Verdict,
        }),
        "run" => Some(Form::Run {
            show: Show::Verdict,
        }),
        "movers" => Some(Form::Movers),
        "batch" => Some(Form::Batch),
        "explain" => Some(Form::Tell {
            about: About::Fault,
        }),
        "follow" => Some(Form::Tell {
            about: About::Changes,
        }),
        _ => None,
    }
}

/// The form of two words.
fn two_words(word: &str, other: &str) -> Option<Form>
    ensures { result ≡ two_words word.now other.now }
{
    if word == "gen" {
        let count = count_of(other)?;
        return Some(Form::Gen { count });
    }
    let show = shown_by(other)?;
    shown_form(word, show)
}

/// What an option asks for.
fn shown_by(option: &str) -> Option<Show>
    ensures { result ≡ shown_by option.now }
{
    match option {
        "--log" => Some(Show::Log),
        "--history" => Some(Show::History),
        _ => None,
    }
}

/// The form of a word with an option.
fn shown_form(word: &str, show: Show) -> Option<Form>
    ensures { result ≡ shown_form word.now show }
{
    match word {
        "step" => Some(Form::Step { show }),
        "run" => Some(Form::Run { show }),
        _ => None,
    }
}

/// The number from 1 to 200,000 that the word spells.
fn count_of(word: &str) -> Option<u32>
    ensures { result ≡ (if is_count word.now then Some (number_of word.now) else None) }
{
    let number = read_u32(word.as_bytes())?;
    in_range(number)
}

/// The number, if it is from 1 to 200,000.
fn in_range(number: u32) -> Option<u32>
    ensures { (word : List ℕ) → word ≡ decimal number
        → result ≡ (if is_count word then Some (number_of word) else None) }
{
    if number == 0 {
        return None;
    }
    if MOST_OPS < number {
        return None;
    }
    Some(number)
}
