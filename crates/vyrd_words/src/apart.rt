//! A commit that waits with a large count, or with late writes.

ghost use Rattle.std.specs.Prelude.{◌≡◌, ◌<◌, ◌≤◌, ◌^◌, ◌+◌, ◌++◌, [], length, All, vec_len};
ghost use Rattle.std.specs.Prelude.{vec_capacity, if◌then◌else◌};
ghost use Rattle.std.specs.Result.{is_ok};
ghost use Rattle.vyrd_words.specs.Counts.{just, with_late};
ghost use Rattle.vyrd_words.specs.Cuts.{written};

use crate::write::Write;
use std::alloc::{AllocError, Global};
use std::marker::Model;
use std::sync::ledger::Ledger;
use vyrd_base::Steps;

/// How many writes took effect between the commit before and this one, and those that took effect at
/// it while it waited. They stand by themselves, so that no write that came since gives way to them.
#[derive(Drop)]
pub(crate) struct Apart {
    count: usize,
    late: Vec<Write>,
}

impl Model for Apart {
    ghost use Rattle.std.specs.Prelude.{ℕ, List};

    ghost Value = { ℕ × List (ℕ × ℕ) };

    ghost view = { λ a. (a.count, a.late.items) };
}

impl Apart {
    /// A commit with this count, and without late writes. It holds no memory.
    pub fn new(alloc: Global, count: usize) -> Apart
        ensures { result ≡ just count }
    {
        Apart {
            count,
            late: Vec::new(alloc),
        }
    }

    /// The count.
    #[inline(always)]
    pub fn count(&self) -> usize
        ensures { result ≡ self.now.0 }
    {
        self.count
    }

    /// The late writes, once the commit no longer waits.
    #[inline(always)]
    pub fn into_late(self) -> Vec<Write>
        ensures { result.items ≡ self.1 }
    {
        self.late
    }

    /// The changed words are late writes too, after the others, with a step for each of them. An
    /// error, that memory has run out, leaves the writes as they were.
    pub fn add<L: Ledger>(
        &mut self,
        changed: &[u32],
        words: &[u64],
        steps: &mut Steps<L>,
    ) -> Result<(), AllocError>
        requires changed { All (λ w. w < length words.now) changed.now }
        requires few { length words.now ≤ 2 ^ 16 }
        ensures late { self.new ≡ (if is_ok result
            then with_late self.old (written words.now changed.now)
            else self.old) }
        ensures steps { steps.new ≤ steps.old + length changed.now }
    {
        self.late.reserve(changed.len())?;
        put_last(&mut self.late, changed, words, steps);
        Ok(())
    }
}

/// The changed words are written last. There is room for that.
fn put_last<L: Ledger>(
    writes: &mut Vec<Write>,
    changed: &[u32],
    words: &[u64],
    steps: &mut Steps<L>,
)
    requires room { vec_len writes.old + length changed.now ≤ vec_capacity writes.old }
    requires changed { All (λ w. w < length words.now) changed.now }
    requires few { length words.now ≤ 2 ^ 16 }
    ensures writes { writes.new.items ≡ writes.old.items ++ written words.now changed.now }
    ensures steps { steps.new ≡ steps.old + length changed.now }
{
    for word in changed {
        steps.tick();
        writes.push_reserved(Write::new(*word, words[*word as usize]));
    }
}
