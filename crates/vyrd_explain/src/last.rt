//! Which steps were the last that set what is told of a state.

ghost use Rattle.std.specs.Prelude.{◌≡◌, ◌<◌, ◌^◌, length, None, Some, IfOk, IfSome};
ghost use Rattle.std.specs.Option.{option_map};
ghost use Rattle.vyrd_base.specs.Front.{first_break};
ghost use Rattle.vyrd_base.specs.Rules.{Charter, rules_by};
ghost use Rattle.vyrd_base.specs.Starts.{state_at_start};
ghost use Rattle.vyrd_explain.specs.Verdicts.{refused_with_last};

use std::alloc::{AllocError, Global};
use vyrd_base::{Entry, StartWord};
use vyrd_follow::{Tells, last_items};
use vyrd_witness::Item;

/// Items about the state before the entry at a position of a front, and behind them for each thing
/// that they tell of it the last step that set it. There is no specification if the starting words
/// stand for no state: then no step is known.
pub(crate) fn with_last<S: Tells>(
    alloc: Global,
    spec: Option<S>,
    starting: &[StartWord],
    front: &[Entry],
    at: usize,
    mut items: Vec<Item>,
) -> Result<Vec<Item>, AllocError>
    requires within { at < length front.now }
    requires state { IfSome spec (λ s. state_at_start (rules_by (S.charter s)) starting.now
        ≡ Some (S.state s)) }
    requires made { IfSome spec (λ s. S.made s ≡ 0) }
    requires kept { IfSome spec
        (λ s. first_break (rules_by (S.charter s)).header front.now ≡ None) }
    requires few { length front.now < 2 ^ 62 }
    ensures { (c : Charter) → IfSome spec (λ s. S.charter s ≡ c)
        → option_map S.state spec ≡ state_at_start (rules_by c) starting.now
        → IfOk result
        (λ all. all.items ≡ refused_with_last c starting.now front.now at items.items) }
{
    let Some(spec) = spec else {
        return Ok(items);
    };
    let last = last_items(alloc, spec, starting, front, at, &items)?;
    items.extend_from_slice(&last)?;
    Ok(items)
}
