//! What words show.

ghost use Rattle.std.specs.Prelude.{◌≡◌, ◌+◌, ◌≤◌, ◌==◌, ◌++◌, ◌∷◌, ℕ, map, length, OnOk};
ghost use Rattle.std.specs.Prelude.{slice_index_or};
ghost use Rattle.std.specs.List.{list_all};
ghost use Rattle.vyrd_own.specs.Layout.{written, show_of};
ghost use Rattle.vyrd_base.specs.Own.Steps.{blank, given_by, part_gives};

use crate::few::{MOST, USUAL, put_few};
use crate::program::{Program, Show};
use crate::state::StateOf;
use crate::steps::{Room, value_of};
use std::alloc::AllocError;

/// Puts what part `i` gives to keys, by its words, at the end of `parts`. `nothing` is a state in
/// which nothing was set.
#[tactic(auto, unfolding(vyrd_base::specs::Own::Steps::part_gives))]
pub fn put_parts(
    program: &Program,
    i: u64,
    words: &[u64],
    nothing: &StateOf,
    room: &mut Room,
    parts: &mut Vec<(u64, u64)>,
) -> Result<(), AllocError>
    requires { nothing.now ≡ blank }
    ensures { OnOk result (parts.new.items
        ≡ parts.old.items ++ part_gives (written program.now) i words.now) }
{
    if are_all_0(words) {
        return Ok(());
    }
    room.values.clear();
    room.values.extend_from_slice(&program.constants)?;
    room.values.push(i)?;
    room.values.extend_from_slice(words)?;
    for show in &program.shows {
        parts.push(given(show, nothing, &room.values))?;
    }
    Ok(())
}

/// Whether all words are 0.
fn are_all_0(words: &[u64]) -> bool
    ensures { result ≡ list_all (λ word. word == 0) words.now }
{
    for word in words {
        if *word != 0 {
            return false;
        }
    }
    true
}

/// The key and the amount of a line `shows`.
fn given(show: &Show, nothing: &StateOf, values: &[u64]) -> (u64, u64)
    requires { nothing.now ≡ blank }
    ensures { result ≡ given_by values.now (show_of show.now) }
{
    (
        value_of(&show.key, nothing, values),
        value_of(&show.amount, nothing, values),
    )
}

/// What part `i` gives to keys, by its words, in four places; those past its lines `shows` give
/// nothing. `nothing` is a state in which nothing was set.
#[tactic(auto, unfolding(vyrd_base::specs::Own::Steps::part_gives))]
pub fn part_pairs(program: &Program, i: u64, words: &[u64], nothing: &StateOf) -> [(u64, u64); 4]
    requires blank { nothing.now ≡ blank }
    requires shows { length program.now.shows.items ≤ 4 }
    requires few { length program.now.constants.items + 1 + length words.now ≤ 128 }
    ensures { (j : ℕ) → slice_index_or result j (0, 0)
        ≡ slice_index_or (part_gives (written program.now) i words.now) j (0, 0) }
{
    if are_all_0(words) {
        return [(0, 0); 4];
    }
    if program.constants.len() + 1 + words.len() <= USUAL {
        return pairs_in(&mut [0; USUAL], program, i, words, nothing);
    }
    pairs_in(&mut [0; MOST], program, i, words, nothing)
}

/// What the lines `shows` give for these words, whatever they are. `room` has a place for each value
/// that has a name in a part: the constants, the number of the part and its words.
fn pairs_in(
    room: &mut [u64],
    program: &Program,
    i: u64,
    words: &[u64],
    nothing: &StateOf,
) -> [(u64, u64); 4]
    requires blank { nothing.now ≡ blank }
    requires shows { length program.now.shows.items ≤ 4 }
    requires few { length program.now.constants.items + 1 + length words.now ≤ length room.old }
    ensures { (j : ℕ) → slice_index_or result j (0, 0)
        ≡ slice_index_or (map (given_by (program.now.constants.items ++ i ∷ words.now))
        (map show_of program.now.shows.items)) j (0, 0) }
{
    let constants = put_few(room, 0, &program.constants);
    room[constants] = i;
    let count = put_few(room, constants + 1, words);
    let mut pairs = [(0, 0); 4];
    put_pairs(&mut pairs, &program.shows, nothing, &room[..count]);
    pairs
}

/// Puts what the lines `shows` give into the first places.
fn put_pairs(pairs: &mut [(u64, u64)], shows: &[Show], nothing: &StateOf, values: &[u64])
    requires blank { nothing.now ≡ blank }
    requires room { length shows.now ≤ length pairs.old }
    requires none { (j : ℕ) → slice_index_or pairs.old j (0, 0) ≡ (0, 0) }
    ensures { (j : ℕ) → slice_index_or pairs.new j (0, 0)
        ≡ slice_index_or (map (given_by values.now) (map show_of shows.now)) j (0, 0) }
{
    for (j, show) in shows.iter().enumerate() {
        pairs[j] = given(show, nothing, values);
    }
}
