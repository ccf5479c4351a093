//! The leaves of a tree, as their words change.

ghost use Rattle.std.specs.Prelude.{◌≡◌, ℕ, ◌+◌, ◌-◌, ◌*◌, ◌/◌, ◌%◌, ◌<◌, ◌≤◌, ◌^◌, true, false};
ghost use Rattle.std.specs.Prelude.{length, slice_index_or, All, OnOk, OnErr, if◌then◌else◌};
ghost use Rattle.vyrd_view.specs.Chained.{HasNodes, IsWalked};
ghost use Rattle.vyrd_view.specs.Chains.{entry_pair, node_pair, end_pair, is_stale};
ghost use Rattle.vyrd_view.specs.Chains.{has_link, is_on_chain, is_broken};
ghost use Rattle.vyrd_view.specs.Comparing.{AgreeElsewhere, differing, nodes_looked_at};

use crate::chain::is_seen;
use crate::parts::Parts;
use std::alloc::AllocError;
use std::sync::ledger::Ledger;
use vyrd_base::Steps;

/// How many words a node has: level, count, bound and right, then four keys, then four values.
pub(crate) const NODE_WORDS: usize = 12;

/// Where a node has the count of its entries.
const COUNT: usize = 1;

/// Where a node has the node on its right.
const RIGHT: usize = 3;

/// Where a node has its keys.
const KEYS: usize = 4;

/// Where a node has its values.
const VALUES: usize = 8;

/// How many entries a node has room for.
pub(crate) const ENTRIES: usize = 4;

/// How many marks are compared at once.
const AT_ONCE: usize = 16;

/// What is added to a value, so that the amount of a key that is there is never 0. Keys and values
/// are below it.
const PRESENT: u64 = 1 << 32;

/// The key that stands for damage. It is above all others.
const DAMAGE: u64 = 1 << 33;

/// The places of a tree are brought up to date: those of each leaf with a word that holds another
/// value than before, and, if one of these words is a right link, those of the leaves that came to
/// the chain or left it. Once memory was refused the parts may only be dropped.
pub(crate) fn leaves_changed<L: Ledger>(
    parts: &mut Parts,
    marks: &mut [bool],
    next: &mut [bool],
    before: &[u64],
    words: &[u64],
    changed: &[u32],
    steps: &mut Steps<L>,
) -> Result<(), AllocError>
    requires sound { parts.old.refused ≡ false }
    requires nodes { HasNodes words.now marks.old next.old }
    requires walked { IsWalked before.now parts.old.pairs marks.old }
    requires count { length before.now ≡ length words.now }
    requires within { All (λ w. w < length words.now) changed.now }
    requires elsewhere { AgreeElsewhere before.now words.now changed.now }
    ensures walked { OnOk result (IsWalked words.now parts.new.pairs marks.new) }
    ensures specified { OnOk result (parts.new.specified ≡ parts.old.specified) }
    ensures sound { OnOk result (parts.new.refused ≡ false) }
    ensures refused { OnErr result (parts.new.refused ≡ true) }
    ensures steps { steps.new ≤ steps.old
        + 9 * nodes_looked_at (length marks.old) (differing before.now words.now changed.now)
        + 2 }
{
    entries_changed(parts, marks, before, words, changed, steps)?;
    if !has_turned(before, words, changed) {
        return Ok(());
    }
    let broken = walk(next, words);
    remark(parts, marks, next, words, steps)?;
    parts.replace(ENTRIES * marks.len(), end_pair(broken), steps)
}

/// Whether a right link leads to another node than before.
fn has_turned(before: &[u64], words: &[u64], changed: &[u32]) -> bool
    requires count { length before.now ≡ length words.now }
    requires within { All (λ w. w < length words.now) changed.now }
    ensures { result ≡ has_link (differing before.now words.now changed.now) }
{
    for word in changed {
        let word = *word as usize;
        if word % NODE_WORDS == RIGHT && words[word] != before[word] {
            return true;
        }
    }
    false
}

/// What the end of the chain gives.
fn end_pair(broken: bool) -> (u64, u64)
    ensures { result ≡ end_pair broken }
{
    if broken { (DAMAGE, 1) } else { (0, 0) }
}

/// Each marked node with a word that holds another value than before gives what its words show now.
/// Once memory was refused the parts may only be dropped.
fn entries_changed<L: Ledger>(
    parts: &mut Parts,
    marks: &[bool],
    before: &[u64],
    words: &[u64],
    changed: &[u32],
    steps: &mut Steps<L>,
) -> Result<(), AllocError>
    requires sound { parts.old.refused ≡ false }
    requires small { length marks.now ≤ 1024 }
    requires count { length words.now ≡ 12 * length marks.now + 2 }
    requires before { length before.now ≡ length words.now }
    requires within { All (λ w. w < length words.now) changed.now }
    requires places { length parts.old.pairs ≡ 4 * length marks.now + 1 }
    requires others { (m : ℕ) → m < 4 * length marks.now
        → is_stale marks.now (m / 4) (differing before.now words.now changed.now) ≡ false
        → slice_index_or parts.old.pairs m (0, 0) ≡ node_pair words.now marks.now m }
    ensures sound { OnOk result (parts.new.refused ≡ false) }
    ensures specified { OnOk result (parts.new.specified ≡ parts.old.specified) }
    ensures places { OnOk result (length parts.new.pairs ≡ length parts.old.pairs) }
    ensures nodes { OnOk result ((m : ℕ) → m < 4 * length marks.now
        → slice_index_or parts.new.pairs m (0, 0) ≡ node_pair words.now marks.now m) }
    ensures end { OnOk result (slice_index_or parts.new.pairs (4 * length marks.now) (0, 0)
        ≡ slice_index_or parts.old.pairs (4 * length marks.now) (0, 0)) }
    ensures refused { OnErr result (parts.new.refused ≡ true) }
    ensures steps { steps.new
        ≤ steps.old + 9 * length (differing before.now words.now changed.now) }
{
    for word in changed {
        let word = *word as usize;
        let node = word / NODE_WORDS;
        if words[word] != before[word] && is_marked(marks, node) {
            let entries = decoded_node(words, node, steps);
            put_node(parts, node, &entries, steps)?;
        }
    }
    Ok(())
}

/// Marks the nodes on the chain of leaves, and no others. The answer is whether the chain is
/// damaged.
fn walk(marks: &mut [bool], words: &[u64]) -> bool
    requires some { 0 < length marks.old }
    requires count { length words.now ≡ 12 * length marks.old + 2 }
    ensures marks { (n : ℕ) → n < length marks.old
        → slice_index_or marks.new n false ≡ is_on_chain (length marks.old) words.now n }
    ensures broken { result ≡ is_broken (length marks.old) words.now }
{
    marks.fill(false);
    let mut node = 0;
    for _turn in 0..marks.len() {
        marks[node] = true;
        let right = words[NODE_WORDS * node + RIGHT];
        if right == 0 {
            return false;
        }
        if is_seen(marks, right) {
            return true;
        }
        node = right as usize;
    }
    false
}

/// The marks become the next ones, and each node that gets a mark or loses one gives what it shows
/// now. Once memory was refused the parts may only be dropped.
fn remark<L: Ledger>(
    parts: &mut Parts,
    marks: &mut [bool],
    next: &[bool],
    words: &[u64],
    steps: &mut Steps<L>,
) -> Result<(), AllocError>
    requires sound { parts.old.refused ≡ false }
    requires small { length marks.old ≤ 1024 }
    requires same { length next.now ≡ length marks.old }
    requires count { length words.now ≡ 12 * length marks.old + 2 }
    requires places { length parts.old.pairs ≡ 4 * length marks.old + 1 }
    requires nodes { (m : ℕ) → m < 4 * length marks.old
        → slice_index_or parts.old.pairs m (0, 0) ≡ node_pair words.now marks.old m }
    ensures sound { OnOk result (parts.new.refused ≡ false) }
    ensures specified { OnOk result (parts.new.specified ≡ parts.old.specified) }
    ensures places { OnOk result (length parts.new.pairs ≡ length parts.old.pairs) }
    ensures marks { OnOk result ((n : ℕ) → n < length marks.old
        → slice_index_or marks.new n false ≡ slice_index_or next.now n false) }
    ensures nodes { OnOk result ((m : ℕ) → m < 4 * length marks.old
        → slice_index_or parts.new.pairs m (0, 0) ≡ node_pair words.now marks.new m) }
    ensures refused { OnErr result (parts.new.refused ≡ true) }
    ensures steps { steps.new ≤ steps.old + 9 * length marks.old }
{
    let mut node = 0;
    while node < marks.len() {
        let is_next = next[node];
        if marks[node] != is_next {
            let entries = shown_node(words, node, is_next, steps);
            put_node(parts, node, &entries, steps)?;
            marks[node] = is_next;
            node += 1;
        } else {
            node = pass_same(marks, next, node + 1);
        }
    }
    Ok(())
}

/// A place up to which the marks from this one on are the next ones. It goes by many at a time,
/// since few differ as a rule, and leaves fewer than that to its caller.
fn pass_same(marks: &[bool], next: &[bool], from: usize) -> usize
    requires same { length next.now ≡ length marks.now }
    requires from { from ≤ length marks.now }
    ensures after { from ≤ result }
    ensures within { result ≤ length marks.now }
    ensures same { (n : ℕ) → from ≤ n → n < result
        → slice_index_or marks.now n false ≡ slice_index_or next.now n false }
{
    let mut place = from;
    while marks.len() - place >= AT_ONCE && are_same(marks, next, place) {
        place += AT_ONCE;
    }
    place
}

/// Whether as many marks as are compared at once are the next ones, from a place on. None is left
/// out once one differs, so they are compared side by side.
fn are_same(marks: &[bool], next: &[bool], from: usize) -> bool
    requires same { length next.now ≡ length marks.now }
    requires from { from + 16 ≤ length marks.now }
    ensures { result ≡ true → (n : ℕ) → from ≤ n → n < from + 16
        → slice_index_or marks.now n false ≡ slice_index_or next.now n false }
{
    let mut same = true;
    for place in from..from + AT_ONCE {
        same = same & (marks[place] == next[place]);
    }
    same
}

/// What the four places of a node give: its entries if it is marked, and nothing otherwise.
fn shown_node<L: Ledger>(
    words: &[u64],
    node: usize,
    marked: bool,
    steps: &mut Steps<L>,
) -> [(u64, u64); 4]
    requires { 12 * node + 11 < length words.now }
    ensures entries { (j : ℕ) → j < 4
        → slice_index_or result j (0, 0)
        ≡ (if marked then entry_pair words.now node j else (0, 0)) }
    ensures steps { steps.new ≤ steps.old + 1 }
{
    if marked {
        decoded_node(words, node, steps)
    } else {
        [(0, 0), (0, 0), (0, 0), (0, 0)]
    }
}

/// Whether the node is marked. One past the nodes isn't.
fn is_marked(marks: &[bool], node: usize) -> bool
    ensures { result ≡ slice_index_or marks.now node false }
{
    marks.get(node).copied().unwrap_or(false)
}

/// What the four entries of a node give.
fn decoded_node<L: Ledger>(words: &[u64], node: usize, steps: &mut Steps<L>) -> [(u64, u64); 4]
    requires { 12 * node + 11 < length words.now }
    ensures entries { (j : ℕ) → j < 4
        → slice_index_or result j (0, 0) ≡ entry_pair words.now node j }
    ensures steps { steps.new ≡ steps.old + 1 }
{
    steps.tick();
    [
        entry(words, node, 0),
        entry(words, node, 1),
        entry(words, node, 2),
        entry(words, node, 3),
    ]
}

/// What an entry of a node gives.
fn entry(words: &[u64], node: usize, j: usize) -> (u64, u64)
    requires within { 12 * node + 11 < length words.now }
    requires place { j < 4 }
    ensures { result ≡ entry_pair words.now node j }
{
    let first = NODE_WORDS * node;
    if j as u64 >= words[first + COUNT] {
        return (0, 0);
    }
    let key = words[first + KEYS + j];
    let value = words[first + VALUES + j];
    if key < PRESENT && value < PRESENT {
        (key, PRESENT + value)
    } else {
        (DAMAGE, 1)
    }
}

/// The four places of a node give these pairs now. Once memory was refused the parts may only be
/// dropped.
fn put_node<L: Ledger>(
    parts: &mut Parts,
    node: usize,
    entries: &[(u64, u64); 4],
    steps: &mut Steps<L>,
) -> Result<(), AllocError>
    requires sound { parts.old.refused ≡ false }
    requires places { 4 * node + 4 ≤ length parts.old.pairs }
    requires few { length parts.old.pairs ≤ 4097 }
    ensures sound { OnOk result (parts.new.refused ≡ false) }
    ensures specified { OnOk result (parts.new.specified ≡ parts.old.specified) }
    ensures places { OnOk result (length parts.new.pairs ≡ length parts.old.pairs) }
    ensures below { OnOk result ((m : ℕ) → m < 4 * node
        → slice_index_or parts.new.pairs m (0, 0) ≡ slice_index_or parts.old.pairs m (0, 0)) }
    ensures inside { OnOk result ((j : ℕ) → j < 4
        → slice_index_or parts.new.pairs (4 * node + j) (0, 0)
        ≡ slice_index_or entries.now j (0, 0)) }
    ensures above { OnOk result ((m : ℕ) → 4 * node + 4 ≤ m
        → slice_index_or parts.new.pairs m (0, 0) ≡ slice_index_or parts.old.pairs m (0, 0)) }
    ensures refused { OnErr result (parts.new.refused ≡ true) }
    ensures steps { steps.new ≤ steps.old + 8 }
{
    for j in 0..ENTRIES {
        parts.replace(ENTRIES * node + j, entries[j], steps)?;
    }
    Ok(())
}
