//! The nodes in use of a tree's words, each judged by itself and its neighbours.

ghost use Rattle.std.specs.Prelude.{◌≡◌, ◌+◌, ◌*◌, ◌<◌, ◌≤◌, ◌==◌, ◌&&◌, true, false, min, map};
ghost use Rattle.std.specs.Prelude.{length, IfOk, IfSome, MatchOption};
ghost use Rattle.std.specs.List.{list_all};
ghost use Rattle.vyrd_base.specs.Tree.{node_word, level_of, count_of, bound_of, right_of};
ghost use Rattle.vyrd_base.specs.Tree.{entries_of};
ghost use Rattle.vyrd_base.specs.Tree.{nodes, left_of, is_first, low_of, is_linked, is_bounded};
ghost use Rattle.vyrd_base.specs.Tree.{has_sound_keys, is_leaf_entry, is_child_entry};
ghost use Rattle.vyrd_base.specs.Tree.{has_sound_entries, is_only_first, is_sound_node};
ghost use Rattle.vyrd_spec.specs.Neighbours.{have_one_left};
ghost use Rattle.vyrd_spec.specs.NodeKeys.{is_sound_key, is_first_of, is_sound_below};

use crate::neighbours::left_neighbours;
use std::alloc::{AllocError, Global};

/// How many words a node has: level, count, bound and right, then four keys, then four values.
pub(crate) const NODE_WORDS: usize = 12;

/// Where a node has its level, which is 0 for a leaf.
const LEVEL: usize = 0;

/// Where a node has the count of its entries.
pub(crate) const COUNT: usize = 1;

/// Where a node has its high key plus 1, or 0 if it has none.
const BOUND: usize = 2;

/// Where a node has the node on its right, or 0 if there is none.
pub(crate) const RIGHT: usize = 3;

/// Where a node has its keys.
pub(crate) const KEYS: usize = 4;

/// Where a node has its values, or its children.
pub(crate) const VALUES: usize = 8;

/// How many entries a node has room for.
pub(crate) const MOST_ENTRIES: u64 = 4;

/// What the keys and the values of a leaf are below.
pub(crate) const NUMBER_END: u64 = 1 << 32;

/// The nodes in use, from 0 to `last`, and the left neighbour of each: the node whose right link
/// leads to it.
#[derive(Drop)]
pub(crate) struct Nodes<'w> {
    words: &'w [u64],
    last: usize,
    lefts: Vec<Option<usize>>,
    ghost few: { last < 1024 },
    ghost room: { 12 * last + 12 ≤ length words.now },
    ghost each: { lefts.items ≡ map (left_of last words.now) (nodes last) },
    ghost one: { have_one_left last words.now ≡ true },
}

impl<'w> Nodes<'w> {
    /// The nodes with their left neighbours, and `None` if two right links lead to one node.
    pub(crate) fn new(
        alloc: Global,
        words: &'w [u64],
        last: usize,
    ) -> Result<Option<Nodes<'w>>, AllocError>
        requires few { last < 1024 }
        requires room { 12 * last + 12 ≤ length words.now }
        ensures { IfOk result (λ found. MatchOption found (have_one_left last words.now ≡ false)
            (λ made. (have_one_left last words.now ≡ true) × (made.words.now ≡ words.now)
            × (made.last ≡ last))) }
    {
        match left_neighbours(alloc, words, last)? {
            Some(lefts) => Ok(Some(Nodes { words, last, lefts })),
            None => Ok(None),
        }
    }

    fn word(&self, node: usize, place: usize) -> u64
        requires node { node ≤ self.now.last }
        requires place { place < 12 }
        ensures { result ≡ node_word self.now.words.now node place }
    {
        self.words[NODE_WORDS * node + place]
    }

    fn level(&self, node: usize) -> u64
        requires { node ≤ self.now.last }
        ensures { result ≡ level_of self.now.words.now node }
    {
        self.word(node, LEVEL)
    }

    fn bound(&self, node: usize) -> u64
        requires { node ≤ self.now.last }
        ensures { result ≡ bound_of self.now.words.now node }
    {
        self.word(node, BOUND)
    }

    fn right(&self, node: usize) -> u64
        requires { node ≤ self.now.last }
        ensures { result ≡ right_of self.now.words.now node }
    {
        self.word(node, RIGHT)
    }

    /// How many entries there are, which is never more than there is room for.
    fn entries(&self, node: usize) -> usize
        requires { node ≤ self.now.last }
        ensures { result ≡ min (count_of self.now.words.now node) 4 }
    {
        self.word(node, COUNT).min(MOST_ENTRIES) as usize
    }

    /// The node whose right link leads to this one.
    fn left(&self, node: usize) -> Option<usize>
        requires { node ≤ self.now.last }
        ensures left { result ≡ left_of self.now.last self.now.words.now node }
        ensures in_use { IfSome result (λ left. left ≤ self.now.last) }
    {
        self.lefts[node]
    }

    /// Whether the node is the first of its chain.
    fn is_first(&self, node: usize) -> bool
        requires { node ≤ self.now.last }
        ensures { result ≡ is_first self.now.last self.now.words.now node }
    {
        self.left(node).is_none()
    }

    /// The least key that may stand in the node.
    fn low(&self, node: usize) -> u64
        requires { node ≤ self.now.last }
        ensures { result ≡ low_of self.now.last self.now.words.now node }
    {
        match self.left(node) {
            Some(left) => self.bound(left),
            None => 0,
        }
    }

    /// Whether the right link, if there is one, leads to a node in use of the same level. That at
    /// most one link leads to a node is known of all nodes.
    fn is_linked(&self, node: usize) -> bool
        requires { node ≤ self.now.last }
        ensures { result ≡ is_linked self.now.last self.now.words.now node }
    {
        let right = self.right(node);
        right == 0 || (right <= self.last as u64 && self.level(right as usize) == self.level(node))
    }

    /// Whether the bound is 0 exactly at a chain's end, and otherwise above the low.
    fn is_bounded(&self, node: usize) -> bool
        requires { node ≤ self.now.last }
        ensures { result ≡ is_bounded self.now.last self.now.words.now node }
    {
        if self.right(node) == 0 {
            self.bound(node) == 0
        } else {
            self.low(node) < self.bound(node)
        }
    }

    /// Whether there is room for the entries, and their keys rise from the low on and stay below
    /// the bound.
    fn has_sound_keys(&self, node: usize) -> bool
        requires { node ≤ self.now.last }
        ensures { result ≡ has_sound_keys self.now.last self.now.words.now node }
    {
        if self.word(node, COUNT) > MOST_ENTRIES {
            return false;
        }
        for place in 0..self.entries(node) {
            if !self.is_sound_key(node, place) {
                return false;
            }
        }
        true
    }

    /// Whether the key at this place is above the one before it, at least the low, and below the
    /// bound.
    fn is_sound_key(&self, node: usize, place: usize) -> bool
        requires node { node ≤ self.now.last }
        requires place { place < 4 }
        ensures { result ≡ is_sound_key self.now.last self.now.words.now node place }
    {
        let key = self.word(node, KEYS + place);
        let bound = self.bound(node);
        (place == 0 || self.word(node, KEYS + (place - 1)) < key)
            && self.low(node) <= key
            && (bound == 0 || key < bound)
    }

    /// Whether a leaf's numbers have 32 bits, or an inner node has two children or more, of which
    /// the first begins at its low.
    fn has_sound_entries(&self, node: usize) -> bool
        requires { node ≤ self.now.last }
        ensures { result ≡ has_sound_entries self.now.last self.now.words.now node }
    {
        let level = self.level(node);
        if level == 0 {
            self.has_leaf_entries(node)
        } else {
            self.word(node, COUNT) >= 2
                && self.word(node, KEYS) == self.low(node)
                && self.has_children(node, level)
        }
    }

    /// Whether all numbers of a leaf have 32 bits.
    fn has_leaf_entries(&self, node: usize) -> bool
        requires { node ≤ self.now.last }
        ensures { result ≡ list_all is_leaf_entry (entries_of self.now.words.now node) }
    {
        for place in 0..self.entries(node) {
            if !is_leaf_entry(
                self.word(node, KEYS + place),
                self.word(node, VALUES + place),
            ) {
                return false;
            }
        }
        true
    }

    /// Whether each child of a node of this level is sound.
    fn has_children(&self, node: usize, level: u64) -> bool
        requires node { node ≤ self.now.last }
        requires inner { 0 < level }
        ensures { result ≡ list_all (is_child_entry self.now.last self.now.words.now level)
            (entries_of self.now.words.now node) }
    {
        for place in 0..self.entries(node) {
            if !self.is_child(
                level,
                self.word(node, KEYS + place),
                self.word(node, VALUES + place),
            ) {
                return false;
            }
        }
        true
    }

    /// Whether the child is in use and one level lower, and its low is this key.
    fn is_child(&self, level: u64, key: u64, child: u64) -> bool
        requires { 0 < level }
        ensures { result ≡ is_child_entry self.now.last self.now.words.now level (key, child) }
    {
        child <= self.last as u64
            && self.level(child as usize) == level - 1
            && self.low(child as usize) == key
    }

    /// Whether exactly one node of this node's level is the first of a chain.
    fn is_only_first(&self, node: usize) -> bool
        requires { node ≤ self.now.last }
        ensures { result ≡ is_only_first self.now.last self.now.words.now node }
    {
        let level = self.level(node);
        let mut firsts: usize = 0;
        for other in 0..self.last + 1 {
            if self.is_first_of(level, other) {
                firsts += 1;
            }
        }
        firsts == 1
    }

    /// Whether the node is the first of a chain of this level.
    fn is_first_of(&self, level: u64, node: usize) -> bool
        requires { node ≤ self.now.last }
        ensures { result ≡ is_first_of self.now.last self.now.words.now level node }
    {
        self.level(node) == level && self.is_first(node)
    }

    /// Whether the node keeps all five rules: links, bounds, keys, entries, and one chain at its
    /// level.
    fn is_sound(&self, node: usize) -> bool
        requires { node ≤ self.now.last }
        ensures { result ≡ is_sound_node self.now.last self.now.words.now node }
    {
        self.is_linked(node)
            && self.is_bounded(node)
            && self.has_sound_keys(node)
            && self.has_sound_entries(node)
            && self.is_only_first(node)
    }

    /// Whether the node is sound, and its level isn't above the highest.
    fn is_sound_below(&self, highest: u64, node: usize) -> bool
        requires { node ≤ self.now.last }
        ensures { result ≡ is_sound_below self.now.last self.now.words.now highest node }
    {
        self.level(node) <= highest && self.is_sound(node)
    }

    /// Whether all nodes are sound, and no level is above the highest.
    fn are_sound_below(&self, highest: u64) -> bool
        ensures { result ≡ list_all (is_sound_below self.now.last self.now.words.now highest)
            (nodes self.now.last) }
    {
        for node in 0..self.last + 1 {
            if !self.is_sound_below(highest, node) {
                return false;
            }
        }
        true
    }

    /// Whether these are the nodes of a tree with this root: node 0 begins the chain of the leaves
    /// and the root that of the highest level, and each node is sound.
    pub(crate) fn are_tree(&self, root: usize) -> bool
        requires { root ≤ self.now.last }
        ensures { result
            ≡ (level_of self.now.words.now 0 == 0 && is_first self.now.last self.now.words.now root
            && list_all (is_sound_below self.now.last self.now.words.now
            (level_of self.now.words.now root)) (nodes self.now.last)) }
    {
        self.level(0) == 0 && self.is_first(root) && self.are_sound_below(self.level(root))
    }
}

/// Whether both numbers have 32 bits.
fn is_leaf_entry(key: u64, value: u64) -> bool
    ensures { result ≡ is_leaf_entry (key, value) }
{
    key < NUMBER_END && value < NUMBER_END
}
