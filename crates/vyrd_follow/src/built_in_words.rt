//! The words of a built-in structure, written one after another.

ghost use Rattle.std.specs.Prelude.{◌≡◌, ◌++◌, ◌<◌, true, length, slice_set, IfOk, OnOk};
ghost use Rattle.vyrd_base.specs.Layout.{plain_words};
ghost use Rattle.vyrd_base.specs.Rules.{built_in};
ghost use Rattle.vyrd_base.specs.Starts.{words_at_start};
ghost use Rattle.vyrd_base.specs.Subjects.{is_built_in};
ghost use Rattle.vyrd_base.specs.Views.{view_of_words};
ghost use Rattle.vyrd_witness.specs.declared.item.Item.TheVariants.{Wrote};
ghost use Rattle.vyrd_follow.specs.Following.{or_item};
ghost use Rattle.vyrd_follow.specs.Turns.{turn_items};

use crate::follows::Follows;
use crate::turns::turns;
use std::alloc::{AllocError, Global};
use std::marker::Model;
use vyrd_base::{AmountMap, Header, StartWord};
use vyrd_view::view_of;
use vyrd_witness::{Change, Effect, Item, words_at_start};

/// The words of a structure that is built in, which are written one after another, and what they
/// show. They are seen as the header and the words.
///
/// What the words show is gathered at the first write, and then kept, so that a write costs what
/// the part of its word costs: constant time for a multiset, for a cache and buffers what
/// `BuiltInShown` takes for a key of the part, and for a tree a walk of the chain of leaves. Only a
/// right link of a tree costs a look at all that the words show. The logarithm of the keys comes to
/// that. Memory is that of the words, and of the keys that they show.
#[derive(Drop)]
pub struct BuiltInWords {
    header: Header,
    words: Vec<u64>,
    /// What the words show, if it is known.
    shown: Option<AmountMap>,
}

impl Model for BuiltInWords {
    ghost use Rattle.vyrd_follow.specs.WordsBy.{WordsBy, AreShown};

    ghost Value = { WordsBy };

    ghost view = { λ w. record { header = w.header; words = w.words.items } };

    ghost invariant = { λ w. AreShown w.header w.words.items w.shown };
}

impl BuiltInWords {
    /// The words at the start. It takes memory for the words alone.
    pub fn new(
        alloc: Global,
        header: Header,
        starting: &[StartWord],
    ) -> Result<BuiltInWords, AllocError>
        requires built_in { is_built_in header.subject ≡ true }
        ensures { IfOk result (λ w. w ≡ record {
          header = header;
          words = words_at_start header starting.now;
        }) }
    {
        Ok(BuiltInWords {
            header,
            words: words_at_start(alloc, header, starting)?,
            shown: None,
        })
    }
}

impl Follows for BuiltInWords {
    ghost charter = { λ w. built_in w.header };

    ghost words = { λ w. w.words };

    fn write(&mut self, effect: Effect, items: &mut Vec<Item>) -> Result<(), AllocError> {
        let word = effect.word as usize;
        let was = self.words[word];
        if was == effect.value {
            items.push(Item::Wrote { effect, was })?;
            return Ok(());
        }
        let alloc = *self.words.allocator();
        let mut shown = match self.shown.take() {
            Some(shown) => shown,
            None => gathered(alloc, self.header, &self.words)?,
        };
        self.words[word] = effect.value;
        put_items(
            alloc,
            self.header,
            &self.words,
            effect,
            was,
            &mut shown,
            items,
        )?;
        self.shown = Some(shown);
        Ok(())
    }
}

/// What the words show, by key.
fn gathered(alloc: Global, header: Header, words: &[u64]) -> Result<AmountMap, AllocError>
    requires built_in { is_built_in header.subject ≡ true }
    requires count { length words.now ≡ plain_words header }
    ensures { IfOk result (λ shown. shown ≡ view_of_words header words.now) }
{
    let view = view_of(alloc, header, words)?;
    let mut shown = AmountMap::new(alloc);
    for (key, amount) in view.pairs() {
        shown.set(*key, *amount)?;
    }
    Ok(shown)
}

/// Puts what is said of an effect at the end, whose word had this other value before it and has its
/// own now. What the words showed before it becomes what they show now.
fn put_items(
    alloc: Global,
    header: Header,
    words: &[u64],
    effect: Effect,
    was: u64,
    shown: &mut AmountMap,
    items: &mut Vec<Item>,
) -> Result<(), AllocError>
    requires built_in { is_built_in header.subject ≡ true }
    requires count { length words.now ≡ plain_words header }
    requires within { effect.word < length words.now }
    requires shown { shown.old ≡ view_of_words header (slice_set words.now effect.word was) }
    ensures shown { OnOk result (shown.new ≡ view_of_words header words.now) }
    ensures items { OnOk result (items.new.items ≡ items.old.items ++ or_item (Wrote effect was)
        (turn_items effect was shown.old (view_of_words header words.now))) }
{
    let turns = turns(alloc, header, words, effect.word as usize, was, shown)?;
    if turns.is_empty() {
        items.push(Item::Wrote { effect, was })?;
    }
    for (key, after) in &turns {
        let before = shown.amount(*key);
        shown.set(*key, *after)?;
        items.push(Item::Changed {
            key: *key,
            change: Change {
                effect,
                was,
                before: u128::from(before),
                after: u128::from(*after),
            },
        })?;
    }
    Ok(())
}
