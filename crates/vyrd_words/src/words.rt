//! The words of a log, and what of them waits to be compared.

ghost use Rattle.std.specs.Prelude.{◌≡◌, ◌<◌, ◌≤◌, ◌^◌, ◌+◌, ◌*◌, ◌∷◌, ℕ, false, List, [], length};
ghost use Rattle.std.specs.Prelude.{slice_index, IfOk, OnOk, replicate, sum_by, All};
ghost use Rattle.vyrd_base.specs.Rules.{rules_by};
ghost use Rattle.vyrd_base.specs.Amounts.{first_difference as least_difference};
ghost use Rattle.vyrd_base.specs.declared.log.Entry.{Entry};
ghost use Rattle.vyrd_base.specs.declared.log.StartWord.{StartWord};
ghost use Rattle.vyrd_base.specs.Commits.{commit_count};
ghost use Rattle.vyrd_base.specs.Layout.{plain_words};
ghost use Rattle.vyrd_base.specs.Starts.{words_at_start};
ghost use Rattle.vyrd_shadow.specs.Blocks.{with_writes};
ghost use Rattle.vyrd_shadow.specs.Costs.{owed as shadow_owed};
ghost use Rattle.vyrd_spec.specs.Touching.{with_touched};
ghost use Rattle.vyrd_view.specs.Comparing.{AgreeElsewhere};
ghost use Rattle.vyrd_view.specs.Known.{IsNew, view_by};
ghost use Rattle.vyrd_words.specs.Costs.{pending_for, work_held};
ghost use Rattle.vyrd_words.specs.Costs.{effect_words, effect_count, each_entry, owed};
ghost use Rattle.vyrd_words.specs.Costs.{entry_price, price_kept};
ghost use Rattle.vyrd_words.specs.Cuts.{first_with, with_part, begun_with, written};
ghost use Rattle.vyrd_words.specs.HasWords.{HasWords, HasTaken, Keeps, MayFollow};

use crate::views::Views;
use std::alloc::{AllocError, Global};
use std::marker::{Brand, Model};
use std::sync::ledger::{Blank, Ledger};
use vyrd_base::{Entry, Header, Kind, Steps, View};
use vyrd_shadow::Shadow;
use vyrd_spec::Spec;
use vyrd_view::Compare;

/// The words after the entries so far, with what open blocks keep back, and the words at the
/// commits that wait. It takes memory for each plain word, each write that an open block keeps
/// back, each commit that waits, and each write that took effect since the first of these.
///
/// The only error of its calls is that memory has run out. After one nothing is known of the words
/// any more but whose header they have.
#[derive(Drop)]
pub struct Words<C: Compare> {
    shadow: Shadow,
    views: Views<C>,
    /// By caller: the number of the lone commit since its last open, 0 if there is none. The first
    /// commit of a log has number 1.
    inner: Vec<u64>,
}

impl<C: Compare> Model for Words<C> {
    ghost use Rattle.std.specs.Prelude.{◌≡◌, vec_len};
    ghost use Rattle.vyrd_words.specs.HasWords.{WordsView};

    ghost Value = { WordsView };

    ghost view = { λ w. record { shadow = w.shadow; views = w.views; inner = w.inner.items } };

    ghost invariant = { λ w. (w.views.header ≡ w.shadow.header)
        × (vec_len w.inner ≡ w.shadow.header.callers) };
}

impl<C: Compare> Words<C> {
    /// These are the words at the start, of which all but the changed ones are 0, and this is what
    /// the specification's state shows. They are compared by what was told nothing yet. It takes time
    /// for each plain word and each amount that is shown.
    pub fn new(
        alloc: Global,
        header: Header,
        words: &[u64],
        changed: Vec<u32>,
        state: &View,
        compared: C,
    ) -> Result<Words<C>, AllocError>
        requires all { length words.now ≡ plain_words header }
        requires values { All (λ value. value < 2 ^ 63) words.now }
        requires changed { All (λ w. w < plain_words header) changed.items }
        requires elsewhere { AgreeElsewhere (replicate (plain_words header) 0) words.now
            changed.items }
        requires compared { IsNew (plain_words header) (C.known compared) }
        ensures words { (starting : List StartWord) → words.now ≡ words_at_start header starting →
            IfOk result (λ w. HasWords w.shadow w.inner starting []) }
        ensures header { IfOk result (λ w. w.shadow.header ≡ header) }
        ensures views_header { IfOk result (λ w. w.views.header ≡ header) }
        ensures shows { IfOk result (λ w. w.views.shows ≡ (C.known compared).shows) }
        ensures first { IfOk result (λ w. w.views.first ≡ words.now) }
        ensures since { IfOk result (λ w. w.views.since ≡ []) }
        ensures begun { IfOk result (λ w. w.views.begun ≡ 0) }
        ensures specified { IfOk result (λ w. w.views.specified ≡ state.now) }
        ensures sound { IfOk result (λ w. w.views.refused ≡ false) }
        ensures pending { IfOk result (λ w. w.views.pending
            ≡ pending_for (C.price (C.known compared).shows) changed.items []) }
        ensures rebuilt { IfOk result (λ w. shadow_owed w.shadow ≡ 0) }
    {
        let mut views = Views::new(alloc, header, words, changed, compared)?;
        views.specify_start(state)?;
        Ok(Words {
            shadow: Shadow::start_from(alloc, header, words)?,
            views,
            inner: vec![in alloc; 0; header.callers() as usize]?,
        })
    }

    /// Takes in an entry that keeps the rules, after this many commits. A commit waits from then
    /// on. An entry takes constant time, and the end of a block takes time for each of its writes.
    /// If a lone commit stands in the block and still waits, the end takes time for each commit
    /// since then too. What else took effect since then costs nothing.
    #[inline(always)]
    pub fn follow(&mut self, entry: Entry, commits: u64) -> Result<(), AllocError>
        requires may { MayFollow self.old.shadow self.old.inner entry commits }
        requires few { commits < 2 ^ 62 }
        requires sound { self.old.views.refused ≡ false }
        ensures taken { (starting : List StartWord) (earlier : List Entry)
            → HasWords self.old.shadow self.old.inner starting earlier
            → Keeps self.old.shadow.header earlier entry → commits ≡ commit_count earlier
            → OnOk result (HasTaken self.new.shadow self.new.inner self.old.views
            self.new.views starting entry earlier) }
        ensures specified { OnOk result (self.new.views.specified ≡ self.old.views.specified) }
        ensures sound { OnOk result (self.new.views.refused ≡ false) }
        ensures header { self.new.shadow.header ≡ self.old.shadow.header }
        ensures views_header { self.new.views.header ≡ self.old.views.header }
        ensures shows { self.new.views.shows ≡ self.old.views.shows }
    {
        follow_alone::<C, Brand>(Blank::new(1), self, entry, commits)
    }

    /// The same, with its steps counted. One step is one of those that rebuild the words, a write
    /// that is passed on to the commits that wait, or a commit that waits and is looked at, or gives
    /// way, since a late write is handed to one before it. What the end of a block costs is owed from
    /// the entries on that made it dear, and what a changed word costs is pending from its write
    /// on. So each entry pays a constant, by the number of callers, and a write the price of its
    /// word. Where memory runs out it has taken no more than that, with all that was owed.
    #[inline(always)]
    pub fn follow_counted<L: Ledger>(
        &mut self,
        entry: Entry,
        commits: u64,
        steps: &mut Steps<L>,
    ) -> Result<(), AllocError>
        requires may { MayFollow self.old.shadow self.old.inner entry commits }
        requires few { commits < 2 ^ 62 }
        requires sound { self.old.views.refused ≡ false }
        ensures taken { (starting : List StartWord) (earlier : List Entry)
            → HasWords self.old.shadow self.old.inner starting earlier
            → Keeps self.old.shadow.header earlier entry → commits ≡ commit_count earlier
            → OnOk result (HasTaken self.new.shadow self.new.inner self.old.views
            self.new.views starting entry earlier) }
        ensures specified { OnOk result (self.new.views.specified ≡ self.old.views.specified) }
        ensures sound { OnOk result (self.new.views.refused ≡ false) }
        ensures header { self.new.shadow.header ≡ self.old.shadow.header }
        ensures views_header { self.new.views.header ≡ self.old.views.header }
        ensures shows { self.new.views.shows ≡ self.old.views.shows }
        ensures steps { (starting : List StartWord) (earlier : List Entry)
            → HasWords self.old.shadow self.old.inner starting earlier
            → Keeps self.old.shadow.header earlier entry → commits ≡ commit_count earlier
            → OnOk result (steps.new + shadow_owed self.new.shadow + self.new.views.pending
            + owed self.old.shadow.header.callers (entry ∷ earlier)
            + price_kept (C.price self.old.views.shows) self.old.shadow.header.callers
            (entry ∷ earlier)
            ≤ steps.old + shadow_owed self.old.shadow + self.old.views.pending
            + owed self.old.shadow.header.callers earlier
            + price_kept (C.price self.old.views.shows) self.old.shadow.header.callers earlier
            + (each_entry self.old.shadow.header.callers
            + entry_price (C.price self.old.views.shows) entry.kind)) }
        ensures most { (starting : List StartWord) (earlier : List Entry)
            → HasWords self.old.shadow self.old.inner starting earlier
            → Keeps self.old.shadow.header earlier entry → commits ≡ commit_count earlier
            → steps.new ≤ steps.old + shadow_owed self.old.shadow + self.old.views.pending
            + owed self.old.shadow.header.callers earlier
            + price_kept (C.price self.old.views.shows) self.old.shadow.header.callers earlier
            + (each_entry self.old.shadow.header.callers
            + entry_price (C.price self.old.views.shows) entry.kind) }
    {
        self.follow_kind(entry, commits, steps)
    }

    /// The same, with its steps by the effects of the entry, and by the work that open blocks hold.
    #[inline(always)]
    fn follow_kind<L: Ledger>(
        &mut self,
        entry: Entry,
        commits: u64,
        steps: &mut Steps<L>,
    ) -> Result<(), AllocError>
        requires may { MayFollow self.old.shadow self.old.inner entry commits }
        requires few { commits < 2 ^ 62 }
        requires sound { self.old.views.refused ≡ false }
        ensures taken { (starting : List StartWord) (earlier : List Entry)
            → HasWords self.old.shadow self.old.inner starting earlier
            → Keeps self.old.shadow.header earlier entry → commits ≡ commit_count earlier
            → OnOk result (HasTaken self.new.shadow self.new.inner self.old.views
            self.new.views starting entry earlier) }
        ensures specified { OnOk result (self.new.views.specified ≡ self.old.views.specified) }
        ensures sound { OnOk result (self.new.views.refused ≡ false) }
        ensures header { self.new.shadow.header ≡ self.old.shadow.header }
        ensures views_header { self.new.views.header ≡ self.old.views.header }
        ensures shows { self.new.views.shows ≡ self.old.views.shows }
        ensures steps { (starting : List StartWord) (earlier : List Entry)
            → HasWords self.old.shadow self.old.inner starting earlier
            → Keeps self.old.shadow.header earlier entry → commits ≡ commit_count earlier
            → OnOk result
            (steps.new + shadow_owed self.new.shadow + self.new.views.pending
            + work_held self.old.shadow.header.callers (entry ∷ earlier)
            ≤ steps.old + shadow_owed self.old.shadow + self.old.views.pending
            + sum_by (C.price self.old.views.shows)
            (effect_words self.old.shadow entry.caller entry.kind)
            + 5
            + work_held self.old.shadow.header.callers earlier
            + 4 * effect_count self.old.shadow entry.caller entry.kind
            + 2 * self.old.shadow.header.callers) }
        ensures most { (starting : List StartWord) (earlier : List Entry)
            → HasWords self.old.shadow self.old.inner starting earlier
            → Keeps self.old.shadow.header earlier entry → commits ≡ commit_count earlier
            → steps.new ≤ steps.old + shadow_owed self.old.shadow + self.old.views.pending
            + sum_by (C.price self.old.views.shows)
            (effect_words self.old.shadow entry.caller entry.kind)
            + 5
            + work_held self.old.shadow.header.callers earlier
            + 4 * effect_count self.old.shadow entry.caller entry.kind
            + 2 * self.old.shadow.header.callers }
    {
        let caller = entry.caller;
        match entry.kind {
            Kind::Call(_, _) => Ok(()),
            Kind::Return(_) => Ok(()),
            Kind::Write(word, value) => {
                self.shadow.write_counted(caller, word, value, steps)?;
                pass_on(&mut self.shadow, &mut self.views, steps)
            }
            Kind::BlockOpen => {
                self.shadow.open_block_counted(caller, steps);
                self.inner[caller as usize] = 0;
                Ok(())
            }
            Kind::BlockClose => {
                self.shadow.close_block_counted(caller, steps);
                let number = self.inner[caller as usize];
                if number == 0 {
                    pass_on(&mut self.shadow, &mut self.views, steps)
                } else {
                    let behind = (commits - number) as usize + 1;
                    pass_back(&mut self.shadow, &mut self.views, behind, steps)
                }
            }
            Kind::Commit => {
                self.inner[caller as usize] = commits + 1;
                self.views.cut()
            }
            Kind::BlockCommit => {
                self.shadow.close_block_counted(caller, steps);
                pass_on(&mut self.shadow, &mut self.views, steps)?;
                self.views.cut()
            }
        }
    }

    /// Compares what the words at the first commit that waits show with the specification's state
    /// after it: the least key where they differ. That commit no longer waits then. The state
    /// differs from that of the last comparison in the touched keys alone. It takes time for each
    /// write that took effect between that commit and the one before it.
    #[inline(always)]
    pub fn difference<S: Spec>(&mut self, spec: &S) -> Result<Option<u64>, AllocError>
        requires sound { self.old.views.refused ≡ false }
        ensures difference { (part : List (ℕ × ℕ)) (rest : List (List (ℕ × ℕ)))
            → self.old.views.since ≡ part ∷ rest
            → with_touched (S.touched spec.now)
            ((rules_by (S.charter spec.now)).shown (S.state spec.now)) self.old.views.specified
            ≡ (rules_by (S.charter spec.now)).shown (S.state spec.now)
            → IfOk result (λ found. found ≡ least_difference
            (view_by self.old.views.shows self.old.views.first)
            ((rules_by (S.charter spec.now)).shown (S.state spec.now))) }
        ensures first { (part : List (ℕ × ℕ)) (rest : List (List (ℕ × ℕ)))
            → self.old.views.since ≡ part ∷ rest
            → OnOk result (self.new.views.first ≡ with_writes self.old.views.first part) }
        ensures since { (part : List (ℕ × ℕ)) (rest : List (List (ℕ × ℕ)))
            → self.old.views.since ≡ part ∷ rest
            → OnOk result (self.new.views.since ≡ rest) }
        ensures begun { (part : List (ℕ × ℕ)) (rest : List (List (ℕ × ℕ)))
            → self.old.views.since ≡ part ∷ rest
            → OnOk result (self.new.views.begun ≡ length part) }
        ensures specified { OnOk result (self.new.views.specified
            ≡ with_touched (S.touched spec.now)
            ((rules_by (S.charter spec.now)).shown (S.state spec.now)) self.old.views.specified) }
        ensures sound { OnOk result (self.new.views.refused ≡ false) }
        ensures views_header { self.new.views.header ≡ self.old.views.header }
        ensures shows { self.new.views.shows ≡ self.old.views.shows }
        ensures shadow { self.new.shadow ≡ self.old.shadow }
        ensures inner { self.new.inner ≡ self.old.inner }
    {
        difference_alone::<C, S, Brand>(Blank::new(1), self, spec)
    }

    /// The same, with its steps counted. What is pending pays for each write that takes effect and
    /// each word that is compared: two steps for each touched key are left, and three more.
    #[inline(always)]
    pub fn difference_counted<S: Spec, L: Ledger>(
        &mut self,
        spec: &S,
        steps: &mut Steps<L>,
    ) -> Result<Option<u64>, AllocError>
        requires sound { self.old.views.refused ≡ false }
        ensures difference { (part : List (ℕ × ℕ)) (rest : List (List (ℕ × ℕ)))
            → self.old.views.since ≡ part ∷ rest
            → with_touched (S.touched spec.now)
            ((rules_by (S.charter spec.now)).shown (S.state spec.now)) self.old.views.specified
            ≡ (rules_by (S.charter spec.now)).shown (S.state spec.now)
            → IfOk result (λ found. found ≡ least_difference
            (view_by self.old.views.shows self.old.views.first)
            ((rules_by (S.charter spec.now)).shown (S.state spec.now))) }
        ensures first { (part : List (ℕ × ℕ)) (rest : List (List (ℕ × ℕ)))
            → self.old.views.since ≡ part ∷ rest
            → OnOk result (self.new.views.first ≡ with_writes self.old.views.first part) }
        ensures since { (part : List (ℕ × ℕ)) (rest : List (List (ℕ × ℕ)))
            → self.old.views.since ≡ part ∷ rest
            → OnOk result (self.new.views.since ≡ rest) }
        ensures begun { (part : List (ℕ × ℕ)) (rest : List (List (ℕ × ℕ)))
            → self.old.views.since ≡ part ∷ rest
            → OnOk result (self.new.views.begun ≡ length part) }
        ensures specified { OnOk result (self.new.views.specified
            ≡ with_touched (S.touched spec.now)
            ((rules_by (S.charter spec.now)).shown (S.state spec.now)) self.old.views.specified) }
        ensures sound { OnOk result (self.new.views.refused ≡ false) }
        ensures views_header { self.new.views.header ≡ self.old.views.header }
        ensures shows { self.new.views.shows ≡ self.old.views.shows }
        ensures shadow { self.new.shadow ≡ self.old.shadow }
        ensures inner { self.new.inner ≡ self.old.inner }
        ensures steps { OnOk result (steps.new + self.new.views.pending
            ≤ steps.old + self.old.views.pending + 2 * length (S.touched spec.now) + 3) }
        ensures most { steps.new
            ≤ steps.old + self.old.views.pending + 2 * length (S.touched spec.now) + 3 }
    {
        self.views.difference(spec, steps)
    }
}

/// Follows an entry with a count of its own.
#[inline(always)]
fn follow_alone<C: Compare, L: Ledger>(
    blank: Blank,
    words: &mut Words<C>,
    entry: Entry,
    commits: u64,
) -> Result<(), AllocError>
    requires name { blank.name ≡ L.name }
    requires parts { blank.parts ≡ L.parts }
    requires some { 0 < blank.parts }
    requires may { MayFollow words.old.shadow words.old.inner entry commits }
    requires few { commits < 2 ^ 62 }
    requires sound { words.old.views.refused ≡ false }
    ensures taken { (starting : List StartWord) (earlier : List Entry)
        → HasWords words.old.shadow words.old.inner starting earlier
        → Keeps words.old.shadow.header earlier entry → commits ≡ commit_count earlier
        → OnOk result (HasTaken words.new.shadow words.new.inner words.old.views
        words.new.views starting entry earlier) }
    ensures specified { OnOk result (words.new.views.specified ≡ words.old.views.specified) }
    ensures sound { OnOk result (words.new.views.refused ≡ false) }
    ensures header { words.new.shadow.header ≡ words.old.shadow.header }
    ensures views_header { words.new.views.header ≡ words.old.views.header }
    ensures shows { words.new.views.shows ≡ words.old.views.shows }
{
    let mut steps = Steps::<L>::new(blank);
    words.follow_counted(entry, commits, &mut steps)
}

/// Compares with a count of its own.
#[inline(always)]
fn difference_alone<C: Compare, S: Spec, L: Ledger>(
    blank: Blank,
    words: &mut Words<C>,
    spec: &S,
) -> Result<Option<u64>, AllocError>
    requires name { blank.name ≡ L.name }
    requires parts { blank.parts ≡ L.parts }
    requires some { 0 < blank.parts }
    requires sound { words.old.views.refused ≡ false }
    ensures difference { (part : List (ℕ × ℕ)) (rest : List (List (ℕ × ℕ)))
        → words.old.views.since ≡ part ∷ rest
        → with_touched (S.touched spec.now)
        ((rules_by (S.charter spec.now)).shown (S.state spec.now)) words.old.views.specified
        ≡ (rules_by (S.charter spec.now)).shown (S.state spec.now)
        → IfOk result (λ found. found ≡ least_difference
        (view_by words.old.views.shows words.old.views.first)
        ((rules_by (S.charter spec.now)).shown (S.state spec.now))) }
    ensures first { (part : List (ℕ × ℕ)) (rest : List (List (ℕ × ℕ)))
        → words.old.views.since ≡ part ∷ rest
        → OnOk result (words.new.views.first ≡ with_writes words.old.views.first part) }
    ensures since { (part : List (ℕ × ℕ)) (rest : List (List (ℕ × ℕ)))
        → words.old.views.since ≡ part ∷ rest
        → OnOk result (words.new.views.since ≡ rest) }
    ensures begun { (part : List (ℕ × ℕ)) (rest : List (List (ℕ × ℕ)))
        → words.old.views.since ≡ part ∷ rest
        → OnOk result (words.new.views.begun ≡ length part) }
    ensures specified { OnOk result (words.new.views.specified
        ≡ with_touched (S.touched spec.now)
        ((rules_by (S.charter spec.now)).shown (S.state spec.now)) words.old.views.specified) }
    ensures sound { OnOk result (words.new.views.refused ≡ false) }
    ensures views_header { words.new.views.header ≡ words.old.views.header }
    ensures shows { words.new.views.shows ≡ words.old.views.shows }
    ensures shadow { words.new.shadow ≡ words.old.shadow }
    ensures inner { words.new.inner ≡ words.old.inner }
{
    let mut steps = Steps::<L>::new(blank);
    words.difference_counted(spec, &mut steps)
}

/// What effects have changed is known to the views too.
#[inline(always)]
fn pass_on<C: Compare, L: Ledger>(
    shadow: &mut Shadow,
    views: &mut Views<C>,
    steps: &mut Steps<L>,
) -> Result<(), AllocError>
    requires header { views.old.header ≡ shadow.old.header }
    requires sound { views.old.refused ≡ false }
    ensures within { All (λ w. w < plain_words shadow.old.header) shadow.old.changed }
    ensures first { OnOk result (views.new.first
        ≡ first_with 0 (written shadow.old.words shadow.old.changed) views.old.first
        views.old.since) }
    ensures since { OnOk result (views.new.since
        ≡ with_part 0 (written shadow.old.words shadow.old.changed) views.old.since) }
    ensures begun { OnOk result (views.new.begun
        ≤ begun_with 0 (written shadow.old.words shadow.old.changed) views.old.begun
        views.old.since) }
    ensures specified { OnOk result (views.new.specified ≡ views.old.specified) }
    ensures sound { OnOk result (views.new.refused ≡ false) }
    ensures shadow { OnOk result (shadow.new ≡ record shadow.old { changed = [] }) }
    ensures shadow_header { shadow.new.header ≡ shadow.old.header }
    ensures views_header { views.new.header ≡ views.old.header }
    ensures shows { views.new.shows ≡ views.old.shows }
    ensures steps { OnOk result (steps.new + shadow_owed shadow.new + views.new.pending
        ≤ steps.old + shadow_owed shadow.old + views.old.pending
        + sum_by (C.price views.old.shows) shadow.old.changed
        + 4 * length shadow.old.changed
        + 1) }
    ensures most { steps.new ≤ steps.old + shadow_owed shadow.old + views.old.pending
        + sum_by (C.price views.old.shows) shadow.old.changed
        + 4 * length shadow.old.changed
        + 1 }
{
    give(views, shadow.changed(), shadow.words(), steps)?;
    shadow.clear_changed_counted(steps);
    Ok(())
}

/// What effects have changed was so at a commit already, after which that many lists of writes
/// stand.
fn pass_back<C: Compare, L: Ledger>(
    shadow: &mut Shadow,
    views: &mut Views<C>,
    behind: usize,
    steps: &mut Steps<L>,
) -> Result<(), AllocError>
    requires some { 0 < behind }
    requires header { views.old.header ≡ shadow.old.header }
    requires sound { views.old.refused ≡ false }
    ensures within { All (λ w. w < plain_words shadow.old.header) shadow.old.changed }
    ensures first { OnOk result (views.new.first
        ≡ first_with behind (written shadow.old.words shadow.old.changed) views.old.first
        views.old.since) }
    ensures since { OnOk result (views.new.since
        ≡ with_part behind (written shadow.old.words shadow.old.changed) views.old.since) }
    ensures begun { OnOk result (views.new.begun
        ≡ begun_with behind (written shadow.old.words shadow.old.changed) views.old.begun
        views.old.since) }
    ensures specified { OnOk result (views.new.specified ≡ views.old.specified) }
    ensures sound { OnOk result (views.new.refused ≡ false) }
    ensures shadow { OnOk result (shadow.new ≡ record shadow.old { changed = [] }) }
    ensures shadow_header { shadow.new.header ≡ shadow.old.header }
    ensures views_header { views.new.header ≡ views.old.header }
    ensures shows { views.new.shows ≡ views.old.shows }
    ensures steps { OnOk result (steps.new + shadow_owed shadow.new + views.new.pending
        ≤ steps.old + shadow_owed shadow.old + views.old.pending
        + sum_by (C.price views.old.shows) shadow.old.changed
        + 4 * length shadow.old.changed
        + 2 * behind
        + 1) }
    ensures most { steps.new ≤ steps.old + shadow_owed shadow.old
        + length shadow.old.changed
        + 2 * behind
        + 1 }
{
    views.late(behind, shadow.changed(), shadow.words(), steps)?;
    shadow.clear_changed_counted(steps);
    Ok(())
}

/// The views learn the changed words.
#[inline(always)]
fn give<C: Compare, L: Ledger>(
    views: &mut Views<C>,
    changed: &[u32],
    words: &[u64],
    steps: &mut Steps<L>,
) -> Result<(), AllocError>
    requires changed { All (λ w. w < plain_words views.old.header) changed.now }
    requires all { length words.now ≡ plain_words views.old.header }
    requires values { (w : ℕ) → slice_index words.now w < 2 ^ 63 }
    requires sound { views.old.refused ≡ false }
    ensures first { OnOk result (views.new.first
        ≡ first_with 0 (written words.now changed.now) views.old.first views.old.since) }
    ensures since { OnOk result
        (views.new.since ≡ with_part 0 (written words.now changed.now) views.old.since) }
    ensures begun { OnOk result (views.new.begun
        ≤ begun_with 0 (written words.now changed.now) views.old.begun views.old.since) }
    ensures specified { OnOk result (views.new.specified ≡ views.old.specified) }
    ensures sound { OnOk result (views.new.refused ≡ false) }
    ensures header { views.new.header ≡ views.old.header }
    ensures shows { views.new.shows ≡ views.old.shows }
    ensures steps { OnOk result (steps.new + views.new.pending ≤ steps.old + views.old.pending
        + sum_by (C.price views.old.shows) changed.now
        + 4 * length changed.now) }
    ensures most { steps.new ≤ steps.old + views.old.pending
        + sum_by (C.price views.old.shows) changed.now
        + 4 * length changed.now }
{
    for word in changed {
        steps.tick();
        views.effect(*word, words[*word as usize], steps)?;
    }
    Ok(())
}
