//! Laws of the acts of the correct tree, one by one. Each function does nothing: its contract is
//! the law.
//!
//! Each caller does right as far as the others leave alone what it relies on
//! (`tree_operations_do_right`), and an act that does right leaves that alone for each other caller
//! (`tree_acts_are_relied_on`, `tree_locals_stay_right`). So every schedule is accepted, as `laws`
//! says.

ghost use Rattle.std.specs.Prelude.{◌≡◌, ℕ, ◌<◌, true, false, List, []};
ghost use Rattle.vyrd_base.specs.declared.header.Header.{Header};
ghost use Rattle.vyrd_base.specs.declared.subject.Subject.TheVariants.{Tree};
ghost use Rattle.vyrd_base.specs.declared.log.Entry.{Entry};
ghost use Rattle.vyrd_base.specs.Amounts.{Amounts};
ghost use Rattle.vyrd_base.specs.Specification.{start};
ghost use Rattle.vyrd_base.specs.BlockEnds.{ended_words};
ghost use Rattle.vyrd_base.specs.Views.{view_of_words};
ghost use Rattle.vyrd_memory.specs.declared.act.Act.{Act};
ghost use Rattle.vyrd_memory.specs.Alone.{Memory};
ghost use Rattle.vyrd_memory.specs.Scripts.{Script};
ghost use Rattle.vyrd_memory.specs.Soundness.{Situation, holds, at_rest};
ghost use Rattle.vyrd_memory.specs.Turns.{script_of};
ghost use Rattle.vyrd_tree.specs.Cells.{root_lock};
ghost use Rattle.vyrd_tree.specs.Contents.{level_at, root_in};
ghost use Rattle.vyrd_work.specs.Workloads.{Workload};
ghost use Rattle.vyrd_work.specs.WorkLimits.{KeepsLimits};
ghost use Rattle.vyrd_work.specs.WorkScripts.{work_scripts};
ghost use Rattle.vyrd_every.specs.Structures.{shown_by};
ghost use Rattle.vyrd_every.specs.Trees.Shapes.{Shape, IsLinked};
ghost use Rattle.vyrd_every.specs.Trees.States.{ShowsState};
ghost use Rattle.vyrd_every.specs.Trees.Locals.{TreeLocals, empty_tree_locals, Owns, AreApart};
ghost use Rattle.vyrd_every.specs.Trees.Seen.{seen_after};
ghost use Rattle.vyrd_every.specs.Trees.Others.{TreeRely};
ghost use Rattle.vyrd_every.specs.Trees.RightScripts.{TreeDoes, TreeRight};
ghost use Rattle.vyrd_every.specs.Trees.Starts.{IsCorrectTree, first_shape};

/// The words at the start hold a linked tree, and it shows the state in which no key is there.
pub fn tree_begins_linked()
    ensures linked { (size : ℕ) → 0 < size → IsLinked size first_shape (shown_by []) }
    ensures empty { ShowsState first_shape (shown_by []) start.shown }
{}

/// If the memory that a log shows holds a linked tree, the state that the tree shows is the view of
/// the log's words. The newest entry stands first.
pub fn linked_trees_show_the_view()
    ensures { (h : Header) (g : Shape) (log : List Entry) (state : Amounts) → h.subject ≡ Tree →
        IsLinked h.size g (shown_by log) → ShowsState g (shown_by log) state →
        view_of_words h (ended_words h log) ≡ state }
{}

/// The whole script of any caller of the correct tree does right, from any memory that holds a
/// linked tree on, whatever the others do between its acts within what it relies on. That covers
/// lookups, deletes and inserts, with their splits, ascents and new roots.
pub fn tree_operations_do_right()
    ensures { (w : Workload) (c : ℕ) (g : Shape) (m : Memory) → KeepsLimits w → IsCorrectTree w →
        c < w.header.callers → IsLinked w.header.size g m →
        TreeRight w.header at_rest empty_tree_locals g m (script_of (work_scripts w) c) }
{}

/// An act that does right is within what each other caller relies on: one that holds other locks,
/// whose locals are right and share no node with those of the act's caller, and that sees the root
/// that the log shows if it holds the root's lock and its own block isn't seen. One such act after
/// another is within it too.
pub fn tree_acts_are_relied_on()
    ensures relied { (h : Header) (s its : Situation) (k other : TreeLocals) (g : Shape)
        (m : Memory) (act : Act) (rest : Script) (next : TreeLocals) (grown : Shape)
        → IsLinked h.size g m → TreeDoes h s k g m act rest next grown → Owns h other g m
        → AreApart k other → ((lock : ℕ) → holds its lock ≡ true → holds s lock ≡ false)
        → (holds its (root_lock h) ≡ true → other.out ≡ false
        → g.top ≡ level_at m (root_in h.size m))
        → TreeRely h its other g m grown (seen_after h s k m act) }
    ensures one_after_another { (h : Header) (s : Situation) (k : TreeLocals)
        (first second third : Shape) (a b c : Memory)
        → TreeRely h s k first a second b → TreeRely h s k second b third c
        → TreeRely h s k first a third c }
{}

/// Whoever does nothing keeps what the others rely on, as long as the memory holds a linked tree, and
/// whoever holds the root's lock and has no new root in an open block sees the root that the log
/// shows.
pub fn nothing_done_to_a_tree_is_relied_on()
    ensures { (h : Header) (s : Situation) (k : TreeLocals) (g : Shape) (m : Memory)
        → IsLinked h.size g m
        → (holds s (root_lock h) ≡ true → k.out ≡ false → g.top ≡ level_at m (root_in h.size m))
        → TreeRely h s k g m g m }
{}

/// After an act that does right the locals of its caller and of any other one share no node still.
/// Its own locals are right, and those of any other one stay right.
pub fn tree_locals_stay_right()
    ensures apart { (h : Header) (s : Situation) (k other : TreeLocals) (g : Shape) (m : Memory)
        (act : Act) (rest : Script) (next : TreeLocals) (grown : Shape)
        → TreeDoes h s k g m act rest next grown → Owns h other g m → AreApart k other
        → AreApart next other }
    ensures own { (h : Header) (s : Situation) (k : TreeLocals) (g : Shape) (m : Memory) (act : Act)
        (rest : Script) (next : TreeLocals) (grown : Shape)
        → TreeDoes h s k g m act rest next grown
        → Owns h next grown (seen_after h s k m act) }
    ensures other { (h : Header) (its : Situation) (other : TreeLocals) (g : Shape) (m : Memory)
        (later : Shape) (now : Memory) →
        Owns h other g m → TreeRely h its other g m later now → Owns h other later now }
{}
