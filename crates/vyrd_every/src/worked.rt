//! Schedules in which callers meet inside their operations, and steps that don't do right. Each
//! function does nothing: its contract says what the definitions allow, and what they refuse.

ghost use Rattle.std.specs.Prelude.{◌≡◌, ◌≢◌, ◌≤◌, ℕ, ◌<◌, true, false, [], None};
ghost use Rattle.vyrd_base.specs.declared.header.Header.{Header};
ghost use Rattle.vyrd_base.specs.declared.subject.Args.{Args};
ghost use Rattle.vyrd_base.specs.declared.subject.Method.TheVariants.{Multiset as OfMultiset};
ghost use Rattle.vyrd_base.specs.declared.subject.Method.TheVariants.{Cache as OfCache};
ghost use Rattle.vyrd_base.specs.declared.subject.Method.TheVariants.{Buffers as OfBuffers};
ghost use Rattle.vyrd_base.specs.declared.multiset.MultisetMethod.TheVariants.{Insert};
ghost use Rattle.vyrd_base.specs.declared.cache.CacheMethod.TheVariants.{Write};
ghost use Rattle.vyrd_base.specs.declared.buffers.BuffersMethod.TheVariants.{AppendFrom};
ghost use Rattle.vyrd_memory.specs.declared.act.Act.TheVariants.{Load, Store, Take};
ghost use Rattle.vyrd_memory.specs.declared.op.Variant.TheVariants.{Broken};
ghost use Rattle.vyrd_memory.specs.Alone.{Memory};
ghost use Rattle.vyrd_memory.specs.Scripts.{Script, step, perform};
ghost use Rattle.vyrd_memory.specs.Soundness.{Situation, holds};
ghost use Rattle.vyrd_multiset.specs.Procedures.{multiset_procedure};
ghost use Rattle.vyrd_cache.specs.Procedures.{cache_procedure};
ghost use Rattle.vyrd_buffers.specs.Procedures.{buffers_procedure};
ghost use Rattle.vyrd_tree.specs.Cells.{node_cell, root_cell, lock_of, root_lock};
ghost use Rattle.vyrd_work.specs.WorkLimits.{KeepsLimits};
ghost use Rattle.vyrd_every.specs.Guarded.{multiset, cache, buffers};
ghost use Rattle.vyrd_every.specs.Interleaved.{is_interleaved};
ghost use Rattle.vyrd_every.specs.Interleaved.{inserts, writes, descents, appends};
ghost use Rattle.vyrd_every.specs.Interleaved.{inserts_history, writes_history};
ghost use Rattle.vyrd_every.specs.Interleaved.{descents_history, appends_history};
ghost use Rattle.vyrd_every.specs.Locals.{Locals};
ghost use Rattle.vyrd_every.specs.RightScripts.{DoesRight, IsRight};
ghost use Rattle.vyrd_every.specs.Schedules.{IsCorrect, IsSchedule};
ghost use Rattle.vyrd_every.specs.Trees.Shapes.{Shape};
ghost use Rattle.vyrd_every.specs.Trees.Locals.{TreeLocals};
ghost use Rattle.vyrd_every.specs.Trees.RightScripts.{TreeRight};

/// Two inserts into one bucket: the second looks for a slot before the first takes effect.
pub fn two_inserts()
    ensures limits { KeepsLimits inserts }
    ensures correct { IsCorrect inserts }
    ensures schedule { IsSchedule inserts inserts_history }
    ensures interleaved { is_interleaved inserts_history ≡ true }
{}

/// Two writes of a cache: the blocks of both are open at the same time.
pub fn two_writes()
    ensures limits { KeepsLimits writes }
    ensures correct { IsCorrect writes }
    ensures schedule { IsSchedule writes writes_history }
    ensures interleaved { is_interleaved writes_history ≡ true }
{}

/// An insert into a tree and a lookup of its key: each begins before the other ends.
pub fn insert_and_lookup()
    ensures limits { KeepsLimits descents }
    ensures correct { IsCorrect descents }
    ensures schedule { IsSchedule descents descents_history }
    ensures interleaved { is_interleaved descents_history ≡ true }
{}

/// An append to a buffer, whose text another caller is about to append elsewhere.
pub fn append_while_appended()
    ensures limits { KeepsLimits appends }
    ensures correct { IsCorrect appends }
    ensures schedule { IsSchedule appends appends_history }
    ensures interleaved { is_interleaved appends_history ≡ true }
{}

/// A slot that is looked for without its bucket's lock: the broken insert doesn't do right.
pub fn slot_looked_for_without_the_lock()
    ensures { (h : Header) (args : Args)
        → IsRight (multiset h) (multiset_procedure h Broken)
        (record { method = OfMultiset Insert; args = args })
        → ⊥ }
{}

/// A lock that is given back before the words are written: the broken write doesn't do right.
pub fn lock_given_back_before_the_writes()
    ensures { (h : Header) (args : Args)
        → IsRight (cache h) (cache_procedure h Broken) (record { method = OfCache Write; args = args })
        → ⊥ }
{}

/// Characters that are loaded without the lock of their buffer: the broken append from another
/// buffer doesn't do right.
pub fn characters_loaded_without_the_lock()
    ensures { (h : Header) (args : Args) → args.a ≢ args.b
        → IsRight (buffers h) (buffers_procedure h Broken)
        (record { method = OfBuffers AppendFrom; args = args })
        → ⊥ }
{}

/// A lock that is taken below one that is held, whatever else the caller does.
pub fn lock_taken_below_another()
    ensures { (h : Header) (s : Situation) (k : Locals) (shown : Memory) (lock held : ℕ)
        (later : Script)
        → holds s held ≡ true → lock ≤ held
        → DoesRight (multiset h) s k shown (perform (Take lock) later)
        → ⊥ }
{}

/// A word of a tree's node, other than its level, that is loaded without the node's lock, whatever
/// the caller does then.
pub fn node_loaded_without_its_lock()
    ensures { (h : Header) (s : Situation) (k : TreeLocals) (g : Shape) (m : Memory)
        (node place : ℕ) (rest : ℕ → Script)
        → node < h.size → place < 12 → place ≢ 0 → holds s (lock_of h node) ≡ false
        → TreeRight h s k g m (step (Load (node_cell node place)) rest)
        → ⊥ }
{}

/// A root's word that is stored without its lock.
pub fn root_stored_without_its_lock()
    ensures { (h : Header) (s : Situation) (k : TreeLocals) (g : Shape) (m : Memory) (root : ℕ)
        (later : Script)
        → k.fresh ≡ None → holds s (root_lock h) ≡ false
        → TreeRight h s k g m (perform (Store (root_cell h) root) later)
        → ⊥ }
{}
