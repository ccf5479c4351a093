//! Laws of the schedules of a correct structure: the multiset, the cache, the B-link tree and
//! string buffers. Each function does nothing: its contract is the law.

ghost use Rattle.std.specs.Prelude.{◌≡◌, ◌≤◌, ◌⊎◌, ℕ, false, List, [], None};
ghost use Rattle.vyrd_base.specs.declared.header.Header.{Header};
ghost use Rattle.vyrd_base.specs.declared.history.Stamped.{Stamped};
ghost use Rattle.vyrd_base.specs.declared.subject.Subject.TheVariants.{Buffers, Cache, Multiset};
ghost use Rattle.vyrd_base.specs.Places.{newest_first};
ghost use Rattle.vyrd_base.specs.Front.{first_break};
ghost use Rattle.vyrd_base.specs.Commits.{is_commit};
ghost use Rattle.vyrd_base.specs.Histories.{log_of};
ghost use Rattle.vyrd_base.specs.Verdicts.{accepted, is_call_open, is_return, verdict};
ghost use Rattle.vyrd_memory.specs.Alone.{Memory};
ghost use Rattle.vyrd_memory.specs.Bounds.{bounds_of};
ghost use Rattle.vyrd_memory.specs.Soundness.{Situation};
ghost use Rattle.vyrd_memory.specs.declared.op.Turn.{Turn};
ghost use Rattle.vyrd_memory.specs.Scripts.{Script};
ghost use Rattle.vyrd_memory.specs.Turns.{GetsStuck, RunsTo};
ghost use Rattle.vyrd_work.specs.Workloads.{Workload};
ghost use Rattle.vyrd_work.specs.WorkLimits.{KeepsLimits};
ghost use Rattle.vyrd_work.specs.WorkScripts.{ops_of, work_scripts};
ghost use Rattle.vyrd_every.specs.Guarded.{buffers, cache, multiset};
ghost use Rattle.vyrd_every.specs.Locals.{Locals};
ghost use Rattle.vyrd_every.specs.Others.{Rely};
ghost use Rattle.vyrd_every.specs.Schedules.{HasNoFault, IsCorrect, IsSchedule};
ghost use Rattle.vyrd_every.specs.Schedules.{most_cache_events, most_few_events};
ghost use Rattle.vyrd_base.specs.Rules.{rules_of};

/// The log of every schedule of a correct structure is well formed, and no execution is open at its
/// end.
pub fn schedules_are_well_formed()
    ensures formed { (w : Workload) (history : List Stamped) → KeepsLimits w → IsCorrect w →
        IsSchedule w history → first_break w.header (log_of history) ≡ None }
    ensures closed { (w : Workload) (history : List Stamped) → KeepsLimits w → IsCorrect w →
        IsSchedule w history → is_call_open w.header (newest_first (log_of history)) ≡ false }
{}

/// No commit in that log is a fault: each mutator's reply is allowed, and the words show the state
/// after it.
pub fn commits_are_right()
    ensures { (w : Workload) (history : List Stamped) → KeepsLimits w → IsCorrect w →
        IsSchedule w history → HasNoFault is_commit w.header (log_of history) }
{}

/// No observer's return in it is a fault: each answer is that of a state between the call and the
/// return.
pub fn returns_are_right()
    ensures { (w : Workload) (history : List Stamped) → KeepsLimits w → IsCorrect w →
        IsSchedule w history → HasNoFault is_return w.header (log_of history) }
{}

/// So every schedule of a correct structure is accepted.
pub fn schedules_are_accepted()
    ensures { (w : Workload) (history : List Stamped) → KeepsLimits w → IsCorrect w →
        IsSchedule w history → verdict (rules_of w.header) [] (log_of history)
        ≡ accepted (log_of history) }
{}

/// The run by turns of a correct structure doesn't get stuck.
pub fn turns_arent_stuck()
    ensures { (w : Workload) → KeepsLimits w → IsCorrect w → GetsStuck (work_scripts w) w.turns
        → ⊥ }
{}

/// Whoever does nothing keeps what the others rely on, whatever they hold: what a caller relies on can
/// be met.
pub fn nothing_done_is_relied_on()
    ensures in_a_multiset { (h : Header) (s : Situation) (k : Locals) (m : Memory)
        → Rely (multiset h) s k m m }
    ensures in_a_cache { (h : Header) (s : Situation) (k : Locals) (m : Memory)
        → Rely (cache h) s k m m }
    ensures in_buffers { (h : Header) (s : Situation) (k : Locals) (m : Memory)
        → Rely (buffers h) s k m m }
{}

/// A run by turns ends or gets stuck, whatever the scripts are.
pub fn run_by_turns_ends_or_sticks()
    ensures { (scripts : List Script) (turns : List Turn)
        → ∥ (((history : List Stamped) × RunsTo scripts turns history)
        ⊎ GetsStuck scripts turns) ∥₁ }
{}

/// So every workload of a correct structure has a schedule.
pub fn workloads_have_schedules()
    ensures { (w : Workload) → KeepsLimits w → IsCorrect w
        → ∥ ((history : List Stamped) × IsSchedule w history) ∥₁ }
{}

/// A run by turns that ends is a schedule of its workload, whatever the variant.
pub fn run_by_turns_is_a_schedule()
    ensures { (w : Workload) (history : List Stamped) → KeepsLimits w
        → RunsTo (work_scripts w) w.turns history → IsSchedule w history }
{}

/// The operations of a caller of the multiset or of string buffers have at most 6,400,000 events,
/// and those of a caller of the cache half as many. A tree's walk is longer if the tree is larger.
pub fn bounds_are_few()
    ensures of_multiset { (w : Workload) (c : ℕ) → KeepsLimits w → w.header.subject ≡ Multiset →
        bounds_of w.header (ops_of c w.ops) ≤ most_few_events }
    ensures of_cache { (w : Workload) (c : ℕ) → KeepsLimits w → w.header.subject ≡ Cache →
        bounds_of w.header (ops_of c w.ops) ≤ most_cache_events }
    ensures of_buffers { (w : Workload) (c : ℕ) → KeepsLimits w → w.header.subject ≡ Buffers →
        bounds_of w.header (ops_of c w.ops) ≤ most_few_events }
{}
