//! Laws of a workload's text. Each function does nothing: its contract is the law.

ghost use Rattle.std.specs.Prelude.{◌≡◌, ◌≤◌, ℕ, List, ◌++◌, Ok, length};
ghost use Rattle.std.specs.List.{AllByRecursion};
ghost use Rattle.vyrd_memory.specs.Runs.{AreSoundScripts};
ghost use Rattle.vyrd_work.specs.WorkScripts.{work_scripts};
ghost use Rattle.vyrd_work.specs.Workloads.{Workload, lines_of, work_text};
ghost use Rattle.vyrd_work.specs.WorkReading.{work_reading};
ghost use Rattle.vyrd_work.specs.WorkLimits.{KeepsLimits};
ghost use Rattle.vyrd_work.specs.LongInputs.{longest_input};

/// The text of a workload that keeps its limits is read as that workload.
pub fn text_is_read()
    ensures { (w : Workload) → KeepsLimits w → work_reading (work_text w) ≡ Ok w }
{}

/// Bytes that are read as a workload are its text, and it keeps its limits.
pub fn read_text_is_a_workload()
    ensures text { (bytes : List ℕ) (w : Workload) → work_reading bytes ≡ Ok w
        → bytes ≡ work_text w }
    ensures limits { (bytes : List ℕ) (w : Workload) → work_reading bytes ≡ Ok w → KeepsLimits w }
{}

/// No line of a workload that keeps its limits has more than 64 bytes, without its line feed.
pub fn lines_are_short()
    ensures { (w : Workload) → KeepsLimits w
        → AllByRecursion (λ line. length line ≤ 64) (lines_of w) }
{}

/// The scripts of a workload that keeps its limits are sound.
pub fn scripts_are_sound()
    ensures { (w : Workload) → KeepsLimits w → AreSoundScripts w.header (work_scripts w) }
{}

/// What the longest input or more bytes say doesn't change with bytes that follow them.
pub fn long_inputs_are_settled()
    ensures { (bytes more : List ℕ) → longest_input ≤ length bytes
        → work_reading (bytes ++ more) ≡ work_reading bytes }
{}
