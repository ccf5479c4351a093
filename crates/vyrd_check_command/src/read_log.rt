//! Reading a log from a source.

ghost use Rattle.std.specs.Prelude.{◌≡◌, ◌≤◌, ◌<◌, ◌+◌, ℕ, false, [], length, vec_len};
ghost use Rattle.std.specs.Prelude.{IfOk, OnOk, IfSome, IfNone, Err};
ghost use Rattle.vyrd_base.specs.Devices.{SourceKnown, AfterReads};
ghost use Rattle.vyrd_base.specs.Limits.{most_lines, IsLimit};
ghost use Rattle.vyrd_log_check.specs.Checking.{HasChecked};
ghost use Rattle.vyrd_log_check.specs.Owed.{checker_debt};
ghost use Rattle.vyrd_check_command.specs.Inputs.{longest_read, is_failed};
ghost use Rattle.vyrd_check_command.specs.Checks.{IsReadNoFurther, IsUnsettled, IsCounted};
ghost use Rattle.vyrd_check_command.specs.Inside.Progress.{IsChecking, IsCounting, IsReached};
ghost use Rattle.vyrd_check_command.specs.declared.read_log.ReadFault.TheVariants.{Failed, Memory};

use std::alloc::{AllocError, AllocFailed, Global};
use std::sync::ledger::Ledger;
use vyrd_base::{Source, Steps, Verdict};
use vyrd_log_check::LogChecker;

/// How many bytes one read takes at most.
pub const LONGEST_READ: usize = 65_536;

/// Why an input wasn't read.
#[derive(Clone, Copy, Debug)]
pub enum ReadFault {
    /// A read failed.
    Failed,
    /// There was no memory.
    Memory,
}

impl From<AllocError> for ReadFault {
    ghost from_gives = { λ _ e. e ≡ Memory };

    fn from(_: AllocError) -> ReadFault {
        ReadFault::Memory
    }
}

/// Reads a log of at most `max_lines` lines: until its verdict stands, or to the source's end.
///
/// Each read takes at most 65,536 bytes. The bytes of a read are forgotten at the next, so the
/// memory is that of a [`LogChecker`], which counts the steps.
pub fn read_verdict<S: Source, L: Ledger>(
    alloc: Global,
    max_lines: u64,
    source: &mut S,
    steps: &mut Steps<L>,
) -> Result<Verdict, ReadFault>
    requires low { 1 ≤ max_lines }
    requires high { max_lines ≤ most_lines }
    requires unended { (S.known source.old).ended ≡ false }
    ensures reached { IfOk result (IsReached max_lines (S.known source.old) (S.known source.new)) }
    ensures no_further { IsReadNoFurther max_lines (S.known source.old) (S.known source.new) }
    ensures unsettled { result ≡ Err Failed
        → IsUnsettled max_lines (S.known source.old) (S.known source.new) }
    ensures source { AfterReads (is_failed result) (S.known source.old) (S.known source.new) }
    ensures steps { OnOk result
        (IsCounted max_lines (S.known source.old) (S.known source.new) steps.old steps.new) }
{
    let mut buffer = zeros(alloc, LONGEST_READ)?;
    let mut checker = LogChecker::new(alloc, max_lines);
    read_on(&mut checker, &mut buffer, source, steps)
}

/// Reads and checks until the verdict stands, or to the source's end.
fn read_on<S: Source, L: Ledger>(
    checker: &mut LogChecker,
    buffer: &mut [u8],
    source: &mut S,
    steps: &mut Steps<L>,
) -> Result<Verdict, ReadFault>
    requires room { length buffer.old ≡ longest_read }
    requires limit { IsLimit checker.old.max_lines }
    requires fresh { HasChecked checker.old [] }
    requires owed { checker_debt checker.old [] ≡ 0 }
    requires unended { (S.known source.old).ended ≡ false }
    ensures reached { IfOk result
        (IsReached checker.old.max_lines (S.known source.old) (S.known source.new)) }
    ensures no_further { IsReadNoFurther checker.old.max_lines (S.known source.old)
        (S.known source.new) }
    ensures unsettled { result ≡ Err Failed
        → IsUnsettled checker.old.max_lines (S.known source.old) (S.known source.new) }
    ensures source { AfterReads (is_failed result) (S.known source.old) (S.known source.new) }
    ensures steps { OnOk result
        (IsCounted checker.old.max_lines (S.known source.old) (S.known source.new)
        steps.old steps.new) }
{
    for round in 0..u64::MAX {
        if let Some(verdict) = read_piece(checker, buffer, source, steps)? {
            return Ok(verdict);
        }
    }
    unreachable!()
}

/// That many bytes, all 0.
fn zeros(alloc: Global, n: usize) -> Result<Vec<u8>, AllocError>
    ensures { IfOk result (λ bytes. vec_len bytes ≡ n) }
{
    vec![in alloc; 0; n]
}

/// Reads once, and checks what came. The answer is the verdict, if it stands now or the source has
/// said its end.
fn read_piece<S: Source, L: Ledger>(
    checker: &mut LogChecker,
    buffer: &mut [u8],
    source: &mut S,
    steps: &mut Steps<L>,
) -> Result<Option<Verdict>, ReadFault>
    requires room { 0 < length buffer.old }
    requires short { length buffer.old ≤ longest_read }
    requires unended { (S.known source.old).ended ≡ false }
    ensures goes_on { (max : ℕ) (before : SourceKnown) (rounds : ℕ) → IsLimit max
        → IsChecking max before (S.known source.old) checker.old rounds
        → IfOk result (λ verdict. IfNone verdict
        (IsChecking max before (S.known source.new) checker.new (rounds + 1))) }
    ensures reached { (max : ℕ) (before : SourceKnown) (rounds : ℕ) → IsLimit max
        → IsChecking max before (S.known source.old) checker.old rounds
        → IfOk result (λ verdict. IfSome verdict (IsReached max before (S.known source.new))) }
    ensures counting { (max : ℕ) (before : SourceKnown) (rounds first : ℕ) → IsLimit max
        → IsCounting max before (S.known source.old) checker.old rounds first steps.old
        → IfOk result (λ verdict. IfNone verdict (IsCounting max before (S.known source.new)
        checker.new (rounds + 1) first steps.new)) }
    ensures counted { (max : ℕ) (before : SourceKnown) (rounds first : ℕ) → IsLimit max
        → IsCounting max before (S.known source.old) checker.old rounds first steps.old
        → IfOk result (λ verdict. IfSome verdict
        (λ v. IsCounted max before (S.known source.new) first steps.new)) }
    ensures no_further { (max : ℕ) (before : SourceKnown) (rounds : ℕ) → IsLimit max
        → IsChecking max before (S.known source.old) checker.old rounds
        → IsReadNoFurther max before (S.known source.new) }
    ensures kept { result ≡ Err Failed → (S.known source.new).rest ≡ (S.known source.old).rest }
    ensures source { AfterReads (is_failed result) (S.known source.old) (S.known source.new) }
{
    let n = match source.read(buffer) {
        Ok(n) => n,
        Err(_) => return Err(ReadFault::Failed),
    };
    if n == 0 {
        return Ok(Some(checker.finish_counted(steps)?));
    }
    let (piece, _) = buffer.split_at(n);
    Ok(checker.feed_counted(piece, steps)?)
}
