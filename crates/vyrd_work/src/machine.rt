//! The machine of a workload's caller.

ghost use Rattle.std.specs.Prelude.{◌≡◌, ◌<◌, ◌≤◌, true, length, IfOk};
ghost use Rattle.vyrd_memory.specs.Bounds.{bounds_of, most_ops};
ghost use Rattle.vyrd_memory.specs.Players.{are_callable};
ghost use Rattle.vyrd_work.specs.Workloads.{workload_of};
ghost use Rattle.vyrd_work.specs.WorkLimits.{KeepsLimits};
ghost use Rattle.vyrd_work.specs.WorkScripts.{work_script, ops_of};

use crate::work::{Work, WorkOp};
use std::alloc::{AllocError, Global};
use vyrd_base::Subject;
use vyrd_buffers::BufferMachine;
use vyrd_cache::CacheMachine;
use vyrd_memory::{Act, Machine, Op};
use vyrd_multiset::MultisetMachine;
use vyrd_tree::TreeMachine;

/// A caller of a structure that is known only as the program runs: one machine of several kinds.
#[derive(Drop)]
pub enum MachineOf<M: Machine, C: Machine, T: Machine, B: Machine> {
    /// A caller of a multiset.
    Multiset(M),
    /// A caller of a cache.
    Cache(C),
    /// A caller of a tree.
    Tree(T),
    /// A caller of string buffers.
    Buffers(B),
}

/// A caller of any structure. `AnyMachine::new` makes that of a workload's caller.
pub type AnyMachine = MachineOf<MultisetMachine, CacheMachine, TreeMachine, BufferMachine>;

impl<M: Machine, C: Machine, T: Machine, B: Machine> Machine for MachineOf<M, C, T, B> {
    ghost use Rattle.vyrd_work.specs.declared.machine.MachineOf.TheVariants as of;

    ghost header_of = { elim [
      | of.Multiset m ↦ M.header_of m
      | of.Cache m ↦ C.header_of m
      | of.Tree m ↦ T.header_of m
      | of.Buffers m ↦ B.header_of m
    ] };

    ghost caller_of = { elim [
      | of.Multiset m ↦ M.caller_of m
      | of.Cache m ↦ C.caller_of m
      | of.Tree m ↦ T.caller_of m
      | of.Buffers m ↦ B.caller_of m
    ] };

    ghost script = { elim [
      | of.Multiset m ↦ M.script m
      | of.Cache m ↦ C.script m
      | of.Tree m ↦ T.script m
      | of.Buffers m ↦ B.script m
    ] };

    ghost ahead = { elim [
      | of.Multiset m ↦ M.ahead m
      | of.Cache m ↦ C.ahead m
      | of.Tree m ↦ T.ahead m
      | of.Buffers m ↦ B.ahead m
    ] };

    ghost op_ahead = { elim [
      | of.Multiset m ↦ M.op_ahead m
      | of.Cache m ↦ C.op_ahead m
      | of.Tree m ↦ T.op_ahead m
      | of.Buffers m ↦ B.op_ahead m
    ] };

    #[inline(always)]
    fn wants(&self) -> Act {
        match self {
            MachineOf::Multiset(machine) => machine.wants(),
            MachineOf::Cache(machine) => machine.wants(),
            MachineOf::Tree(machine) => machine.wants(),
            MachineOf::Buffers(machine) => machine.wants(),
        }
    }

    #[inline(always)]
    fn took(&mut self, answer: u64) {
        match self {
            MachineOf::Multiset(machine) => machine.took(answer),
            MachineOf::Cache(machine) => machine.took(answer),
            MachineOf::Tree(machine) => machine.took(answer),
            MachineOf::Buffers(machine) => machine.took(answer),
        }
    }

    fn left(&self) -> u64 {
        match self {
            MachineOf::Multiset(machine) => machine.left(),
            MachineOf::Cache(machine) => machine.left(),
            MachineOf::Tree(machine) => machine.left(),
            MachineOf::Buffers(machine) => machine.left(),
        }
    }

    fn op_left(&self) -> u64 {
        match self {
            MachineOf::Multiset(machine) => machine.op_left(),
            MachineOf::Cache(machine) => machine.op_left(),
            MachineOf::Tree(machine) => machine.op_left(),
            MachineOf::Buffers(machine) => machine.op_left(),
        }
    }

    #[inline(always)]
    fn between(&self) -> bool {
        match self {
            MachineOf::Multiset(machine) => machine.between(),
            MachineOf::Cache(machine) => machine.between(),
            MachineOf::Tree(machine) => machine.between(),
            MachineOf::Buffers(machine) => machine.between(),
        }
    }

    ghost is_sound = { elim [
      | of.Multiset m ↦ M.is_sound m
      | of.Cache m ↦ C.is_sound m
      | of.Tree m ↦ T.is_sound m
      | of.Buffers m ↦ B.is_sound m
    ] };

    ghost ends_in_time = { elim [
      | of.Multiset m ↦ M.ends_in_time m
      | of.Cache m ↦ C.ends_in_time m
      | of.Tree m ↦ T.ends_in_time m
      | of.Buffers m ↦ B.ends_in_time m
    ] };

    ghost next_bound = { elim [
      | of.Multiset m ↦ M.next_bound m
      | of.Cache m ↦ C.next_bound m
      | of.Tree m ↦ T.next_bound m
      | of.Buffers m ↦ B.next_bound m
    ] };

    ghost sums = { elim [
      | of.Multiset m ↦ M.sums m
      | of.Cache m ↦ C.sums m
      | of.Tree m ↦ T.sums m
      | of.Buffers m ↦ B.sums m
    ] };

    ghost op_is_ahead = { elim [
      | of.Multiset m ↦ M.op_is_ahead m
      | of.Cache m ↦ C.op_is_ahead m
      | of.Tree m ↦ T.op_is_ahead m
      | of.Buffers m ↦ B.op_is_ahead m
    ] };

    ghost rests = { elim [
      | of.Multiset m ↦ M.rests m
      | of.Cache m ↦ C.rests m
      | of.Tree m ↦ T.rests m
      | of.Buffers m ↦ B.rests m
    ] };

    ghost few = { elim [
      | of.Multiset m ↦ M.few m
      | of.Cache m ↦ C.few m
      | of.Tree m ↦ T.few m
      | of.Buffers m ↦ B.few m
    ] };

    ghost done = { elim [
      | of.Multiset m ↦ M.done m
      | of.Cache m ↦ C.done m
      | of.Tree m ↦ T.done m
      | of.Buffers m ↦ B.done m
    ] };
}

/// A machine that can be made for a caller of a workload.
pub trait WorkMachine: Machine + Sized {
    /// The machine of a caller of the workload, which keeps its limits. It does the caller's
    /// operations in their order.
    fn of_caller(alloc: Global, work: &Work, caller: u32) -> Result<Self, AllocError>
        requires limits { KeepsLimits (workload_of work.now) }
        requires caller { caller < work.now.header.callers }
        ensures header { IfOk result (λ m. Self.header_of m ≡ work.now.header) }
        ensures caller { IfOk result (λ m. Self.caller_of m ≡ caller) }
        ensures script { IfOk result
            (λ m. Self.script m ≡ work_script (workload_of work.now) caller) }
        ensures bound { IfOk result
            (λ m. Self.ahead m ≡ bounds_of work.now.header (ops_of caller work.now.ops.items)) };
}

impl WorkMachine for MachineOf<MultisetMachine, CacheMachine, TreeMachine, BufferMachine> {
    fn of_caller(alloc: Global, work: &Work, caller: u32) -> Result<Self, AllocError> {
        AnyMachine::new(alloc, work, caller)
    }
}

impl MachineOf<MultisetMachine, CacheMachine, TreeMachine, BufferMachine> {
    /// The machine of a caller of the workload, which keeps its limits. It does the caller's
    /// operations in their order.
    pub fn new(alloc: Global, work: &Work, caller: u32) -> Result<AnyMachine, AllocError>
        requires limits { KeepsLimits (workload_of work.now) }
        requires caller { caller < work.now.header.callers }
        ensures header { IfOk result
            (λ m. ⟦<AnyMachine as Machine>⟧.header_of m ≡ work.now.header) }
        ensures caller { IfOk result (λ m. ⟦<AnyMachine as Machine>⟧.caller_of m ≡ caller) }
        ensures script { IfOk result
            (λ m. ⟦<AnyMachine as Machine>⟧.script m ≡ work_script (workload_of work.now) caller) }
        ensures bound { IfOk result (λ m. ⟦<AnyMachine as Machine>⟧.ahead m
            ≡ bounds_of work.now.header (ops_of caller work.now.ops.items)) }
    {
        let ops = ops_of(alloc, work, caller)?;
        match work.header.subject() {
            Subject::Multiset => {
                let machine = MultisetMachine::new(alloc, work.header, caller, work.variant, &ops)?;
                Ok(MachineOf::Multiset(machine))
            }
            Subject::Cache => {
                let machine = CacheMachine::new(alloc, work.header, caller, work.variant, &ops)?;
                Ok(MachineOf::Cache(machine))
            }
            Subject::Tree => {
                let machine = TreeMachine::new(alloc, work.header, caller, work.variant, &ops)?;
                Ok(MachineOf::Tree(machine))
            }
            Subject::Buffers => {
                let machine = BufferMachine::new(alloc, work.header, caller, work.variant, &ops)?;
                Ok(MachineOf::Buffers(machine))
            }
            Subject::Own => unreachable!(),
        }
    }
}

/// What the caller of a workload calls.
fn ops_of(alloc: Global, work: &Work, caller: u32) -> Result<Vec<Op>, AllocError>
    requires { KeepsLimits (workload_of work.now) }
    ensures ops { IfOk result (λ own. own.items ≡ ops_of caller work.now.ops.items) }
    ensures few { IfOk result (λ own. length own.items ≤ most_ops) }
    ensures callable { IfOk result (λ own. are_callable work.now.header own.items ≡ true) }
{
    own_ops(alloc, &work.ops, caller)
}

/// The operations of a caller, in their order.
fn own_ops(alloc: Global, ops: &[WorkOp], caller: u32) -> Result<Vec<Op>, AllocError>
    ensures { IfOk result (λ own. own.items ≡ ops_of caller ops.now) }
{
    let mut own = Vec::new(alloc);
    for op in ops {
        if op.caller == caller {
            own.push(op.op)?;
        }
    }
    Ok(own)
}
