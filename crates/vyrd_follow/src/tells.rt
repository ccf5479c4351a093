//! Specifications that tell what their steps do.

ghost use Rattle.std.specs.Prelude.{◌≡◌, ◌≤◌, ◌+◌, ◌++◌, ◌<◌, ◌^◌, true, false, OnOk, Ok, Some};
ghost use Rattle.std.specs.Prelude.{None};
ghost use Rattle.vyrd_base.specs.Rules.{rules_by};
ghost use Rattle.vyrd_base.specs.Subjects.{subject_of, is_observer, are_args};
ghost use Rattle.vyrd_follow.specs.Doings.{done_to};

use std::alloc::{AllocError, Global};
use vyrd_base::{Args, Effect, Method};
use vyrd_spec::Spec;

/// A specification that runs, and tells what each of its steps does.
pub trait Tells: Spec {
    /// Makes a step with the call of an execution that commits, and its reply, as `step` does, and
    /// puts what the step does at the end, one effect after the other. `false` says that the reply
    /// isn't allowed in this state: then the step does nothing. The only error is that memory has
    /// run out; then the value may only be dropped.
    fn step_told(
        &mut self,
        alloc: Global,
        method: Method,
        args: Args,
        reply: u64,
        done: &mut Vec<Effect>,
    ) -> Result<bool, AllocError>
        requires subject { subject_of method ≡ (rules_by (Self.charter self.old)).header.subject }
        requires args { are_args (rules_by (Self.charter self.old)).header.size method args ≡ true }
        requires mutator { is_observer method ≡ false }
        requires few { Self.made self.old < 2 ^ 62 }
        ensures done { OnOk result (done.new.items ≡ done.old.items
            ++ done_to (Self.charter self.old) (record { method = method; args = args }) reply
            (Self.state self.old)) }
        ensures allowed { result ≡ Ok true
            → (rules_by (Self.charter self.old)).next method args reply (Self.state self.old)
            ≡ Some (Self.state self.new) }
        ensures refused { result ≡ Ok false
            → (rules_by (Self.charter self.old)).next method args reply (Self.state self.old)
            ≡ None }
        ensures charter { Self.charter self.new ≡ Self.charter self.old }
        ensures made { Self.made self.new ≤ Self.made self.old + 1 };
}
