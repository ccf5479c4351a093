//! What a step of a specification of the user's own does: what its method says.

use crate::tells::Tells;
use std::alloc::{AllocError, Global};
use vyrd_base::{Args, Effect, Method};
use vyrd_own_spec::OwnSpec;
use vyrd_spec::Spec;

impl Tells for OwnSpec {
    /// The expressions of the method are worked out twice: once for what the step does, and once
    /// for the step.
    fn step_told(
        &mut self,
        alloc: Global,
        method: Method,
        args: Args,
        reply: u64,
        done: &mut Vec<Effect>,
    ) -> Result<bool, AllocError> {
        if let Some(effects) = self.effects(alloc, method, args, reply)? {
            done.extend_from_slice(&effects)?;
        }
        self.step(method, args, reply)
    }
}
