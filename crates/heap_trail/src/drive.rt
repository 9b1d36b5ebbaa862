//! A whole list of actions.
ghost use Rattle.std.specs.Prelude.{◌≡◌, IfOk, IfErr, OnErr};
ghost use Rattle.heap_class.specs.declared.Refusal.TheVariants.{NoMemory};
ghost use Rattle.heap_trail.specs.Machine.{MayDrive};

use crate::{Action, Machine, Reply};
use heap_class::Refusal;

impl Machine {
    /// Does the actions in order and returns the reply to each. Fails with NoMemory, before the first action, if there is no
    /// room for the replies.
    pub fn drive(&mut self, actions: &[Action]) -> Result<Vec<Reply>, Refusal>
        ensures driven { IfOk result (λ r. MayDrive self.old actions.now r.items self.new) }
        ensures refused { IfErr result (λ e. e ≡ NoMemory) }
        ensures unchanged { OnErr result (self.new ≡ self.old) }
    {
        let mut replies = Vec::with_capacity(self.alloc, actions.len())?;
        for action in actions {
            replies.push_reserved(self.act(action));
        }
        Ok(replies)
    }
}
