//! What `collect` takes its steps on.
use heap_class::Refusal;
use heap_step::{Answer, Event};
use heap_trail::Machine;

/// A machine, and those who may take its steps. Contracts see the machine, who may take steps, what is so of both after steps since
/// an earlier moment, and for which reasons others than the machine's a step may be denied.
pub trait Steps {
    ghost use Rattle.std.specs.Prelude.{◌≡◌, ◌⊎◌, List, [], ◌∷◌, None, IfErr, IfOk, OnErr};
    ghost use Rattle.heap_class.specs.declared.Refusal.{Refusal};
    ghost use Rattle.heap_step.specs.Apply.{refusal_of};
    ghost use Rattle.heap_trail.specs.declared.Action.TheVariants.{Step};
    ghost use Rattle.heap_trail.specs.declared.Reply.TheVariants.{Answered};
    ghost use Rattle.heap_trail.specs.Machine.{Machine, MayFail, MayReply};
    ghost use Rattle.heap_orders.specs.Collections.{LeadOn, TakenStep};

    /// Who takes steps.
    type By;

    ghost seen: { Self → Machine };

    ghost may: { Self.By → Type 0 };

    ghost since: { Self → Self.By → Self → Self.By → List TakenStep → Type 0 };

    ghost denies: { Refusal → Type 0 };

    /// Returns the machine.
    fn machine(&self) -> &Machine
        ensures { result.now ≡ seen self.now };

    /// Takes a step that the state allows, or refuses it and leaves the machine.
    fn take(&mut self, by: &mut Self::By, event: Event) -> Result<Answer, Refusal>
        requires may { may by.old }
        requires allowed { refusal_of event (seen self.old).trail.current ≡ None }
        ensures still { may by.new }
        ensures done { IfOk result
            (λ a. MayReply (seen self.old) (Step event) (seen self.new) (Answered a)) }
        ensures taken { IfOk result
            (λ a. LeadOn (since self.old by.old) ((event, a) ∷ []) (since self.new by.new)) }
        ensures refused { IfErr result
            (λ e. MayFail (seen self.old) (Step event) (seen self.old) e ⊎ denies e) }
        ensures unchanged { OnErr result ((seen self.new ≡ seen self.old)
            × LeadOn (since self.old by.old) [] (since self.new by.new)) };
}
