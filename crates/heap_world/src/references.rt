//! Slots of references, and registers.
ghost use Rattle.std.specs.Prelude.{◌≡◌, ◌<◌, length, Some, None, false, IsTrue, IsSome, IfSome, IfOk, IfErr, OnOk, OnErr, if◌then◌else◌};
ghost use Rattle.heap_class.specs.Refusals.{IsAnswered};
ghost use Rattle.heap_region.specs.Regions.{object_at, with_word};
ghost use Rattle.heap_world.specs.State.{is_register, register, with_register, place_in, word_of};
ghost use Rattle.heap_world.specs.Legal.{IsLegal};
ghost use Rattle.heap_world.specs.Events.{is_reference_slot, load_refusal, after_load, is_logged, without_last, store_refusal, after_store, move_refusal, after_move, clear_refusal, IsSlotAt};

use super::{Loaded, Replaced, World, write_register};
use heap_class::{ObjRef, Refusal};

impl World {
    /// Reads a slot of the object in register `from` of mutator `m`, and writes a reference to register `to`. Fails with
    /// BadRegister, NullRegister or BadSlot, in this order. Takes no memory.
    #[inline(always)]
    pub fn load(&mut self, m: u64, to: u64, from: u64, slot: u64) -> Result<Loaded, Refusal>
        ensures answered { IsAnswered (load_refusal m to from slot self.old) false result }
        ensures loaded { OnOk result (self.new ≡ after_load m to from slot self.old) }
        ensures word { IfOk result
            (λ l. l.word ≡ word_of self.old (register self.old m from) slot) }
        ensures reference { IfOk result
            (λ l. l.reference ≡ is_reference_slot self.old (register self.old m from) slot) }
        ensures old { IfOk result (λ l. l.old ≡ register self.old m to) }
        ensures register { OnOk result (IsTrue (is_register self.old m to)) }
        ensures unchanged { OnErr result (self.new ≡ self.old) }
    {
        if !self.has_register(m, to) || !self.has_register(m, from) {
            return Err(Refusal::BadRegister);
        }
        let (at, kind) = self.slot_named(self.register(m, from), slot)?;
        let word = self.regions.word(at, slot);
        let reference = kind.is_reference();
        let old = self.register(m, to);
        if reference {
            self.set_register(m, to, word);
        }
        Ok(Loaded {
            word,
            reference,
            old,
        })
    }

    /// Writes the word of register `source` of mutator `m` to a reference slot of the object in register `target`. Logs the old
    /// reference, if it isn't null, while a cycle runs. Fails with BadRegister, NullRegister, BadSlot or WrongKind (a value
    /// slot), in this order, and then with NoMemory if the log can't grow.
    #[inline(always)]
    pub fn store(
        &mut self,
        m: u64,
        target: u64,
        slot: u64,
        source: u64,
    ) -> Result<Replaced, Refusal>
        ensures answered { IsAnswered (store_refusal m target slot source self.old)
            (is_logged self.old (register self.old m target) slot) result }
        ensures stored { OnOk result (self.new ≡ after_store m target slot source self.old) }
        ensures slot { IfOk result (λ p. IsSlotAt self.old m target slot p.at p.old) }
        ensures logged { IfOk result
            (λ p. p.logged ≡ is_logged self.old (register self.old m target) slot) }
        ensures unchanged { OnErr result (self.new ≡ self.old) }
    {
        let at = self.store_place(m, target, slot, source)?;
        let old = self.regions.word(at, slot);
        let word = self.register(m, source);
        let logged = self.marker.log_old(old)?;
        self.regions.set_word(at, slot, word);
        Ok(Replaced { at, old, logged })
    }

    /// Undoes `store`: writes the old word to the slot, and takes the last entry off the log if the old word was logged. Slot
    /// and entry must be there. The heap must be legal afterwards. Takes no memory.
    pub fn unstore(&mut self, at: ObjRef, slot: u64, old: u64, logged: bool)
        requires there { IsSome (object_at self.old.regions at) }
        requires within { IfSome (object_at self.old.regions at) (λ o. slot < length o.words) }
        requires entry { IsTrue logged → 0 < length self.old.log }
        requires legal { IsLegal
            (record self.old {
              regions = with_word at slot old self.old.regions;
              log = if logged then without_last self.old.log else self.old.log;
            }) }
        ensures { self.new
            ≡ record self.old {
              regions = with_word at slot old self.old.regions;
              log = if logged then without_last self.old.log else self.old.log;
            } }
    {
        self.marker.unlog_old(logged);
        self.regions.set_word(at, slot, old)
    }

    /// Copies register `from` of mutator `from_m` to register `to` of mutator `m`, and returns its old word. Fails with
    /// BadRegister. Takes no memory.
    #[inline(always)]
    pub fn move_register(&mut self, m: u64, to: u64, from_m: u64, from: u64) -> Result<u64, Refusal>
        ensures answered { IsAnswered (move_refusal m to from_m from self.old) false result }
        ensures moved { OnOk result (self.new ≡ after_move m to from_m from self.old) }
        ensures old { IfOk result (λ x. x ≡ register self.old m to) }
        ensures register { OnOk result (IsTrue (is_register self.old m to)) }
        ensures unchanged { OnErr result (self.new ≡ self.old) }
    {
        if !self.has_register(m, to) || !self.has_register(from_m, from) {
            return Err(Refusal::BadRegister);
        }
        let copied = self.register(from_m, from);
        let old = self.register(m, to);
        self.set_register(m, to, copied);
        Ok(old)
    }

    /// Makes register `r` of mutator `m` null, and returns its old word. Fails with BadRegister. Takes no memory.
    #[inline(always)]
    pub fn clear_register(&mut self, m: u64, r: u64) -> Result<u64, Refusal>
        ensures answered { IsAnswered (clear_refusal m r self.old) false result }
        ensures cleared { OnOk result (self.new ≡ with_register m r 0 self.old) }
        ensures old { IfOk result (λ x. x ≡ register self.old m r) }
        ensures register { OnOk result (IsTrue (is_register self.old m r)) }
        ensures unchanged { OnErr result (self.new ≡ self.old) }
    {
        if !self.has_register(m, r) {
            return Err(Refusal::BadRegister);
        }
        let old = self.register(m, r);
        self.set_register(m, r, 0);
        Ok(old)
    }

    /// Undoes `load`, `move_register` or `clear_register`: writes the old word to register `r` of mutator `m`, which must be
    /// there. The heap must be legal afterwards. Takes no memory.
    pub fn restore_register(&mut self, m: u64, r: u64, old: u64)
        requires register { IsTrue (is_register self.old m r) }
        requires legal { IsLegal (with_register m r old self.old) }
        ensures { self.new ≡ with_register m r old self.old }
    {
        self.set_register(m, r, old)
    }

    // Writes a word to a register. The heap must stay legal.
    #[inline(always)]
    fn set_register(&mut self, m: u64, r: u64, word: u64)
        requires register { IsTrue (is_register self.old m r) }
        requires legal { IsLegal self.old → IsLegal (with_register m r word self.old) }
        ensures { self.new ≡ with_register m r word self.old }
    {
        write_register(&mut self.registers, m, r, word);
    }

    // Returns the place of the object whose slot may be given the reference in the source register. Fails with BadRegister,
    // NullRegister, BadSlot or WrongKind.
    #[inline(always)]
    fn store_place(&self, m: u64, target: u64, slot: u64, source: u64) -> Result<ObjRef, Refusal>
        ensures accepted { OnOk result (store_refusal m target slot source self.now ≡ None) }
        ensures refused { IfErr result (λ e. store_refusal m target slot source self.now ≡ Some e) }
        ensures placed { IfOk result (λ at. place_in self.now m target ≡ Some at) }
    {
        if !self.has_register(m, target) || !self.has_register(m, source) {
            return Err(Refusal::BadRegister);
        }
        let (at, kind) = self.slot_named(self.register(m, target), slot)?;
        if !kind.is_reference() {
            return Err(Refusal::WrongKind);
        }
        Ok(at)
    }
}
