//! Arrays and their classes.
ghost use Rattle.std.specs.Prelude.{◌≡◌, ◌<◌, Some, IfErr, OnOk};
ghost use Rattle.heap_class.specs.Classes.{array_class};
ghost use Rattle.heap_class.specs.Limits.{class_limit};
ghost use Rattle.heap_class.specs.declared.ObjKind.TheVariants.{Array, Prim};
ghost use Rattle.heap_world.specs.Legal.{MayHold};
ghost use Rattle.heap_world.specs.Events.{new_array_refusal, new_prim_refusal, IsNewClass, IsNewObject};

use super::{Created, World};
use heap_class::{ClassNo, Kind, KindClass, Name, ObjKind, Refusal};

impl World {
    /// Defines a class of object arrays, and returns its number. Fails with ClassLimit, BadName or DuplicateName, in this
    /// order, and then with NoMemory if an allocation fails.
    pub fn define_array_class(&mut self, name: &Name) -> Result<ClassNo, Refusal>
        ensures { IsNewClass (array_class name.now) self.old self.new result }
    {
        self.classes.define_array(self.limits.classes, name)
    }

    /// Makes an object array of a class in register `r` of mutator `m`, its elements null. Fails with BadRegister, NoClass,
    /// WrongKind (the class isn't an array class), TooLarge (more than 1,024 elements, in a heap with an area 2,097,147) or
    /// HeapFull, in this order, and then with NoMemory if a region's storage can't be allocated.
    pub fn new_array(
        &mut self,
        m: u64,
        r: u64,
        class: ClassNo,
        len: u64,
    ) -> Result<Created, Refusal>
        ensures { IsNewObject m r (Array class) len (new_array_refusal m r class len self.old)
            self.old self.new result }
    {
        self.allow_array(m, r, class, len)?;
        self.make(m, r, ObjKind::Array(class as KindClass), len)
    }

    /// Makes an array of values of a kind in register `r` of mutator `m`, its elements 0. Fails with BadRegister, WrongKind (the
    /// kind is Object), TooLarge (more than 1,024 elements, in a heap with an area 2,097,147) or HeapFull, in this order, and then
    /// with NoMemory if a region's storage can't be allocated.
    pub fn new_prim(&mut self, m: u64, r: u64, kind: Kind, len: u64) -> Result<Created, Refusal>
        ensures { IsNewObject m r (Prim kind) len (new_prim_refusal m r kind len self.old) self.old
            self.new result }
    {
        self.allow_prim(m, r, kind, len)?;
        self.make(m, r, ObjKind::Prim(kind), len)
    }

    // Checks that such an object array may be made if there is room. Fails with BadRegister, NoClass, WrongKind or TooLarge.
    fn allow_array(&self, m: u64, r: u64, class: ClassNo, len: u64) -> Result<(), Refusal>
        ensures allowed { OnOk result (MayHold self.now m r (Array class) len) }
        ensures limit { OnOk result (class < class_limit) }
        ensures refused { IfErr result (λ e. new_array_refusal m r class len self.now ≡ Some e) }
    {
        self.allow_class(m, r, class)?;
        if !self.classes.is_array(class) {
            return Err(Refusal::WrongKind);
        }
        let most = self.limits.elements;
        if len > most {
            return Err(Refusal::TooLarge);
        }
        Ok(())
    }

    // Checks that such an array of values may be made if there is room. Fails with BadRegister, WrongKind or TooLarge.
    fn allow_prim(&self, m: u64, r: u64, kind: Kind, len: u64) -> Result<(), Refusal>
        ensures allowed { OnOk result (MayHold self.now m r (Prim kind) len) }
        ensures refused { IfErr result (λ e. new_prim_refusal m r kind len self.now ≡ Some e) }
    {
        if !self.has_register(m, r) {
            return Err(Refusal::BadRegister);
        }
        if kind.is_reference() {
            return Err(Refusal::WrongKind);
        }
        let most = self.limits.elements;
        if len > most {
            return Err(Refusal::TooLarge);
        }
        Ok(())
    }
}
