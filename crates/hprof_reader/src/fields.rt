//! Own fields and static fields of a class.
ghost use Rattle.std.specs.Prelude.{◌≡◌, ◌++◌, ℕ, List, IfOk};
ghost use Rattle.hprof_reader.specs.Fields.{FitsOwnField, FitsStaticField, StaticTold, own_field_parts, own_field_text, static_field_parts, static_field_text, static_told};
ghost use Rattle.hprof_reader.specs.Reading.{Gives, IsRead};
ghost use Rattle.hprof_reader.specs.declared.fields.OwnField.{OwnField};

use crate::fault::Fault;
use crate::kinds::kind_at;
use crate::numbers::{bytes_at, id_at};
use heap_class::{IdSize, Kind};

/// An own field of a class.
#[derive(Clone, Copy, PartialEq, Eq, Debug)]
pub struct OwnField {
    /// The id of its name.
    pub name: u64,
    /// The kind of its values.
    pub kind: Kind,
}

/// A static field of a class.
#[derive(Clone, Copy, PartialEq, Eq, Debug)]
pub struct StaticField<'a> {
    /// The id of its name.
    pub name: u64,
    /// The kind of its value.
    pub kind: Kind,
    /// Its value.
    pub value: &'a [u8],
}

/// Reads the own field at the front of these bytes of a table of own fields. Returns it with the bytes after it. Fails with Short
/// or Type if no whole field begins there.
pub fn own_field_at(ids: IdSize, bytes: &[u8]) -> Result<(OwnField, &[u8]), Fault>
    ensures found { IfOk result (λ x. FitsOwnField ids x.0
        × (bytes.now ≡ own_field_text ids x.0 ++ x.1.now)) }
    ensures only { (f : OwnField) (rest : List ℕ) → FitsOwnField ids f
        → bytes.now ≡ own_field_text ids f ++ rest
        → IsRead (λ x. (x.0, x.1.now)) result f rest }
{
    read_own_field(ids, bytes)
}

#[tactic(auto, unfolding(crate::specs::Fields::own_field_parts))]
fn read_own_field(ids: IdSize, bytes: &[u8]) -> Result<(OwnField, &[u8]), Fault>
    ensures { Gives (λ x. (x.0, x.1.now)) result (own_field_parts ids bytes.now) }
{
    let (name, rest) = id_at(ids, bytes)?;
    let (kind, rest) = kind_at(rest)?;
    Ok((OwnField { name, kind }, rest))
}

/// Reads the static field at the front of these bytes of a table of static fields. Returns it with the bytes after it. Fails with
/// Short or Type if no whole field begins there.
pub fn static_field_at(ids: IdSize, bytes: &[u8]) -> Result<(StaticField<'_>, &[u8]), Fault>
    ensures found { IfOk result (λ x. FitsStaticField ids (static_told x.0)
        × (bytes.now ≡ static_field_text ids (static_told x.0) ++ x.1.now)) }
    ensures only { (f : StaticTold) (rest : List ℕ) → FitsStaticField ids f
        → bytes.now ≡ static_field_text ids f ++ rest
        → IsRead (λ x. (static_told x.0, x.1.now)) result f rest }
{
    read_static_field(ids, bytes)
}

#[tactic(auto, unfolding(crate::specs::Fields::static_field_parts))]
fn read_static_field(ids: IdSize, bytes: &[u8]) -> Result<(StaticField<'_>, &[u8]), Fault>
    ensures { Gives (λ x. (static_told x.0, x.1.now)) result (static_field_parts ids bytes.now) }
{
    let (name, rest) = id_at(ids, bytes)?;
    let (kind, rest) = kind_at(rest)?;
    let (value, rest) = bytes_at(kind.width(ids), rest)?;
    Ok((StaticField { name, kind, value }, rest))
}
