//! The classes of the arrays of roots in the session of a dump.
ghost use Rattle.std.specs.Prelude.{◌≡◌, ◌≤◌, ◌<◌, ◌+◌, length, slice_get, Some, OnOk};
ghost use Rattle.heap_class.specs.Limits.{AreClassLimits};
ghost use Rattle.hprof_plan.specs.Defined.{AreDefined};
ghost use Rattle.hprof_plan.specs.SessionClasses.{and_arrays, root_names};

use crate::define::{Defined, define_array_class};
use heap_class::ClassLimits;
use std::alloc::{AllocError, Global};

/// Defines the class `roots`, and those of the arrays of each kind of roots. Fails if an allocation fails.
pub(crate) fn plan_roots(
    alloc: Global,
    limits: ClassLimits,
    defined: &mut Defined,
) -> Result<(), AllocError>
    requires limits { AreClassLimits limits }
    requires long { 22 ≤ limits.name_bytes }
    requires state { AreDefined limits defined.old }
    requires room { length defined.old.classes + 10 ≤ limits.classes }
    ensures defined { OnOk result (AreDefined limits defined.new) }
    ensures counted { OnOk result (length defined.new.classes ≡ length defined.old.classes + 10) }
    ensures classes { OnOk result
        (defined.new.classes ≡ and_arrays limits defined.old.classes root_names) }
{
    for k in 0..10 {
        define_array_class(alloc, limits, defined, root_name(k))?;
    }
    Ok(())
}

// Returns the name of class `roots`, or of the arrays of a kind of roots.
fn root_name(k: usize) -> &'static [u8]
    requires { k < 10 }
    ensures { slice_get root_names k ≡ Some result.now }
{
    match k {
        0 => b"roots",
        1 => b"JNI_global",
        2 => b"JNI_local",
        3 => b"Java_frame",
        4 => b"native_stack",
        5 => b"sticky_class",
        6 => b"thread_block",
        7 => b"monitor_used",
        8 => b"thread_object",
        _ => b"unknown_root",
    }
}
