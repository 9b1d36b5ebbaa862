//! The heap of a session of its own.
ghost use Rattle.std.specs.Prelude.{◌≡◌, IfErr, IfOk};
ghost use Rattle.heapdbg_options.specs.CommandLine.{IsHeapWithin, limits_of};
ghost use Rattle.session_text.specs.Machine.{opening_machine};

use crate::failure::Fault;
use heapdbg_options::settings::{Settings, config};
use session_text::{Local, Machine};
use std::alloc::Global;

/// Opens the heap that the settings ask for, for one session. Fails with Memory if it can't be allocated.
pub(crate) fn open_local(alloc: Global, settings: &Settings) -> Result<Local, Fault>
    requires { IsHeapWithin settings.now }
    ensures opening { IfOk result (λ l. l.machine ≡ opening_machine (limits_of settings.now)
        settings.now.ids settings.now.regions settings.now.mutators settings.now.keep) }
    ensures first { IfOk result (λ l. l.first_pin ≡ 1) }
    ensures fault { IfErr result (λ f. f ≡ Fault.Memory) }
{
    match Machine::new(alloc, config(settings)) {
        Ok(machine) => {
            let local = Local::new(machine);
            Ok(local)
        }
        Err(_) => Err(Fault::Memory),
    }
}
