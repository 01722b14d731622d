ghost use Rattle.std.specs.Prelude.{IfOk, OnOk, ◌≡◌, ◌≢◌, Ok, Err};
ghost use Rattle.pir_io.specs.declared.fault.IoFault.TheVariants.{NoMemory};
ghost use Rattle.pir_io.specs.Faults.{HasCause};

use crate::IoFault;
use std::io;

/// Counts the outcome where it is an error, and tells `Failed` then.
pub(crate) fn count_fault<T>(faults: &mut u64, outcome: io::Result<T>) -> Result<T, IoFault>
    ensures cause { HasCause faults.old faults.new result }
    ensures value { IfOk result (λ value. outcome ≡ Ok value) }
    ensures same { OnOk result (faults.new ≡ faults.old) }
    ensures failed { result ≢ Err NoMemory }
{
    match outcome {
        Ok(value) => Ok(value),
        Err(_) => {
            *faults = faults.saturating_add(1);
            Err(IoFault::Failed)
        }
    }
}
