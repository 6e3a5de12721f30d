// Counting the failed calls of an object of the system.
ghost use Rattle.std.specs.Prelude.{◌≡◌, ◌≤◌, OnErr};
ghost use Rattle.std.specs.Result.{result_ok};
ghost use Rattle.pme_base.specs.Counts.{Rose};

use crate::outside::Failed;
use std::io;

/// Passes on the result of a system call, and counts a fault where it is an error.
pub fn counted<T>(faults: &mut u64, answer: io::Result<T>) -> Result<T, Failed>
    ensures value { result_ok result ≡ result_ok answer }
    ensures later { faults.old ≤ faults.new }
    ensures failed { OnErr result (Rose faults.old faults.new) }
{
    match answer {
        Ok(value) => Ok(value),
        Err(_) => {
            *faults = faults.saturating_add(1);
            Err(Failed)
        }
    }
}
