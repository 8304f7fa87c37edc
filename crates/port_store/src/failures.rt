//! The calls of a fake that are listed to fail.

ghost use Rattle.std.specs.Prelude.{◌≡◌, if◌then◌else◌, is_ok};
ghost use Rattle.port_store.specs.Listed.{kept_of};

use crate::fault::PortFault;
use std::alloc::AllocError;

/// How many bytes the call keeps, where it is listed to fail. The first entry of a call counts.
pub(crate) fn kept_of(failures: &[(u64, u64)], call: u64) -> Option<u64>
    ensures { result ≡ kept_of failures.now call }
{
    for (listed, kept) in failures {
        if *listed == call {
            return Some(*kept);
        }
    }
    None
}

// The only error of a call that allocates is that memory ran out.
pub(crate) fn unless_memory(outcome: Result<(), AllocError>) -> Result<(), PortFault>
    ensures { result ≡ (if is_ok outcome then Ok tt else Err PortFault.Memory) }
{
    match outcome {
        Ok(()) => Ok(()),
        Err(AllocError) => Err(PortFault::Memory),
    }
}
