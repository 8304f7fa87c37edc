//! Why a call of a store or a sink failed.

ghost use Rattle.std.specs.Prelude.{◌≡◌};
ghost use Rattle.port_store.specs.Refusals.{refusal_of};

use thiserror::Error;

/// Why a call of a [`Store`](crate::Store) or a [`Sink`](crate::Sink) failed.
#[derive(Clone, Copy, Debug, PartialEq, Eq, Error)]
pub enum PortFault {
    /// The outside refused the call. A count of faults rose, or the store tells its files and the name is missing.
    #[error("failed")]
    Failed,
    /// Memory ran out. The call has done what a failed one may have done.
    #[error("memory")]
    Memory,
}

/// Why a whole file was not read.
#[derive(Clone, Copy, Debug, PartialEq, Eq, Error)]
pub enum ReadRefusal {
    /// A call of the store failed.
    #[error("failed")]
    Failed,
    /// Memory ran out.
    #[error("memory")]
    Memory,
    /// The file is longer than the limit.
    #[error("above the limit")]
    Above {
        /// Its length in bytes.
        size: u64,
    },
}

impl From<PortFault> for ReadRefusal {
    ghost from_gives = { λ fault refusal. refusal ≡ refusal_of fault };

    fn from(fault: PortFault) -> ReadRefusal {
        match fault {
            PortFault::Failed => ReadRefusal::Failed,
            PortFault::Memory => ReadRefusal::Memory,
        }
    }
}
