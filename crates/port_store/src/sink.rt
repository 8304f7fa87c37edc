//! A sink of bytes.

ghost use Rattle.std.specs.Prelude.{◌≡◌, ◌≤◌, ℕ, Option, OnOk, OnErr, IsErrOf};
ghost use Rattle.port_store.specs.Files.{Bytes, Told, IsPut, MayBePut};
ghost use Rattle.port_store.specs.Faults.{Rises};

use crate::fault::PortFault;

/// The bytes that were taken, where the sink tells them, and a count of faults that never falls.
///
/// A sink that tells its bytes goes on telling them after each call, and one that tells nothing goes on so.
pub trait Sink {
    /// The bytes taken so far, where the sink tells them.
    ghost taken: { Self → Option Bytes };

    /// The faults of `put` so far.
    ghost put_faults: { Self → ℕ };

    /// Takes the bytes. After an `Err` it has taken the beginning of them.
    fn put(&mut self, bytes: &[u8]) -> Result<(), PortFault>
        ensures never_fall { put_faults self.old ≤ put_faults self.new }
        ensures put { OnOk result (Told (IsPut bytes.now) (taken self.old) (taken self.new)) }
        ensures ok { OnOk result (put_faults self.new ≡ put_faults self.old) }
        ensures err { OnErr result (Told (MayBePut bytes.now) (taken self.old) (taken self.new)) }
        ensures failed { IsErrOf result PortFault.Failed → Rises (put_faults self.old) (put_faults self.new) };
}
