//! A store of files.

ghost use Rattle.std.specs.Prelude.{◌≡◌, ◌≤◌, ℕ, length, List, Option, IfOk, OnOk, OnErr, IsErrOf};
ghost use Rattle.port_store.specs.Files.{Files, Told, MayHold, IsMissing, OfFile, Copies, IsCreated, MayBeCreated, IsAppended, MayBeAppended};
ghost use Rattle.port_store.specs.Faults.{Rises};
ghost use Rattle.port_store.specs.Shown.{Shown, Accounts, after_size, after_read_at};

use crate::fault::PortFault;

/// A finite map from names to bytes, where the store tells it, and two counts of faults that never fall.
///
/// A name is any text, and two texts name two files. A store that tells its files goes on telling them after
/// each call, and one that tells nothing goes on so.
pub trait Store {
    /// The files, where the store tells them.
    ghost files: { Self → Option Files };

    /// What `size` and `read_at` have shown so far, the newest first, where the store keeps account of it.
    ghost shown: { Self → Option (List Shown) };

    /// The faults of `size` and `read_at` so far.
    ghost read_faults: { Self → ℕ };

    /// The faults of `create` and `append` so far.
    ghost write_faults: { Self → ℕ };

    /// The length of a file in bytes. A name that is known to be missing is a failure without a fault.
    fn size(&mut self, name: &str) -> Result<u64, PortFault>
        ensures files { files self.new ≡ files self.old }
        ensures never_fall { read_faults self.old ≤ read_faults self.new }
        ensures no_write { write_faults self.new ≡ write_faults self.old }
        ensures size { IfOk result (λ size. OfFile (files self.old) name.now (λ bytes. size ≡ length bytes)) }
        ensures account { Accounts (after_size name.now result) (shown self.old) (shown self.new) }
        ensures ok { OnOk result (read_faults self.new ≡ read_faults self.old) }
        ensures failed { IsErrOf result PortFault.Failed → MayHold (files self.old) name.now
            → Rises (read_faults self.old) (read_faults self.new) }
        ensures missing { IsMissing (files self.old) name.now → read_faults self.new ≡ read_faults self.old };

    /// Copies bytes of a file, from a place on, to the front of the buffer, and answers how many. What the
    /// buffer holds behind them is left open, and all of it after an `Err`.
    fn read_at(&mut self, name: &str, at: u64, buffer: &mut [u8]) -> Result<usize, PortFault>
        ensures files { files self.new ≡ files self.old }
        ensures never_fall { read_faults self.old ≤ read_faults self.new }
        ensures no_write { write_faults self.new ≡ write_faults self.old }
        ensures room { IfOk result (λ count. count ≤ length buffer.old) }
        ensures copied { IfOk result (λ count.
            OfFile (files self.old) name.now (λ bytes. Copies bytes at buffer.new count)) }
        ensures account { Accounts (after_read_at name.now at buffer.new result) (shown self.old) (shown self.new) }
        ensures ok { OnOk result (read_faults self.new ≡ read_faults self.old) }
        ensures failed { IsErrOf result PortFault.Failed → MayHold (files self.old) name.now
            → Rises (read_faults self.old) (read_faults self.new) }
        ensures missing { IsMissing (files self.old) name.now → read_faults self.new ≡ read_faults self.old };

    /// Makes a file, or empties it. After an `Err` it is as it was, or empty.
    fn create(&mut self, name: &str) -> Result<(), PortFault>
        ensures never_fall { write_faults self.old ≤ write_faults self.new }
        ensures no_read { read_faults self.new ≡ read_faults self.old }
        ensures account { shown self.new ≡ shown self.old }
        ensures created { OnOk result (Told (IsCreated name.now) (files self.old) (files self.new)) }
        ensures ok { OnOk result (write_faults self.new ≡ write_faults self.old) }
        ensures err { OnErr result (Told (MayBeCreated name.now) (files self.old) (files self.new)) }
        ensures failed { IsErrOf result PortFault.Failed → Rises (write_faults self.old) (write_faults self.new) };

    /// Adds bytes at the end of a file. After an `Err` it has the beginning of them. A name that is known to be
    /// missing is a failure without a fault, and stays missing.
    fn append(&mut self, name: &str, bytes: &[u8]) -> Result<(), PortFault>
        ensures never_fall { write_faults self.old ≤ write_faults self.new }
        ensures no_read { read_faults self.new ≡ read_faults self.old }
        ensures account { shown self.new ≡ shown self.old }
        ensures appended { OnOk result (Told (IsAppended name.now bytes.now) (files self.old) (files self.new)) }
        ensures ok { OnOk result (write_faults self.new ≡ write_faults self.old) }
        ensures err { OnErr result (Told (MayBeAppended name.now bytes.now) (files self.old) (files self.new)) }
        ensures failed { IsErrOf result PortFault.Failed → MayHold (files self.old) name.now
            → Rises (write_faults self.old) (write_faults self.new) }
        ensures missing { IsMissing (files self.old) name.now → write_faults self.new ≡ write_faults self.old };
}
