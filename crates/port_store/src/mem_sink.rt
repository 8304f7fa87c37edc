//! A sink in memory, a fake for tests.

ghost use Rattle.std.specs.Prelude.{◌≡◌, ◌≤◌, ◌++◌, List, ◌∷◌, [], Option, Some, OnOk, OnErr, IsErrOf};
ghost use Rattle.port_store.specs.Files.{Told, IsPut, MayBePut};
ghost use Rattle.port_store.specs.Faults.{Rises};
ghost use Rattle.port_store.specs.Listed.{IsUnlessMemory};
ghost use Rattle.port_store.specs.Collected.{nothing_taken, put_answer, after_put};

use crate::failures::{kept_of, unless_memory};
use crate::fault::PortFault;
use crate::sink::Sink;
use std::alloc::{AllocError, Global};
use std::marker::Model;

/// A sink in memory that tells its bytes, and fails at the calls that a test lists.
///
/// It counts the calls of [`Sink`](crate::Sink) from 0 on.
#[derive(Drop)]
pub struct MemSink {
    taken: Vec<u8>,
    calls: u64,
    failures: Vec<(u64, u64)>,
    put_faults: u64,
}

impl Model for MemSink {
    ghost use Rattle.port_store.specs.Collected.{Collected, collected_code};

    ghost Value = { Collected };

    ghost coded = { collected_code };

    ghost view = { λ s. record {
      taken = s.taken.items;
      calls = s.calls;
      failures = s.failures.items;
      put_faults = s.put_faults;
    } };
}

impl MemSink {
    /// A sink that has taken nothing, none of whose calls fail.
    pub fn new(alloc: Global) -> MemSink
        ensures { result ≡ nothing_taken }
    {
        MemSink {
            taken: Vec::new(alloc),
            calls: 0,
            failures: Vec::new(alloc),
            put_faults: 0,
        }
    }

    /// Lists a call, by its number, that is to fail, and to take at most `kept` bytes of its piece then.
    ///
    /// Where a call is listed twice, the first entry counts.
    pub fn fail(&mut self, call: u64, kept: u64) -> Result<(), AllocError>
        ensures ok { OnOk result (self.new ≡ record self.old { failures = self.old.failures ++ (call, kept) ∷ [] }) }
        ensures err { OnErr result (self.new ≡ self.old) }
    {
        self.failures.push((call, kept))?;
        Ok(())
    }

    /// The bytes that were taken so far. It is not counted as a call.
    pub fn bytes(&self) -> &[u8]
        ensures { result.now ≡ self.now.taken }
    {
        self.taken.as_slice()
    }
}

impl Sink for MemSink {
    ghost taken = { λ s. Some s.taken };

    ghost put_faults = { λ s. s.put_faults };

    fn put(&mut self, bytes: &[u8]) -> Result<(), PortFault>
        ensures answer { IsUnlessMemory result (put_answer self.old) }
        ensures after { self.new ≡ after_put self.old bytes.now result }

        ensures never_fall { self.old.put_faults ≤ self.new.put_faults }
        ensures put { OnOk result (Told (IsPut bytes.now) (Some self.old.taken) (Some self.new.taken)) }
        ensures ok { OnOk result (self.new.put_faults ≡ self.old.put_faults) }
        ensures err { OnErr result (Told (MayBePut bytes.now) (Some self.old.taken) (Some self.new.taken)) }
        ensures failed { IsErrOf result PortFault.Failed → Rises self.old.put_faults self.new.put_faults }
    {
        let listed = kept_of(&self.failures, self.calls);
        self.calls = self.calls.saturating_add(1);
        let Some(kept) = listed else {
            return unless_memory(self.taken.extend_from_slice(bytes));
        };
        self.put_faults = self.put_faults.saturating_add(1);
        let kept = kept.min(bytes.len() as u64) as usize;
        unless_memory(self.taken.extend_from_slice(&bytes[..kept]))?;
        Err(PortFault::Failed)
    }
}
