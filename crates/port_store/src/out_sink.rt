//! Standard output as a sink, through the runtime that `main` is given.

ghost use Rattle.std.specs.Prelude.{◌≡◌, None};
ghost use Rattle.port_store.specs.Faults.{Rises};

use crate::fault::PortFault;
use crate::sink::Sink;
use std::alloc::Global;
use std::io;
use std::io::Write;
use std::marker::Model;

/// Standard output.
///
/// It tells nothing of what was written. Each error of the system is a fault, a write that takes nothing
/// among them, and the count stands still at `u64::MAX`.
#[derive(Drop)]
pub struct OutSink<'a, R> {
    rt: &'a R,
    put_faults: u64,
}

impl<'a, R> Model for OutSink<'a, R> {
    ghost use Rattle.std.specs.Prelude.{ℕ};

    ghost Value = { ℕ };

    ghost view = { λ s. s.put_faults };
}

impl<'a, R: Print> OutSink<'a, R> {
    /// The output that the runtime reaches, with no faults so far. It takes no memory.
    pub fn new(rt: &'a R, _alloc: Global) -> OutSink<'a, R>
        ensures { result ≡ 0 }
    {
        OutSink { rt, put_faults: 0 }
    }
}

impl<'a, R: Print> Sink for OutSink<'a, R> {
    ghost taken = { λ _. None };

    ghost put_faults = { λ faults. faults };

    fn put(&mut self, bytes: &[u8]) -> Result<(), PortFault> {
        match write_out(self.rt, bytes) {
            Ok(()) => Ok(()),
            Err(_) => {
                self.put_faults = self.put_faults.saturating_add(1);
                Err(PortFault::Failed)
            }
        }
    }
}

// Writes all of the bytes. A write of a part is followed by one of the rest.
fn write_out<R: Print>(rt: &R, bytes: &[u8]) -> io::Result<()> {
    let mut out = io::writer(rt);
    out.write_all(bytes)?;
    out.flush()
}
