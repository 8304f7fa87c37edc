//! Values in a file.

ghost use Rattle.std.specs.Prelude.{◌+◌, ◌<◌, ◌^◌, [], ◌∷◌, length, IfOk};
ghost use Rattle.refusals.specs.Reading.{Gives};
ghost use Rattle.forms.specs.Forms.{AreIn};
ghost use Rattle.command_forms.specs.Outside.{store_at};
ghost use Rattle.command_forms.specs.Steps.{ReadsAs};
ghost use Rattle.command_files.specs.Files.{values_in, values_from};

use command_forms::{Fault, StepRefusal, read_file};
use port_store::Store;
use refusals::Refusal;
use std::alloc::Global;
use value_files::{VALUES_LIMIT, read_values};

/// The values in the bytes of a file, one in each range.
fn values_in(alloc: Global, ranges: &[(i64, i64)], bytes: &[u8]) -> Result<Vec<i64>, Refusal<Fault>>
    requires { length ranges.now + 1 < 2 ^ 32 }
    ensures values { Gives (λ values. values.items) result (values_in ranges.now bytes.now) }
    ensures within { IfOk result (λ values. AreIn ranges.now values.items) }
{
    match read_values(alloc, bytes, ranges) {
        Ok(values) => Ok(values),
        Err(Refusal::Fault(fault)) => Err(Refusal::Fault(Fault::Value(fault))),
        Err(Refusal::Memory) => Err(Refusal::Memory),
    }
}

/// The values in a file, one in each range.
pub fn values_from<S: Store>(
    alloc: Global,
    store: &mut S,
    ranges: &[(i64, i64)],
    name: &str,
) -> Result<Vec<i64>, StepRefusal>
    requires { length ranges.now + 1 < 2 ^ 32 }
    ensures reads { ReadsAs (name.now ∷ [])
        (store_at S.files S.shown S.read_faults S.write_faults store.old)
        (store_at S.files S.shown S.read_faults S.write_faults store.new)
        (λ values. values.items) result (values_from ranges.now name.now) }
    ensures within { IfOk result (λ values. AreIn ranges.now values.items) }
{
    let bytes = read_file(alloc, store, name, VALUES_LIMIT)?;
    Ok(values_in(alloc, ranges, &bytes)?)
}
