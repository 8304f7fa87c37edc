//! The evaluation keys of a run.

ghost use Rattle.std.specs.Prelude.{◌≡◌, ◌<◌, Option, not, is_some, IfOk};
ghost use Rattle.fhe_params.specs.Params.{IsParams};
ghost use Rattle.circuit_digest.specs.ParamsDigest.{params_digest};
ghost use Rattle.command_forms.specs.Names.{is_no_eval};
ghost use Rattle.command_forms.specs.Outside.{store_at};
ghost use Rattle.command_forms.specs.Steps.{ReadsAs};
ghost use Rattle.command_files.specs.Files.{eval_files};
ghost use Rattle.run_command.specs.Run.{keys_view, AreKeysOf, keys_from};

use blind_rotate::BootKey;
use command_files::eval_from;
use command_forms::{StepRefusal, is_no_eval};
use key_switch::SwitchKey;
use port_store::Store;
use std::alloc::Global;
use tfhe_level::Circuit;

/// The evaluation keys of a circuit: those in the file of EVAL, and none where it is the word `-`.
pub(crate) fn keys_from<S: Store>(
    alloc: Global,
    store: &mut S,
    circuit: &Circuit,
    digest: &[u8; 32],
    eval: &str,
) -> Result<Option<(SwitchKey, BootKey)>, StepRefusal>
    requires params { IsParams circuit.now.params }
    requires digest { digest.now ≡ params_digest circuit.now.params }
    ensures reads { ReadsAs (eval_files eval.now)
        (store_at S.files S.shown S.read_faults S.write_faults store.old)
        (store_at S.files S.shown S.read_faults S.write_faults store.new)
        keys_view result (keys_from circuit.now eval.now) }
    ensures valid { IfOk result (AreKeysOf circuit.now.params eval.now) }
{
    if is_no_eval(eval) {
        return Ok(None);
    }
    let keys = eval_from(alloc, store, digest, &circuit.params, eval)?;
    Ok(Some(keys))
}
