//! What the commands do in a row on a program, as a contract that a proof may call for.

ghost use Rattle.program_flow.specs.Programs.{ProgramLaws};

/// What `decrypt` puts after `compile`, `keygen`, `encrypt` and `run` is what `clear` puts: the values of the program.
#[inline]
pub fn laws()
    ensures { ProgramLaws }
{
    port_store::laws::laws();
    circuit_file::laws::laws();
    key_flow::laws::laws();
    command_flow::laws::laws();
    command_flow::laws::headline();
}
