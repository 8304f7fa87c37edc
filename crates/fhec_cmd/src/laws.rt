//! What commands do in a row, as a contract that a proof may call for.

ghost use Rattle.command_flow.specs.Calls.{FlowHeadline};
ghost use Rattle.command_flow.specs.Flow.{FlowLaws};
ghost use Rattle.program_flow.specs.Programs.{ProgramLaws};

/// What `decrypt` puts after `keygen`, `encrypt` and `run` are the values of the circuit, whatever the seeds; where
/// `compile` made the circuit, they are those of the program, as `clear` puts them. What each command promises (the
/// headline of `fhec`) is what the next one is supposed to find.
#[inline]
pub fn laws()
    // The composed headline: however `keygen`, `encrypt`, `run` and `decrypt` are called one after the other over a store
    // that tells its files, where no call of it fails they answer Ok or Memory, and put the values of the circuit.
    ensures calls { FlowHeadline }
    // From a circuit and values to the values of the circuit.
    ensures circuits { FlowLaws }
    // From the text of a program, a table and values to the values of the program.
    ensures programs { ProgramLaws }
{
    command_flow::laws::headline();
    command_flow::laws::laws();
    program_flow::laws::laws();
}
