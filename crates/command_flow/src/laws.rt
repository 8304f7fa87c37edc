//! What the four commands do in a row, as contracts that a proof may call for.

ghost use Rattle.command_flow.specs.Flow.{FlowLaws};
ghost use Rattle.command_flow.specs.Calls.{FlowHeadline};

/// What `decrypt` puts after `keygen`, `encrypt` and `run` are the values of the circuit, whatever the seeds.
#[inline]
pub fn laws()
    ensures { FlowLaws }
{
    port_store::laws::laws();
    circuit_file::laws::laws();
    sealed_files::laws::laws();
    value_files::laws::laws();
    key_flow::laws::laws();
}

/// The headline of the flow: each of the four calls, of which no more is known than its own contract, answers Ok or
/// that memory ran out, and the last one puts the values of the circuit.
#[inline]
pub fn headline()
    ensures { FlowHeadline }
{
    laws();
}
