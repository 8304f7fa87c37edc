//! The kinds of operations, and how many there are of each.

ghost use Rattle.std.specs.Prelude.{◌≡◌, ◌<◌, ◌+◌, ◌^◌, if◌then◌else◌};
ghost use Rattle.tfhe_level.specs.Operations.{is_input, is_lin, is_switch, is_boot, is_out, is_leaf, is_big_node};
ghost use Rattle.tfhe_level.specs.Rules.{is_message};
ghost use Rattle.circuit_nodes.specs.Nodes.{AreFew, with_kind};

use tfhe_level::TfheOp;

/// How many operations there are of each kind.
#[derive(Clone, Copy, Debug, PartialEq, Eq)]
pub(crate) struct Kinds {
    pub(crate) inputs: usize,
    pub(crate) lins: usize,
    pub(crate) switches: usize,
    pub(crate) boots: usize,
    pub(crate) outs: usize,
}

impl Kinds {
    /// The counts of no operations.
    pub(crate) fn none() -> Kinds
        ensures { result ≡ record { inputs = 0; lins = 0; switches = 0; boots = 0; outs = 0 } }
    {
        Kinds {
            inputs: 0,
            lins: 0,
            switches: 0,
            boots: 0,
            outs: 0,
        }
    }

    /// The counts with an operation more.
    pub(crate) fn with(self, op: &TfheOp) -> Kinds
        requires { AreFew self }
        ensures { result ≡ with_kind self op.now }
    {
        match op {
            TfheOp::Input { .. } => Kinds {
                inputs: self.inputs + 1,
                ..self
            },
            TfheOp::Lin { .. } => Kinds {
                lins: self.lins + 1,
                ..self
            },
            TfheOp::Switch { .. } => Kinds {
                switches: self.switches + 1,
                ..self
            },
            TfheOp::Boot { .. } => Kinds {
                boots: self.boots + 1,
                ..self
            },
            TfheOp::Out { .. } => Kinds {
                outs: self.outs + 1,
                ..self
            },
        }
    }
}

/// What a term may stand on: an input or a bootstrap.
pub(crate) fn is_leaf(op: &TfheOp) -> bool
    ensures { result ≡ is_leaf op.now }
{
    matches!(op, TfheOp::Input { .. } | TfheOp::Boot { .. })
}

/// What a key switch or an out may stand on: an input, a weighted sum or a bootstrap.
pub(crate) fn is_big_node(op: &TfheOp) -> bool
    ensures { result ≡ is_big_node op.now }
{
    !matches!(op, TfheOp::Switch { .. } | TfheOp::Out { .. })
}

/// Whether it is a key switch.
pub(crate) fn is_switch(op: &TfheOp) -> bool
    ensures { result ≡ is_switch op.now }
{
    matches!(op, TfheOp::Switch { .. })
}

/// Whether the width must hold its range: a key switch or an out.
pub(crate) fn is_message(op: &TfheOp) -> bool
    ensures { result ≡ is_message op.now }
{
    matches!(op, TfheOp::Switch { .. } | TfheOp::Out { .. })
}
