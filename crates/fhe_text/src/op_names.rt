//! The names of the operations.

ghost use Rattle.std.specs.Prelude.{◌≡◌};
ghost use Rattle.std.specs.Str.{bytes_eq};
ghost use Rattle.fhe_text.specs.Conditions.{op_text, quoted, op_of};

use crate::source::OpName;

/// All operations.
const OP_NAMES: [OpName; 9] = [
    OpName::AddEint,
    OpName::AddEintInt,
    OpName::SubEint,
    OpName::SubEintInt,
    OpName::SubIntEint,
    OpName::NegEint,
    OpName::MulEintInt,
    OpName::Zero,
    OpName::ApplyLookupTable,
];

/// The name of an operation, in quotes.
pub(crate) fn op_literal(name: OpName) -> &'static str
    ensures { result.now ≡ quoted (op_text name) }
{
    match name {
        OpName::AddEint => "\"FHE.add_eint\"",
        OpName::AddEintInt => "\"FHE.add_eint_int\"",
        OpName::SubEint => "\"FHE.sub_eint\"",
        OpName::SubEintInt => "\"FHE.sub_eint_int\"",
        OpName::SubIntEint => "\"FHE.sub_int_eint\"",
        OpName::NegEint => "\"FHE.neg_eint\"",
        OpName::MulEintInt => "\"FHE.mul_eint_int\"",
        OpName::Zero => "\"FHE.zero\"",
        OpName::ApplyLookupTable => "\"FHE.apply_lookup_table\"",
    }
}

/// Whether the text is the name of the operation, in quotes.
fn names(text: &[u8], name: OpName) -> bool
    ensures { result ≡ bytes_eq text.now (quoted (op_text name)) }
{
    text == op_literal(name).as_bytes()
}

/// The operation that a STRING names.
pub(crate) fn op_of(text: &[u8]) -> Option<OpName>
    ensures { result ≡ op_of text.now }
{
    OP_NAMES.iter().copied().find(|name| names(text, *name))
}
