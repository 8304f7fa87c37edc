//! The rows of the operations: what their operands and their results are.

ghost use Rattle.std.specs.Prelude.{◌≡◌, ◌==◌, ◌^◌};
ghost use Rattle.fhe_level.specs.Rows.{row_of, fits_slot, fit_slots, keeps_row, tensor_length, has_table, fits_table};

use crate::limits::width_of;
use fhe_text::{OpName, WrittenType};

/// What an operand is.
#[derive(Clone, Copy, Debug, PartialEq, Eq)]
pub(crate) enum Slot {
    /// Of the type of the result.
    Same,
    /// A constant number.
    Constant,
    /// The index of a look-up.
    Index,
    /// The table of a look-up.
    Table,
}

/// What the operands of an operation are, in order.
pub(crate) fn row_of(name: OpName) -> &'static [Slot]
    ensures { result.now ≡ row_of name }
{
    match name {
        OpName::AddEint | OpName::SubEint => &[Slot::Same, Slot::Same],
        OpName::AddEintInt | OpName::SubEintInt | OpName::MulEintInt => &[
            Slot::Same,
            Slot::Constant,
        ],
        OpName::SubIntEint => &[Slot::Constant, Slot::Same],
        OpName::NegEint => &[Slot::Same],
        OpName::Zero => &[],
        OpName::ApplyLookupTable => &[Slot::Index, Slot::Table],
    }
}

/// Whether the type of an operand is that of its place in the row, where the result is encrypted with this width.
fn fits_slot(width: u32, slot: Slot, ty: WrittenType) -> bool
    ensures { result ≡ fits_slot width slot ty }
{
    match slot {
        Slot::Same => matches!(ty, WrittenType::Eint(other) if other == width),
        Slot::Constant => matches!(ty, WrittenType::Int(_)),
        Slot::Index => matches!(ty, WrittenType::Eint(_)),
        Slot::Table => matches!(ty, WrittenType::Tensor { .. }),
    }
}

/// Whether these types fit these places, one by one.
fn fit_slots(width: u32, row: &[Slot], written: &[WrittenType]) -> bool
    ensures { result ≡ fit_slots width row.now written.now }
{
    row.iter()
        .zip(written)
        .all(|(slot, ty)| fits_slot(width, *slot, *ty))
}

/// Whether the types are those of the row, the length of a table aside.
pub(crate) fn keeps_row(name: OpName, written: &[WrittenType], result_type: WrittenType) -> bool
    ensures { result ≡ keeps_row name written.now result_type }
{
    match result_type {
        WrittenType::Eint(width) => fit_slots(width, row_of(name), written),
        WrittenType::Int(_) | WrittenType::Tensor { .. } => false,
    }
}

/// How many entries a table of this type has.
fn tensor_length(ty: WrittenType) -> u32
    ensures { result ≡ tensor_length ty }
{
    match ty {
        WrittenType::Tensor { length, .. } => length,
        WrittenType::Eint(_) | WrittenType::Int(_) => 0,
    }
}

/// Whether a number is this power of 2.
fn is_power(number: u32, exponent: u32) -> bool
    ensures { result ≡ (number == 2 ^ exponent) }
{
    exponent < 32 && number == 1 << exponent
}

/// Whether the table of a look-up has an entry for each number of its index.
fn has_table(written: &[WrittenType]) -> bool
    ensures { result ≡ has_table written.now }
{
    match written {
        [index, table, ..] => is_power(tensor_length(*table), width_of(*index)),
        _ => false,
    }
}

/// Whether an operation that looks up has such a table.
pub(crate) fn fits_table(name: OpName, written: &[WrittenType]) -> bool
    ensures { result ≡ fits_table name written.now }
{
    match name {
        OpName::ApplyLookupTable => has_table(written),
        _ => true,
    }
}
