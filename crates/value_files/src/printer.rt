//! Writing values, a line each.

ghost use Rattle.std.specs.Prelude.{◌≡◌, ◌++◌, IfOk, OnOk};
ghost use Rattle.std.specs.String.{string_bytes};
ghost use Rattle.value_files.specs.Values.{value_line, values_text};

use std::alloc::{AllocError, Global};
use std::fmt::Write;

/// Writes the line of a value.
fn put_line(text: &mut String, value: i64) -> Result<(), AllocError>
    ensures { OnOk result (string_bytes text.new ≡ string_bytes text.old ++ value_line value) }
{
    write!(text, "{value}\n")
}

/// The values, a line each: their decimal digits, with a `-` before those of a negative one. It fails only for memory.
pub fn print_values(alloc: Global, values: &[i64]) -> Result<Vec<u8>, AllocError>
    ensures { IfOk result (λ bytes. bytes.items ≡ values_text values.now) }
{
    let mut text = String::new(alloc);
    for value in values {
        put_line(&mut text, *value)?;
    }
    Ok(text.into_bytes())
}
