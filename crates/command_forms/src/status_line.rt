//! How a status is shown.

ghost use Rattle.std.specs.Prelude.{◌≡◌, ◌++◌, codes, IfOk};
ghost use Rattle.std.specs.String.{string_bytes};
ghost use Rattle.hex.specs.Hex.{encode_lower};
ghost use Rattle.command_forms.specs.StatusLine.{code_of, line_of, table_line, circuit_line, file_line, text_word, type_word, circuit_word, file_word, value_word, limit_word, cert_word};

use crate::fault::CertFile;
use crate::status::Status;
use circuit_file::{CircuitFault, CircuitKind};
use fhe_level::{LimitName, TypeKind};
use fhe_params::TableFault;
use fhe_text::TextKind;
use sealed_files::{FileFault, FileKind};
use std::alloc::{AllocError, Global};
use value_files::ValueKind;

impl Status {
    /// The exit code of the program.
    pub fn code(&self) -> u8
        ensures { result ≡ code_of self.now }
    {
        match self {
            Status::Ok => 0,
            Status::Usage => 2,
            Status::Text { .. } => 3,
            Status::Typing { .. } => 4,
            Status::Range { .. } => 5,
            Status::NoChoice => 6,
            Status::Table(_) => 7,
            Status::Circuit(_) => 8,
            Status::File(_, _) => 9,
            Status::Value { .. } => 10,
            Status::Limit(_) => 11,
            Status::Read => 12,
            Status::Write => 13,
            Status::Memory => 14,
            Status::Certificate { .. } => 15,
        }
    }

    /// The line on standard error, without its line feed; an empty text where the command was done. It fails
    /// only for memory.
    pub fn line(&self, alloc: Global) -> Result<String, AllocError>
        ensures { IfOk result (λ text. string_bytes text ≡ line_of self.now) }
    {
        match self {
            Status::Ok => String::from_str(alloc, ""),
            Status::Usage => String::from_str(alloc, "fhec: usage"),
            Status::Text { line, column, kind } => {
                let kind = text_word(*kind);
                format!(in alloc; "fhec: text {line}:{column} {kind}")
            }
            Status::Typing { place, kind } => {
                let kind = type_word(*kind);
                format!(in alloc; "fhec: type {place} {kind}")
            }
            Status::Range { op, lo, hi } => format!(in alloc; "fhec: range {op} {lo} {hi}"),
            Status::NoChoice => String::from_str(alloc, "fhec: no choice"),
            Status::Table(fault) => table_line(alloc, *fault),
            Status::Circuit(fault) => circuit_line(alloc, *fault),
            Status::File(kind, fault) => file_line(alloc, *kind, fault),
            Status::Value { line, kind } => {
                let kind = value_word(*kind);
                format!(in alloc; "fhec: value {line} {kind}")
            }
            Status::Limit(fault) => {
                let (what, count, most) = (limit_word(fault.what), fault.count, fault.most);
                format!(in alloc; "fhec: limit {what} {count} {most}")
            }
            Status::Read => String::from_str(alloc, "fhec: read fault"),
            Status::Write => String::from_str(alloc, "fhec: write fault"),
            Status::Memory => String::from_str(alloc, "fhec: memory"),
            Status::Certificate { file, line } => {
                let file = cert_word(*file);
                format!(in alloc; "fhec: certificate {file} {line}")
            }
        }
    }
}

fn table_line(alloc: Global, fault: TableFault) -> Result<String, AllocError>
    ensures { IfOk result (λ text. string_bytes text ≡ table_line fault) }
{
    match fault {
        TableFault::Toml => String::from_str(alloc, "fhec: table toml"),
        TableFault::Field { list, entry, field } => {
            let (list, field) = (list.name(), field.name());
            format!(in alloc; "fhec: table {list} {entry} {field}")
        }
    }
}

fn circuit_line(alloc: Global, fault: CircuitFault) -> Result<String, AllocError>
    ensures { IfOk result (λ text. string_bytes text ≡ circuit_line fault.line fault.kind) }
{
    let line = fault.line;
    let word = circuit_word(fault.kind);
    match fault.kind {
        CircuitKind::Constraint { bound, limit } => {
            format!(in alloc; "fhec: circuit {line} {word} {bound} {limit}")
        }
        _ => format!(in alloc; "fhec: circuit {line} {word}"),
    }
}

/// A value as 64 lower-case digits.
fn hex_of(alloc: Global, value: &[u8; 32]) -> Result<String, AllocError>
    ensures { IfOk result (λ text. string_bytes text ≡ encode_lower value.now) }
{
    hex::encode(alloc, value.as_slice())
}

fn mismatch_line(
    alloc: Global,
    file: &str,
    left: &[u8; 32],
    right: &[u8; 32],
) -> Result<String, AllocError>
    ensures { IfOk result (λ text. string_bytes text ≡ codes "fhec: file "
        ++ (file.now ++ (codes " mismatch " ++ (encode_lower left.now ++ (codes " " ++ encode_lower right.now))))) }
{
    let left = hex_of(alloc, left)?;
    let right = hex_of(alloc, right)?;
    format!(in alloc; "fhec: file {file} mismatch {left} {right}")
}

fn file_line(alloc: Global, kind: FileKind, fault: &FileFault) -> Result<String, AllocError>
    ensures { IfOk result (λ text. string_bytes text ≡ file_line kind fault.now) }
{
    let file = file_word(kind);
    match fault {
        FileFault::Magic => format!(in alloc; "fhec: file {file} magic"),
        FileFault::Length { want, have } => format!(in alloc;
            "fhec: file {file} length {want} {have}"
        ),
        FileFault::Digest => format!(in alloc; "fhec: file {file} digest"),
        FileFault::Field { place } => format!(in alloc; "fhec: file {file} field {place}"),
        FileFault::Mismatch { left, right } => mismatch_line(alloc, file, left, right),
    }
}

fn text_word(kind: TextKind) -> &'static str
    ensures { result.now ≡ text_word kind }
{
    match kind {
        TextKind::Token => "token",
        TextKind::Syntax => "syntax",
        TextKind::Name => "name",
        TextKind::Op => "op",
        TextKind::Constant => "constant",
        TextKind::Shape => "shape",
        TextKind::End => "end",
    }
}

fn type_word(kind: TypeKind) -> &'static str
    ensures { result.now ≡ type_word kind }
{
    match kind {
        TypeKind::Declared => "declared",
        TypeKind::Arity => "arity",
        TypeKind::Operand => "operand",
        TypeKind::Rule => "rule",
        TypeKind::Table => "table",
        TypeKind::Return => "return",
    }
}

fn circuit_word(kind: CircuitKind) -> &'static str
    ensures { result.now ≡ circuit_word kind }
{
    match kind {
        CircuitKind::Spelling => "spelling",
        CircuitKind::Params => "params",
        CircuitKind::Node => "node",
        CircuitKind::Width => "width",
        CircuitKind::Constraint { .. } => "constraint",
    }
}

fn file_word(kind: FileKind) -> &'static str
    ensures { result.now ≡ file_word kind }
{
    match kind {
        FileKind::Secret => "secret",
        FileKind::Eval => "eval",
        FileKind::Cipher => "cipher",
    }
}

fn value_word(kind: ValueKind) -> &'static str
    ensures { result.now ≡ value_word kind }
{
    match kind {
        ValueKind::Number => "number",
        ValueKind::Range => "range",
        ValueKind::Many => "many",
        ValueKind::Few => "few",
        ValueKind::Decoded => "decoded",
    }
}

fn limit_word(what: LimitName) -> &'static str
    ensures { result.now ≡ limit_word what }
{
    match what {
        LimitName::Bytes => "bytes",
        LimitName::Operations => "operations",
        LimitName::Arguments => "arguments",
        LimitName::Results => "results",
        LimitName::Lookups => "lookups",
        LimitName::Width => "width",
        LimitName::Weight => "weight",
        LimitName::Weights => "weights",
    }
}

fn cert_word(file: CertFile) -> &'static str
    ensures { result.now ≡ cert_word file }
{
    match file {
        CertFile::Cert => "cert",
        CertFile::Circuit => "circuit",
    }
}
