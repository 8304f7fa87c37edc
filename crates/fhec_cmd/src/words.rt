//! The command line: which words are a command.

ghost use Rattle.std.specs.Prelude.{◌≡◌, map};
ghost use Rattle.std.specs.String.{string_bytes};
ghost use Rattle.command_forms.specs.Names.{are_distinct};
ghost use Rattle.key_commands.specs.Words.{keygen_view, keygen_files};
ghost use Rattle.run_command.specs.Words.{run_view, run_files};
ghost use Rattle.fhec_cmd.specs.CommandLine.{request_of, compile_of, check_of, clear_of, keygen_of, encrypt_of, run_of, decrypt_of};
ghost use Rattle.fhec_cmd.specs.CommandView.{request_view};

use crate::seed::seed_of;
use command_forms::{are_distinct, is_no_eval};
use key_commands::decrypt::DecryptNames;
use key_commands::encrypt::EncryptNames;
use key_commands::keygen::KeygenNames;
use program_commands::clear::ClearNames;
use program_commands::compile::CompileNames;
use run_command::RunNames;

/// A command line.
#[derive(Clone, Copy, Debug)]
pub(crate) enum Request<'a> {
    /// The words are no command of the table, or two of its files have one name.
    Faulty,
    Compile(CompileNames<'a>),
    Check(CompileNames<'a>),
    Clear(ClearNames<'a>),
    Keygen(KeygenNames<'a>),
    Encrypt(EncryptNames<'a>),
    Run(RunNames<'a>),
    Decrypt(DecryptNames<'a>),
}

/// The command line that the words are.
pub(crate) fn parse(words: &[String]) -> Request<'_>
    ensures { request_view result ≡ request_of (map string_bytes words.now) }
{
    let [command, words @ ..] = words else {
        return Request::Faulty;
    };
    match command.as_str() {
        "compile" => compile_of(words),
        "check" => check_of(words),
        "clear" => clear_of(words),
        "keygen" => keygen_of(words),
        "encrypt" => encrypt_of(words),
        "run" => run_of(words),
        "decrypt" => decrypt_of(words),
        _ => Request::Faulty,
    }
}

fn compile_of(words: &[String]) -> Request<'_>
    ensures { request_view result ≡ compile_of (map string_bytes words.now) }
{
    let [program, table, circuit, cert] = words else {
        return Request::Faulty;
    };
    let names = CompileNames {
        program: program.as_str(),
        table: table.as_str(),
        circuit: circuit.as_str(),
        cert: cert.as_str(),
    };
    if are_distinct(&[names.program, names.table, names.cert, names.circuit]) {
        Request::Compile(names)
    } else {
        Request::Faulty
    }
}

fn check_of(words: &[String]) -> Request<'_>
    ensures { request_view result ≡ check_of (map string_bytes words.now) }
{
    match compile_of(words) {
        Request::Compile(names) => Request::Check(names),
        other => other,
    }
}

fn clear_of(words: &[String]) -> Request<'_>
    ensures { request_view result ≡ clear_of (map string_bytes words.now) }
{
    let [program, values] = words else {
        return Request::Faulty;
    };
    let names = ClearNames {
        program: program.as_str(),
        values: values.as_str(),
    };
    if are_distinct(&[names.program, names.values]) {
        Request::Clear(names)
    } else {
        Request::Faulty
    }
}

fn keygen_of(words: &[String]) -> Request<'_>
    ensures { request_view result ≡ keygen_of (map string_bytes words.now) }
{
    let [circuit, seed, secret, eval] = words else {
        return Request::Faulty;
    };
    let Some(seed) = seed_of(seed.as_str()) else {
        return Request::Faulty;
    };
    let names = KeygenNames {
        circuit: circuit.as_str(),
        seed,
        secret: secret.as_str(),
        eval: eval.as_str(),
    };
    if are_key_files_distinct(&names) {
        Request::Keygen(names)
    } else {
        Request::Faulty
    }
}

/// Whether no two files of `keygen` have one name.
fn are_key_files_distinct(names: &KeygenNames<'_>) -> bool
    ensures { result ≡ are_distinct (keygen_files (keygen_view names.now)) }
{
    if is_no_eval(names.eval) {
        are_distinct(&[names.circuit, names.secret])
    } else {
        are_distinct(&[names.circuit, names.secret, names.eval])
    }
}

fn encrypt_of(words: &[String]) -> Request<'_>
    ensures { request_view result ≡ encrypt_of (map string_bytes words.now) }
{
    let [circuit, secret, seed, values, cipher] = words else {
        return Request::Faulty;
    };
    let Some(seed) = seed_of(seed.as_str()) else {
        return Request::Faulty;
    };
    let names = EncryptNames {
        circuit: circuit.as_str(),
        secret: secret.as_str(),
        seed,
        values: values.as_str(),
        cipher: cipher.as_str(),
    };
    if are_distinct(&[names.circuit, names.secret, names.values, names.cipher]) {
        Request::Encrypt(names)
    } else {
        Request::Faulty
    }
}

fn run_of(words: &[String]) -> Request<'_>
    ensures { request_view result ≡ run_of (map string_bytes words.now) }
{
    let [circuit, eval, cipher, output] = words else {
        return Request::Faulty;
    };
    let names = RunNames {
        circuit: circuit.as_str(),
        eval: eval.as_str(),
        cipher: cipher.as_str(),
        output: output.as_str(),
    };
    if are_run_files_distinct(&names) {
        Request::Run(names)
    } else {
        Request::Faulty
    }
}

/// Whether no two files of `run` have one name.
fn are_run_files_distinct(names: &RunNames<'_>) -> bool
    ensures { result ≡ are_distinct (run_files (run_view names.now)) }
{
    if is_no_eval(names.eval) {
        are_distinct(&[names.circuit, names.cipher, names.output])
    } else {
        are_distinct(&[names.circuit, names.eval, names.cipher, names.output])
    }
}

fn decrypt_of(words: &[String]) -> Request<'_>
    ensures { request_view result ≡ decrypt_of (map string_bytes words.now) }
{
    let [secret, output] = words else {
        return Request::Faulty;
    };
    let names = DecryptNames {
        secret: secret.as_str(),
        output: output.as_str(),
    };
    if are_distinct(&[names.secret, names.output]) {
        Request::Decrypt(names)
    } else {
        Request::Faulty
    }
}
