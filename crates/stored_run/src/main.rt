//! A stored run: commands over real files, the line that each one answers, and the bytes of what they wrote.
#![tactic(auto)]

use fhec_cmd::fhec;
use hex::ToHex;
use port_store::{FileStore, OutSink, read_whole};
use std::alloc::Global;

/// The command lines, one after another: a sum that is written, two that are refused, and then from keys and values to
/// values again.
const COMMANDS: [&str; 7] = [
    "run circuit - inputs output",
    "run circuit keys inputs other",
    "run inputs - circuit other",
    "keygen circuit 0000000000000000000000000000000000000000000000000000000000000000 secret -",
    "encrypt circuit secret 0000000000000000000000000000000000000000000000000000000000000000 values fresh",
    "run circuit - fresh result",
    "decrypt secret result",
];

/// The words of a command line.
fn words_of(alloc: Global, line: &str) -> anyhow::Result<Vec<String>> {
    let mut words = Vec::new(alloc);
    for word in line.split_whitespace() {
        words.push(String::from_str(alloc, word)?)?;
    }
    Ok(words)
}

fn main(rt: HostRuntime) -> anyhow::Result<()> {
    let alloc: Global = rt.alloc();
    let mut store = FileStore::new(&rt, alloc);
    let mut sink = OutSink::new(&rt, alloc);
    for command in COMMANDS {
        let words = words_of(alloc, command)?;
        let status = fhec(alloc, &words, &mut store, &mut sink);
        let line = status.line(alloc)?;
        println!(rt; "{command}: {} {line}", status.code())?;
    }
    let output = read_whole(alloc, &mut store, "output", 1 << 20)?;
    let text = output.encode_hex(alloc)?;
    println!(rt; "{text}")?;
    Ok(())
}
