// Holds what the real Xen headers gave (tests/vectors/README.md says how it was made) against the
// ring's arithmetic and the entries' layouts: each line of a fact file is a call and its answer.
// For each kind of line it prints how many held; the wanted counts are those of the files' lines.
// Then it shows each ring that the headers' macros filled, and says how many gave the wanted text.
#![tactic(auto)]

mod entry;
mod numbers;
mod ring;
mod shown;
mod tally;

use blk_base::Abi;
use entry::Pending;
use std::{fs, io};
use tally::Tally;

fn main(rt: HostRuntime) -> io::Result<()> {
    for (name, abi) in [("facts-64.txt", Abi::X64), ("facts-32.txt", Abi::X32)] {
        let text = fs::read_to_string(&rt, name)?;
        let mut tally = Tally::new();
        let mut pending = Pending::new();
        for line in text.lines() {
            let kind = line.split_whitespace().next().unwrap_or("");
            let verdict = match kind {
                "entry" | "segment" | "page" | "words" => pending.take(abi, kind, line),
                _ => ring::holds(abi, kind, line),
            };
            tally.count(kind, verdict);
            if verdict == Some(false) {
                println!(rt; "{name}: wrong: {line}")?;
            }
        }
        println!(rt; "{name}")?;
        for count in tally.counts() {
            println!(rt; "{} {}", count.kind, count.held)?;
        }
    }
    show(&rt)
}

fn show(rt: &HostRuntime) -> io::Result<()> {
    let alloc = rt.alloc();
    let mut shown = 0u64;
    for name in shown::RINGS {
        for (bits, abi) in [(64, Abi::X64), (32, Abi::X32)] {
            let bytes = fs::read(rt, format!(in alloc; "{name}-{bits}.bin")?)?;
            let text = fs::read(rt, format!(in alloc; "{name}-{bits}.txt")?)?;
            if shown::is_shown(alloc, bytes, abi, text.as_slice()) == Some(true) {
                shown = shown.saturating_add(1);
            } else {
                println!(rt; "{name}-{bits}: wrong")?;
            }
        }
    }
    println!(rt; "rings {shown}")?;
    Ok(())
}
