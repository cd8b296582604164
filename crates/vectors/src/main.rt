//! Runs vectors through the box's hashes, codes and ciphers: a line of standard input names a function and its arguments, a
//! line of standard output is its result. `tools/make_vectors.py` writes the lines and, from other implementations, the
//! results.
#![tactic(auto)]

use std::io::{BufRead, BufReader, BufWriter, Write};

mod message;
mod outcome;
mod vector;

use outcome::Failure;

fn main(rt: HostRuntime) -> anyhow::Result<()> {
    let heap = rt.alloc();
    let mut output = BufWriter::new(heap, rt.stdout())?;
    for line in BufReader::new(heap, rt.stdin())?.lines(heap) {
        match vector::run(heap, line?.as_bytes()) {
            Ok(outcome) => writeln!(output, "{outcome}")?,
            Err(Failure::Memory(error)) => return Err(error.into()),
            Err(failure) => writeln!(output, "{failure}")?,
        }
    }
    output.flush()?;
    Ok(())
}
