//! The release box's program: reads a command file from standard input, and answers each line on standard output.
#![tactic(auto)]

use answer::line::OutputLine;
use register::rows::{Account, Office, Sheet};
use session::run::Run;
use session::setup::Setup;
use std::io;
use std::io::{BufWriter, Read, Write};

/// How many bytes are read at a time.
const CHUNK: usize = 4096;

/// Writes an output line, if there is one.
fn print(output: &mut impl Write, line: Option<OutputLine>) -> io::Result<()> {
    match line {
        Some(line) => output.write_all(line.as_bytes()),
        None => Ok(()),
    }
}

/// Has the run take these bytes, and prints what it answers.
fn feed(run: &mut Run, bytes: &[u8], output: &mut impl Write) -> io::Result<()> {
    for byte in bytes {
        print(output, run.take(*byte))?;
    }
    Ok(())
}

fn main(rt: HostRuntime) -> io::Result<()> {
    let mut accounts = [Account::default(); 16];
    let mut offices = [Office::default(); 4];
    let mut sheets = [Sheet::default(); 64];
    let mut run = Run::new(Setup::new(&mut accounts, &mut offices, &mut sheets));
    let mut input = rt.stdin();
    let mut output = BufWriter::new(rt.alloc(), rt.stdout())?;
    let mut chunk = [0u8; CHUNK];
    for _ in 0..u64::MAX {
        let count = input.read(&mut chunk)?;
        if count == 0 {
            break;
        }
        feed(&mut run, &chunk[0..count], &mut output)?;
        if run.has_ended() {
            break;
        }
    }
    print(&mut output, run.finish())?;
    output.flush()
}
