// A whole script, from standard input to standard output.
use crate::session::Session;
use crate::step::{ParseError, Step, parse};
use std::io;
use std::io::{BufRead, BufReader, Write};

// The line without its end, which may be missing at the end of the input.
fn without_end(line: &[u8]) -> &[u8] {
    match line {
        [text @ .., b'\r', b'\n'] => text,
        [text @ .., b'\n'] => text,
        _ => line,
    }
}

// Prints the line again, behind a mark.
fn echo(rt: &HostRuntime, mark: &[u8], line: &[u8]) -> io::Result<()> {
    let mut out = rt.stdout();
    out.write_all(mark)?;
    out.write_all(line)?;
    out.write_all(b"\n")
}

fn run(rt: &HostRuntime, session: &mut Session, line: &[u8]) -> io::Result<()> {
    let heap = rt.alloc();
    match parse(heap, line) {
        Ok(Step::Blank) => Ok(()),
        Ok(Step::Comment) => echo(rt, b"", line),
        Ok(step) => {
            echo(rt, b"> ", line)?;
            let text = session.perform(heap, step)?;
            rt.stdout().write_all(text.as_bytes())
        }
        Err(ParseError::Fault(fault)) => {
            echo(rt, b"> ", line)?;
            println!(rt; "error: {fault}")
        }
        Err(ParseError::OutOfMemory(error)) => Err(error.into()),
    }
}

// Reads line after line until the input ends; nothing on it ends the script early.
pub fn drive(rt: &HostRuntime) -> io::Result<()> {
    let heap = rt.alloc();
    let mut input = BufReader::new(heap, rt.stdin())?;
    let mut session = Session::new();
    // Counted, since every loop has to end; and by `read_until` and not by `split`, since only a line's end tells `\r\n` from a `\r` at the end of the input.
    for _ in 0..u64::MAX {
        let mut line = Vec::new(heap);
        if input.read_until(b'\n', &mut line)? == 0 {
            break;
        }
        run(rt, &mut session, without_end(line.as_slice()))?;
    }
    Ok(())
}
