//! Reads a session line by line from standard input, and answers each line on standard output.
#![tactic(auto)]

mod command;
mod desk;
mod desks;
mod misread;
mod palette;
mod parsing;
mod reply;
mod session;
mod style;

use command::Command;
use misread::Misread;
use reply::Reply;
use session::Session;
use std::io;
use std::io::{BufRead, BufReader, BufWriter, Write};

/// The line without the carriage return that may end it.
fn trimmed(line: &[u8]) -> &[u8] {
    line.strip_suffix(b"\r").unwrap_or(line)
}

/// Whether a line has no word in it or is a comment.
fn is_passed_over(line: &[u8]) -> bool {
    line.trim_ascii().is_empty() || line.starts_with(b"#")
}

/// Carries out what a line asks.
fn answer<'s>(session: &'s mut Session, line: &[u8]) -> Result<Reply<'s>, Misread> {
    let text = std::str::from_utf8(line).map_err(|_| Misread::NotText)?;
    session.carry_out(text.parse::<Command>()?)
}

/// Writes a line with its answer, at once.
fn respond<W: Write>(session: &mut Session, line: &[u8], output: &mut W) -> io::Result<()> {
    output.write_all(line)?;
    match answer(session, line) {
        Ok(reply) => writeln!(output, " -> {reply}")?,
        Err(misread) => writeln!(output, " -> not understood: {misread}")?,
    }
    output.flush()
}

/// Answers each line of the input.
fn run(rt: &HostRuntime) -> io::Result<()> {
    let mut session = Session::new(rt.alloc());
    let mut output = BufWriter::new(rt.alloc(), rt.stdout())?;
    for part in BufReader::new(rt.alloc(), rt.stdin())?.split(rt.alloc(), b'\n') {
        let part = part?;
        let line = trimmed(part.as_slice());
        if !is_passed_over(line) {
            respond(&mut session, line, &mut output)?;
        }
    }
    Ok(())
}

fn main(rt: HostRuntime) -> io::Result<()> {
    run(&rt)
}
