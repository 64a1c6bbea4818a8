// Reads records from standard input and prints their listing. No contract can say what standard input and output
// carry: `print_listing` takes any reader and any writer, and is proved to write the paper's listing of the reader's
// bytes where these are known.
#![tactic(auto)]

ghost use Rattle.std.specs.Prelude.{◌≤◌, length, IfOk};
ghost use Rattle.rays.specs.Inputs.{ReadsFront, Printed};

use std::fmt;
use std::io::{self, Read, Write};
use std::process::ExitCode;

// Which stream failed, and why.
#[derive(Clone, Copy)]
enum Failure {
    Input(io::Error),
    Output(io::Error),
}

impl fmt::Display for Failure {
    fn fmt<W: fmt::Write>(&self, f: &mut fmt::Formatter<W>) -> fmt::Result {
        match self {
            Failure::Input(error) => write!(f, "standard input: {error}"),
            Failure::Output(error) => write!(f, "standard output: {error}"),
        }
    }
}

// Reads until the buffer is full or the input ends, and answers how many bytes were read. (std's read_exact takes a
// full buffer alone, and read_to_end a Vec.)
fn read_input<R: Read>(reader: &mut R, buffer: &mut [u8]) -> io::Result<usize>
    ensures within { IfOk result (λ n. n ≤ length buffer.new) }
    ensures front { IfOk result (λ n. ReadsFront n (R.remaining reader.old) (R.remaining reader.new) buffer.new) }
{
    let mut end = 0;
    while end < buffer.len() {
        let more = reader.read(&mut buffer[end..])?;
        if more == 0 {
            return Ok(end);
        }
        end += more;
    }
    Ok(end)
}

// Reads the input and writes its listing.
fn print_listing<R: Read, W: Write>(reader: &mut R, writer: &mut W) -> Result<(), Failure>
    ensures { Printed result (R.remaining reader.old) (W.contents writer.old) (W.contents writer.new) }
{
    let mut input = [0u8; listing::LIMIT];
    let read = read_input(reader, &mut input).map_err(Failure::Input)?;
    let mut text = [0u8; listing::LONGEST];
    let written = listing::list(&input[..read], &mut text);
    writer.write_all(&text[..written]).map_err(Failure::Output)?;
    Ok(())
}

fn main(rt: HostRuntime) -> ExitCode {
    match print_listing(&mut rt.stdin(), &mut rt.stdout()) {
        Ok(()) => ExitCode::SUCCESS,
        Err(failure) => {
            let _ = eprintln!(rt; "rays: {failure}");
            ExitCode::FAILURE
        }
    }
}
