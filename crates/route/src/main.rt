// Routes the ticket on standard input, and prints its answer. It ends with status 0 where the answer was printed, also where that is
// a refusal, with 1 where it could not read or print, and with 2 for an argument that it does not know.
#![tactic(auto)]

use anyhow::{Context, anyhow};
use listing::{MOST_ANSWER, answer_on_stack};
use std::env::{Env, FillError};
use std::io;
use std::io::{IsTerminal, Read, Write};
use std::process::ExitCode;
use ticket::MOST_BYTES;

// More bytes than any argument that is known has.
const ARGUMENT_BYTES: usize = 16;

// The status for an argument that is not known.
const USAGE_STATUS: u8 = 2;

// The file VERSION has the number.
const VERSION: &str = "route 1.0.0\n";

const USAGE: &str = "route: usage: route < TICKET, with no argument but --help or --version";

const HINT: &str =
    "route: reading a ticket from the terminal; end it by Ctrl-D on a line of its own";

const HELP: &str = "Routes the ticket on standard input, and prints its answer.

usage: route < TICKET
       route --help
       route --version

The answer is a line for each leg, with its number, its ends, its cost and the
codes of its chain, or none, and then (end). Where the ticket is refused it is
one line, (refused LAYER NUMBER PART BYTE).

Status: 0 where the answer was printed, also where the ticket was refused; 1
where the ticket could not be read or the answer not be printed, which standard
error tells; 2 for any other argument.
";

// What the arguments ask for.
enum Request {
    Answer,
    Help,
    Version,
    Unknown,
}

// An argument is taken as bytes, so one that is no text is unknown like any other.
fn requested(rt: &HostRuntime) -> Request {
    let mut argument = [0; ARGUMENT_BYTES];
    let length = match rt.arg(1, &mut argument) {
        Ok(length) => length,
        Err(FillError::NotPresent) => return Request::Answer,
        Err(FillError::TooLong) => return Request::Unknown,
    };
    match (rt.arg(2, &mut []), &argument[..length]) {
        (Err(FillError::NotPresent), b"--help") => Request::Help,
        (Err(FillError::NotPresent), b"--version") => Request::Version,
        _ => Request::Unknown,
    }
}

// What is on standard input, but no more of it than one byte over what a ticket may have.
fn read_ticket(rt: &HostRuntime) -> io::Result<Vec<u8>> {
    let mut text = Vec::new(rt.alloc());
    rt.stdin()
        .take(MOST_BYTES as u64 + 1)
        .read_to_end(&mut text)?;
    Ok(text)
}

fn print_answer(rt: &HostRuntime) -> anyhow::Result<()> {
    if rt.stdin().is_terminal() {
        // The ticket is read whether or not the hint could be printed.
        let _ = rt.eprintln(HINT);
    }
    let text = read_ticket(rt).context("cannot read the ticket")?;
    let mut place = vec![in rt.alloc(); 0; MOST_ANSWER].context("cannot hold the answer")?;
    let answer = answer_on_stack(text.as_slice(), place.as_mut_slice());
    let length = answer.text.map_err(|_| anyhow!("the answer is too long"))?;
    place.truncate(length);
    rt.stdout()
        .write_all(place.as_slice())
        .context("cannot print the answer")
}

fn run(rt: &HostRuntime) -> anyhow::Result<ExitCode> {
    match requested(rt) {
        Request::Answer => print_answer(rt)?,
        Request::Help => rt
            .stdout()
            .write_all(HELP.as_bytes())
            .context("cannot print the help")?,
        Request::Version => rt
            .stdout()
            .write_all(VERSION.as_bytes())
            .context("cannot print the version")?,
        Request::Unknown => {
            // The status tells it too.
            let _ = rt.eprintln(USAGE);
            return Ok(ExitCode::from(USAGE_STATUS));
        }
    }
    Ok(ExitCode::SUCCESS)
}

fn main(rt: HostRuntime) -> ExitCode {
    match run(&rt) {
        Ok(status) => status,
        Err(error) => {
            // The status tells it too.
            let _ = rt.eprintln(format_args!("route: {error:#}"));
            ExitCode::FAILURE
        }
    }
}
