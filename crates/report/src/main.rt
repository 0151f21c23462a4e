// The report: a station log on standard input, its report on standard output; for an argument, an input that cannot be read to its end and an output
// that takes no more, a line on standard error.
#![tactic(auto)]

ghost use Rattle.std.specs.Prelude.{IfOk};
ghost use Rattle.io.specs.Counts.{IsPrefixLen};

use std::env::{Env, FillError};
use std::io;
use std::io::{Eprint, Print, Read};

// Reads standard input to its end, or as far as there is room, and says how many bytes it read. By hand: `read_exact` says no length where the input ends
// before the room does, and `read_to_end` takes a `Vec`. A read that failed is not tried again: a connection that was reset fails once, and
// from then on looks as if it had ended.
fn read_input(rt: HostRuntime, log: &mut [u8]) -> io::Result<usize>
    ensures { IfOk result (λ size. IsPrefixLen size log.new) }
{
    let mut stdin = rt.stdin();
    let mut size = 0;
    while size < log.len() {
        match stdin.read(&mut log[size..])? {
            0 => break,
            more => size += more,
        }
    }
    Ok(size)
}

// Prints the report of a log.
fn print(rt: HostRuntime, log: &[u8]) {
    let mut answers = [0u8; text::LONGEST_ANSWERS];
    let mut text = [0u8; text::LONGEST_REPORT];
    let size = text::whole_report(log, &mut answers, &mut text);
    if rt.stdout().write_all(&text[..size]).is_err() {
        let _ = rt.eprintln("report: standard output takes no more");
    }
}

fn main(rt: HostRuntime) {
    if !matches!(rt.arg(1, &mut [0u8; 1]), Err(FillError::NotPresent)) {
        let _ = rt.eprintln("usage: report < LOG");
        return;
    }
    // The longest log, and one byte more, so that a longer one is seen to be longer. Written out, since no length of an array is computed.
    let mut log = [0u8; 65_537];
    let Ok(size) = read_input(rt, &mut log) else {
        let _ = rt.eprintln("report: standard input cannot be read to its end");
        return;
    };
    print(rt, &log[..size]);
}
