//! nexrepo: a repository server.
//!
//! The program is one call, `run`: it takes the words of the command line, a source, a sink, a disk, a keeper of rows and the
//! moments of its clock, and hands the devices back with the status and the journal. `main` makes the devices, calls it, prints
//! the lines of its end and ends with its number.
//!
//! - `words` reads the command line;
//! - `opening` reads the configuration from the disk, and opens the folder;
//! - `run` serves a session over the repository of the folder, and its contract says what is written of what is read, and what
//!   stands on the devices behind it;
//! - `devices` makes the disk and the table, which are in memory so far;
//! - `at_end` says what the program prints when it ends, and with which number it ends.
#![tactic(auto)]

ghost use Rattle.std.specs.Prelude.{◌≡◌};
ghost use Rattle.std.specs.Process.{exit_status};
ghost use Rattle.nexrepo.specs.Statuses.{status_number};

mod at_end;
mod devices;
mod opening;
mod run;
mod status;
#[cfg(test)]
mod tests;
mod words;

use crate::at_end::lines_at_end;
use crate::devices::{CONFIG, disk_with, empty_table};
use crate::run::run;
use crate::status::Status;
use nx_base::Moment;
use nx_io::{RealSink, RealSource};
use std::io::IsTerminal;
use std::process::ExitCode;
use std::random::RandomSource;
use std::time::{SystemTime, UNIX_EPOCH};
use std::{env, io};

/// Milliseconds since 1970. A clock that can't be read, or that stands before 1970, says 0.
fn now(rt: &HostRuntime) -> u64 {
    let Ok(time) = SystemTime::now(rt) else {
        return 0;
    };
    match time.duration_since(UNIX_EPOCH) {
        Ok(passed) => passed
            .as_secs()
            .saturating_mul(1000)
            .saturating_add(u64::from(passed.subsec_millis())),
        Err(_) => 0,
    }
}

/// The moment of this run, with a random word. A source of random bytes that can't be read gives zeros.
fn moment(rt: &HostRuntime) -> Moment {
    let mut random = [0; 10];
    if rt.fill_bytes(&mut random).is_err() {
        random = [0; 10];
    }
    Moment {
        now: now(rt),
        random,
    }
}

/// The words behind the program's name. Words that aren't UTF-8 are none.
fn words_of(rt: &HostRuntime) -> io::Result<Vec<String>> {
    let mut words = Vec::new(rt.alloc());
    for word in env::args(rt)?.skip(1) {
        words.push(word)?;
    }
    Ok(words)
}

fn main(rt: HostRuntime) -> ExitCode {
    let words = match words_of(&rt) {
        Ok(words) => words,
        Err(e) if e.kind() == io::ErrorKind::OutOfMemory => return end(&rt, &Status::NoMemory),
        Err(_) => return end(&rt, &Status::Usage),
    };
    let alloc = rt.alloc();
    let Ok(disk) = disk_with(alloc, CONFIG, Vec::new(alloc)) else {
        return end(&rt, &Status::NoMemory);
    };
    let Ok(table) = empty_table(alloc, Vec::new(alloc)) else {
        return end(&rt, &Status::NoMemory);
    };
    let moments = [moment(&rt)];
    let mut input = RealSource::new(rt.stdin());
    let mut output = RealSink::new(rt.stdout());
    let ran = run(
        alloc,
        &words,
        &mut input,
        &mut output,
        disk,
        table,
        &moments,
    );
    end(&rt, &ran.status)
}

/// Prints the lines of a status on standard error, and gives its number, also where they can't be printed.
fn end(rt: &HostRuntime, status: &Status) -> ExitCode
    ensures { exit_status result ≡ status_number status.now }
{
    let (lines, number) = lines_at_end(status, rt.stderr().is_terminal());
    let _printed = eprint!(rt;
        "{}{}{}{}{}{}",
        lines.prefix, lines.name, lines.blank, lines.detail, lines.line_end, lines.hint
    );
    ExitCode::from(number)
}
