// Tries the whole check on worked cases, and prints each case with the report that is expected and the one that was got.
#![tactic(auto)]

mod limits;
mod making;
mod trials;

use checker::{LEAST_BUFFER, check};
use making::File;
use std::alloc::Global;
use std::{fmt, io};
use trials::Trial;

// The byte that fills a buffer before the check; behind the report it must still be there.
const FILL: u8 = 0xa5;

// The lines of a report on one line, with a bar between them.
#[derive(Drop)]
struct Lines<'a>(&'a [u8]);

impl fmt::Display for Lines<'_> {
    fn fmt<W: fmt::Write>(&self, f: &mut fmt::Formatter<W>) -> fmt::Result {
        for (i, line) in self.0.split(|b| *b == b'\n').enumerate() {
            if i > 0 && !line.is_empty() {
                write!(f, " | ")?;
            }
            for b in line {
                write!(f, "{}", char::from(*b))?;
            }
        }
        Ok(())
    }
}

// How many cases were tried, and how many had the report that was expected.
#[derive(Drop)]
struct Tally<'a> {
    rt: &'a HostRuntime,
    tried: usize,
    right: usize,
}

impl Tally<'_> {
    fn heap(&self) -> Global {
        self.rt.alloc()
    }

    // Checks a case, and compares the buffer with what is expected: the report, and behind it what was there.
    fn expect(
        &mut self,
        name: &str,
        theory: u8,
        case: &[u8],
        log: &[u8],
        expected: &[u8],
    ) -> io::Result<()> {
        let mut report = [FILL; LEAST_BUFFER];
        let n = check(theory, case, log, &mut report);
        let (got, rest) = report.split_at(n);
        self.count(name, expected, got, rest.iter().all(|b| *b == FILL))
    }

    // A line for the case, for what is expected, and for what was got.
    fn count(
        &mut self,
        name: &str,
        expected: &[u8],
        got: &[u8],
        is_rest_kept: bool,
    ) -> io::Result<()> {
        self.tried = self.tried.saturating_add(1);
        println!(self.rt; "{name}")?;
        println!(self.rt; "  expected {}", Lines(expected))?;
        println!(self.rt; "  got      {}", Lines(got))?;
        if expected == got && is_rest_kept {
            self.right = self.right.saturating_add(1);
        } else {
            println!(self.rt; "  WRONG")?;
        }
        Ok(())
    }

    fn try_table(&mut self, table: &[Trial]) -> io::Result<()> {
        for trial in table {
            self.try_one(trial)?;
        }
        Ok(())
    }

    fn try_one(&mut self, trial: &Trial) -> io::Result<()> {
        let case = File::of(self.heap(), trial.case)?;
        let log = File::of(self.heap(), trial.log)?;
        self.expect(
            trial.name,
            trial.theory,
            case.bytes(),
            log.bytes(),
            trial.report,
        )
    }
}

fn main(rt: HostRuntime) -> io::Result<()> {
    let mut tally = Tally {
        rt: &rt,
        tried: 0,
        right: 0,
    };
    trials::try_all(&mut tally)?;
    limits::try_all(&mut tally)?;
    println!(rt; "{} cases, {} as expected", tally.tried, tally.right)
}
