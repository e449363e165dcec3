// The whole check: a case and its log in, a report out.
#![tactic(auto)]

ghost use Rattle.std.specs.Prelude.{◌≡◌, take};
ghost use Rattle.files.specs.Frames.{framed};
ghost use Rattle.report.specs.Buffers.{Written};
ghost use Rattle.report.specs.Views.{outcome_of};
ghost use Rattle.checker.specs.Reports.{outcome_by, refused_with, report_by, report_of_frame};
ghost use Rattle.checker.specs.Truth.{Truthful, TruthfulOf};
ghost use Rattle.checker.specs.Worked.{WorkedCasesStand};
ghost use Rattle.checker.specs.Solutions.{SolutionsStand};
ghost use Rattle.checker.specs.Untrue.{UntrueRefuted};

use faults::{FileFault, InputCause};
use files::{Frame, Stop};
use piles::CongruentLinear;
pub use report::LEAST_BUFFER;
use report::Outcome;
use switches::Switches;

// A refusal before any file is read.
fn refused(fault: FileFault) -> Outcome
    ensures { outcome_of result ≡ refused_with fault }
{
    Outcome::Refused {
        file: 0,
        stop: Stop {
            number: 0,
            byte: 0,
            fault,
        },
    }
}

// What the check comes to, over the theory of this number.
fn outcome(theory: u8, case: &[u8], log: &[u8]) -> Outcome
    ensures { outcome_of result ≡ outcome_by theory case.now log.now }
{
    match theory {
        1 => driver::check::<Switches>(case, log),
        2 => driver::check::<CongruentLinear>(case, log),
        _ => refused(FileFault::Input(InputCause::OutOfRange)),
    }
}

// Checks a case and its log over the theory of this number, and writes the report to the front of the buffer. The answer
// is its length, or 0 where the buffer is too short: then nothing is checked, and nothing written.
pub fn check(theory: u8, case: &[u8], log: &[u8], report: &mut [u8]) -> usize
    ensures written { Written (report_by theory case.now log.now) report.old result report.new }
    ensures truthful { Truthful theory case.now (take result report.new) }
{
    if report.len() < LEAST_BUFFER {
        return 0;
    }
    outcome(theory, case, log).write(report)
}

// The same of an input that holds the number of the theory, the case and the log in one frame.
pub fn check_frame(input: &[u8], report: &mut [u8]) -> usize
    ensures written { Written (report_of_frame input.now) report.old result report.new }
    ensures truthful { TruthfulOf (framed input.now) (take result report.new) }
{
    match Frame::of(input) {
        Ok(frame) => check(frame.theory, frame.case, frame.log, report),
        Err(fault) => refused(fault).write(report),
    }
}

// The worked cases have the reports that their table says.
pub fn worked_cases_stand()
    ensures { WorkedCasesStand }
{}

// Which arrangements solve three small cases, and which do not.
pub fn solutions_stand()
    ensures { SolutionsStand }
{}

// Some reports are not true of their cases.
pub fn untrue_reports_refuted()
    ensures { UntrueRefuted }
{}
