// The check, for a host that is written in C. A slice is passed as a pointer and a length.
#![tactic(auto)]

ghost use Rattle.std.specs.Prelude.{take};
ghost use Rattle.report.specs.Buffers.{Written};
ghost use Rattle.checker.specs.Reports.{report_by};
ghost use Rattle.checker.specs.Truth.{Truthful};

// Checks a case and its log over the theory of this number, and writes the report to the front of the buffer. The answer
// is its length, or 0 where the buffer is too short: then nothing is written.
#[unsafe(no_mangle)]
pub extern "C" fn check(theory: u8, case: &[u8], log: &[u8], report: &mut [u8]) -> usize
    ensures written { Written (report_by theory case.now log.now) report.old result report.new }
    ensures truthful { Truthful theory case.now (take result report.new) }
{
    checker::check(theory, case, log, report)
}
