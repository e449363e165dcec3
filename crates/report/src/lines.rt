// The lines of a report, each written to the front of what is left of the buffer, in which there must be room for the
// longest line of its kind. That each gets the rest of the buffer, from the middle, is a rule of the project.
ghost use Rattle.std.specs.Prelude.{◌*◌, ◌<◌, ◌≤◌, length};
ghost use Rattle.calculus.specs.Limits.{most_numbers, most_measures};
ghost use Rattle.claims.specs.Views.{arrangement_of};
ghost use Rattle.report.specs.Buffers.{Wrote};
ghost use Rattle.report.specs.Lines.{possible_line, switch_line, measure_line, switch_lines, measure_lines, arrangement_lines, stop_line};

use crate::numbers::{write_bytes, write_number, write_signed, write_small};
use claims::arrangement::Arrangement;
use files::Stop;

fn write_possible(rest: &mut [u8], denominator: u32) -> usize
    requires { 30 ≤ length rest.old }
    ensures wrote { Wrote (possible_line denominator) rest.old result rest.new }
    ensures bound { result ≤ 30 }
{
    let mut at = write_bytes(rest, b"possible ");
    at += write_number(&mut rest[at..], denominator as usize);
    at += write_bytes(&mut rest[at..], b"\n");
    at
}

fn write_switch(rest: &mut [u8], number: usize, on: bool) -> usize
    requires { (number < 1000) × (9 ≤ length rest.old) }
    ensures wrote { Wrote (switch_line number on) rest.old result rest.new }
    ensures bound { result ≤ 9 }
{
    let mut at = write_bytes(rest, b"s");
    at += write_small(&mut rest[at..], number);
    at += if on {
        write_bytes(&mut rest[at..], b" yes\n")
    } else {
        write_bytes(&mut rest[at..], b" no\n")
    };
    at
}

fn write_measure(rest: &mut [u8], number: usize, numerator: i32) -> usize
    requires { (number < 1000) × (27 ≤ length rest.old) }
    ensures wrote { Wrote (measure_line number numerator) rest.old result rest.new }
    ensures bound { result ≤ 27 }
{
    let mut at = write_bytes(rest, b"m");
    at += write_small(&mut rest[at..], number);
    at += write_bytes(&mut rest[at..], b" ");
    at += write_signed(&mut rest[at..], numerator);
    at += write_bytes(&mut rest[at..], b"\n");
    at
}

// A line for each switch, in order. The loop over the measures is its like: with the line writer as a parameter the
// contract on what a closure writes to the rest of the buffer would be longer than the two loops.
fn write_switches(rest: &mut [u8], switches: &[bool]) -> usize
    requires { (length switches.now ≤ most_numbers) × (9 * length switches.now ≤ length rest.old) }
    ensures wrote { Wrote (switch_lines 1 switches.now) rest.old result rest.new }
    ensures bound { result ≤ 9 * length switches.now }
{
    let mut at = 0;
    for (i, on) in switches.iter().enumerate() {
        at += write_switch(&mut rest[at..], i + 1, *on);
    }
    at
}

// A line for each measure, in order.
fn write_measures(rest: &mut [u8], numerators: &[i32]) -> usize
    requires { (length numerators.now ≤ most_measures) × (27 * length numerators.now ≤ length rest.old) }
    ensures wrote { Wrote (measure_lines 1 numerators.now) rest.old result rest.new }
    ensures bound { result ≤ 27 * length numerators.now }
{
    let mut at = 0;
    for (i, numerator) in numerators.iter().enumerate() {
        at += write_measure(&mut rest[at..], i + 1, *numerator);
    }
    at
}

pub(crate) fn write_arrangement(rest: &mut [u8], arrangement: &Arrangement) -> usize
    requires { 1605 ≤ length rest.old }
    ensures { Wrote (arrangement_lines (arrangement_of arrangement.now)) rest.old result rest.new }
{
    let mut at = write_possible(rest, arrangement.denominator());
    at += write_switches(&mut rest[at..], arrangement.switches());
    at += write_measures(&mut rest[at..], arrangement.numerators());
    at
}

// The file is a number, as in the outcome.
pub(crate) fn write_refused(rest: &mut [u8], file: u8, stop: &Stop) -> usize
    requires { 136 ≤ length rest.old }
    ensures { Wrote (stop_line file stop.now) rest.old result rest.new }
{
    let code = stop.fault.code();
    let mut at = write_bytes(rest, b"refused ");
    at += write_number(&mut rest[at..], code.cause as usize);
    at += write_bytes(&mut rest[at..], b" file ");
    at += write_number(&mut rest[at..], file as usize);
    at += write_bytes(&mut rest[at..], b" record ");
    at += write_number(&mut rest[at..], stop.number);
    at += write_bytes(&mut rest[at..], b" byte ");
    at += write_number(&mut rest[at..], stop.byte);
    at += write_bytes(&mut rest[at..], b" layer ");
    at += write_number(&mut rest[at..], code.layer as usize);
    at += write_bytes(&mut rest[at..], b"\n");
    at
}
