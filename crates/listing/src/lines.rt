// The lines of a listing.
ghost use Rattle.std.specs.Prelude.{Some};
ghost use Rattle.std.specs.Option.{option_map_or};
ghost use Rattle.files.specs.Records.{file_number};
ghost use Rattle.listing.specs.Texts.{refusal_text};

use files::{Call, FileKind, Literals, Stop};
use std::fmt;

// A record that is a call.
#[derive(Drop)]
pub struct Line<'a> {
    pub kind: FileKind,
    pub number: usize,
    pub start: usize,
    pub call: Call<'a>,
}

// Where and why reading stopped: in one of the files, or else in the frame.
#[derive(Drop)]
pub struct Refusal {
    pub file: Option<FileKind>,
    pub stop: Stop,
}

// Bytes in hexadecimal, each with a blank before it.
#[derive(Drop)]
struct Hex<'a>(&'a [u8]);

// Literals in decimal, each with a blank before it.
#[derive(Drop)]
struct Decimal<'a>(Literals<'a>);

// A call by its name and its arguments.
#[derive(Drop)]
struct Words<'a>(Call<'a>);

impl fmt::Display for Hex<'_> {
    fn fmt<W: fmt::Write>(&self, f: &mut fmt::Formatter<W>) -> fmt::Result {
        for b in self.0 {
            write!(f, " {b:02x}")?;
        }
        Ok(())
    }
}

impl fmt::Display for Decimal<'_> {
    fn fmt<W: fmt::Write>(&self, f: &mut fmt::Formatter<W>) -> fmt::Result {
        // An iterator for the literals of a part of a file would be longer than this loop.
        for i in 0..self.0.len() {
            if let Some(literal) = self.0.get(i) {
                write!(f, " {literal}")?;
            }
        }
        Ok(())
    }
}

impl fmt::Display for Words<'_> {
    fn fmt<W: fmt::Write>(&self, f: &mut fmt::Formatter<W>) -> fmt::Result {
        match self.0 {
            Call::Counts { switches, measures } => write!(
                f,
                "counts switches {switches} measures {measures}"
            ),
            Call::Declare(body) => write!(f, "declare body{}", Hex(body)),
            Call::Admit(body) => write!(f, "admit body{}", Hex(body)),
            Call::Rule(literals) => write!(f, "rule literals{}", Decimal(literals)),
            Call::Seal(denominator) => write!(f, "seal denominator {denominator}"),
            Call::Lemma { literals, hint } => write!(
                f,
                "lemma literals{} hint{}",
                Decimal(literals),
                Hex(hint)
            ),
            Call::Choose(literal) => write!(f, "choose literal {literal}"),
            Call::Set { measure, numerator } => write!(
                f,
                "set measure {measure} numerator {numerator}"
            ),
            Call::Propagate { clause, literal } => write!(
                f,
                "propagate clause {clause} literal {literal}"
            ),
            Call::Read(number) => write!(f, "read number {number}"),
            Call::Conflict(clause) => write!(f, "conflict clause {clause}"),
            Call::Resolve(number) => write!(f, "resolve number {number}"),
            Call::Jump(literal) => write!(f, "jump literal {literal}"),
            Call::Concede => write!(f, "concede"),
            Call::Claim => write!(f, "claim"),
            Call::Abandon => write!(f, "abandon"),
        }
    }
}

impl fmt::Display for Line<'_> {
    fn fmt<W: fmt::Write>(&self, f: &mut fmt::Formatter<W>) -> fmt::Result {
        let file = self.kind.number();
        let number = self.number;
        let start = self.start;
        write!(
            f,
            "file {file} record {number} byte {start}: {}",
            Words(self.call)
        )
    }
}

// The text is that of the report's line, which goes to a buffer of bytes, and this to a stream.
impl fmt::Display for Refusal {
    ghost output = { λ x. Some (refusal_text (option_map_or file_number x.file 0) x.stop) };

    fn fmt<W: fmt::Write>(&self, f: &mut fmt::Formatter<W>) -> fmt::Result {
        let code = self.stop.fault.code();
        let cause = code.cause;
        let layer = code.layer;
        let file = self.file.map_or(0, FileKind::number);
        let number = self.stop.number;
        let byte = self.stop.byte;
        write!(
            f,
            "refused {cause} file {file} record {number} byte {byte} layer {layer}"
        )
    }
}
