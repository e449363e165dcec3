// The sixteen calls, and how a record writes one.
ghost use Rattle.std.specs.Prelude.{◌≡◌, length, ◌==◌};
ghost use Rattle.std.specs.List.{slice_get};
ghost use Rattle.files.specs.Decoding.{case_call, log_call, call_of};
ghost use Rattle.files.specs.Views.{copied, copied_count, in_file, literals, viewed};

use crate::records::{FileKind, Record};
use faults::{FileFault, InputCause};
use numerals::{signed_byte, signed_word, unsigned_word};

// A part of a file that holds one literal in each byte.
#[derive(Clone, Copy)]
pub struct Literals<'a> {
    bytes: &'a [u8],
}

impl Literals<'_> {
    pub fn len(&self) -> usize
        ensures { result ≡ length (literals self.now) }
    {
        self.bytes.len()
    }

    pub fn is_empty(&self) -> bool
        ensures { result ≡ (length (literals self.now) == 0) }
    {
        self.bytes.is_empty()
    }

    // The literal at a place from 0, if there is one.
    pub fn get(&self, i: usize) -> Option<i8>
        ensures { result ≡ slice_get (literals self.now) i }
    {
        self.bytes.get(i).map(|b| signed_byte(*b))
    }

    // Writes the literals to the front of `out`, and says how many: none is written where they do not all fit. The buffer
    // is lent, since bytes become signed bytes by a copy alone; a zip over its places would say no more than the count.
    pub fn copy_to(&self, out: &mut [i8]) -> Option<usize>
        ensures count { result ≡ copied_count (literals self.now) out.old }
        ensures after { out.new ≡ copied (literals self.now) out.old }
    {
        let n = self.len();
        if n > out.len() {
            return None;
        }
        for (i, b) in self.bytes.iter().enumerate() {
            out[i] = signed_byte(*b);
        }
        Some(n)
    }
}

// A call with its arguments as they are written: none is in range yet. Bodies and hints are parts of the file.
#[derive(Clone, Copy)]
pub enum Call<'a> {
    Counts {
        switches: u8,
        measures: u8,
    },
    Declare(&'a [u8]),
    Admit(&'a [u8]),
    Rule(Literals<'a>),
    Seal(u32),
    Lemma {
        literals: Literals<'a>,
        hint: &'a [u8],
    },
    Choose(i8),
    Set {
        measure: u8,
        numerator: i32,
    },
    Propagate {
        clause: u8,
        literal: i8,
    },
    Read(u8),
    Conflict(u8),
    Resolve(u8),
    Jump(i8),
    Concede,
    Claim,
    Abandon,
}

fn case_call<'a>(kind: u8, body: &'a [u8]) -> Result<Call<'a>, FileFault>
    ensures { viewed result ≡ in_file (case_call kind body.now) }
{
    match (kind, body) {
        (1, [switches, measures]) => Ok(Call::Counts {
            switches: *switches,
            measures: *measures,
        }),
        (1, _) => Err(FileFault::Input(InputCause::WrongLength)),
        (2, _) => Ok(Call::Declare(body)),
        (3, _) => Ok(Call::Admit(body)),
        (4, _) => Ok(Call::Rule(Literals { bytes: body })),
        _ => Err(FileFault::Input(InputCause::UnknownKind)),
    }
}

fn log_call<'a>(kind: u8, body: &'a [u8]) -> Result<Call<'a>, FileFault>
    ensures { viewed result ≡ in_file (log_call kind body.now) }
{
    match (kind, body) {
        (3, _) => Ok(Call::Admit(body)),
        (10, [a, b, c, d]) => Ok(Call::Seal(unsigned_word(*a, *b, *c, *d))),
        (11, [n, more @ ..]) if usize::from(*n) <= more.len() => {
            let (bytes, hint) = more.split_at(usize::from(*n));
            Ok(Call::Lemma {
                literals: Literals { bytes },
                hint,
            })
        }
        (12, [literal]) => Ok(Call::Choose(signed_byte(*literal))),
        (13, [measure, a, b, c, d]) => {
            Ok(Call::Set {
                measure: *measure,
                numerator: signed_word(*a, *b, *c, *d),
            })
        }
        (14, [clause, literal]) => Ok(Call::Propagate {
            clause: *clause,
            literal: signed_byte(*literal),
        }),
        (15, [number]) => Ok(Call::Read(*number)),
        (16, [clause]) => Ok(Call::Conflict(*clause)),
        (17, [number]) => Ok(Call::Resolve(*number)),
        (18, [literal]) => Ok(Call::Jump(signed_byte(*literal))),
        (19, []) => Ok(Call::Concede),
        (20, []) => Ok(Call::Claim),
        (21, []) => Ok(Call::Abandon),
        (10..=21, _) => Err(FileFault::Input(InputCause::WrongLength)),
        _ => Err(FileFault::Input(InputCause::UnknownKind)),
    }
}

impl<'a> Record<'a> {
    // The call that this record of the given file writes.
    pub fn call(&self, file: FileKind) -> Result<Call<'a>, FileFault>
        ensures { viewed result ≡ in_file (call_of file self.now.kind self.now.body.now) }
    {
        match file {
            FileKind::Case => case_call(self.kind, self.body),
            FileKind::Log => log_call(self.kind, self.body),
        }
    }
}
