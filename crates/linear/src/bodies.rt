// Reading an atom from the bytes of its body.
ghost use Rattle.std.specs.Prelude.{◌≡◌, ◌+◌, ◌*◌, ◌<◌, ◌≤◌, true, false, length, MatchOption, ◌==◌};
ghost use Rattle.fixedvec.specs.Items.{items_of};
ghost use Rattle.calculus.specs.Limits.{sized, most_measures};
ghost use Rattle.rows.specs.Bounds.{most_size};
ghost use Rattle.rows.specs.Bodies.{byte_at, word_at, relation_of, entry_at, entries_in, row_in, follows as may_follow, in_order, proper_row};
ghost use Rattle.linear.specs.Views.{row};

use crate::atoms::Atom;
use crate::bounds::MOST_SIZE;
use crate::entries::Entries;
use rows::{Entry, Relation};

pub fn within_size(x: i32) -> bool
    ensures { result ≡ sized most_size x }
{
    (-MOST_SIZE..=MOST_SIZE).contains(&x)
}

// The signed number of the four bytes from a place on.
pub fn word(bytes: &[u8], place: usize) -> i32
    requires { place + 3 < length bytes.now }
    ensures { result ≡ word_at bytes.now place }
{
    numerals::signed_word(
        bytes[place],
        bytes[place + 1],
        bytes[place + 2],
        bytes[place + 3],
    )
}

// Whether the body is as long as its count of entries says.
pub fn well_long(body: &[u8]) -> bool
    ensures { result ≡ (length body.now == 6 + 5 * byte_at body.now 1) }
{
    matches!(body, [_, count, ..] if body.len() == 6 + 5 * usize::from(*count))
}

// The entry of a chunk of five bytes.
fn entry(chunk: &[u8; 5]) -> Entry
    ensures measure { result.measure ≡ byte_at chunk.now 0 }
    ensures coefficient { result.coefficient ≡ word_at chunk.now 1 }
{
    let [measure, a, b, c, d] = *chunk;
    Entry {
        measure,
        coefficient: numerals::signed_word(a, b, c, d),
    }
}

// Whether an entry may follow one on the measure `last`.
fn follows(e: &Entry, last: u8, measures: u8) -> bool
    ensures { result ≡ may_follow measures last e.now }
{
    last < e.measure && e.measure <= measures && within_size(e.coefficient) && e.coefficient != 0
}

// The entries, if each may follow the one before it.
fn entries(body: &[u8], count: u8, measures: u8) -> Option<Entries>
    requires long { length body.now ≡ 6 + 5 * count }
    requires few { measures ≤ most_measures }
    ensures { MatchOption result (in_order measures 0 (entries_in body.now count) ≡ false) (λ es. (in_order measures 0 (entries_in body.now count) ≡ true) × (items_of es.items ≡ entries_in body.now count)) }
{
    let mut entries = Entries::default();
    let mut last = 0;
    let (chunks, _) = body[2..].as_chunks::<5>();
    for chunk in chunks {
        let e = entry(chunk);
        if !follows(&e, last, measures) {
            return None;
        }
        entries.push(e);
        last = e.measure;
    }
    Some(entries)
}

// The atom of a body of the right length, if its row is one that is taken.
pub fn read(body: &[u8], relation: Relation, measures: u8) -> Option<Atom>
    requires long { length body.now ≡ 6 + 5 * byte_at body.now 1 }
    requires related { relation ≡ relation_of (byte_at body.now 0) }
    requires few { measures ≤ most_measures }
    ensures { MatchOption result (proper_row measures (row_in body.now) ≡ false) (λ a. (proper_row measures (row_in body.now) ≡ true) × (row a ≡ row_in body.now)) }
{
    let count = body[1];
    let constant = word(body, 2 + 5 * usize::from(count));
    if !within_size(constant) {
        return None;
    }
    let entries = entries(body, count, measures)?;
    Some(Atom {
        relation,
        mentioned: entries.mentioned(),
        constant,
        entries,
    })
}
