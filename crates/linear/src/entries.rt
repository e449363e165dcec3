// The entries of a row, with sums and tests over them.
ghost use Rattle.std.specs.Prelude.{◌≡◌, ℕ, ◌+◌, ◌<◌, ◌≤◌, true, false, [], ◌∷◌, ◌++◌, map, length, pos, ◌+ℤ◌, ◌*ℤ◌, nat_eq, slice_index_or, unsigned_abs};
ghost use Rattle.calculus.specs.Limits.{sized, most_measures, most_numerator};
ghost use Rattle.rows.specs.Bounds.{most_size};
ghost use Rattle.calculus.specs.Lists.{every, some};
ghost use Rattle.rows.specs.Rows.{weight, coefficient_of, turned_entry};
ghost use Rattle.rows.specs.Linear.{on_both, opposite as opposite_entries, opposed as opposed_entries};
ghost use Rattle.fixedvec.specs.Items.{items_of};
ghost use Rattle.linear.specs.Sizes.{small_entries, most_sum, most_product, most_row, most_before};

use crate::bounds::MOST_ENTRIES;
use calculus::limits::value_at;
use fixedvec::FixedVec;
use rows::Entry;

// Measures are counted from 1 to 16.
pub const PLACES: usize = 17;

// A sum for each measure.
pub type Sums = [i128; PLACES];

// A flag for each measure.
pub type Flags = [bool; PLACES];

// A product of a number in its range and one of the size of a sum of coefficients.
pub fn product(a: i32, b: i32) -> i64
    requires left { unsigned_abs a ≤ most_size }
    requires right { unsigned_abs b ≤ most_sum }
    ensures value { result ≡ a *ℤ b }
    ensures small { unsigned_abs result ≤ most_product }
{
    i64::from(a) * i64::from(b)
}

// Whether one entry is on i, and the other on j.
fn on_both(e: &Entry, f: &Entry, i: u8, j: u8) -> bool
    ensures { result ≡ on_both i j e.now f.now }
{
    e.measure == i && f.measure == j || e.measure == j && f.measure == i
}

// Whether the coefficients add to 0, and are not 0. An entry is read before its size is known, so its type does not say it.
fn opposite(e: &Entry, f: &Entry) -> bool
    requires left { sized most_size e.now.coefficient ≡ true }
    requires right { sized most_size f.now.coefficient ≡ true }
    ensures { result ≡ opposite_entries e.now f.now }
{
    e.coefficient + f.coefficient == 0 && e.coefficient != 0
}

fn turned_entry(e: &Entry) -> Entry
    requires { sized most_size e.now.coefficient ≡ true }
    ensures { result ≡ turned_entry e.now }
{
    Entry {
        measure: e.measure,
        coefficient: -e.coefficient,
    }
}

// The entries of a row, with coefficients in their range.
#[derive(Clone, Copy, PartialEq)]
pub struct Entries {
    items: FixedVec<Entry, MOST_ENTRIES>,
    ghost small: { small_entries (items_of items) ≡ true },
}

// Without entries. A derive gives no value to a ghost field.
impl Default for Entries {
    ghost is_default = { λ es. items_of es.items ≡ [] };

    fn default() -> Self {
        Entries {
            items: FixedVec::new(),
        }
    }
}

impl Entries {
    pub fn as_slice(&self) -> &[Entry]
        ensures value { result.now ≡ items_of self.now.items }
        ensures few { length result.now ≤ most_measures }
        ensures small { small_entries result.now ≡ true }
    {
        self.items.as_slice()
    }

    pub fn push(&mut self, entry: Entry)
        requires room { length (items_of self.old.items) < most_measures }
        requires small { sized most_size entry.coefficient ≡ true }
        ensures { items_of self.new.items ≡ items_of self.old.items ++ entry ∷ [] }
    {
        self.items.push(entry);
    }

    // The sum of coefficient times numerator.
    pub fn weighed(&self, numerators: &[i32]) -> i64
        requires { every (sized most_numerator) numerators.now ≡ true }
        ensures { result ≡ weight (items_of self.now.items) numerators.now }
    {
        // a `for` loop: the library's `sum` of signed numbers needs a bound on every partial sum
        let entries = self.as_slice();
        let mut sum: i64 = 0;
        for e in entries {
            sum += product(e.coefficient, value_at(numerators, e.measure));
        }
        sum
    }

    // Adds each coefficient, times the factor, to the sum of its measure.
    pub fn add_to(&self, factor: i32, sums: &mut Sums)
        requires factor { unsigned_abs factor ≤ most_size }
        requires room { (j : ℕ) → j < 17 → unsigned_abs (slice_index_or sums.old j (pos 0)) ≤ most_before }
        ensures sums { (j : ℕ) → j < 17 → slice_index_or sums.new j (pos 0) ≡ slice_index_or sums.old j (pos 0) +ℤ factor *ℤ coefficient_of j (items_of self.now.items) }
        ensures small { (b : ℕ) → ((j : ℕ) → j < 17 → unsigned_abs (slice_index_or sums.old j (pos 0)) ≤ b) → (j : ℕ) → j < 17 → unsigned_abs (slice_index_or sums.new j (pos 0)) ≤ b + most_row }
    {
        let entries = self.as_slice();
        for e in entries {
            let place = usize::from(e.measure);
            if place < PLACES {
                sums[place] += i128::from(product(factor, e.coefficient));
            }
        }
    }

    // Whether an entry is on the measure.
    pub fn mentions(&self, measure: u8) -> bool
        ensures { result ≡ some (λ e. nat_eq e.measure measure) (items_of self.now.items) }
    {
        self.as_slice().iter().any(|e| e.measure == measure)
    }

    // The same for each measure that there can be, in one pass.
    pub fn mentioned(&self) -> Flags
        ensures long { length result ≡ 17 }
        ensures told { (j : ℕ) → j < 17 → slice_index_or result j false ≡ some (λ e. nat_eq e.measure j) (items_of self.now.items) }
    {
        let entries = self.as_slice();
        let mut flags = [false; PLACES];
        for e in entries {
            if usize::from(e.measure) < PLACES {
                flags[usize::from(e.measure)] = true;
            }
        }
        flags
    }

    // All signs turned. They are pushed one by one: `from_iter` wants an allocator.
    pub fn turned(&self) -> Self
        ensures { items_of result.items ≡ map turned_entry (items_of self.now.items) }
    {
        let entries = self.as_slice();
        let mut turned = Entries::default();
        for e in entries {
            turned.push(turned_entry(e));
        }
        turned
    }

    // Whether there is one entry on i and one on j, with opposite coefficients that are not 0.
    pub fn opposed(&self, i: u8, j: u8) -> bool
        ensures { result ≡ opposed_entries i j (items_of self.now.items) }
    {
        let [e, f] = self.as_slice() else {
            return false;
        };
        on_both(e, f, i, j) && opposite(e, f)
    }
}
