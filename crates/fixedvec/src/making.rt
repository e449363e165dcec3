// Vectors made, made longer by many items, and compared.
ghost use Rattle.std.specs.Prelude.{◌≡◌, ◌+◌, ◌<◌, ◌≤◌, ◌↔◌, [], ◌++◌, length, IsOk, OnOk, OnErr, MatchResult};

use crate::FixedVec;

// The items are more than there is room for.
#[derive(Clone, Copy, Debug, PartialEq, Eq)]
pub struct NoRoom;

impl<T: Copy + Default, const CAP: usize> FixedVec<T, CAP> {
    ghost use Rattle.fixedvec.specs.Items.{items_of};

    // Without items.
    pub fn new() -> Self
        ensures { items_of result ≡ [] }
    {
        FixedVec {
            places: Default::default(),
            len: 0,
        }
    }
}

impl<T: Copy + Default, const CAP: usize> Default for FixedVec<T, CAP> {
    ghost use Rattle.fixedvec.specs.Items.{items_of};

    ghost is_default = { λ v. items_of v ≡ [] };

    fn default() -> Self {
        Self::new()
    }
}

impl<T: Copy, const CAP: usize> FixedVec<T, CAP> {
    ghost use Rattle.fixedvec.specs.Items.{items_of};

    // These items more, at the end, in their order. Nothing changes where there is no room for all of them.
    pub fn try_extend_from_slice(&mut self, items: &[T]) -> Result<(), NoRoom>
        ensures variant { IsOk result ↔ (length (items_of self.old) + length items.now ≤ CAP) }
        ensures ok { OnOk result (items_of self.new ≡ items_of self.old ++ items.now) }
        ensures err { OnErr result (self.new ≡ self.old) }
    {
        if CAP - self.len < items.len() {
            return Err(NoRoom);
        }
        for item in items {
            self.push(*item);
        }
        Ok(())
    }
}

// The vector of these items, unless they are more than there is room for.
impl<T: Copy + Default, const CAP: usize> TryFrom<&[T]> for FixedVec<T, CAP> {
    type Error = NoRoom;

    ghost use Rattle.fixedvec.specs.Items.{items_of};

    ghost try_from_gives = { λ s r. MatchResult r (λ v. (items_of v ≡ s.now) × (length s.now ≤ CAP)) (λ _. CAP < length s.now) };

    fn try_from(items: &[T]) -> Result<Self, NoRoom> {
        let mut made = Self::new();
        made.try_extend_from_slice(items)?;
        Ok(made)
    }
}

// Vectors are equal where their items are, one by one.
impl<T: Copy + PartialEq, const CAP: usize> PartialEq for FixedVec<T, CAP> {
    ghost use Rattle.std.specs.Cmp.{on_per};
    ghost use Rattle.std.specs.Cmp.Lexicographic.{pointwise, lists_per};
    ghost use Rattle.fixedvec.specs.Items.{items_of};

    ghost eq = { λ v w. pointwise T.eq (items_of v) (items_of w) };

    ghost laws = { on_per (λ v. items_of v) (lists_per T.laws) };

    fn eq(&self, other: &Self) -> bool {
        self.as_slice() == other.as_slice()
    }
}
