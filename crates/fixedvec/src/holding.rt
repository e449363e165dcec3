// What a vector holds, and how items come and go.
ghost use Rattle.std.specs.Prelude.{⊤, ◌≡◌, ◌+◌, ◌-◌, ◌<◌, ◌≤◌, ◌==◌, ◌↔◌, [], ◌∷◌, ◌++◌, length, take, slice_get, IsSome, IfNone};

use std::alloc::AllocError;

// Its first places hold the items, in their order; the others hold anything.
pub struct FixedVec<T, const CAP: usize> {
    pub(crate) places: [T; CAP],
    pub(crate) len: usize,
    ghost whole: { length places ≡ CAP },
    ghost fits: { len ≤ CAP },
}

// By hand, since a derive gives none where there is a ghost field.
impl<T: Copy, const CAP: usize> Clone for FixedVec<T, CAP> {
    ghost is_clone = { λ v w. w ≡ v };

    ghost is_infallible = { λ v. ⊤ };

    fn clone(&self) -> Result<Self, AllocError> {
        Ok(*self)
    }
}

impl<T: Copy, const CAP: usize> Copy for FixedVec<T, CAP> {}

impl<T: Copy, const CAP: usize> FixedVec<T, CAP> {
    ghost use Rattle.std.specs.Option.{option_to_list};
    ghost use Rattle.fixedvec.specs.Items.{items_of};

    // The items, in their order.
    pub fn as_slice(&self) -> &[T]
        ensures value { result.now ≡ items_of self.now }
        ensures fits { length result.now ≤ CAP }
    {
        &self.places[..self.len]
    }

    // How many items there are.
    pub fn len(&self) -> usize
        ensures value { result ≡ length (items_of self.now) }
        ensures fits { result ≤ CAP }
    {
        self.as_slice().len()
    }

    // Whether there is no room for one item more.
    pub fn is_full(&self) -> bool
        ensures value { result ≡ (length (items_of self.now) == CAP) }
        ensures fits { length (items_of self.now) ≤ CAP }
    {
        self.len == CAP
    }

    // One item more, at the end. There must be room.
    pub fn push(&mut self, item: T)
        requires { length (items_of self.old) < CAP }
        ensures items { items_of self.new ≡ items_of self.old ++ item ∷ [] }
        ensures len { length (items_of self.new) ≡ length (items_of self.old) + 1 }
    {
        self.places[self.len] = item;
        self.len += 1;
    }

    // The last item goes, and is the answer; none where there is no item.
    pub fn pop(&mut self) -> Option<T>
        ensures items { items_of self.old ≡ items_of self.new ++ option_to_list result }
        ensures variant { IsSome result ↔ (0 < length (items_of self.old)) }
        ensures rest { items_of self.new ≡ take (length (items_of self.old) - 1) (items_of self.old) }
        ensures value { result ≡ slice_get (items_of self.old) (length (items_of self.old) - 1) }
        ensures empty { IfNone result (self.new ≡ self.old) }
    {
        let last = self.len.checked_sub(1)?;
        let item = self.places[last];
        self.len = last;
        Some(item)
    }
}
