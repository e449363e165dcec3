// Two lists gone through place by place.
ghost use Rattle.std.specs.Prelude.{◌≡◌, ℕ, Bool};
ghost use Rattle.congruences.specs.Applications.{at_each_place};

// Whether the lists are equally long, and the test holds at each place.
pub fn holds_at_each_place<F: Fn(u8, u8) -> bool>(left: &[u8], right: &[u8], test: F) -> bool
    requires { F.IsAlwaysCallable test }
    ensures { (f : ℕ → ℕ → Bool) → ((i j : ℕ) (r : Bool) → F.post test i j r → r ≡ f i j) → result ≡ at_each_place f left.now right.now }
{
    left.len() == right.len() && left.iter().zip(right).all(|(&i, &j)| test(i, j))
}
