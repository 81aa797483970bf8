ghost use Rattle.std.specs.Prelude.{◌≡◌, ◌↔◌, IsTrue};
ghost use Rattle.std.specs.Bool.{Decides};
ghost use Rattle.std.specs.Cmp.{booleans_Decides};
ghost use Rattle.std.proofs.lemmas.Bool.Decides.{Decides-eqb};

/// A type whose `==` is true of equal values and of no others.
pub trait Exact: PartialEq {
    ghost exact: { (a b : Self) → Decides (Self.eq a b) (a ≡ b) };
}

impl Exact for u8 {
    ghost exact = { λ a b. Decides-eqb a b };
}

impl Exact for u32 {
    ghost exact = { λ a b. Decides-eqb a b };
}

impl Exact for u64 {
    ghost exact = { λ a b. Decides-eqb a b };
}

impl Exact for bool {
    ghost exact = { booleans_Decides };
}

/// Whether two values are equal.
pub fn is_same<T: Exact>(a: &T, b: &T) -> bool
    ensures { IsTrue result ↔ (a.now ≡ b.now) }
{
    a == b
}
