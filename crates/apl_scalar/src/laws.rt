ghost use Rattle.std.specs.Prelude.{◌≡◌, ℤ, pos, ◌+ℤ◌, ◌*ℤ◌, ◌≤ℤ◌, ◌<ℤ◌};
ghost use Rattle.apl_scalar.specs.Counting.{floor_quotient, residue};

/// The floor of a quotient is the greatest number that, times the divisor, does not pass the number; where the divisor
/// is negative, the greatest that, times the divisor, does not stay below the number. The call does nothing.
#[tactic(auto, using(crate::proofs::Quotients::quotients))]
pub fn floor_quotients_are_the_greatest()
    ensures below { (a b : ℤ) → pos 0 <ℤ a → (floor_quotient a b *ℤ a) ≤ℤ b }
    ensures greatest { (a b k : ℤ) → pos 0 <ℤ a → (k *ℤ a) ≤ℤ b → k ≤ℤ floor_quotient a b }
    ensures above { (a b : ℤ) → a <ℤ pos 0 → b ≤ℤ (floor_quotient a b *ℤ a) }
    ensures greatest_above { (a b k : ℤ) → a <ℤ pos 0 → b ≤ℤ (k *ℤ a) → k ≤ℤ floor_quotient a b }
{}

/// A residue is what is left of the number, and all of it where the divisor is 0. By a positive divisor it is from 0 to
/// below the divisor, by a negative one from above the divisor to 0. The call does nothing.
#[tactic(auto, using(crate::proofs::Quotients::quotients))]
pub fn residues_have_the_sign_of_the_divisor()
    ensures left { (a b : ℤ) → residue a b +ℤ a *ℤ floor_quotient a b ≡ b }
    ensures by_0 { (b : ℤ) → residue (pos 0) b ≡ b }
    ensures from_0 { (a b : ℤ) → pos 0 <ℤ a → pos 0 ≤ℤ residue a b }
    ensures below { (a b : ℤ) → pos 0 <ℤ a → residue a b <ℤ a }
    ensures to_0 { (a b : ℤ) → a <ℤ pos 0 → residue a b ≤ℤ pos 0 }
    ensures above { (a b : ℤ) → a <ℤ pos 0 → a <ℤ residue a b }
{}
