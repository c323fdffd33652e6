// Monomials in lent bytes: six exponents side by side.
ghost use Rattle.std.specs.Prelude.{◌≡◌, ◌+◌, ◌≤◌, length, take, drop};
ghost use Rattle.std.proofs.Math.Seq.{paste};
ghost use Rattle.monomial.specs.Monomial.{width};

use super::Monomial;
use super::width::WIDTH;
use std::array;

impl Monomial {
    // The monomial whose exponents are the six bytes from at on.
    pub fn read(s: &[u8], at: usize) -> Monomial
        requires { at + width ≤ length s.now }
        ensures { result.e ≡ take width (drop at s.now) }
    {
        // No copy_from_slice, which was tried: it tests whether the two overlap, and takes a third longer.
        Monomial {
            e: array::from_fn(|i| s[at + i]),
        }
    }

    // Writes the exponents of self over the six bytes from at on.
    pub fn write(self, s: &mut [u8], at: usize)
        requires { at + width ≤ length s.old }
        ensures { s.new ≡ paste s.old at self.e width }
    {
        // No copy_from_slice either.
        for i in 0..WIDTH {
            s[at + i] = self.e[i];
        }
    }
}
