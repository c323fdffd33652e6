// The order of monomials: at the first exponent that differs the smaller one stands before.
ghost use Rattle.std.specs.Cmp.{on_po, unsigned_po};
ghost use Rattle.std.specs.Prelude.{eqb};
ghost use Rattle.std.specs.Cmp.Lexicographic.{pointwise, slice_partial_cmp, lists_po};
ghost use Rattle.std.proofs.Common.{rules};
ghost use Rattle.std.specs.Cmp.Rules.{comparing};
ghost use Rattle.std.specs.Ordering.{nat_cmp, on, as_partial_cmp};

use super::Monomial;
use super::width::WIDTH;
use std::cmp::Ordering;

// Written out: with the derive, which reads a monomial by words where its bytes were just written one by one, planning took 1.2 times as long.
impl PartialEq for Monomial {
    ghost eq = { on (λ m. m.e) (pointwise eqb) };

    ghost laws = { Prim.search (comparing, rules) };

    fn eq(&self, other: &Monomial) -> bool {
        for i in 0..WIDTH {
            if self.e[i] != other.e[i] {
                return false;
            }
        }
        true
    }
}

impl Eq for Monomial {
    ghost laws = { Prim.search (comparing, rules) };
}

// Written out: the derived `<` and that of the arrays were tried, and compile to thrice the code, which takes up to half as long again.
impl PartialOrd for Monomial {
    ghost partial_cmp = { on (λ m. m.e) (slice_partial_cmp (as_partial_cmp nat_cmp)) };

    ghost laws = { on_po (λ m. m.e) (lists_po unsigned_po) };

    fn partial_cmp(&self, other: &Monomial) -> Option<Ordering> {
        for i in 0..WIDTH {
            if self.e[i] != other.e[i] {
                return self.e[i].partial_cmp(&other.e[i]);
            }
        }
        Some(Ordering::Equal)
    }
}
