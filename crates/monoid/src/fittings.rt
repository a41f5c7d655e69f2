//! The monoid of fittings.

ghost use Rattle.monoid.specs.Sets.{set_of, union};
ghost use Rattle.monoid.specs.SetsLemmas as Sets;

use crate::{Monoid, Semigroup};

/// A set of sixteen fittings: bit i is set where fitting i is in it.
#[derive(Clone, Copy, PartialEq, Eq)]
pub struct Fittings(pub u16);

impl Semigroup for Fittings {
    ghost joined = { union };

    ghost assoc = { Sets.assoc };

    fn join(self, other: Fittings) -> Fittings {
        Fittings(self.0 | other.0)
    }
}

impl Monoid for Fittings {
    type Plain = u16;

    ghost neutral = { set_of 0 };

    ghost reads = { set_of };

    ghost written = { λ x. x.0 };

    ghost left = { Sets.left };

    ghost right = { Sets.right };

    ghost back = { Sets.back };

    fn unit() -> Fittings {
        Fittings(0)
    }

    fn from_plain(plain: u16) -> Fittings {
        Fittings(plain)
    }

    fn plain(self) -> u16 {
        self.0
    }
}
