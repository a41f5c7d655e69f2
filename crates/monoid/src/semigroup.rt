//! Semigroups, and the monoid that each of them makes with a unit put to it.

ghost use Rattle.std.specs.Prelude.{◌≡◌, None};
ghost use Rattle.monoid.specs.Semigroups.{with_unit};
ghost use Rattle.monoid.specs.SemigroupsLemmas as Semigroups;

use crate::Monoid;

/// A value with an associative join.
pub trait Semigroup: Sized + Copy {
    ghost joined: { Self → Self → Self };

    /// This value, then the other.
    fn join(self, other: Self) -> Self
        ensures { result ≡ joined self other };

    ghost assoc: { (x y z : Self) → joined (joined x y) z ≡ joined x (joined y z) };
}

/// `None` changes nothing, and two values join as they did.
impl<S: Semigroup> Semigroup for Option<S> {
    ghost joined = { with_unit S.joined };

    ghost assoc = { Semigroups.assoc S.joined S.assoc };

    fn join(self, other: Option<S>) -> Option<S> {
        match (self, other) {
            (None, _) => other,
            (_, None) => self,
            (Some(left), Some(right)) => Some(left.join(right)),
        }
    }
}

/// `None` is the unit. The plain record of a value is the value itself.
impl<S: Semigroup> Monoid for Option<S> {
    type Plain = Option<S>;

    ghost neutral = { None };

    ghost reads = { λ x. x };

    ghost written = { λ x. x };

    ghost left = { Semigroups.left S.joined };

    ghost right = { Semigroups.right S.joined };

    ghost back = { Semigroups.back };

    fn unit() -> Option<S> {
        None
    }

    fn from_plain(plain: Option<S>) -> Option<S> {
        plain
    }

    fn plain(self) -> Option<S> {
        self
    }
}
