//! How the values of one type are represented by another: the answers, and how they are put together.

ghost use Rattle.std.specs.Prelude.{◌≡◌};
ghost use Rattle.witx_compat.specs.Answers.{joined, worse, is_same, is_refused};

/// How the values of one type are represented by another.
#[derive(Clone, Copy, PartialEq, Eq, Debug, Drop)]
pub enum RepEquality {
    /// The types are alike.
    Eq,
    /// Each value has a place in the other type, which has room for more.
    Superset,
    /// Not at all.
    NotEq,
}

impl RepEquality {
    /// `Eq` for two `Eq`, else `NotEq`.
    pub fn join(&self, rhs: &Self) -> Self
        ensures { result ≡ joined self.now rhs.now }
    {
        match (self, rhs) {
            (RepEquality::Eq, RepEquality::Eq) => RepEquality::Eq,
            _ => RepEquality::NotEq,
        }
    }

    /// The worse of two answers: `NotEq` before `Superset` before `Eq`.
    pub(crate) fn worse(&self, rhs: &Self) -> Self
        ensures { result ≡ worse self.now rhs.now }
    {
        match self {
            RepEquality::Eq => *rhs,
            RepEquality::Superset => {
                if *rhs == RepEquality::NotEq {
                    RepEquality::NotEq
                } else {
                    RepEquality::Superset
                }
            }
            RepEquality::NotEq => RepEquality::NotEq,
        }
    }

    /// Whether the types are alike.
    pub(crate) fn is_same(&self) -> bool
        ensures { result ≡ is_same self.now }
    {
        *self == RepEquality::Eq
    }

    /// Whether the type is not represented.
    pub(crate) fn is_refused(&self) -> bool
        ensures { result ≡ is_refused self.now }
    {
        *self == RepEquality::NotEq
    }
}
