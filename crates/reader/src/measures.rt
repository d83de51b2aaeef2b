// What is measured of a part.
ghost use Rattle.std.specs.Prelude.{◌≡◌, ◌+◌, ◌<◌, ◌^◌};
ghost use Rattle.reader.specs.Summary.{no_bounds, below_bounds, symbol_bounds, arity_bounds, molecule_bounds, joined, measured, empty};

// What is bounded of a part: the highest variable plus 1, the most method arguments, and the highest applied symbol plus 1 that is not
// declared with its number of terms; 0 where there is none. The larger of two is that of both. A molecule of n parts counts as a method
// with half as many arguments, rounded up: at most 8, the limit, exactly if the parts are at most 16, theirs. Tried: with a flag for the
// last, seven bytes beside it that mean nothing are moved too, (g) of bench/ takes 17 in 100 longer, and misses its goal.
#[derive(Clone, Copy, Debug, PartialEq, Eq)]
pub struct Bounds {
    pub width: usize,
    pub arguments: usize,
    pub unknown: usize,
}

impl Bounds {
    // No part.
    pub fn nothing() -> Self
        ensures { result ≡ no_bounds }
    {
        Bounds {
            width: 0,
            arguments: 0,
            unknown: 0,
        }
    }

    // The variable next below `width`.
    pub fn below(width: usize) -> Self
        ensures { result ≡ below_bounds width }
    {
        Bounds {
            width,
            ..Bounds::nothing()
        }
    }

    // Applied symbol f, known with its number of terms or not.
    pub(crate) fn symbol(f: usize, known: bool) -> Self
        requires { f + 1 < 2 ^ 64 }
        ensures { result ≡ symbol_bounds f known }
    {
        Bounds {
            unknown: if known { 0 } else { f + 1 },
            ..Bounds::nothing()
        }
    }

    // A method with n arguments.
    pub fn arity(n: usize) -> Self
        ensures { result ≡ arity_bounds n }
    {
        Bounds {
            arguments: n,
            ..Bounds::nothing()
        }
    }

    // A molecule with n parts, among the arguments: 16 parts count as 8 arguments, 17 as 9.
    pub fn molecule(n: usize) -> Self
        ensures { result ≡ molecule_bounds n }
    {
        Bounds::arity(n.div_ceil(2))
    }

    // Two parts, self on the left of other.
    #[tactic(auto, unfolding(crate::specs::Summary::joined))]
    pub fn join(self, other: Self) -> Self
        ensures { result ≡ joined self other }
    {
        Bounds {
            width: self.width.max(other.width),
            arguments: self.arguments.max(other.arguments),
            unknown: self.unknown.max(other.unknown),
        }
    }
}

// How many parts, and their bounds joined from left to right.
#[derive(Clone, Copy, Debug, PartialEq, Eq)]
pub struct Measure {
    pub count: usize,
    pub bounds: Bounds,
}

impl Measure {
    // No parts.
    pub fn empty() -> Self
        ensures { result ≡ empty }
    {
        Measure {
            count: 0,
            bounds: Bounds::nothing(),
        }
    }

    // One part more, on the right of these.
    pub(crate) fn and(self, part: Bounds) -> Self
        requires { self.count + 1 < 2 ^ 64 }
        ensures { result ≡ measured (self.count + 1) (joined self.bounds part) }
    {
        Measure {
            count: self.count + 1,
            bounds: self.bounds.join(part),
        }
    }
}
