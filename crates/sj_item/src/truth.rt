// The three truth values of a predicate.
ghost use Rattle.std.specs.Prelude.{◌≡◌};
ghost use Rattle.sj_item.specs.Truths.{conjunction, disjunction, negation, truth_of};

/// The value of a predicate (ISO/IEC 9075-2, boolean value expression): SQL's logic has a third value.
#[derive(Clone, Copy, Debug, PartialEq, Eq)]
pub enum Truth {
    True,
    False,
    /// Neither: a comparison of things that do not compare, or a fault.
    Unknown,
}

impl Truth {
    /// True or False.
    pub fn from_bool(holds: bool) -> Truth
        ensures { result ≡ truth_of holds }
    {
        if holds { Truth::True } else { Truth::False }
    }

    /// `&&`: False where one side is, else Unknown where one side is, else True.
    pub fn and(self, other: Truth) -> Truth
        ensures { result ≡ conjunction self other }
    {
        match (self, other) {
            (Truth::False, _) | (_, Truth::False) => Truth::False,
            (Truth::True, Truth::True) => Truth::True,
            _ => Truth::Unknown,
        }
    }

    /// `||`: True where one side is, else Unknown where one side is, else False.
    pub fn or(self, other: Truth) -> Truth
        ensures { result ≡ disjunction self other }
    {
        match (self, other) {
            (Truth::True, _) | (_, Truth::True) => Truth::True,
            (Truth::False, Truth::False) => Truth::False,
            _ => Truth::Unknown,
        }
    }

    /// `!`: Unknown stays as it is.
    pub fn not(self) -> Truth
        ensures { result ≡ negation self }
    {
        match self {
            Truth::True => Truth::False,
            Truth::False => Truth::True,
            Truth::Unknown => Truth::Unknown,
        }
    }
}
