// Where an expression stands.
ghost use Rattle.std.specs.Prelude.{◌≡◌};

use attr_rules::Kind;

/// Where an expression stands, as far as that decides what may stand there.
#[derive(Clone, Copy, Debug, PartialEq, Eq)]
pub enum Stands {
    Anywhere,
    /// Directly behind a unary `-`, where a literal may be one greater.
    Negated,
    /// As the range of a form over a list, where a call that gives a whole list may stand.
    Range,
}

impl Stands {
    ghost use Rattle.expr_typing.specs.Standing.{greatest, is_range};

    /// The greatest literal that may stand there.
    pub fn greatest(self) -> u32
        ensures { result ≡ greatest self }
    {
        match self {
            Stands::Anywhere | Stands::Range => 2_147_483_647,
            Stands::Negated => 2_147_483_648,
        }
    }

    pub fn is_range(self) -> bool
        ensures { result ≡ is_range self }
    {
        matches!(self, Stands::Range)
    }
}

/// What stands before an operand.
#[derive(Clone, Copy, Debug, PartialEq, Eq)]
pub enum Prefix {
    /// `!`
    Not,
    /// Unary `-`.
    Minus,
}

impl Prefix {
    ghost use Rattle.expr_typing.specs.Standing.{behind, kind_behind};

    /// Where the operand stands.
    pub fn stands(self) -> Stands
        ensures { result ≡ behind self }
    {
        match self {
            Prefix::Not => Stands::Anywhere,
            Prefix::Minus => Stands::Negated,
        }
    }

    /// The type that is wanted of the operand, and that the whole has.
    pub fn kind(self) -> Kind
        ensures { result ≡ kind_behind self }
    {
        match self {
            Prefix::Not => Kind::Truth,
            Prefix::Minus => Kind::Int,
        }
    }
}
