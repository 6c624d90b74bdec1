// The rules and their codes.
ghost use Rattle.std.specs.Prelude.{◌≡◌, ◌<◌, [], Some, get_or, length, map};
ghost use Rattle.broken_rules.specs.Codes.{code_of};
ghost use Rattle.broken_rules.specs.Order.{number_of};

use std::fmt;

/// A rule of some input, written by its code: a letter for the kind of input, and a number. `G` are the rules of grammars, `J` of
/// aspects, `M` of rising equations, `N` of trees, `Q` of queries and `T` of traces.
#[derive(Clone, Copy, Debug, PartialEq, Eq)]
pub enum Rule {
    // Grammars.
    G1,
    G2,
    G3,
    G4,
    G5,
    G6,
    G7,
    G8,
    G9,
    G10,
    // Aspects.
    J1,
    J2,
    J3,
    J4,
    J5,
    J6,
    J7,
    J8,
    J9,
    J10,
    J11,
    J12,
    J13,
    J14,
    J15,
    J16,
    J17,
    // Rising equations.
    M1,
    M2,
    M3,
    M4,
    M5,
    // Trees.
    N1,
    N2,
    N3,
    N4,
    N5,
    N6,
    N7,
    // Queries.
    Q1,
    Q2,
    Q3,
    Q4,
    // Traces.
    T1,
    T2,
    T3,
    T4,
    T5,
    T6,
    T7,
}

const CODES: [&str; 50] = [
    "G1", "G2", "G3", "G4", "G5", "G6", "G7", "G8", "G9", "G10", "J1", "J2", "J3", "J4", "J5",
    "J6", "J7", "J8", "J9", "J10", "J11", "J12", "J13", "J14", "J15", "J16", "J17", "M1", "M2",
    "M3", "M4", "M5", "N1", "N2", "N3", "N4", "N5", "N6", "N7", "Q1", "Q2", "Q3", "Q4", "T1", "T2",
    "T3", "T4", "T5", "T6", "T7",
];

fn text_at(texts: &[&'static str], i: usize) -> &'static str
    requires { i < length texts.now }
    ensures { result.now ≡ get_or (map (λ text. text.now) texts.now) i [] }
{
    texts[i]
}

impl Rule {
    /// The rule's place among all, from 0.
    pub fn number(self) -> u8
        ensures { result ≡ number_of self }
    {
        self as u8
    }

    /// The rule's code, as `G1`.
    pub fn code(self) -> &'static str
        ensures { result.now ≡ code_of self }
    {
        text_at(&CODES, usize::from(self.number()))
    }
}

/// Writes the code.
impl fmt::Display for Rule {
    ghost output = { λ rule. Some (code_of rule) };

    fn fmt<W: fmt::Write>(&self, f: &mut fmt::Formatter<W>) -> fmt::Result {
        f.write_str(self.code())
    }
}
