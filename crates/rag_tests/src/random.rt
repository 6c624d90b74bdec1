// Random programs, and some with collections, whose replies by rounds and by demand are the same.
ghost use Rattle.equation_law.specs.Checked.{HasSourcesAlone, IsProgram};
ghost use Rattle.equation_law.specs.Systems.{program_of};

use crate::demand::Silent;
use crate::programs::{Long, NOTHING, Texts, long_text, system_said};
use broken_rules::ReadFault;
use equation_law::System;
use plain_rounds::{NameList, plain_rounds};
use query_replies::reply_lines;
use rand_core::Rng;
use rand_pcg::Pcg32;
use std::alloc::{AllocError, Global};
use std::fmt::Write;

// The forms of an equation, and below which numbers those are drawn that stand in it in place of `I`, `A`, `B` and `C`. `#` is the number of the equation.
struct Family {
    forms: &'static [&'static str],
    below: [u32; 4],
}

// Integers over attributes of the node and of the node below it.
const INTEGERS: Family = Family {
    forms: &[
        "syn int L.a#() = I; ",
        "syn int L.a#() = aA() + I; ",
        "syn int L.a#() = aA() < I ? aB() : I; ",
        "syn int L.a#() = hasL() ? getL().aA() : I; ",
        "syn int L.a#() = (hasL() ? getL().aA() : aB()) * I; ",
        "syn int L.a#() = I == 0 ? getL().aA() : I; ",
    ],
    below: [3, 6, 6, 1],
};

// Circular sets over sets of the node, of those below it and of the one above it. Nodes that are above and below one another make large components.
const SETS: Family = Family {
    forms: &[
        "syn Set<L> L.s#() circular [empty] = single(this); ",
        "syn Set<L> L.s#() circular [empty] = union(single(this), up().sA()); ",
        "syn Set<L> L.s#() circular [empty] = union(sA(), sB()); ",
        "syn Set<L> L.s#() circular [empty] = each(x : getlList() | x.sA()); ",
        "syn Set<L> L.s#() circular [empty] = inter(sA(), each(x : sB() | x.sA())); ",
        "syn Set<L> L.s#() circular [empty] = union(up().sA(), each(x : getlList() | x.sB())); ",
        "syn Set<L> L.s#() circular [empty] = each(x : sA() | union(single(x), x.sB())); ",
    ],
    below: [1, 4, 4, 1],
};

// Integers over sets and over integers of the node and of those below it.
const COUNTS: Family = Family {
    forms: &[
        "syn int L.n#() = size(sA()); ",
        "syn int L.n#() = nB() + size(sA()); ",
        "syn int L.n#() = all(x : getlList() | x.nB() > I) ? size(sA()) : nC(); ",
        "syn int L.n#() = size(each(x : getlList() | x.nB() == I ? x.sA() : empty)); ",
        "syn int L.n#() = any(x : sA() | x.nB() == I) ? I : size(sA()); ",
        "syn int L.n#() = first(x : getlList() | size(x.sA()) > I) == null ? I : nB(); ",
    ],
    below: [3, 4, 4, 4],
};

// Collections over integers and sets of the node, of those below it, of the one above it, and over one another. Each node has them, and what is
// offered stands below the node itself, below the root of the tree, or anywhere.
const COLLECTIONS: Family = Family {
    forms: &[
        "coll int L.c#() [0] with sum; L contributes nA() to L.c#() for this; ",
        "coll int L.c#() [0] with sum root L; L contributes nA() when nB() > I to L.c#() for up(); L contributes 1 to L.c#() for this; ",
        "coll int L.c#() [0] with sum root P; L contributes size(sA()) when contains(sB(), this) to L.c#() for up(); ",
        "coll int L.c#() [0] with sum; L contributes cA() to L.c#() for up(); L contributes nB() to L.c#() for this; ",
        "coll int L.c#() [0] with sum root L; L contributes cA() + I to L.c#() for first(x : getlList() | x.nB() == I); ",
        "coll int L.c#() [0] with sum; L contributes 1 when cA() == I to L.c#() for hasUp() ? up() : this; ",
    ],
    below: [3, 4, 4, 4],
};

// Drawn programs: the seed and how many are drawn, their texts, and how many equations each family gives.
struct Drawn {
    seed: u64,
    times: u32,
    ast: &'static str,
    aspect: &'static str,
    families: &'static [Family],
    equations: u32,
    tree: Long<'static>,
    queries: Long<'static>,
}

const DRAWN: [Drawn; 3] = [
    // Over a chain of four nodes, asked for all attributes.
    Drawn {
        seed: 8,
        times: 40,
        ast: "L ::= [L];",
        aspect: "aspect A { ",
        families: &[INTEGERS],
        equations: 6,
        tree: Long {
            head: "",
            part: "L([",
            middle: "L([])",
            end: "])",
            times: 3,
        },
        queries: Long {
            head: "@0.a0()\n@0.a1()\n@0.a2()\n@0.a3()\n@0.a4()\n@0.a5()\n",
            part: "@#.a0()\n@#.a1()\n@#.a2()\n@#.a3()\n@#.a4()\n@#.a5()\n",
            times: 3,
            ..NOTHING
        },
    },
    // 24 nodes stand below the one below the root; every third has none below it, and the others one or two.
    Drawn {
        seed: 29,
        times: 10,
        ast: "P ::= L; L ::= l:L*;",
        aspect: "aspect A { inh L L.up(); eq P.getL().up() = null; eq L.getl(int i).up() = this; ",
        families: &[SETS, COUNTS],
        equations: 4,
        tree: Long {
            head: "P(L([L([])",
            part: ", L([L([])]), L([L([]), L([])]), L([])",
            middle: ", L([L([])]), L([L([]), L([])])]))",
            end: "",
            times: 7,
        },
        queries: Long {
            part: "@#.n0()\n@#.n1()\n@#.n2()\n@#.n3()\n",
            times: 49,
            ..NOTHING
        },
    },
    // The same with collections, over fewer nodes.
    Drawn {
        seed: 31,
        times: 12,
        ast: "P ::= L; L ::= l:L*;",
        aspect: "aspect A { inh L L.up(); eq P.getL().up() = null; eq L.getl(int i).up() = this; syn boolean L.hasUp() = up() != null; ",
        families: &[SETS, COUNTS, COLLECTIONS],
        equations: 4,
        tree: Long {
            head: "P(L([L([])",
            part: ", L([L([])]), L([L([]), L([])]), L([])",
            middle: "]))",
            end: "",
            times: 2,
        },
        queries: Long {
            part: "@#.c0()\n@#.c1()\n@#.c2()\n@#.c3()\n@#.n0()\n",
            times: 14,
            ..NOTHING
        },
    },
];

// Programs with collections: of subtrees and of the whole tree, and of values, conditions and receivers that are demanded or not.
const COLLECTED: [Texts<'static>; 2] = [
    Texts {
        ast: "Top ::= Box; Box ::= Item* Box*; Deep : Box; Item ::= <V:int>;",
        jrag: "aspect A { inh Box Item.box(); eq Box.getItem().box() = this; \
               inh Box Box.above(); eq Top.getBox().above() = null; eq Box.getBox().above() = this; \
               coll int Box.own() [0] with sum root Box; coll int Box.deep() [0] with sum root Deep; coll int Box.whole() [0] with sum; \
               Item contributes getV() to Box.own() for box(); Item contributes getV() to Box.deep() for box(); \
               Item contributes getV() to Box.whole() for box(); Item contributes getV() to Box.deep() for box().above(); }",
        tree: "Top(Box([Item(1)], [Deep([Item(2)], [Box([Item(4), Item(8)], [])])]))",
        queries: "@1.own()\n@1.deep()\n@1.whole()\n@3.own()\n@3.deep()\n@3.whole()\n@5.own()\n@5.deep()\n@5.whole()\n",
    },
    Texts {
        ast: "T ::= M*; M ::= <K:int>;",
        jrag: "aspect A { syn int M.loop() = loop(); coll int M.a() [0] with sum; coll int M.b() [0] with sum; \
               coll int M.c() [0] with sum; coll boolean M.e() [false] with or; \
               M contributes loop() when getK() == 9 to M.a() for this; M contributes getK() to M.a() for this; \
               M contributes loop() when getK() == 2 to M.b() for this; M contributes loop() to M.c() for getK() == 2 ? this : null; \
               M contributes true to M.e() for this; M contributes loop() == 0 when getK() == 2 to M.e() for this; \
               syn int M.sign() = e() ? 1 : 0; }",
        tree: "T([M(1), M(2)])",
        queries: "@1.a()\n@2.a()\n@1.b()\n@2.b()\n@1.c()\n@2.c()\n@1.sign()\n@2.sign()\n",
    },
];

// The lines of all queries, by rounds: an integer, or `circular` where the rounds give none.
fn rounds_lines(alloc: Global, system: &System) -> Result<String, ReadFault>
    requires { IsProgram (program_of system.now) }
{
    let names = NameList::of_source(alloc, system)?;
    let table = plain_rounds(alloc, system, &names)?;
    let mut text = String::new(alloc);
    for place in names.len().saturating_sub(system.replies())..names.len() {
        match table.value(place) {
            Some(value) => write!(text, "{}\n", value.int().unwrap_or(-1))?,
            None => text.push_str("circular\n")?,
        }
    }
    Ok(text)
}

// Whether the lines of rounds and of demand are the same, and there are some.
fn agree(alloc: Global, system: &System) -> Result<bool, ReadFault>
    requires program { IsProgram (program_of system.now) }
    requires bare { HasSourcesAlone (program_of system.now) }
{
    let slow = rounds_lines(alloc, system)?;
    match reply_lines(alloc, &Silent, system, 4096) {
        Ok(lines) => Ok(!slow.is_empty() && lines.as_slice() == slow.as_bytes()),
        Err(_) => Ok(false),
    }
}

// The same of the system that four texts are to say.
fn texts_agree(alloc: Global, texts: &Texts<'_>) -> Result<bool, ReadFault> {
    match system_said(alloc, texts) {
        Ok(system) => agree(alloc, &system),
        Err(_) => Ok(false),
    }
}

// Writes a drawn equation with its number.
fn write_equation(
    text: &mut String,
    family: &Family,
    number: u32,
    random: &mut Pcg32,
) -> Result<(), AllocError> {
    let form = random.next_u32() as usize % family.forms.len().max(1);
    let [int, a, b, c] = family.below;
    let form = family.forms.get(form).copied().unwrap_or("");
    for letter in form.chars() {
        let below = match letter {
            'I' => int,
            'A' => a,
            'B' => b,
            'C' => c,
            _ => 0,
        };
        if below > 0 {
            write!(text, "{}", random.next_u32() % below)?;
        } else if letter == '#' {
            write!(text, "{number}")?;
        } else {
            text.push(letter)?;
        }
    }
    Ok(())
}

fn drawn_aspect(alloc: Global, row: &Drawn, random: &mut Pcg32) -> Result<String, AllocError> {
    let mut text = String::from_str(alloc, row.aspect)?;
    for number in 0..row.equations {
        for family in row.families {
            write_equation(&mut text, family, number, random)?;
        }
    }
    text.push('}')?;
    Ok(text)
}

// The first of the drawn programs that has other replies by rounds than by demand.
fn other_drawn(alloc: Global, row: &Drawn) -> Result<Option<u32>, ReadFault> {
    let tree = long_text(alloc, &row.tree)?;
    let queries = long_text(alloc, &row.queries)?;
    let mut random = Pcg32::new(row.seed, 1);
    for k in 0..row.times {
        let aspect = drawn_aspect(alloc, row, &mut random)?;
        let texts = Texts {
            ast: row.ast,
            jrag: aspect.as_str(),
            tree: tree.as_str(),
            queries: queries.as_str(),
        };
        if !texts_agree(alloc, &texts)? {
            return Ok(Some(k));
        }
    }
    Ok(None)
}

// The first of the programs with collections that has other replies by rounds than by demand.
fn other_collected(alloc: Global) -> Result<Option<usize>, ReadFault> {
    for (k, texts) in COLLECTED.iter().enumerate() {
        if !texts_agree(alloc, texts)? {
            return Ok(Some(k));
        }
    }
    Ok(None)
}

#[test]
fn rounds_and_demand_agree_on_collections(rt: HostRuntime) {
    let [_, _, collections] = &DRAWN;
    let other = (
        other_collected(rt.alloc()),
        other_drawn(rt.alloc(), collections),
    );
    assert_eq!(rt; other, (Ok(None), Ok(None)));
}

#[test]
fn rounds_and_demand_agree(rt: HostRuntime) {
    let [integers, sets, _] = &DRAWN;
    let other = (
        other_drawn(rt.alloc(), integers),
        other_drawn(rt.alloc(), sets),
    );
    assert_eq!(rt; other, (Ok(None), Ok(None)));
}
