// Right sides that make trees: which demands they make, in turn, and the codes of the tokens.
ghost use Rattle.equation_law.specs.Checked.{IsProgram};
ghost use Rattle.equation_law.specs.Systems.{program_of};

use crate::programs::{Texts, system_checked};
use crate::resumed::{Followed, follow};
use attr_rules::{AttrId, EqId};
use broken_rules::ReadFault;
use equation_law::{Code, Instance, NodeRef, System, Tokens};
use expr_eval::Turn;
use rag_io::Memory;
use std::alloc::Global;

// Integers by their numbers, and trees with tokens inside and outside of the children.
const TEXTS: Texts<'_> = Texts {
    ast: "N ::= <K:int>; Tok ::= <V:int>; Box ::= in:Tok <W:int> out:Tok; Pot ::= <P:int> mid:Tok <Q:int>;",
    jrag: "aspect A { syn int N.x() = 1; syn int N.z() = 1; syn int N.y() = 1; \
           syn nta Box N.asked() = new Box(new Tok(x()), z(), new Tok(y())); \
           syn nta Box N.known() = new Box(new Tok(5), 5 + getK(), new Tok(getK())); \
           syn nta Tok N.twice() = new Tok(y() + x()); \
           syn nta Pot N.pot() = new Pot(x(), new Tok(z()), y()); }",
    tree: "N(7)",
    queries: "",
};

// An attribute of the root, the attributes that are missing in turn, the number of the equation, and the codes of the tokens.
type Row = (AttrId, &'static [AttrId], EqId, [Option<Code>; 4]);

// What is missing is true once it was asked for, which reads as the integer 0; so are attributes of lower numbers then.
const MADE: [Row; 4] = [
    (
        AttrId(3),
        &[AttrId(0), AttrId(1), AttrId(2)],
        EqId(3),
        [Some(0), Some(0), Some(0), None],
    ),
    (AttrId(4), &[], EqId(4), [Some(5), Some(12), Some(7), None]),
    (
        AttrId(5),
        &[AttrId(2)],
        EqId(5),
        [Some(0), None, None, None],
    ),
    (
        AttrId(6),
        &[AttrId(0), AttrId(1), AttrId(2)],
        EqId(6),
        [Some(0), Some(0), Some(0), None],
    ),
];

fn codes_of(tokens: &Tokens) -> [Option<Code>; 4] {
    [tokens.get(0), tokens.get(1), tokens.get(2), tokens.get(3)]
}

// Whether these attributes of the root are missing, in this order.
fn are_missing(missing: &[Instance], wanted: &[AttrId]) -> bool {
    if missing.len() != wanted.len() {
        return false;
    }
    for (instance, attr) in missing.iter().zip(wanted) {
        let is_wanted = match instance {
            Instance::Attr {
                attr: own,
                node,
                ..
            } => *own == *attr && *node == NodeRef(1),
            Instance::Query(_) => false,
        };
        if !is_wanted {
            return false;
        }
    }
    true
}

// Whether a tree comes of an evaluation as a row says; the codes of its tokens are the same once more.
fn is_made(followed: &Followed, row: &Row) -> Result<bool, Memory> {
    let Turn::Image(image) = &followed.last else {
        return Ok(false);
    };
    let copy = image.tokens.copy()?;
    let are_tokens = codes_of(&image.tokens) == row.3 && codes_of(&copy) == row.3;
    Ok(are_tokens && image.equation == row.2 && are_missing(&followed.missing, row.1))
}

// The first row of which something else comes.
fn other_made(alloc: Global, system: &System) -> Result<Option<usize>, Memory>
    requires { IsProgram (program_of system.now) }
{
    for (k, row) in MADE.iter().enumerate() {
        let followed = follow(alloc, system, row.0)?;
        if !is_made(&followed, row)? {
            return Ok(Some(k));
        }
    }
    Ok(None)
}

fn other_of_texts(alloc: Global) -> Result<Option<usize>, ReadFault> {
    let system = system_checked(alloc, &TEXTS)?;
    Ok(other_made(alloc, &system)?)
}

#[test]
fn tokens_are_evaluated_in_turn(rt: HostRuntime) {
    assert_eq!(rt; other_of_texts(rt.alloc()), Ok(None));
}
