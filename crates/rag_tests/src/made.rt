// Programs whose attributes make trees: the instances at created nodes, and what the rounds give them.
use crate::programs::Texts;
use crate::rows::{At, Given, Row, Want, With, other_row};

const ROOT: At = At::Source(0);

// Boxes whose tokens and inherited attributes take the arguments, and of which the last token is asked for in a loop at `N(0)`. Attributes by number:
// 0 `N.box`, 1 `N.lookup`, 2 `Tok.base`, 3 `Tok.k`, 4 `Tok.s`, 5 `N.inner`, 6 `N.outer`, 7 `N.number`, 8 `N.text`, 9 `N.sum`, 10 `N.token`, 11
// `N.same`.
const BOXES: &str =
    "aspect A { syn nta Box N.box(int k, String s) = new Box(new Tok(k), k + getK(), new Tok(lookup())); \
     syn int N.lookup() = getK() == 0 ? lookup() : getK(); inh int Tok.base(); inh int Tok.k(); inh String Tok.s(); \
     eq Box.getin().base() = 1; eq N.box().base() = 2; eq N.box(int a, String b).k() = a; \
     eq N.getChild().s() = \"child\"; eq N.box(int a, String b).s() = b; \
     syn int N.inner() = box(5, \"q\").getin().base(); syn int N.outer() = box(5, \"q\").getout().base(); \
     syn int N.number() = box(5, \"q\").getin().k(); syn String N.text() = box(5, \"q\").getout().s(); \
     syn int N.sum() = box(5, \"q\").getW(); syn int N.token() = box(5, \"q\").getin().getV(); \
     syn boolean N.same() = box(5, \"q\") == box(5, \"q\") && box(5, \"q\").getin() != box(5, \"q\").getout() && box(5, \"a\") != box(5, \"b\"); }";

const FIVE_Q: With = With::Two(Given::Int(5), Given::Text("q"));

const FIVE_A: With = With::Two(Given::Int(5), Given::Text("a"));

const FIVE_B: With = With::Two(Given::Int(5), Given::Text("b"));

const BOX_CLASSES: &str = "N ::= <K:int>; Tok ::= <V:int>; Box ::= in:Tok <W:int> out:Tok;";

const AT_SEVEN: Texts<'_> = Texts {
    ast: BOX_CLASSES,
    jrag: BOXES,
    tree: "N(7)",
    queries: "",
};

const AT_ZERO: Texts<'_> = Texts {
    ast: BOX_CLASSES,
    jrag: BOXES,
    tree: "N(0)",
    queries: "",
};

// At `N(7)`. The inherited attribute of the `in` is told inside, that of the `out` above, where also an equation for every child stands.
const SEVEN: [Row; 26] = [
    (0, ROOT, FIVE_Q, Want::Other),
    (0, ROOT, FIVE_A, Want::Other),
    (0, ROOT, FIVE_B, Want::Other),
    (1, ROOT, With::None, Want::Int(7)),
    (2, At::Made(0, 1), With::None, Want::Int(1)),
    (2, At::Made(0, 2), With::None, Want::Int(2)),
    (3, At::Made(0, 1), With::None, Want::Int(5)),
    (3, At::Made(0, 2), With::None, Want::Int(5)),
    (4, At::Made(0, 1), With::None, Want::Text("q")),
    (4, At::Made(0, 2), With::None, Want::Text("q")),
    (4, At::Made(1, 2), With::None, Want::Text("a")),
    (5, ROOT, With::None, Want::Int(1)),
    (6, ROOT, With::None, Want::Int(2)),
    (7, ROOT, With::None, Want::Int(5)),
    (8, ROOT, With::None, Want::Text("q")),
    (9, ROOT, With::None, Want::Int(12)),
    (10, ROOT, With::None, Want::Int(5)),
    (11, ROOT, With::None, Want::Truth(true)),
    (2, At::Made(0, 0), With::None, Want::Stranger),
    (2, At::Made(0, 3), With::None, Want::Stranger),
    (2, At::Made(3, 1), With::None, Want::Stranger),
    (0, At::Made(0, 0), FIVE_Q, Want::Stranger),
    (0, ROOT, With::One(Given::Int(5)), Want::Stranger),
    (2, At::Made(22, 1), With::None, Want::Stranger),
    (
        0,
        ROOT,
        With::Two(Given::Text("q"), Given::Int(5)),
        Want::Stranger,
    ),
    (
        0,
        ROOT,
        With::Three(Given::Int(5), Given::Text("q"), Given::Int(5)),
        Want::Stranger,
    ),
];

#[test]
fn boxes_take_the_arguments(rt: HostRuntime) {
    assert_eq!(rt; other_row(rt.alloc(), &AT_SEVEN, &SEVEN), Ok(None));
}

// At `N(0)` no box has a value, nor has what asks for one; the nodes of a box and what they inherit ask for none.
const ZERO: [Row; 18] = [
    (0, ROOT, FIVE_Q, Want::Nothing),
    (0, ROOT, FIVE_A, Want::Nothing),
    (0, ROOT, FIVE_B, Want::Nothing),
    (1, ROOT, With::None, Want::Nothing),
    (2, At::Made(0, 1), With::None, Want::Int(1)),
    (2, At::Made(0, 2), With::None, Want::Int(2)),
    (3, At::Made(0, 1), With::None, Want::Int(5)),
    (3, At::Made(0, 2), With::None, Want::Int(5)),
    (4, At::Made(0, 1), With::None, Want::Text("q")),
    (4, At::Made(0, 2), With::None, Want::Text("q")),
    (4, At::Made(1, 2), With::None, Want::Text("a")),
    (5, ROOT, With::None, Want::Nothing),
    (6, ROOT, With::None, Want::Nothing),
    (7, ROOT, With::None, Want::Nothing),
    (8, ROOT, With::None, Want::Nothing),
    (9, ROOT, With::None, Want::Nothing),
    (10, ROOT, With::None, Want::Nothing),
    (11, ROOT, With::None, Want::Nothing),
];

#[test]
fn nodes_are_there_without_a_value(rt: HostRuntime) {
    assert_eq!(rt; other_row(rt.alloc(), &AT_ZERO, &ZERO), Ok(None));
}

// Attributes by number: 0 `L.t`, 1 `P.sum`, 2 `L.total`, 3 `L.isU`, 4 `P.height`, 5 `L.isNull`.
const OVERRIDDEN: Texts<'_> = Texts {
    ast: "M ::= l:L*; L ::= <V:int>; S : L; R : S; P ::= <A:int>; U : P ::= part:P;",
    jrag: "aspect A { syn nta P L.t() = new P(getV()); eq S.t() = new U(getV() + 1, new P(10)); \
           syn int P.sum() = getA(); eq U.sum() = getA() + getpart().sum(); \
           syn int L.total() = t().sum(); syn boolean L.isU() = t() instanceof U; \
           inh int P.height(); eq L.t().height() = 1; eq S.t().height() = 5; eq U.getpart().height() = height() + 1; \
           syn boolean L.isNull() = ((S) this).t() == null; }",
    tree: "M([L(3), S(4), R(5)])",
    queries: "",
};

// The class of a node decides what its tree is, and so which nodes that has.
const OVERRIDES: [Row; 28] = [
    // the trees
    (0, At::Source(1), With::None, Want::Other),
    (0, At::Source(2), With::None, Want::Other),
    (0, At::Source(3), With::None, Want::Other),
    (1, At::Made(0, 0), With::None, Want::Int(3)),
    (1, At::Made(1, 0), With::None, Want::Int(15)),
    (1, At::Made(1, 1), With::None, Want::Int(10)),
    (1, At::Made(2, 0), With::None, Want::Int(16)),
    (1, At::Made(2, 1), With::None, Want::Int(10)),
    (4, At::Made(0, 0), With::None, Want::Int(1)),
    (4, At::Made(1, 0), With::None, Want::Int(5)),
    (4, At::Made(1, 1), With::None, Want::Int(6)),
    (4, At::Made(2, 0), With::None, Want::Int(5)),
    (4, At::Made(2, 1), With::None, Want::Int(6)),
    (2, At::Source(1), With::None, Want::Int(3)),
    (2, At::Source(2), With::None, Want::Int(15)),
    (2, At::Source(3), With::None, Want::Int(16)),
    (3, At::Source(1), With::None, Want::Truth(false)),
    (3, At::Source(2), With::None, Want::Truth(true)),
    (3, At::Source(3), With::None, Want::Truth(true)),
    (5, At::Source(1), With::None, Want::Truth(true)),
    (5, At::Source(2), With::None, Want::Truth(false)),
    // no node at a position, of another class, of another attribute, or of what is no instance itself
    (1, At::Made(0, 1), With::None, Want::Stranger),
    (1, At::Made(1, 2), With::None, Want::Stranger),
    (2, At::Made(0, 0), With::None, Want::Stranger),
    (1, At::Made(13, 0), With::None, Want::Stranger),
    (0, ROOT, With::None, Want::Stranger),
    (1, At::Made(25, 0), With::None, Want::Stranger),
    (0, At::Source(1), With::One(Given::Int(0)), Want::Stranger),
];

#[test]
fn classes_make_trees_of_their_own(rt: HostRuntime) {
    assert_eq!(rt; other_row(rt.alloc(), &OVERRIDDEN, &OVERRIDES), Ok(None));
}

// Attributes by number: 0 `N.pair`, 1 `A.depth`, 2 `B.depth`, 3 `A.own`, 4 `B.own`, 5 `N.first`, 6 `N.second`.
const TWICE: Texts<'_> = Texts {
    ast: "N ::= <K:int>; A ::= <V:int>; B ::= <W:int>; Pair ::= a:A b:B;",
    jrag: "aspect A { syn nta Pair N.pair(int x) = new Pair(new A(x), new B(x)); inh int A.depth(); inh int B.depth(); \
           eq Pair.geta().depth() = 1; eq N.pair(int y).depth() = getK() + y; \
           syn int A.own() = depth() + getV(); syn int B.own() = depth() + getW(); \
           syn int N.first() = pair(2).geta().own(); syn int N.second() = pair(2).getb().own(); }",
    tree: "N(7)",
    queries: "",
};

// Two inherited attributes of one name: the equation of one stands in the tree, that of the other above it.
const INHERITED: [Row; 16] = [
    (0, ROOT, With::One(Given::Int(2)), Want::Other),
    (1, At::Made(0, 1), With::None, Want::Int(1)),
    (2, At::Made(0, 2), With::None, Want::Int(9)),
    (3, At::Made(0, 1), With::None, Want::Int(3)),
    (4, At::Made(0, 2), With::None, Want::Int(11)),
    (5, ROOT, With::None, Want::Int(3)),
    (6, ROOT, With::None, Want::Int(11)),
    (0, ROOT, With::One(Given::Int(-3)), Want::Other),
    (1, At::Made(7, 1), With::None, Want::Int(1)),
    (2, At::Made(7, 2), With::None, Want::Int(4)),
    (3, At::Made(7, 1), With::None, Want::Int(-2)),
    (4, At::Made(7, 2), With::None, Want::Int(1)),
    (1, At::Made(0, 2), With::None, Want::Stranger),
    (2, At::Made(0, 1), With::None, Want::Stranger),
    (3, At::Made(0, 2), With::None, Want::Stranger),
    (1, At::Made(0, 0), With::None, Want::Stranger),
];

#[test]
fn inherited_attributes_of_one_name(rt: HostRuntime) {
    assert_eq!(rt; other_row(rt.alloc(), &TWICE, &INHERITED), Ok(None));
}

// Attributes by number: 0 `N.t`, 1 `N.both`, 2 `N.p`, 3 `N.sum`, 4 `N.token`, 5 `N.same`, 6 `P.from`, 7 `P.back`.
const ARGUMENTS: Texts<'_> = Texts {
    ast: "N ::= <K:int>; P ::= <W:int>; T ::= <V:int> part:P;",
    jrag: "aspect A { syn nta T N.t(int k) = new T(k, new P(k + 1)); syn int N.both(T x, P y) = x.getV() + y.getW(); \
           syn nta P N.p(T x) = new P(x.getV() + getK()); \
           syn int N.sum() = both(t(5), t(6).getpart()); syn int N.token() = p(t(5)).getW(); \
           syn boolean N.same() = p(t(5)) == p(t(5)) && p(t(5)) != p(t(6)) && p(null) != p(t(5)); \
           inh T P.from(); eq N.p(T x).from() = x; eq N.getChild().from() = null; syn int P.back() = from().getV(); }",
    tree: "N(7)",
    queries: "",
};

// Created nodes, and null, as arguments.
const GIVEN: [Row; 23] = [
    // trees, and trees that are made with one of their nodes
    (0, ROOT, With::One(Given::Int(5)), Want::Other),
    (0, ROOT, With::One(Given::Int(6)), Want::Other),
    (2, ROOT, With::One(Given::Node(At::Made(0, 0))), Want::Other),
    (2, ROOT, With::One(Given::Node(At::Made(1, 0))), Want::Other),
    (2, ROOT, With::One(Given::Node(At::Null)), Want::Other),
    (
        1,
        ROOT,
        With::Two(Given::Node(At::Made(0, 0)), Given::Node(At::Made(1, 1))),
        Want::Int(12),
    ),
    (
        1,
        ROOT,
        With::Two(Given::Node(At::Null), Given::Node(At::Made(1, 1))),
        Want::Int(7),
    ),
    (6, At::Made(2, 0), With::None, Want::Other),
    (6, At::Made(4, 0), With::None, Want::Other),
    (6, At::Made(0, 1), With::None, Want::Other),
    (7, At::Made(2, 0), With::None, Want::Int(5)),
    (7, At::Made(4, 0), With::None, Want::Int(0)),
    (7, At::Made(0, 1), With::None, Want::Int(0)),
    (3, ROOT, With::None, Want::Int(12)),
    (4, ROOT, With::None, Want::Int(12)),
    (5, ROOT, With::None, Want::Truth(true)),
    // nodes of other classes, and of no tree
    (
        1,
        ROOT,
        With::Two(Given::Node(At::Made(1, 1)), Given::Node(At::Made(0, 0))),
        Want::Stranger,
    ),
    (
        2,
        ROOT,
        With::One(Given::Node(At::Made(0, 1))),
        Want::Stranger,
    ),
    (2, ROOT, With::One(Given::Node(ROOT)), Want::Stranger),
    (
        2,
        ROOT,
        With::One(Given::Node(At::Made(0, 2))),
        Want::Stranger,
    ),
    (0, ROOT, With::One(Given::Node(At::Null)), Want::Stranger),
    (
        2,
        ROOT,
        With::One(Given::Node(At::Made(20, 0))),
        Want::Stranger,
    ),
    (2, ROOT, With::One(Given::Int(5)), Want::Stranger),
];

#[test]
fn created_nodes_as_arguments(rt: HostRuntime) {
    assert_eq!(rt; other_row(rt.alloc(), &ARGUMENTS, &GIVEN), Ok(None));
}

// Attributes by number: 0 `Group.bin`, 1 `Group.lead`, 2 `Item.target`, 3 `Bin.whole`, 4 `Bin.near`, 5 `Bin.inside`, 6 `Part.near`.
const COLLECTED: Texts<'_> = Texts {
    ast: "Top ::= group:Group*; Group ::= item:Item*; Item ::= <V:int>; Bin ::= <K:int> part:Part; Part ::= <Q:int>;",
    jrag: "aspect A { syn nta Bin Group.bin(int k) = new Bin(k, new Part(0)); inh Group Group.lead(); eq Top.getgroup().lead() = getgroup(0); \
           inh Bin Item.target(); eq Group.getitem(int i).target() = lead().bin(i == 0 ? 0 : 1); \
           coll int Bin.whole() [0] with sum; Item contributes getV() to Bin.whole() for target(); Bin contributes 100 to Bin.whole() for this; \
           coll int Bin.near() [0] with sum root Group; Item contributes getV() when getV() != 2 to Bin.near() for target(); \
           coll int Bin.inside() [0] with sum root Bin; Item contributes getV() to Bin.inside() for target(); \
           coll int Part.near() [0] with sum root Group; Item contributes 1 to Part.near() for target().getpart(); }",
    tree: "Top([Group([Item(1), Item(2), Item(4)]), Group([Item(8)])])",
    queries: "",
};

// Collections at created nodes. Items are put in bins of the first group: the first item of a group in one, the others in another.
const BINS: [Row; 18] = [
    (0, At::Source(1), With::One(Given::Int(0)), Want::Other),
    (0, At::Source(1), With::One(Given::Int(1)), Want::Other),
    (0, At::Source(5), With::One(Given::Int(0)), Want::Other),
    // of all items, of those of the group that is the owner, and of those in the tree of the bin, which none are
    (3, At::Made(0, 0), With::None, Want::Int(9)),
    (3, At::Made(1, 0), With::None, Want::Int(6)),
    (3, At::Made(2, 0), With::None, Want::Int(0)),
    (4, At::Made(0, 0), With::None, Want::Int(1)),
    (4, At::Made(1, 0), With::None, Want::Int(4)),
    (4, At::Made(2, 0), With::None, Want::Int(0)),
    (5, At::Made(0, 0), With::None, Want::Int(0)),
    (5, At::Made(1, 0), With::None, Want::Int(0)),
    (6, At::Made(0, 1), With::None, Want::Int(1)),
    (6, At::Made(1, 1), With::None, Want::Int(2)),
    (6, At::Made(2, 1), With::None, Want::Int(0)),
    (2, At::Source(2), With::None, Want::Other),
    (2, At::Source(6), With::None, Want::Other),
    (3, At::Made(0, 1), With::None, Want::Stranger),
    (6, At::Made(0, 0), With::None, Want::Stranger),
];

#[test]
fn collections_at_created_nodes(rt: HostRuntime) {
    assert_eq!(rt; other_row(rt.alloc(), &COLLECTED, &BINS), Ok(None));
}

// Attributes by number: 0 `N.t`, 1 `N.some`, 2 `N.more`, 3 `N.count`, 4 `N.common`, 5 `N.left`, 6 `N.holds`, 7 `N.large`, 8 `N.small`, 9 `T.up`, 10
// `N.ups`, 11 `N.twice`, 12 `N.a`, 13 `N.b`, 14 `N.round`, 15 `N.equal`.
const SETS: Texts<'_> = Texts {
    ast: "N ::= <K:int> own:T; T ::= <V:int>;",
    jrag: "aspect A { syn nta T N.t(int k) = new T(k); syn Set<T> N.some() = union(single(t(1)), union(single(t(3)), single(t(2)))); \
           syn Set<T> N.more() = union(single(t(2)), union(single(t(-4)), single(getown()))); \
           syn int N.count() = size(union(some(), more())); syn int N.common() = size(inter(some(), more())); \
           syn int N.left() = size(minus(some(), more())); \
           syn boolean N.holds() = contains(some(), t(2)) && !contains(some(), t(-4)) && contains(more(), t(-4)) && !contains(more(), t(3)); \
           syn boolean N.large() = any(x : some() | x.getV() == 3) && !any(x : some() | x.getV() == 9); \
           syn boolean N.small() = all(x : union(some(), more()) | x.getV() < 10); \
           syn nta T T.up() = new T(getV() + 1); syn int N.ups() = size(each(x : some() | union(single(x.up()), single(x)))); \
           syn boolean N.twice() = any(x : each(y : more() | union(single(y), single(y.up()))) | x.getV() == 10); \
           syn Set<T> N.a() circular [empty] = union(single(t(3)), b()); syn Set<T> N.b() circular [empty] = union(a(), single(t(1))); \
           syn int N.round() = size(a()); syn boolean N.equal() = size(minus(a(), b())) == 0 && contains(b(), t(3)); }",
    tree: "N(7, T(9))",
    queries: "",
};

// Sets of created nodes.
const ELEMENTS: [Row; 23] = [
    // the trees in another order than that of their names
    (0, ROOT, With::One(Given::Int(3)), Want::Other),
    (0, ROOT, With::One(Given::Int(1)), Want::Other),
    (0, ROOT, With::One(Given::Int(-4)), Want::Other),
    (0, ROOT, With::One(Given::Int(2)), Want::Other),
    (9, At::Made(3, 0), With::None, Want::Other),
    (9, At::Made(0, 0), With::None, Want::Other),
    (9, At::Made(1, 0), With::None, Want::Other),
    (9, At::Made(2, 0), With::None, Want::Other),
    (9, At::Source(1), With::None, Want::Other),
    (1, ROOT, With::None, Want::Other),
    (2, ROOT, With::None, Want::Other),
    (3, ROOT, With::None, Want::Int(5)),
    (4, ROOT, With::None, Want::Int(1)),
    (5, ROOT, With::None, Want::Int(2)),
    (6, ROOT, With::None, Want::Truth(true)),
    (7, ROOT, With::None, Want::Truth(true)),
    (8, ROOT, With::None, Want::Truth(true)),
    (10, ROOT, With::None, Want::Int(6)),
    (11, ROOT, With::None, Want::Truth(true)),
    (12, ROOT, With::None, Want::Other),
    (13, ROOT, With::None, Want::Other),
    (14, ROOT, With::None, Want::Int(2)),
    (15, ROOT, With::None, Want::Truth(true)),
];

#[test]
fn sets_of_created_nodes(rt: HostRuntime) {
    assert_eq!(rt; other_row(rt.alloc(), &SETS, &ELEMENTS), Ok(None));
}

// Attributes by number: 0 `N.big`, 1 `N.p`, 2 `Leaf.place`, 3 `Leaf.own`, 4 `Big.top`, 5 `Q.both`, 6 `P.top`, 7 `N.leaf`, 8 `N.last`, 9 `N.deep`, 10
// `N.three`.
const WIDE: Texts<'_> = Texts {
    ast: "N ::= <K:int>; Leaf ::= <V:int>; Q ::= <X:int> x:Leaf y:Leaf <Y:int>; P ::= left:Q right:Leaf <Z:int>; \
          Big ::= <S:int> a:Leaf b:Leaf c:Leaf d:Leaf e:Leaf f:Leaf g:Leaf h:Leaf i:Leaf j:Leaf k:Leaf l:Leaf m:Leaf n:Leaf o:Leaf;",
    jrag: "aspect A { syn nta Big N.big(int k) = new Big(k, new Leaf(k + 1), new Leaf(k + 2), new Leaf(k + 3), new Leaf(k + 4), new Leaf(k + 5), \
           new Leaf(k + 6), new Leaf(k + 7), new Leaf(k + 8), new Leaf(k + 9), new Leaf(k + 10), \
           new Leaf(k + 11), new Leaf(k + 12), new Leaf(k + 13), new Leaf(k + 14), new Leaf(k + 15)); \
           syn nta P N.p(int k) = new P(new Q(k, new Leaf(k + 1), new Leaf(k + 2), k + 3), new Leaf(k + 4), k + 5); \
           inh int Leaf.place(); eq Big.geta().place() = 1; eq Big.geto().place() = 15; eq Big.getChild().place() = 0; \
           eq Q.getx().place() = 2; eq P.getleft().place() = 1; eq P.getright().place() = 4; \
           syn int Leaf.own() = getV() + place(); syn int Big.top() = getS(); syn int Q.both() = 1000 * getX() + getY(); \
           syn int P.top() = getZ(); \
           syn nta Leaf N.leaf(boolean b, String s, Leaf x) = new Leaf(b ? x.getV() : getK()); \
           eq N.leaf(boolean b, String s, Leaf x).place() = s == \"s\" ? x.getV() : 3000; \
           syn int N.last() = big(100).geto().own(); syn int N.deep() = p(30).getleft().gety().own(); \
           syn int N.three() = leaf(true, \"s\", big(100).geto()).own(); }",
    tree: "N(7)",
    queries: "",
};

// Trees of many nodes and tokens.
const PLACES: [Row; 37] = [
    // sixteen nodes
    (0, ROOT, With::One(Given::Int(100)), Want::Other),
    (0, ROOT, With::One(Given::Int(200)), Want::Other),
    (2, At::Made(0, 1), With::None, Want::Int(1)),
    (2, At::Made(0, 2), With::None, Want::Int(0)),
    (2, At::Made(0, 15), With::None, Want::Int(15)),
    (2, At::Made(1, 1), With::None, Want::Int(1)),
    (2, At::Made(1, 15), With::None, Want::Int(15)),
    (3, At::Made(0, 1), With::None, Want::Int(102)),
    (3, At::Made(0, 2), With::None, Want::Int(102)),
    (3, At::Made(0, 15), With::None, Want::Int(130)),
    (3, At::Made(1, 1), With::None, Want::Int(202)),
    (3, At::Made(1, 15), With::None, Want::Int(230)),
    (4, At::Made(0, 0), With::None, Want::Int(100)),
    (4, At::Made(1, 0), With::None, Want::Int(200)),
    // children of children, and tokens between them
    (1, ROOT, With::One(Given::Int(30)), Want::Other),
    (5, At::Made(14, 1), With::None, Want::Int(30033)),
    (6, At::Made(14, 0), With::None, Want::Int(35)),
    (2, At::Made(14, 2), With::None, Want::Int(2)),
    (2, At::Made(14, 3), With::None, Want::Int(1)),
    (2, At::Made(14, 4), With::None, Want::Int(4)),
    (3, At::Made(14, 2), With::None, Want::Int(33)),
    (3, At::Made(14, 3), With::None, Want::Int(33)),
    (3, At::Made(14, 4), With::None, Want::Int(38)),
    // three arguments
    (
        7,
        ROOT,
        With::Three(
            Given::Truth(true),
            Given::Text("s"),
            Given::Node(At::Made(0, 15)),
        ),
        Want::Other,
    ),
    (
        7,
        ROOT,
        With::Three(Given::Truth(false), Given::Text(""), Given::Node(At::Null)),
        Want::Other,
    ),
    (2, At::Made(23, 0), With::None, Want::Int(115)),
    (2, At::Made(24, 0), With::None, Want::Int(3000)),
    (3, At::Made(23, 0), With::None, Want::Int(230)),
    (3, At::Made(24, 0), With::None, Want::Int(3007)),
    (8, ROOT, With::None, Want::Int(130)),
    (9, ROOT, With::None, Want::Int(33)),
    (10, ROOT, With::None, Want::Int(230)),
    (3, At::Made(0, 16), With::None, Want::Stranger),
    (4, At::Made(0, 1), With::None, Want::Stranger),
    (3, At::Made(14, 1), With::None, Want::Stranger),
    (3, At::Made(14, 5), With::None, Want::Stranger),
    (
        7,
        ROOT,
        With::Three(
            Given::Truth(true),
            Given::Text("s"),
            Given::Node(At::Made(0, 0)),
        ),
        Want::Stranger,
    ),
];

#[test]
fn nodes_and_tokens_have_places(rt: HostRuntime) {
    assert_eq!(rt; other_row(rt.alloc(), &WIDE, &PLACES), Ok(None));
}

// Attributes by number: 0 `N.start`, 1 `T.next`, 2 `T.level`, 3 `T.down`, 4 `N.ten`, 5 `N.three`, 6 `N.four`.
const DEEP: Texts<'_> = Texts {
    ast: "N ::= <K:int>; T ::= <D:int>;",
    jrag: "aspect A { syn nta T N.start() = new T(getK()); syn nta T T.next(int c) = new T(getD() + c); \
           inh int T.level(); eq N.start().level() = 1; eq T.next(int c).level() = level() + c; \
           syn int T.down(int c) = c == 0 ? getD() : next(c).down(c - 1); \
           syn int N.ten() = start().next(1).next(2).next(3).next(4).next(5).next(6).next(7).next(8).next(9).next(10).getD(); \
           syn int N.three() = start().down(3); syn int N.four() = start().down(4); }",
    tree: "N(7)",
    queries: "",
};

// Trees that are made at the roots of others.
const NESTED: [Row; 39] = [
    // trees in one another
    (0, ROOT, With::None, Want::Other),
    (1, At::Made(0, 0), With::One(Given::Int(1)), Want::Other),
    (1, At::Made(1, 0), With::One(Given::Int(2)), Want::Other),
    (1, At::Made(2, 0), With::One(Given::Int(3)), Want::Other),
    (1, At::Made(3, 0), With::One(Given::Int(4)), Want::Other),
    (1, At::Made(4, 0), With::One(Given::Int(5)), Want::Other),
    (1, At::Made(5, 0), With::One(Given::Int(6)), Want::Other),
    (1, At::Made(6, 0), With::One(Given::Int(7)), Want::Other),
    (1, At::Made(7, 0), With::One(Given::Int(8)), Want::Other),
    (1, At::Made(8, 0), With::One(Given::Int(9)), Want::Other),
    (1, At::Made(9, 0), With::One(Given::Int(10)), Want::Other),
    // what is inherited through ten owners
    (2, At::Made(0, 0), With::None, Want::Int(1)),
    (2, At::Made(1, 0), With::None, Want::Int(2)),
    (2, At::Made(2, 0), With::None, Want::Int(4)),
    (2, At::Made(3, 0), With::None, Want::Int(7)),
    (2, At::Made(4, 0), With::None, Want::Int(11)),
    (2, At::Made(5, 0), With::None, Want::Int(16)),
    (2, At::Made(6, 0), With::None, Want::Int(22)),
    (2, At::Made(7, 0), With::None, Want::Int(29)),
    (2, At::Made(8, 0), With::None, Want::Int(37)),
    (2, At::Made(9, 0), With::None, Want::Int(46)),
    (2, At::Made(10, 0), With::None, Want::Int(56)),
    // down by 3, 2 and 1
    (1, At::Made(0, 0), With::One(Given::Int(3)), Want::Other),
    (1, At::Made(22, 0), With::One(Given::Int(2)), Want::Other),
    (1, At::Made(23, 0), With::One(Given::Int(1)), Want::Other),
    (3, At::Made(24, 0), With::One(Given::Int(0)), Want::Int(13)),
    (3, At::Made(23, 0), With::One(Given::Int(1)), Want::Int(13)),
    (3, At::Made(22, 0), With::One(Given::Int(2)), Want::Int(13)),
    (3, At::Made(0, 0), With::One(Given::Int(3)), Want::Int(13)),
    (4, ROOT, With::None, Want::Int(62)),
    (5, ROOT, With::None, Want::Int(13)),
    // the tree that is made next isn't listed: no token of it has a value, but it has nodes
    (1, At::Made(0, 0), With::One(Given::Int(4)), Want::Unlisted),
    (3, At::Made(0, 0), With::One(Given::Int(4)), Want::Nothing),
    (6, ROOT, With::None, Want::Nothing),
    (3, At::Made(31, 0), With::One(Given::Int(0)), Want::Nothing),
    (2, At::Made(31, 0), With::None, Want::Int(5)),
    (1, At::Made(31, 0), With::One(Given::Int(0)), Want::Nothing),
    (2, At::Made(10, 1), With::None, Want::Stranger),
    (3, ROOT, With::One(Given::Int(3)), Want::Stranger),
];

#[test]
fn trees_at_the_roots_of_trees(rt: HostRuntime) {
    assert_eq!(rt; other_row(rt.alloc(), &DEEP, &NESTED), Ok(None));
}

// Attributes by number: 0 `N.x`, 1 `N.z`, 2 `N.y`, 3 `N.b`, 4 `N.p`, 5 `N.q`, 6 `N.r`, 7 `N.none`, 8 `C.own`, 9 `C.free`.
const LOOPS: Texts<'_> = Texts {
    ast: "M ::= n:N*; N ::= <K:int>; C ::= <Q:int>; B ::= <P:int> c:C <R:int>;",
    jrag: "aspect A { syn int N.x() = getK() == 1 ? x() : 1; syn int N.z() = getK() == 2 ? z() : 2; syn int N.y() = getK() == 3 ? y() : 3; \
           syn nta B N.b() = new B(x(), new C(z()), y()); \
           syn int N.p() = b().getP(); syn int N.q() = b().getc().getQ(); syn int N.r() = b().getR(); syn boolean N.none() = b() == null; \
           syn int C.own() = getQ(); inh int C.free(); eq B.getc().free() = 5; }",
    tree: "M([N(0), N(1), N(2), N(3)])",
    queries: "",
};

// A tree has no value where one of its tokens is asked for in a loop.
const TOKENS: [Row; 40] = [
    (3, At::Source(1), With::None, Want::Other),
    (0, At::Source(1), With::None, Want::Int(1)),
    (1, At::Source(1), With::None, Want::Int(2)),
    (2, At::Source(1), With::None, Want::Int(3)),
    (4, At::Source(1), With::None, Want::Int(1)),
    (5, At::Source(1), With::None, Want::Int(2)),
    (6, At::Source(1), With::None, Want::Int(3)),
    (7, At::Source(1), With::None, Want::Truth(false)),
    (8, At::Made(0, 1), With::None, Want::Int(2)),
    (9, At::Made(0, 1), With::None, Want::Int(5)),
    // a loop at the first token
    (3, At::Source(2), With::None, Want::Nothing),
    (0, At::Source(2), With::None, Want::Nothing),
    (1, At::Source(2), With::None, Want::Int(2)),
    (2, At::Source(2), With::None, Want::Int(3)),
    (4, At::Source(2), With::None, Want::Nothing),
    (5, At::Source(2), With::None, Want::Nothing),
    (6, At::Source(2), With::None, Want::Nothing),
    (7, At::Source(2), With::None, Want::Nothing),
    (8, At::Made(10, 1), With::None, Want::Nothing),
    (9, At::Made(10, 1), With::None, Want::Int(5)),
    // a loop at the second token
    (3, At::Source(3), With::None, Want::Nothing),
    (0, At::Source(3), With::None, Want::Int(1)),
    (1, At::Source(3), With::None, Want::Nothing),
    (2, At::Source(3), With::None, Want::Int(3)),
    (4, At::Source(3), With::None, Want::Nothing),
    (5, At::Source(3), With::None, Want::Nothing),
    (6, At::Source(3), With::None, Want::Nothing),
    (7, At::Source(3), With::None, Want::Nothing),
    (8, At::Made(20, 1), With::None, Want::Nothing),
    (9, At::Made(20, 1), With::None, Want::Int(5)),
    // a loop at the third token
    (3, At::Source(4), With::None, Want::Nothing),
    (0, At::Source(4), With::None, Want::Int(1)),
    (1, At::Source(4), With::None, Want::Int(2)),
    (2, At::Source(4), With::None, Want::Nothing),
    (4, At::Source(4), With::None, Want::Nothing),
    (5, At::Source(4), With::None, Want::Nothing),
    (6, At::Source(4), With::None, Want::Nothing),
    (7, At::Source(4), With::None, Want::Nothing),
    (8, At::Made(30, 1), With::None, Want::Nothing),
    (9, At::Made(30, 1), With::None, Want::Int(5)),
];

#[test]
fn loops_at_each_token(rt: HostRuntime) {
    assert_eq!(rt; other_row(rt.alloc(), &LOOPS, &TOKENS), Ok(None));
}
