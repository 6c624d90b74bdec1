// Runs as the gate, the shelf and the sink see them, and runs over long files.
ghost use Rattle.std.specs.Prelude.{◌≡◌, IfOk};
ghost use Rattle.std.specs.String.{string_bytes};

use crate::programs::{Long, NOTHING, Texts, long_text};
use broken_rules::ReadFault;
use query_runner::run;
use rag_io::{FetchFault, Gate, MemoryShelf, MemorySink, PutFault, Shelf, Sink};
use std::alloc::{AllocError, Global};
use std::sync::atomic::{AtomicU64, Ordering};
use std::thread::Threads;

// How many bytes an output may have.
const ROOM: u32 = 200_000;

// Counts the replies, and those that came out of order or from another caller.
#[derive(Drop)]
struct CountingGate {
    replies: AtomicU64,
    strays: AtomicU64,
}

impl Gate for CountingGate {
    fn reached(&self, caller: u32, reply: u32) {
        let before = self.replies.fetch_add(1, Ordering::SeqCst);
        if caller != 0 || u64::from(reply) != before {
            self.strays.fetch_add(1, Ordering::SeqCst);
        }
    }
}

fn file(alloc: Global, name: &str, text: &str) -> Result<(String, Vec<u8>), AllocError>
    ensures { IfOk result (λ file. string_bytes file.0 ≡ name.now) }
{
    Ok((
        String::from_str(alloc, name)?,
        Vec::from_slice(alloc, text.as_bytes())?,
    ))
}

// A shelf that holds these texts, and of whose fetches some fail.
fn shelf_of(alloc: Global, texts: &Texts<'_>, fails: Vec<u32>) -> Result<MemoryShelf, AllocError> {
    let mut files = Vec::new(alloc);
    files.push(file(alloc, "g.ast", texts.ast)?)?;
    files.push(file(alloc, "a.jrag", texts.jrag)?)?;
    files.push(file(alloc, "t.tree", texts.tree)?)?;
    files.push(file(alloc, "q.txt", texts.queries)?)?;
    Ok(MemoryShelf::new(files, fails))
}

// The words between blanks.
fn words_of(alloc: Global, line: &str) -> Result<Vec<String>, AllocError> {
    let mut words = Vec::new(alloc);
    for word in line.split_ascii_whitespace() {
        words.push(String::from_str(alloc, word)?)?;
    }
    Ok(words)
}

// A run of the program over four files: how long they are together at least; the put that fails, and after how many bytes; the status, what is written,
// and how many replies the gate is told of.
struct Run {
    line: &'static str,
    ast: &'static str,
    jrag: Long<'static>,
    tree: Long<'static>,
    queries: Long<'static>,
    bytes: usize,
    fails: (u32, u32),
    status: u8,
    written: Long<'static>,
    replies: u64,
}

// A put that there isn't.
const NEVER: (u32, u32) = (4294967295, 0);

const RUN: &str = "run g.ast a.jrag t.tree q.txt";

const CHECK: &str = "check g.ast a.jrag";

const NODE: Long<'_> = Long {
    head: "N()",
    ..NOTHING
};

const LEAST: Long<'_> = Long {
    head: "aspect A { syn int N.v() = -2147483647 - 1; }",
    ..NOTHING
};

const SEVEN: Long<'_> = Long {
    head: "aspect A { syn int N.v() = 7; }",
    ..NOTHING
};

// Replies of 65,544 bytes together.
const LEAST_REPLIES: Long<'_> = Long {
    part: "@0.v()\n",
    times: 5_462,
    ..NOTHING
};

const RUNS: [Run; 8] = [
    Run {
        line: RUN,
        ast: "N;",
        jrag: Long {
            head: "aspect A { syn int N.v() = 5; }",
            ..NOTHING
        },
        tree: NODE,
        queries: Long {
            head: "@0.v()\n@0.v()\n@0.v()\n",
            ..NOTHING
        },
        bytes: 0,
        fails: NEVER,
        status: 0,
        written: Long {
            head: "5\n5\n5\n",
            ..NOTHING
        },
        replies: 3,
    },
    // Pieces of 65,536 bytes are put, all of them, and where the second one fails after three bytes.
    Run {
        line: RUN,
        ast: "N;",
        jrag: LEAST,
        tree: NODE,
        queries: LEAST_REPLIES,
        bytes: 38_234,
        fails: NEVER,
        status: 0,
        written: Long {
            part: "-2147483648\n",
            times: 5_462,
            ..NOTHING
        },
        replies: 5_462,
    },
    Run {
        line: RUN,
        ast: "N;",
        jrag: LEAST,
        tree: NODE,
        queries: LEAST_REPLIES,
        bytes: 38_234,
        fails: (1, 3),
        status: 6,
        written: Long {
            part: "-2147483648\n",
            middle: "-214748",
            times: 5_461,
            ..NOTHING
        },
        replies: 5_462,
    },
    // A query behind 65,535 lines, and behind 65,536.
    Run {
        line: RUN,
        ast: "N;",
        jrag: SEVEN,
        tree: NODE,
        queries: Long {
            part: "\n",
            middle: "@0.v()",
            times: 65_535,
            ..NOTHING
        },
        bytes: 65_541,
        fails: NEVER,
        status: 0,
        written: Long {
            head: "7\n",
            ..NOTHING
        },
        replies: 1,
    },
    Run {
        line: RUN,
        ast: "N;",
        jrag: SEVEN,
        tree: NODE,
        queries: Long {
            part: "\n",
            middle: "@0.v()",
            times: 65_536,
            ..NOTHING
        },
        bytes: 65_542,
        fails: NEVER,
        status: 1,
        written: Long {
            head: "q.txt: not built\n",
            ..NOTHING
        },
        replies: 0,
    },
    // A text too many in aspects: an equation for each number, on a line of its own.
    Run {
        line: CHECK,
        ast: "N;",
        jrag: Long {
            head: "aspect A {\n",
            part: "eq N.v() = \"#\";\n",
            middle: "}",
            times: 65_536,
            ..NOTHING
        },
        tree: NOTHING,
        queries: NOTHING,
        bytes: 1_000_000,
        fails: NEVER,
        status: 1,
        written: Long {
            head: "a.jrag:65537:12: J17\n",
            ..NOTHING
        },
        replies: 0,
    },
    // A text too many in a tree: a node with two texts for each number, on a line of its own.
    Run {
        line: "tree g.ast t.tree",
        ast: "P ::= L*; L ::= <T:String> <U:String>;",
        jrag: NOTHING,
        tree: Long {
            head: "P([",
            part: "\nL(\"#\", \"-#\"),",
            middle: "\nL(\"\", \"\")])",
            times: 32_768,
            ..NOTHING
        },
        queries: NOTHING,
        bytes: 500_000,
        fails: NEVER,
        status: 1,
        written: Long {
            head: "t.tree:32769:12: N7\n",
            ..NOTHING
        },
        replies: 0,
    },
    // A long file has all its items: an attribute of N for each number, and an equation for it at each of three subclasses.
    Run {
        line: CHECK,
        ast: "abstract N ::= N*; K : N; L : N; M : N;",
        jrag: Long {
            head: "aspect A {\n",
            part: "  syn int N.a#();\n  \
                   eq K.a#() = first(n : getNList() | n.a#() == # && n != null) == this ? 1 : 0;\n  \
                   eq L.a#() = first(n : getNList() | n.a#() == # && n != null) == this ? 1 : 0;\n  \
                   eq M.a#() = first(n : getNList() | n.a#() == # && n != null) == this ? 1 : 0;\n",
            middle: "}\n",
            times: 1_000,
            ..NOTHING
        },
        tree: NOTHING,
        queries: NOTHING,
        bytes: 262_145,
        fails: NEVER,
        status: 0,
        written: Long {
            head: "ok: 4 classes, 1000 attributes, 3000 equations, 0 contributions\n",
            ..NOTHING
        },
        replies: 0,
    },
];

// The shelf of a run, and how many bytes it has.
fn shelf_of_run(alloc: Global, row: &Run) -> Result<(MemoryShelf, usize), AllocError> {
    let jrag = long_text(alloc, &row.jrag)?;
    let tree = long_text(alloc, &row.tree)?;
    let queries = long_text(alloc, &row.queries)?;
    let texts = Texts {
        ast: row.ast,
        jrag: jrag.as_str(),
        tree: tree.as_str(),
        queries: queries.as_str(),
    };
    let bytes = jrag
        .len()
        .saturating_add(tree.len())
        .saturating_add(queries.len());
    Ok((shelf_of(alloc, &texts, Vec::new(alloc))?, bytes))
}

// Whether a run over such a shelf ends as it is to.
fn is_run<R: Threads + Sync>(
    rt: &R,
    alloc: Global,
    row: &Run,
    shelf: &mut MemoryShelf,
) -> Result<bool, ReadFault> {
    let words = words_of(alloc, row.line)?;
    let mut sink = MemorySink::with_room(alloc, ROOM, vec![in alloc; row.fails]?)?;
    let gate = CountingGate {
        replies: AtomicU64::new(0),
        strays: AtomicU64::new(0),
    };
    let status = run(rt, alloc, &words, shelf, &mut sink, &gate);
    let written = long_text(alloc, &row.written)?;
    let replies = gate.replies.load(Ordering::SeqCst);
    let strays = gate.strays.load(Ordering::SeqCst);
    let found = (status, replies, strays);
    Ok(found == (row.status, row.replies, 0) && sink.taken() == written.as_bytes())
}

// The first run that ends otherwise.
fn other_run<R: Threads + Sync>(rt: &R, alloc: Global) -> Result<Option<usize>, ReadFault> {
    for (k, row) in RUNS.iter().enumerate() {
        let (mut shelf, bytes) = shelf_of_run(alloc, row)?;
        if bytes < row.bytes || !is_run(rt, alloc, row, &mut shelf)? {
            return Ok(Some(k));
        }
    }
    Ok(None)
}

#[test]
fn runs_end_as_they_are_to(rt: HostRuntime) {
    assert_eq!(rt; other_run(&rt, rt.alloc()), Ok(None));
}

// What is fetched in turn, where the second fetch fails: the answer, and the bytes.
const FETCHES: [(&str, Result<(), FetchFault>, &[u8]); 4] = [
    ("g.ast", Ok(()), b"N;"),
    ("g.ast", Err(FetchFault::Failed), b""),
    ("b.jrag", Err(FetchFault::Failed), b""),
    ("a.jrag", Ok(()), b""),
];

// What is put, in turn, and what the sink has taken then: it has room for 10 bytes, and the second put and the fourth fail.
const PUTS: [(&str, Result<(), PutFault>, &str); 6] = [
    ("abc", Ok(()), "abc"),
    ("defg", Err(PutFault::Failed), "abcde"),
    ("fgh", Ok(()), "abcdefgh"),
    ("i", Err(PutFault::Failed), "abcdefghi"),
    ("jk", Err(PutFault::Failed), "abcdefghij"),
    ("", Ok(()), "abcdefghij"),
];

const FILES: Texts<'_> = Texts {
    ast: "N;",
    jrag: "",
    tree: "N()",
    queries: "",
};

// The first of these fetches that comes out otherwise.
fn other_fetch(alloc: Global) -> Result<Option<usize>, AllocError> {
    let fails = Vec::from_slice(alloc, &[1u32])?;
    let mut shelf = shelf_of(alloc, &FILES, fails)?;
    for (k, (name, answer, bytes)) in FETCHES.iter().enumerate() {
        let mut into = Vec::new(alloc);
        let found = shelf.fetch(name, &mut into);
        if found != *answer || into.as_slice() != *bytes {
            return Ok(Some(k));
        }
    }
    Ok(None)
}

// The first of these puts that comes out otherwise.
fn other_put(alloc: Global) -> Result<Option<usize>, ReadFault> {
    let fails = Vec::from_slice(alloc, &[(1u32, 2u32), (3, 50)])?;
    let mut sink = MemorySink::with_room(alloc, 10, fails)?;
    for (k, (piece, answer, taken)) in PUTS.iter().enumerate() {
        let found = sink.put(piece.as_bytes());
        if found != *answer || sink.taken() != taken.as_bytes() {
            return Ok(Some(k));
        }
    }
    Ok(None)
}

#[test]
fn fetches_and_puts_fail_as_planned(rt: HostRuntime) {
    let found = (other_fetch(rt.alloc()), other_put(rt.alloc()));
    assert_eq!(rt; found, (Ok(None), Ok(None)));
}
