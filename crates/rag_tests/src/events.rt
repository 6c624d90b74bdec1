// Readings of aspects, event by event.
use broken_rules::{ReadFault, Rule};
use jrag_syntax::{Start, push_events};
use rag_io::LONGEST_FILE;
use sentences::tokens_of;
use std::alloc::Global;
use std::fmt::Write;

// The actions of a text, by their numbers, and `.` for each token.
fn events_said(alloc: Global, text: &str) -> Result<String, ReadFault> {
    if text.len() > LONGEST_FILE {
        return Err(ReadFault::Memory);
    }
    let tokens = tokens_of(alloc, text.as_bytes(), Rule::J1)?;
    let mut events = Vec::new(alloc);
    let _ = push_events(alloc, &tokens, Start::File, &mut events);
    let mut said = String::new(alloc);
    for event in &events {
        if *event == 255 {
            said.push('.')?;
        } else {
            write!(said, "{event} ")?;
        }
    }
    Ok(said)
}

const EVENTS: [(&str, &str); 5] = [
    (
        "aspect A { syn lazy Set<N> N.v(int i) circular [empty] = w(i); }",
        "26 ..3 .27 ..36 38 ....41 .3 ..3 ..40 .3 43 ...1 .4 2 .45 .1 .3 ..3 8 .10 2 47 .30 28 .29 .",
    ),
    (
        "aspect A { eq N.getM(int i).v() = this; }",
        "26 ..3 .27 ..3 ..3 ..40 .3 43 ...3 .42 .49 .1 .4 2 .32 28 .29 .",
    ),
    (
        "aspect A { coll int N.v() [0] with add root P; }",
        "26 ..3 .27 ..40 .3 ..3 ...1 .4 2 ...3 51 ..3 53 .33 28 .29 .",
    ),
    (
        "aspect A { N contributes 1 when true to M.v() for x; }",
        "26 ..3 .27 .3 .1 .4 2 .1 .4 2 55 ..3 ..3 ...1 .3 2 .34 28 .29 .",
    ),
    // The text breaks off: what was said before.
    (
        "aspect A { syn int N.v() = 1 + ; }",
        "26 ..3 .27 .37 .40 .3 ..3 .42 .46 .1 .4 .",
    ),
];

// The first text with other events.
fn other_events(alloc: Global) -> Result<Option<&'static str>, ReadFault> {
    for row in &EVENTS {
        let (text, want) = *row;
        let said = events_said(alloc, text)?;
        if said.as_str() != want {
            return Ok(Some(text));
        }
    }
    Ok(None)
}

#[test]
fn events_are_the_actions_and_tokens_in_order(rt: HostRuntime) {
    assert_eq!(rt; other_events(rt.alloc()), Ok(None));
}
