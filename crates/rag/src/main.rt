//! Evaluates circular reference attribute grammars: reads a grammar, aspects, a tree and queries, and writes one
//! line for each query.
#![tactic(auto)]

use query_runner::run;
use rag_io::{FileShelf, Gate, StdSink};
use std::alloc::{AllocError, Global};
use std::env;
use std::io::ErrorKind;
use std::process::ExitCode;
use std::rt::Env;

// Nobody watches the replies of the program.
struct IdleGate;

impl Gate for IdleGate {
    fn reached(&self, _caller: u32, _reply: u32) {}
}

// The words after the program's name; none where one of them is no text.
fn words_of<R: Env + AllocGlobal>(rt: &R, alloc: Global) -> Result<Vec<String>, AllocError> {
    let mut words = Vec::new(alloc);
    match env::args(rt) {
        Ok(args) => {
            for word in args.skip(1) {
                words.push(word)?;
            }
        }
        Err(fault) if fault.kind() == ErrorKind::OutOfMemory => return Err(AllocError),
        Err(_) => {}
    }
    Ok(words)
}

fn main(rt: HostRuntime) -> ExitCode {
    let alloc = rt.alloc();
    let Ok(words) = words_of(&rt, alloc) else {
        return ExitCode::from(3);
    };
    let mut shelf = FileShelf::new(&rt);
    let mut sink = StdSink::new(&rt);
    ExitCode::from(run(&rt, alloc, &words, &mut shelf, &mut sink, &IdleGate))
}
