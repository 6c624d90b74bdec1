//! Runs cases that stand as text: a grammar, aspects, a tree and queries, the words of a command, and the status and the output that
//! the program is to end with.
//!
//! The words are the names of files of cases, and `data/README.md` says how these are written. One line is printed for each fault,
//! one for each file, and one for all of them.
#![tactic(auto)]

mod cases;
mod counts;
mod outcome;
mod rows;
mod texts;

use cases::check_file;
use counts::Counts;
use rag_io::{FileShelf, Shelf};
use std::alloc::{AllocError, Global};
use std::process::ExitCode;
use std::rt::{Env, Files};
use std::thread::Threads;
use std::{env, io};

// The words after the program's name.
fn words_of<R: Env + AllocGlobal>(rt: &R, alloc: Global) -> Result<Vec<String>, AllocError> {
    let mut words = Vec::new(alloc);
    if let Ok(args) = env::args(rt) {
        for word in args.skip(1) {
            words.push(word)?;
        }
    }
    Ok(words)
}

// Checks the cases of the file of that name.
fn check_named<R: Threads + Sync + Files>(
    rt: &R,
    alloc: Global,
    name: &str,
    report: &mut String,
) -> Result<Counts, AllocError> {
    let mut text = Vec::new(alloc);
    if FileShelf::new(rt).fetch(name, &mut text).is_ok() {
        check_file(rt, alloc, name, &text, report)
    } else {
        Ok(Counts::of_unread())
    }
}

// Checks the cases of all files, and says what there is to say of them.
fn check_all<R: Threads + Sync + Files + Env + AllocGlobal>(
    rt: &R,
    alloc: Global,
    report: &mut String,
) -> Result<Counts, AllocError> {
    let words = words_of(rt, alloc)?;
    let mut all = Counts::new();
    for name in &words {
        let counts = check_named(rt, alloc, name, report)?;
        counts.tell_file(name, report)?;
        all.add(&counts);
    }
    all.tell_all(report)?;
    Ok(all)
}

fn main(rt: HostRuntime) -> io::Result<ExitCode> {
    let alloc = rt.alloc();
    let mut report = String::new(alloc);
    let Ok(counts) = check_all(&rt, alloc, &mut report) else {
        return Ok(ExitCode::from(3));
    };
    print!(rt; "{report}")?;
    Ok(ExitCode::from(if counts.are_well() { 0 } else { 1 }))
}
