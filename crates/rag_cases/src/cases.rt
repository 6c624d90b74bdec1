// The cases of a file, and what is said of those that give something else.
use crate::counts::Counts;
use crate::outcome::{Outcome, outcome_of};
use crate::rows::{Case, Row, number_in, row_of};
use std::alloc::{AllocError, Global};
use std::fmt::Write;
use std::thread::Threads;

// Where a case begins, and its title.
#[derive(Clone, Copy)]
struct Heading<'a> {
    file: &'a str,
    line: u32,
    title: &'a str,
}

// What was read of a file: the number of its lines, the rows for all cases, the case that was begun last, and the titles.
#[derive(Drop)]
struct Reading<'a> {
    file: &'a str,
    lines: u32,
    common: Vec<Row<'a>>,
    own: Vec<Row<'a>>,
    heading: Option<Heading<'a>>,
    above: &'a [u8],
    titles: Vec<&'a [u8]>,
}

impl<'a> Reading<'a> {
    fn new(alloc: Global, file: &'a str) -> Reading<'a> {
        Reading {
            file,
            lines: 0,
            common: Vec::new(alloc),
            own: Vec::new(alloc),
            heading: None,
            above: b"",
            titles: Vec::new(alloc),
        }
    }

    // Begins a case. Says whether it is the first one with this title.
    fn begin(&mut self, title: &'a [u8]) -> Result<bool, AllocError> {
        let is_new = !self.titles.iter().any(|other| *other == title);
        self.titles.push(title)?;
        self.own.clear();
        self.above = b"";
        self.heading = Some(Heading {
            file: self.file,
            line: self.lines,
            title: str::from_utf8(title).unwrap_or("?"),
        });
        Ok(is_new)
    }

    // Adds a row to the case, or to those for all cases.
    fn add(&mut self, row: Row<'a>) -> Result<(), AllocError> {
        self.above = row.name;
        if self.heading.is_some() {
            self.own.push(row)?;
        } else {
            self.common.push(row)?;
        }
        Ok(())
    }

    // A fault at the line that was read last.
    fn tell(&self, what: &str, counts: &mut Counts, report: &mut String) -> Result<(), AllocError> {
        let (file, line) = (self.file, self.lines);
        counts.note_fault();
        writeln!(report, "{file}:{line}: {what}")
    }
}

// Says what a case gave in place of what it is to give.
fn tell_other(
    report: &mut String,
    heading: Heading<'_>,
    status: &str,
    want: &[u8],
    got: &Outcome,
) -> Result<(), AllocError> {
    let Heading { file, line, title } = heading;
    let (want, ended, output) = (want.escape_ascii(), got.status, got.output.escape_ascii());
    writeln!(
        report,
        "{file}:{line}: {title}: expected {status} \"{want}\", got {ended} \"{output}\""
    )
}

// Runs a case, and compares.
fn check_case<R: Threads + Sync>(
    rt: &R,
    alloc: Global,
    heading: Heading<'_>,
    case: Case<'_>,
    counts: &mut Counts,
    report: &mut String,
) -> Result<(), AllocError> {
    let Some(status) = case.status_name() else {
        let Heading { file, line, title } = heading;
        counts.note_fault();
        return writeln!(
            report,
            "{file}:{line}: {title}: no expected output, or of two statuses"
        );
    };
    let want = case.bytes_of(alloc, status)?;
    let got = outcome_of(rt, alloc, case)?;
    if number_in(status) == Some(u32::from(got.status)) && want == got.output {
        return Ok(());
    }
    counts.note_fault();
    let status = str::from_utf8(status).unwrap_or("");
    tell_other(report, heading, status, &want, &got)
}

// Checks the case that was begun last, if one was.
fn finish<R: Threads + Sync>(
    rt: &R,
    alloc: Global,
    reading: &Reading<'_>,
    counts: &mut Counts,
    report: &mut String,
) -> Result<(), AllocError> {
    let Some(heading) = reading.heading else {
        return Ok(());
    };
    let case = Case {
        common: &reading.common,
        own: &reading.own,
    };
    counts.note_case();
    check_case(rt, alloc, heading, case, counts, report)
}

// A line that is neither blank nor a remark.
fn says_something(line: &[u8]) -> bool {
    !line.trim_ascii().is_empty() && !line.starts_with(b"#")
}

// Reads a line that begins no case.
fn read_row<'a>(
    line: &'a [u8],
    reading: &mut Reading<'a>,
    counts: &mut Counts,
    report: &mut String,
) -> Result<(), AllocError> {
    if !says_something(line) {
        return Ok(());
    }
    match row_of(line, reading.above) {
        Some(row) => reading.add(row),
        None => reading.tell("no row", counts, report),
    }
}

// Reads a line. One that begins a case ends the case before it, which is checked then.
fn read_line<'a, R: Threads + Sync>(
    rt: &R,
    alloc: Global,
    line: &'a [u8],
    reading: &mut Reading<'a>,
    counts: &mut Counts,
    report: &mut String,
) -> Result<(), AllocError> {
    let Some(title) = line.strip_prefix(b"== ") else {
        return read_row(line, reading, counts, report);
    };
    finish(rt, alloc, reading, counts, report)?;
    if reading.begin(title)? {
        Ok(())
    } else {
        reading.tell("a title that stands above", counts, report)
    }
}

/// Checks the cases of a file.
pub(crate) fn check_file<'a, R: Threads + Sync>(
    rt: &R,
    alloc: Global,
    file: &'a str,
    text: &'a [u8],
    report: &mut String,
) -> Result<Counts, AllocError> {
    let mut counts = Counts::new();
    let mut reading = Reading::new(alloc, file);
    for line in text.split(|byte| *byte == b'\n') {
        reading.lines = reading.lines.saturating_add(1);
        read_line(rt, alloc, line, &mut reading, &mut counts, report)?;
    }
    finish(rt, alloc, &reading, &mut counts, report)?;
    if reading.titles.is_empty() {
        reading.tell("no case", &mut counts, report)?;
    }
    Ok(counts)
}
