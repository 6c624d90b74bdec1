// The rows of a case: a name, a mark and a text.
pub(crate) use crate::texts::number_in;
use crate::texts::{is_coded, is_often, push_coded, push_often};
use std::alloc::{AllocError, Global};

// The names that a case has for its files.
const FILES: [&str; 4] = ["g.ast", "a.jrag", "t.tree", "q.txt"];

/// A row. A row that has no name of its own has that of the row above.
#[derive(Clone, Copy)]
pub(crate) struct Row<'a> {
    pub(crate) name: &'a [u8],
    pub(crate) mark: u8,
    pub(crate) text: &'a [u8],
}

impl Row<'_> {
    // Whether it says what is to be written: its name is a status then.
    fn is_expected(&self) -> bool {
        is_number(self.name)
    }
}

/// The rows of a case, and those that all cases of its file have where they have none of that name themselves.
#[derive(Clone, Copy)]
pub(crate) struct Case<'a> {
    pub(crate) common: &'a [Row<'a>],
    pub(crate) own: &'a [Row<'a>],
}

fn is_mark(byte: u8) -> bool {
    b"|%*$>=!".contains(&byte)
}

fn is_file(name: &[u8]) -> bool {
    FILES.iter().any(|file| file.as_bytes() == name)
}

fn is_number(name: &[u8]) -> bool {
    !name.is_empty() && name.iter().all(|byte| byte.is_ascii_digit())
}

// Whether a row of that name can have that mark and that text.
fn is_fit(row: Row<'_>) -> bool {
    match row.mark {
        b'|' => is_file(row.name),
        b'%' => (is_file(row.name) || is_number(row.name)) && is_coded(row.text),
        b'*' => is_file(row.name) && is_often(row.text),
        b'>' | b'=' => is_number(row.name),
        b'$' => row.name == b"$".as_slice(),
        _ => (row.name == b"fetch".as_slice() || row.name == b"put".as_slice())
            && is_number(row.text),
    }
}

/// The row that a line is, where it is one. `above` is the name of the row above.
pub(crate) fn row_of<'a>(line: &'a [u8], above: &'a [u8]) -> Option<Row<'a>> {
    let at = line.iter().position(|byte| is_mark(*byte))?;
    let (before, rest) = line.split_at(at);
    let (mark, after) = rest.split_first()?;
    let own = before.trim_ascii();
    let name: &[u8] = match *mark {
        b'$' => b"$",
        _ if own.is_empty() => above,
        _ => own,
    };
    let row = Row {
        name,
        mark: *mark,
        text: after.strip_prefix(b" ").unwrap_or(after),
    };
    if is_fit(row) { Some(row) } else { None }
}

// Adds what a row says.
fn push_row(into: &mut Vec<u8>, row: Row<'_>) -> Result<(), AllocError> {
    match row.mark {
        b'%' => push_coded(into, row.text),
        b'*' => push_often(into, row.text),
        _ => into.extend_from_slice(row.text),
    }
}

// The name of all rows with an expected output, where they have one name: a number, the status.
fn status_in<'a>(rows: &[Row<'a>]) -> Option<&'a [u8]> {
    let first = rows.iter().find(|row| row.is_expected())?;
    let is_one = rows
        .iter()
        .all(|row| !row.is_expected() || row.name == first.name);
    if is_one { Some(first.name) } else { None }
}

impl<'a> Case<'a> {
    // The rows among which those of that name are.
    fn rows(self, name: &[u8]) -> &'a [Row<'a>] {
        if self.own.iter().any(|row| row.name == name) {
            self.own
        } else {
            self.common
        }
    }

    /// The bytes that rows of that name say: a line feed between each two of a file, and one behind each line of an output.
    pub(crate) fn bytes_of(self, alloc: Global, name: &[u8]) -> Result<Vec<u8>, AllocError> {
        let mut bytes = Vec::new(alloc);
        let mut is_first = true;
        for row in self.rows(name) {
            if row.name == name {
                if !is_first && !row.is_expected() {
                    bytes.push(b'\n')?;
                }
                push_row(&mut bytes, *row)?;
                if row.is_expected() && row.mark != b'=' {
                    bytes.push(b'\n')?;
                }
                is_first = false;
            }
        }
        Ok(bytes)
    }

    /// The text of the first row of that name.
    pub(crate) fn first_text(self, name: &[u8]) -> Option<&'a [u8]> {
        let row = self.rows(name).iter().find(|row| row.name == name)?;
        Some(row.text)
    }

    /// The status that the case is to end with, as it is written; none where no row or rows of two statuses say it.
    pub(crate) fn status_name(self) -> Option<&'a [u8]> {
        if self.own.iter().any(|row| row.is_expected()) {
            status_in(self.own)
        } else {
            status_in(self.common)
        }
    }
}
