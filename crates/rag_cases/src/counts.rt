// How many cases there were, and how many faults, and the lines that say so.
use std::alloc::AllocError;
use std::fmt::Write;

/// How many cases there were, and how many faults. Of a file that can't be read there are neither.
#[derive(Drop)]
pub(crate) struct Counts {
    cases: u32,
    faults: u32,
    unread: u32,
}

impl Counts {
    pub(crate) fn new() -> Counts {
        Counts {
            cases: 0,
            faults: 0,
            unread: 0,
        }
    }

    /// Those of a file that can't be read.
    pub(crate) fn of_unread() -> Counts {
        Counts {
            cases: 0,
            faults: 0,
            unread: 1,
        }
    }

    pub(crate) fn are_well(&self) -> bool {
        self.faults == 0 && self.unread == 0
    }

    pub(crate) fn note_fault(&mut self) {
        self.faults = self.faults.saturating_add(1);
    }

    pub(crate) fn note_case(&mut self) {
        self.cases = self.cases.saturating_add(1);
    }

    /// Adds those of a file.
    pub(crate) fn add(&mut self, file: &Counts) {
        self.cases = self.cases.saturating_add(file.cases);
        self.faults = self.faults.saturating_add(file.faults);
        self.unread = self.unread.saturating_add(file.unread);
    }

    /// The line of a file.
    pub(crate) fn tell_file(&self, name: &str, report: &mut String) -> Result<(), AllocError> {
        let (cases, faults) = (self.cases, self.faults);
        if self.unread > 0 {
            writeln!(report, "{name}: can't be read")
        } else if self.are_well() {
            writeln!(report, "{name}: {cases} cases as expected")
        } else {
            writeln!(report, "{name}: {faults} faults in {cases} cases")
        }
    }

    /// The last line.
    pub(crate) fn tell_all(&self, report: &mut String) -> Result<(), AllocError> {
        let Counts {
            cases,
            faults,
            unread,
        } = *self;
        if self.are_well() {
            writeln!(report, "{cases} cases as expected")
        } else {
            writeln!(
                report,
                "{faults} faults in {cases} cases, {unread} files that can't be read"
            )
        }
    }
}
