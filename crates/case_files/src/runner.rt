//! Running files of rows, and telling what differs.

use crate::compared::{Place, put_place};
use crate::folder::CaseFile;
use crate::row::{Row, read_row};
use crate::texts::Texts;
use crate::told::Told;
use input_text::{Line, Lines, is_skipped};
use std::alloc::{AllocError, Global};

/// What the rows of a file are about: its calls, and the state that they change from row to row.
pub trait Subject {
    /// Tells what the call of a row comes to, or refuses the row.
    fn tell(&mut self, told: &mut Told, alloc: Global, word: &str, argument: &[u8]);
}

/// How a file's rows came out.
#[derive(Clone, Copy)]
struct Count {
    rows: u64,
    differing: u64,
}

impl Count {
    /// No row yet.
    fn nothing() -> Count {
        Count {
            rows: 0,
            differing: 0,
        }
    }
}

/// Compares rows, and keeps what is printed.
#[derive(Drop)]
pub struct Runner {
    alloc: Global,
    texts: Texts,
    /// How many texts are for all files.
    shared: usize,
    told: Told,
    count: Count,
    out: String,
    failed: bool,
}

impl Runner {
    /// No text, and nothing compared.
    pub fn new(alloc: Global) -> Runner {
        Runner {
            alloc,
            texts: Texts::new(alloc),
            shared: 0,
            told: Told::new(alloc),
            count: Count::nothing(),
            out: String::new(alloc),
            failed: false,
        }
    }

    /// The allocator of all that is told.
    pub fn alloc(&self) -> Global {
        self.alloc
    }

    /// Whether something differed.
    pub fn has_failed(&self) -> bool {
        self.failed
    }

    /// All lines to print.
    pub fn printed(&self) -> &str {
        self.out.as_str()
    }

    /// Prints a line of a file's name and what came of it.
    pub fn line(&mut self, file: &CaseFile, what: &str) -> Result<(), AllocError> {
        let name = file.name();
        writeln!(self.out, "{name} {what}")
    }

    /// Prints what is wrong in a file, which the program then fails for.
    pub fn fail(&mut self, file: &CaseFile, line: usize, what: &str) -> Result<(), AllocError> {
        self.failed = true;
        let place = Place {
            file: file.name(),
            line,
        };
        put_place(&mut self.out, place, "fails", what.as_bytes())
    }

    /// Runs the rows of a file. Where its ending is `differ`, each row has to differ, which shows that rows are compared.
    pub fn rows<S: Subject>(&mut self, file: &CaseFile, subject: &mut S) -> Result<(), AllocError> {
        let alloc = self.alloc;
        for line in Lines::new(file.bytes()) {
            if let Some(row) = self.row(file, line)? {
                subject.tell(self.told(), alloc, row.word(), row.argument());
                self.compare(file, line.number, &row)?;
            }
        }
        self.end(file)
    }

    /// The row of a line. None where the line is skipped or names a text, and where it is no row, which is printed.
    pub fn row<'a>(
        &mut self,
        file: &CaseFile,
        line: Line<'a>,
    ) -> Result<Option<Row<'a>>, AllocError> {
        if is_skipped(line.text) {
            return Ok(None);
        }
        let place = Place {
            file: file.name(),
            line: line.number,
        };
        if let Some(text) = line.text.strip_prefix(b"let ") {
            self.name_text(place, text)?;
            return Ok(None);
        }
        let row = read_row(self.alloc, &self.texts, line.text)?;
        if row.is_none() {
            self.wrong(place, "no row", line.text)?;
        }
        Ok(row)
    }

    /// Where the call of the next row is told; nothing is told yet.
    pub fn told(&mut self) -> &mut Told {
        self.told.clear();
        &mut self.told
    }

    /// Compares what was told with what the row at a line says; where it should be the same and is not, that is printed.
    pub fn compare(
        &mut self,
        file: &CaseFile,
        line: usize,
        row: &Row<'_>,
    ) -> Result<(), AllocError> {
        let place = Place {
            file: file.name(),
            line,
        };
        let equal = self.judge(place, row, file.ending() == "differ")?;
        self.count = Count {
            rows: self.count.rows.saturating_add(1),
            differing: self.count.differing.saturating_add(u64::from(!equal)),
        };
        Ok(())
    }

    /// Forgets the texts of a file and prints how many rows it had.
    pub fn end(&mut self, file: &CaseFile) -> Result<(), AllocError> {
        let count = self.count;
        self.count = Count::nothing();
        self.texts.truncate(self.shared);
        self.counted(file, file.ending() == "differ", count)
    }

    /// Takes a text and its name.
    fn name_text(&mut self, place: Place<'_>, text: &[u8]) -> Result<(), AllocError> {
        if self.texts.take(text)?.is_none() {
            self.wrong(place, "no text of that form", text)?;
        }
        Ok(())
    }

    /// Whether what was told is the row's outcome.
    fn judge(&mut self, place: Place<'_>, row: &Row<'_>, differ: bool) -> Result<bool, AllocError> {
        if self.told.is_refused() {
            self.failed = true;
            put_place(
                &mut self.out,
                place,
                "not understood",
                row.word().as_bytes(),
            )?;
            return Ok(true);
        }
        let equal = self.told.as_slice() == row.outcome();
        if equal == differ {
            self.failed = true;
            put_place(&mut self.out, place, "wanted", row.outcome())?;
            put_place(&mut self.out, place, "told", self.told.as_slice())?;
        }
        Ok(equal)
    }

    /// Prints what is wrong at a line.
    fn wrong(&mut self, place: Place<'_>, text: &str, bytes: &[u8]) -> Result<(), AllocError> {
        self.failed = true;
        put_place(&mut self.out, place, text, bytes)
    }

    /// Prints how many rows a file had; one without a row fails.
    fn counted(&mut self, file: &CaseFile, differ: bool, count: Count) -> Result<(), AllocError> {
        if count.rows == 0 {
            return self.fail(file, 0, "no row");
        }
        let name = file.name();
        let rows = count.rows;
        if differ {
            let differing = count.differing;
            return writeln!(self.out, "{name} {differing} of {rows} rows differ");
        }
        writeln!(self.out, "{name} {rows} rows")
    }

    /// Takes the texts of a file for all files, a line each: `NAME = TEXT`.
    pub fn texts(&mut self, file: &CaseFile) -> Result<(), AllocError> {
        for line in Lines::new(file.bytes()) {
            let place = Place {
                file: file.name(),
                line: line.number,
            };
            if !is_skipped(line.text) {
                self.name_text(place, line.text)?;
            }
        }
        self.shared = self.texts.len();
        Ok(())
    }
}
