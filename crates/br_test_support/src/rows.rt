use crate::Case;
use std::alloc::{AllocError, Global};
use std::io::{self, Write};

/// A row: its call, and what the call has to give.
#[derive(Clone, Copy)]
pub struct Row<'l> {
    pub call: &'l str,
    wanted: &'l str,
}

/// The rows so far: the name of those that are read now, their number, and the number that hold.
#[derive(Drop)]
pub struct Rows {
    name: String,
    count: u64,
    held: u64,
}

/// Returns the fields of a call; the first is its name. Marks the row as failed if memory ran out.
pub fn fields_of<'c>(case: &mut Case, call: &'c str) -> Option<Vec<&'c str>> {
    match call.split(' ').collect(case.alloc()) {
        Ok(fields) => Some(fields),
        Err(AllocError) => {
            case.fail("out of memory");
            None
        }
    }
}

/// Splits a line into the call and what it has to give.
fn row_of(line: &str) -> Row<'_> {
    match line.split_once(" = ") {
        Some((call, wanted)) => Row { call, wanted },
        None => Row {
            call: line.strip_suffix(" =").unwrap_or(line),
            wanted: "",
        },
    }
}

impl Rows {
    /// Makes a count of rows without a name.
    pub fn new(alloc: Global) -> Rows {
        Rows {
            name: String::new(alloc),
            count: 0,
            held: 0,
        }
    }

    /// Prints the number of rows with this name that hold, if there are any.
    pub fn end<R: Print>(&self, rt: &R) -> io::Result<()> {
        if self.count == 0 {
            return Ok(());
        }
        println!(rt; "{}: {} of {} rows hold", self.name, self.held, self.count)
    }

    /// Begins rows with another name.
    fn begin<R: Print + AllocGlobal>(&mut self, rt: &R, name: &str) -> io::Result<()> {
        self.end(rt)?;
        *self = Rows::new(rt.alloc());
        self.name.push_str(name)?;
        Ok(())
    }

    /// Reads a line. Returns its row, if there is one.
    pub fn read<'l, R: Print + AllocGlobal>(
        &mut self,
        rt: &R,
        line: &'l str,
    ) -> io::Result<Option<Row<'l>>> {
        if let Some(name) = line.strip_prefix("## ") {
            self.begin(rt, name)?;
            return Ok(None);
        }
        if line.is_empty() || line.starts_with('#') {
            return Ok(None);
        }
        Ok(Some(row_of(line.trim_ascii_end())))
    }

    /// Counts a row, and prints it if it failed or gave something else than expected. Blanks at the
    /// end do not count.
    pub fn compare<R: Print>(&mut self, rt: &R, row: Row<'_>, case: &Case) -> io::Result<()> {
        self.count = self.count.saturating_add(1);
        if case.fault().is_none() && case.gave().trim_ascii_end() == row.wanted.as_bytes() {
            self.held = self.held.saturating_add(1);
            return Ok(());
        }
        println!(rt; "wrong: {} = {}", row.call, row.wanted)?;
        print!(rt; " gave: ")?;
        io::writer(rt).write_all(case.gave())?;
        println!(rt; "")?;
        match case.fault() {
            Some(fault) => println!(rt; " failed: {fault}"),
            None => Ok(()),
        }
    }
}
