//! What holds of every table.

ghost use Rattle.table_text.specs.Rows.{ListsAreSeparated};
ghost use Rattle.table_text.specs.ReadBack.{CsvIsReadBack};
ghost use Rattle.table_text.specs.JsonBack.{JsonIsReadBack};

/// Rows that were written as JSON are, as a list, their objects with commas between them.
pub fn lists_are_separated()
    ensures { ListsAreSeparated }
{}

/// A reader of CSV gives the values of rows back, each in its column: what is written of names and rows is a record of the
/// names and one of each row, where there are two columns or more. A text is given as it is printed.
pub fn csv_is_read_back()
    ensures { CsvIsReadBack }
{}

/// A reader of JSON gives the values of rows back, each under its name: rows that were written as a list are a text of JSON
/// whose value is a list of objects, one for each row, with its members and no more. A text is given as it is printed.
pub fn json_is_read_back()
    ensures { JsonIsReadBack }
{}
