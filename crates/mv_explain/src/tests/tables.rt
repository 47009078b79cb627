//! Tables of named fields, in which the rows of tests are written.
//!
//! The first line of a table names its fields, and each line below it is a row, such as `| 2 | 11 | //;// PRINT X |`. It begins with
//! `| `, ends with ` |`, and has ` | ` between two fields; any other space belongs to a field. In a field `;` ends a line, and `\;` and
//! `\|` are a semicolon and a bar. Spaces before a row are ignored. A line that begins with `#` says what the rows below it have in
//! common.

use std::alloc::AllocError;
use std::process::Abort;

/// A row of a table, and the names of its fields.
#[derive(Clone, Copy)]
pub(crate) struct Row<'a> {
    names: &'a str,
    pub(crate) fields: &'a str,
}

impl Row<'_> {
    /// Returns the text in the field of this name.
    pub(crate) fn field<X: Abort + AllocGlobal>(&self, rt: &X, name: &str) -> String {
        let Some(at) = self.names.split(" | ").position(|named| named == name) else {
            panic!(rt; "no field {name}")
        };
        let Some(field) = self.fields.split(" | ").nth(at) else {
            panic!(rt; "a row without {name}")
        };
        text_of(rt, field)
    }
}

/// Returns the rows of a table, whose fields have these names, and stops the test if a row has more fields or fewer.
pub(crate) fn rows<'a, X: Abort + AllocGlobal>(
    rt: &X,
    table: &'a str,
    names: &'a str,
) -> Vec<Row<'a>> {
    let mut rows = Vec::new(rt.alloc());
    let mut lines = table.lines();
    assert_eq!(rt; fields_of(rt, lines.next().unwrap_or("")), names);
    for line in lines {
        if !line.trim_start().starts_with('#') {
            let fields = fields_of(rt, line);
            assert_eq!(rt;
                fields.split(" | ").count(),
                names.split(" | ").count(),
                "{line}"
            );
            let Ok(()) = rows.push(Row { names, fields }) else {
                panic!(rt; "no memory for rows")
            };
        }
    }
    rows
}

// Returns what is between the bars at both ends of a line.
fn fields_of<'a, X: Abort>(rt: &X, line: &'a str) -> &'a str {
    let Some(fields) = line.trim_start().strip_prefix("| ") else {
        panic!(rt; "no bar before {line}")
    };
    let Some(fields) = fields.strip_suffix(" |") else {
        panic!(rt; "no bar after {line}")
    };
    fields
}

// Returns the text that a field stands for.
fn text_of<X: Abort + AllocGlobal>(rt: &X, field: &str) -> String {
    let lines = made(rt, field.replace(rt.alloc(), ";", "\n"));
    let lines = made(rt, lines.replace(rt.alloc(), "\\\n", ";"));
    made(rt, lines.replace(rt.alloc(), "\\|", "|"))
}

/// Returns a text, and stops the test if there was no memory for it.
pub(crate) fn made<X: Abort>(rt: &X, text: Result<String, AllocError>) -> String {
    match text {
        Ok(text) => text,
        Err(_) => panic!(rt; "no memory for a text"),
    }
}
