//! Who may do what, as a table of text.

use crate::access::{Access, Row};
use crate::region::Region;
use crate::wording::{relation_words, stage_words, stopped_word, timing_words};
use permit_base::words::{Role, Word};
use std::alloc::{AllocError, Global};

/// How a table is written.
#[derive(Clone, Copy, PartialEq, Eq)]
pub enum TableForm {
    /// In columns, for a terminal.
    Columns,
    /// As comma-separated values, RFC 4180.
    Csv,
    /// As a table of Markdown, for a page.
    Markdown,
}

/// A row of a table: of each cell its lines.
#[derive(Drop)]
struct TextRow {
    cells: Vec<Vec<String>>,
}

/// Adds a condition after the others, unless it asks nothing.
fn push_condition(text: &mut String, key: &str, words: &str) -> Result<(), AllocError> {
    if words == "-" {
        return Ok(());
    }
    if !text.is_empty() {
        text.push_str(", ")?;
    }
    text.push_str(key)?;
    text.push_str(words)
}

/// What a region asks, as `owner, stage filed/review, stopped no`.
fn region_text(alloc: Global, region: &Region) -> Result<String, AllocError> {
    let mut text = String::new(alloc);
    push_condition(
        &mut text,
        "",
        relation_words(alloc, region.relations)?.as_str(),
    )?;
    push_condition(
        &mut text,
        "stage ",
        stage_words(alloc, region.stages)?.as_str(),
    )?;
    push_condition(&mut text, "stopped ", stopped_word(region.stopped))?;
    push_condition(
        &mut text,
        "timing ",
        timing_words(alloc, region.timings)?.as_str(),
    )?;
    Ok(text)
}

/// A cell of one line.
fn one_line(alloc: Global, text: &str) -> Result<Vec<String>, AllocError> {
    let mut lines = Vec::new(alloc);
    lines.push(String::from_str(alloc, text)?)?;
    Ok(lines)
}

/// What a cell says: yes, no, or a line for each region.
fn cell_lines(alloc: Global, access: &Access) -> Result<Vec<String>, AllocError> {
    match access {
        Access::Always => one_line(alloc, "yes"),
        Access::Never => one_line(alloc, "no"),
        Access::Where(regions) => {
            let mut lines = Vec::new(alloc);
            for region in regions {
                lines.push(region_text(alloc, region)?)?;
            }
            Ok(lines)
        }
    }
}

/// The head of the table.
fn head(alloc: Global) -> Result<TextRow, AllocError> {
    let mut cells = Vec::new(alloc);
    cells.push(one_line(alloc, "action")?)?;
    for role in Role::all() {
        cells.push(one_line(alloc, role.word())?)?;
    }
    Ok(TextRow { cells })
}

/// A row in words.
fn text_row(alloc: Global, row: &Row) -> Result<TextRow, AllocError> {
    let mut cells = Vec::new(alloc);
    cells.push(one_line(alloc, row.action.word())?)?;
    for role in Role::all() {
        cells.push(cell_lines(alloc, row.of_role(*role))?)?;
    }
    Ok(TextRow { cells })
}

/// The widest line of a column.
fn column_width(rows: &[TextRow], column: usize) -> usize {
    let mut width = 0;
    for row in rows {
        if let Some(lines) = row.cells.get(column) {
            for line in lines {
                width = line.len().max(width);
            }
        }
    }
    width
}

/// Adds one line of a row in columns.
fn push_columns(
    alloc: Global,
    text: &mut String,
    row: &TextRow,
    widths: &[usize],
    number: usize,
) -> Result<(), AllocError> {
    let mut whole = String::new(alloc);
    for (cell, width) in row.cells.iter().zip(widths) {
        let words = match cell.get(number) {
            Some(line) => line.as_str(),
            None => "",
        };
        let width = *width;
        write!(whole, "{words:width$}  ")?;
    }
    let line = whole.as_str().trim_end();
    writeln!(text, "{line}")
}

/// The rows in columns.
fn in_columns(alloc: Global, rows: &[TextRow]) -> Result<String, AllocError> {
    let mut widths = Vec::new(alloc);
    for column in 0..6 {
        widths.push(column_width(rows, column))?;
    }
    let mut text = String::new(alloc);
    for row in rows {
        let height = row.cells.iter().map(|cell| cell.len()).max().unwrap_or(0);
        for number in 0..height {
            push_columns(alloc, &mut text, row, &widths, number)?;
        }
    }
    Ok(text)
}

/// A cell's lines as one.
fn joined(alloc: Global, lines: &[String], between: &str) -> Result<String, AllocError> {
    let mut text = String::new(alloc);
    for line in lines {
        if !text.is_empty() {
            text.push_str(between)?;
        }
        text.push_str(line.as_str())?;
    }
    Ok(text)
}

/// The rows as comma-separated values: a value with a comma is between quotation marks.
fn as_csv(alloc: Global, rows: &[TextRow]) -> Result<String, AllocError> {
    let mut text = String::new(alloc);
    for row in rows {
        let mut between = "";
        for cell in &row.cells {
            let value = joined(alloc, cell, "; ")?;
            if value.as_str().contains(',') {
                write!(text, "{between}\"{value}\"")?;
            } else {
                write!(text, "{between}{value}")?;
            }
            between = ",";
        }
        text.push_str("\r\n")?;
    }
    Ok(text)
}

/// The rows as a table of Markdown, of which the first is the head.
fn as_markdown(alloc: Global, rows: &[TextRow]) -> Result<String, AllocError> {
    let mut text = String::new(alloc);
    for (place, row) in rows.iter().enumerate() {
        text.push_str("|")?;
        for cell in &row.cells {
            let value = joined(alloc, cell, "<br>")?;
            write!(text, " {value} |")?;
        }
        text.push_str("\n")?;
        if place == 0 {
            text.push_str("|---|---|---|---|---|---|\n")?;
        }
    }
    Ok(text)
}

/// Who may do what, as a table: a row for each action, a column for each role, and in each cell `yes`, `no`, or under which
/// relations, stages, stop orders and timings. It fails only where memory runs out.
pub fn table_text(alloc: Global, rows: &[Row], form: TableForm) -> Result<String, AllocError> {
    let mut text_rows = Vec::new(alloc);
    text_rows.push(head(alloc)?)?;
    for row in rows {
        text_rows.push(text_row(alloc, row)?)?;
    }
    match form {
        TableForm::Columns => in_columns(alloc, &text_rows),
        TableForm::Csv => as_csv(alloc, &text_rows),
        TableForm::Markdown => as_markdown(alloc, &text_rows),
    }
}
