// The line of a text around a part, and a mark under the part.

use crate::location::Location;
use std::fmt::{self, Display};
use std::str::from_utf8;
use unicode_width::UnicodeWidthChar;

// The maximum number of columns displayed of a line.
const MAX_WIDTH: usize = 120;

// The number of columns displayed before the part, if the line is longer than that.
const BEFORE: usize = 60;

/// The line of a text on which a part begins, and below it a mark under the part, up to the end of the line. Of a long line the
/// columns around the start of the part are displayed. Control characters are displayed as U+FFFD.
#[derive(Clone, Copy)]
pub struct Excerpt<'a> {
    // the line without its line feed
    line: &'a str,
    // its number, counted from 1
    number: usize,
    // the bytes of the line that the part covers
    start: usize,
    end: usize,
}

// The first byte of the line of a byte.
fn line_start(text: &[u8], byte: usize) -> usize {
    let mut start = 0;
    for place in 0..byte.min(text.len()) {
        if text.get(place).copied() == Some(b'\n') {
            start = place.saturating_add(1);
        }
    }
    start
}

// The end of the line of a byte.
fn line_end(text: &[u8], byte: usize) -> usize {
    for place in byte..text.len() {
        if text.get(place).copied() == Some(b'\n') {
            return place;
        }
    }
    text.len()
}

// The number of columns of a character as it is displayed.
fn width_of(letter: char) -> usize {
    letter.width().unwrap_or(1)
}

// The character as it is displayed.
fn displayed(letter: char) -> char {
    let is_control = letter != '\t' && letter.width().is_none();
    if is_control { '\u{fffd}' } else { letter }
}

// A mark, or spaces, as wide as a character. Tabs are kept, so that both lines have the same columns.
fn marked(letter: char, is_marked: bool) -> &'static str {
    match (width_of(letter), is_marked) {
        (0, _) => "",
        (1, true) => "^",
        (1, false) if letter == '\t' => "\t",
        (1, false) => " ",
        (_, true) => "^^",
        (_, false) => "  ",
    }
}

impl<'a> Excerpt<'a> {
    /// The line of this part of the text.
    pub fn new(text: &'a [u8], location: &Location) -> Excerpt<'a> {
        let part = location.part;
        let start = line_start(text, part.start);
        let end = line_end(text, part.start);
        let line = text.get(start..end).unwrap_or(&[]);
        Excerpt {
            line: from_utf8(line).unwrap_or(""),
            number: location.line(),
            start: part.start.saturating_sub(start),
            end: part.end.min(end).saturating_sub(start),
        }
    }

    // The first column displayed.
    fn first_column(&self) -> usize {
        let mut column: usize = 0;
        let mut before: usize = 0;
        for (at, letter) in self.line.char_indices() {
            if at < self.start {
                before = column.saturating_add(width_of(letter));
            }
            column = column.saturating_add(width_of(letter));
        }
        if column <= MAX_WIDTH {
            return 0;
        }
        before.saturating_sub(BEFORE)
    }

    // Writes the columns of the line from this one on.
    fn write_line<W: fmt::Write>(&self, f: &mut fmt::Formatter<W>, first: usize) -> fmt::Result {
        let mut column: usize = 0;
        for letter in self.line.chars() {
            if is_displayed(column, first) {
                write!(f, "{}", displayed(letter))?;
            }
            column = column.saturating_add(width_of(letter));
        }
        Ok(())
    }

    // Writes the mark under the part.
    fn write_mark<W: fmt::Write>(&self, f: &mut fmt::Formatter<W>, first: usize) -> fmt::Result {
        let mut column: usize = 0;
        let mut has_mark = false;
        for (at, letter) in self.line.char_indices() {
            let is_marked = self.start <= at && at < self.end;
            if is_displayed(column, first) && (is_marked || at < self.start) {
                write!(f, "{}", marked(letter, is_marked))?;
                has_mark = has_mark || is_marked;
            }
            column = column.saturating_add(width_of(letter));
        }
        if has_mark { Ok(()) } else { write!(f, "^") }
    }
}

// Whether a column is displayed, from the first one on.
fn is_displayed(column: usize, first: usize) -> bool {
    first <= column && column.saturating_sub(first) < MAX_WIDTH
}

impl Display for Excerpt<'_> {
    fn fmt<W: fmt::Write>(&self, f: &mut fmt::Formatter<W>) -> fmt::Result {
        let first = self.first_column();
        write!(f, "{:>5} | ", self.number)?;
        self.write_line(f, first)?;
        write!(f, "\n      | ")?;
        self.write_mark(f, first)
    }
}
