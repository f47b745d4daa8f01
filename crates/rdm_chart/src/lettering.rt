//! How much room a text takes, and where its lines break.

use crate::layout::Px;
use std::alloc::{AllocError, Global};
use std::mem;

/// The size of the letters of words, in px.
const SIZE: u64 = 13;

/// How heavy letters are.
#[derive(Clone, Copy, PartialEq, Eq)]
pub(crate) enum Weight {
    Regular,
    Bold,
}

/// The lines of a text in so much room. A line that is longer breaks between words, but not in front of a number, which stays with the
/// word before it, as `50` in `level 50` and the code in `yes (01)`. What is longer than a line breaks in itself.
///
/// Nothing says which font a reader has: the room of a letter is that in a wide one, as DejaVu Sans or Verdana.
pub(crate) fn broken_lines(
    alloc: Global,
    text: &str,
    weight: Weight,
    room: Px,
) -> Result<Vec<String>, AllocError> {
    let mut lines = Broken {
        alloc,
        lines: Vec::new(alloc),
        line: String::new(alloc),
        width: 0,
        room: room_in(weight, room),
    };
    for line in text.lines() {
        lines.put_line(line)?;
    }
    Ok(lines.lines)
}

/// The room that regular letters would have, in hundredths of a px: bold ones are wider by an eighth.
fn room_in(weight: Weight, room: Px) -> u64 {
    let hundredths = match weight {
        Weight::Regular => 100,
        Weight::Bold => 89,
    };
    room.saturating_mul(hundredths)
}

/// Lines that are being filled. Widths are in hundredths of a px, as of regular letters.
#[derive(Drop)]
struct Broken {
    alloc: Global,
    lines: Vec<String>,
    line: String,
    width: u64,
    room: u64,
}

impl Broken {
    /// Puts the words of a line, and ends it.
    fn put_line(&mut self, line: &str) -> Result<(), AllocError> {
        let mut together = String::new(self.alloc);
        for word in line.split_whitespace() {
            if !is_number(word) {
                self.put_together(together.as_str())?;
                together.clear();
            }
            if !together.is_empty() {
                together.push(' ')?;
            }
            together.push_str(word)?;
        }
        self.put_together(together.as_str())?;
        self.end_line()
    }

    /// Puts what stays together into the line, or into the next one if it doesn't fit.
    fn put_together(&mut self, words: &str) -> Result<(), AllocError> {
        if !self.line.is_empty() {
            let width = width_of(words).saturating_add(width_of_letter(' '));
            if self.width.saturating_add(width) > self.room {
                self.end_line()?;
            } else {
                self.put_letter(' ')?;
            }
        }
        for letter in words.chars() {
            if self.width.saturating_add(width_of_letter(letter)) > self.room {
                self.end_line()?;
            }
            self.put_letter(letter)?;
        }
        Ok(())
    }

    fn put_letter(&mut self, letter: char) -> Result<(), AllocError> {
        self.width = self.width.saturating_add(width_of_letter(letter));
        self.line.push(letter)
    }

    fn end_line(&mut self) -> Result<(), AllocError> {
        let line = mem::replace(&mut self.line, String::new(self.alloc));
        self.lines.push(line)?;
        self.width = 0;
        Ok(())
    }
}

/// Whether a word begins as a number does, which may be in brackets.
fn is_number(word: &str) -> bool {
    let digits = word.strip_prefix("(").unwrap_or(word);
    match digits.chars().next() {
        Some(letter) => letter.is_ascii_digit(),
        None => false,
    }
}

/// The width of words, in hundredths of a px.
fn width_of(words: &str) -> u64 {
    let mut width = 0u64;
    for letter in words.chars() {
        width = width.saturating_add(width_of_letter(letter));
    }
    width
}

/// The width of a letter, in hundredths of a px.
fn width_of_letter(letter: char) -> u64 {
    let hundredths_of_size = match letter {
        'M' | 'W' | '@' | '%' | 'm' => 100,
        'w' => 82,
        'A'..='Z' => 72,
        'f' | 'i' | 'j' | 'l' | 't' | ' ' | ',' | '.' | ':' | '(' | ')' => 37,
        '!'..='~' => 63,
        _ => 100,
    };
    hundredths_of_size * SIZE
}
