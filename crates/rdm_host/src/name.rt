//! Names of files, and other words of the command line, as messages show them: with nothing that a terminal obeys.

use std::fmt;

/// A word on one line: its control characters are escaped.
#[derive(Clone, Copy)]
pub struct Name<'a>(pub &'a str);

impl fmt::Display for Name<'_> {
    fn fmt<W: fmt::Write>(&self, f: &mut fmt::Formatter<W>) -> fmt::Result {
        for character in self.0.chars() {
            write_shown(f, character, character.is_control())?;
        }
        Ok(())
    }
}

/// A text of several lines: its other control characters are escaped.
#[derive(Clone, Copy)]
pub struct Lines<'a>(pub &'a str);

impl fmt::Display for Lines<'_> {
    fn fmt<W: fmt::Write>(&self, f: &mut fmt::Formatter<W>) -> fmt::Result {
        for character in self.0.chars() {
            write_shown(f, character, character.is_control() && character != '\n')?;
        }
        Ok(())
    }
}

/// Writes a character, escaped if that is asked for.
fn write_shown<W: fmt::Write>(
    f: &mut fmt::Formatter<W>,
    character: char,
    escapes: bool,
) -> fmt::Result {
    if escapes {
        write!(f, "{}", character.escape_default())
    } else {
        f.write_char(character)
    }
}
