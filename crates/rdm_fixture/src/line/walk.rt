//! How far the text of a document goes along a way, and where.

use super::way::Step;
use arrayvec::ArrayVec;
use std::alloc::Global;
use toml_parser::text::{skip_blank, skip_ws};
use toml_parser::{
    ErrorKind, Key, ParseError, RECURSION_LIMIT, dotted_key, quoted, starts_string, unquoted,
};

/// An array or an inline table that has begun and not ended, and how many steps of the way lead to it, if it is on the
/// way.
#[derive(Clone, Copy)]
enum Open {
    /// An array, of which N entries have begun.
    Array(Option<usize>, usize),
    /// An inline table.
    Table(Option<usize>),
}

impl Default for Open {
    fn default() -> Self {
        Open::Table(None)
    }
}

/// The part of the text that is furthest along the way.
#[derive(Clone, Copy)]
struct Place {
    /// How many steps of the way lead to it.
    steps: usize,
    /// Whether it is no further away from there.
    is_there: bool,
    /// How many bytes are left of the text where it begins.
    behind: usize,
}

/// A walk over a document, from its beginning.
#[derive(Drop)]
struct Walk<'a> {
    way: &'a [Step<'a>],
    best: Option<Place>,
    /// How many steps lead to the table whose keys stand here, if it is on the way.
    table: Option<usize>,
    /// How many headers of the list on the way there were.
    entries: usize,
    /// How many of a list in the last entry of that one.
    inner_entries: usize,
    open: ArrayVec<Open, RECURSION_LIMIT>,
}

/// How many bytes are left of the text, which is a document of TOML, at the first part of it that is furthest along the way:
/// none if no part is on it.
pub(super) fn place_of(
    alloc: Global,
    text: &str,
    way: &[Step<'_>],
) -> Result<Option<usize>, ParseError> {
    let mut walk = Walk {
        way,
        best: None,
        table: Some(0),
        entries: 0,
        inner_entries: 0,
        open: ArrayVec::new(),
    };
    let mut rest = text.strip_prefix("\u{feff}").unwrap_or(text);
    // Each turn reads a byte at least.
    for _ in 0..text.len() {
        rest = skip_blank(rest, true);
        if rest.is_empty() {
            break;
        }
        rest = walk.after_part(alloc, rest)?;
    }
    Ok(walk.best.map(|place| place.behind))
}

impl Walk<'_> {
    /// What is left behind the next part: a header, a key with the beginning of its value, an entry of an array, a comma, or
    /// an end.
    fn after_part<'t>(&mut self, alloc: Global, rest: &'t str) -> Result<&'t str, ParseError> {
        match self.open.pop() {
            None => match rest.strip_prefix("[") {
                Some(header) => self.after_header(alloc, header),
                None => self.after_key(alloc, rest, self.table),
            },
            Some(Open::Table(steps)) => {
                if let Some(after) = rest.strip_prefix("}") {
                    return Ok(after);
                }
                let _ = self.open.try_push(Open::Table(steps));
                match rest.strip_prefix(",") {
                    Some(after) => Ok(after),
                    None => self.after_key(alloc, rest, steps),
                }
            }
            Some(Open::Array(steps, entries)) => {
                if let Some(after) = rest.strip_prefix("]") {
                    return Ok(after);
                }
                if let Some(after) = rest.strip_prefix(",") {
                    let _ = self.open.try_push(Open::Array(steps, entries));
                    return Ok(after);
                }
                let entries = entries.saturating_add(1);
                let _ = self.open.try_push(Open::Array(steps, entries));
                let steps = self.steps_to_entry(steps, entries);
                if let Some(steps) = steps {
                    self.note(steps, true, rest);
                }
                self.after_value(alloc, rest, steps)
            }
        }
    }

    /// What is left behind a header, whose first bracket is read.
    fn after_header<'t>(&mut self, alloc: Global, header: &'t str) -> Result<&'t str, ParseError> {
        let (name, is_list) = match header.strip_prefix("[") {
            Some(name) => (name, true),
            None => (header, false),
        };
        let (key, rest) = dotted_key(alloc, skip_ws(name))?;
        let (steps, is_there) = self.steps_of_header(&key, is_list);
        self.note(steps, is_there, header);
        self.table = if is_there { Some(steps) } else { None };
        let end = if is_list { "]]" } else { "]" };
        rest.strip_prefix(end)
            .ok_or(ParseError::at(ErrorKind::UnclosedTable, rest))
    }

    /// What is left behind a key and the beginning of its value, in a table to which N steps lead.
    fn after_key<'t>(
        &mut self,
        alloc: Global,
        rest: &'t str,
        table: Option<usize>,
    ) -> Result<&'t str, ParseError> {
        let (key, after) = dotted_key(alloc, rest)?;
        let value = match after.strip_prefix("=") {
            Some(value) => skip_ws(value),
            None => return Err(ParseError::at(ErrorKind::MissingEquals, after)),
        };
        let Some(table) = table else {
            return self.after_value(alloc, value, None);
        };
        let (steps, is_there) = self.steps_along(table, &key);
        self.note(steps, is_there, rest);
        self.after_value(alloc, value, if is_there { Some(steps) } else { None })
    }

    /// What is left behind a value, or behind the bracket or the brace with which it begins.
    fn after_value<'t>(
        &mut self,
        alloc: Global,
        rest: &'t str,
        steps: Option<usize>,
    ) -> Result<&'t str, ParseError> {
        if let Some(entries) = rest.strip_prefix("[") {
            let _ = self.open.try_push(Open::Array(steps, 0));
            return Ok(entries);
        }
        if let Some(keys) = rest.strip_prefix("{") {
            let _ = self.open.try_push(Open::Table(steps));
            return Ok(keys);
        }
        if starts_string(rest) {
            Ok(quoted(alloc, rest)?.1)
        } else {
            Ok(unquoted(alloc, rest)?.1)
        }
    }

    /// How many steps lead to what a key of a table holds, and whether it is on the way: else they lead to where it leaves it.
    fn steps_along(&self, table: usize, key: &Key) -> (usize, bool) {
        let mut steps = table;
        for part in &key.path {
            if !self.is_next(steps, part.as_str()) {
                return (steps, false);
            }
            steps = steps.saturating_add(1);
        }
        if self.is_next(steps, key.last.as_str()) {
            (steps.saturating_add(1), true)
        } else {
            (steps, false)
        }
    }

    /// The same of a header. One of a list on the way begins an entry of it, and each name behind the list's is in the last
    /// entry.
    fn steps_of_header(&mut self, key: &Key, is_list: bool) -> (usize, bool) {
        let mut steps = 0usize;
        let mut is_inner = false;
        for part in &key.path {
            if !self.is_next(steps, part.as_str()) {
                return (steps, false);
            }
            steps = steps.saturating_add(1);
            if self.is_entry_next(steps) {
                let entries = if is_inner {
                    self.inner_entries
                } else {
                    self.entries
                };
                is_inner = true;
                match self.steps_to_entry(Some(steps), entries) {
                    Some(further) => steps = further,
                    None => return (steps, false),
                }
            }
        }
        if !self.is_next(steps, key.last.as_str()) {
            return (steps, false);
        }
        let steps = steps.saturating_add(1);
        if !is_list {
            return (steps, true);
        }
        let entries = self.begin_entry(is_inner);
        match self.steps_to_entry(Some(steps), entries) {
            Some(further) => (further, true),
            None => (steps, false),
        }
    }

    /// Counts an entry of the list on the way, or of one in its last entry: which it is, from 1.
    fn begin_entry(&mut self, is_inner: bool) -> usize {
        if is_inner {
            let entries = self.inner_entries.saturating_add(1);
            self.inner_entries = entries;
            return entries;
        }
        let entries = self.entries.saturating_add(1);
        self.entries = entries;
        self.inner_entries = 0;
        entries
    }

    /// Whether the step after the first N is to an entry of a list.
    fn is_entry_next(&self, steps: usize) -> bool {
        matches!(self.way.get(steps), Some(Step::Entry(_)))
    }

    /// Whether the step after the first N is to what the key holds.
    fn is_next(&self, steps: usize, key: &str) -> bool {
        match self.way.get(steps) {
            Some(step) => step.is_key(key),
            None => false,
        }
    }

    /// How many steps lead to this entry of the list to which N lead, if it is on the way.
    fn steps_to_entry(&self, list: Option<usize>, entry: usize) -> Option<usize> {
        let steps = list?;
        match self.way.get(steps) {
            Some(Step::Entry(number)) if *number == entry => Some(steps.saturating_add(1)),
            _ => None,
        }
    }

    /// Keeps a part of the text if it is further along the way than each before it. To be on the way is no more than to
    /// begin on it, but for parts that lead equally far.
    fn note(&mut self, steps: usize, is_there: bool, rest: &str) {
        let (most, was_there) = match &self.best {
            Some(place) => (place.steps, place.is_there),
            None => (0, true),
        };
        if steps > most || (steps == most && is_there && !was_there) {
            self.best = Some(Place {
                steps,
                is_there,
                behind: rest.len(),
            });
        }
    }
}
