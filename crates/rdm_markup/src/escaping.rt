//! Text in markup.

ghost use Rattle.std.specs.Prelude.{◌≡◌, ◌++◌, OnOk, chars, string_bytes};
ghost use Rattle.std.specs.List.{flat_map};
ghost use Rattle.rdm_markup.specs.Markup.{in_markup, space_in};

use std::alloc::AllocError;

/// Where a text stands in a document of XML.
#[derive(Clone, Copy)]
pub enum Place {
    /// Between the tags of an element, where a reader keeps tabs and LFs.
    Content,
    /// In the value of an attribute, where a reader takes each tab and each LF for a space (XML 1.0 section 3.3.3).
    Attribute,
}

/// Puts a text at the end of markup, so that a reader of XML reads that text there, and no markup: the characters that mean something there
/// are put as references (XML 1.0 section 2.4), and those that can't be read from XML as U+FFFD.
pub fn put_escaped(markup: &mut String, place: Place, text: &str) -> Result<(), AllocError>
    ensures { OnOk result (string_bytes markup.new ≡ string_bytes markup.old ++ flat_map (in_markup place) (chars text.now)) }
{
    for c in text.chars() {
        put_character(markup, place, c)?;
    }
    Ok(())
}

/// Puts one character of a text at the end.
#[tactic(auto, unfolding(crate::specs::Markup::in_markup))]
fn put_character(markup: &mut String, place: Place, c: char) -> Result<(), AllocError>
    ensures { OnOk result (string_bytes markup.new ≡ string_bytes markup.old ++ in_markup place c) }
{
    match c {
        '&' => markup.push_str("&amp;"),
        '<' => markup.push_str("&lt;"),
        '>' => markup.push_str("&gt;"),
        '"' => markup.push_str("&quot;"),
        '\r' => markup.push_str("&#13;"),
        '\t' => put_space(markup, place, '\t', "&#9;"),
        '\n' => put_space(markup, place, '\n', "&#10;"),
        '\0'..='\u{1F}' | '\u{FFFE}' | '\u{FFFF}' => markup.push('\u{FFFD}'),
        _ => markup.push(c),
    }
}

/// Puts a tab or an LF at the end: itself in the content of an element, and this reference in an attribute.
fn put_space(markup: &mut String, place: Place, c: char, reference: &str) -> Result<(), AllocError>
    ensures { OnOk result (string_bytes markup.new ≡ string_bytes markup.old ++ space_in place c reference.now) }
{
    match place {
        Place::Content => markup.push(c),
        Place::Attribute => markup.push_str(reference),
    }
}
