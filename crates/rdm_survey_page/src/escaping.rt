//! Texts in HTML.

ghost use Rattle.std.specs.Prelude.{◌≡◌, ◌++◌, OnOk};
ghost use Rattle.rdm_survey_page.specs.Escaping.{escaped, escaped_byte};

use std::alloc::AllocError;

/// A text, so that a reader of HTML reads it and no markup: the bytes that mean something there are put as references.
pub(crate) fn put_escaped(text: &mut Vec<u8>, words: &[u8]) -> Result<(), AllocError>
    ensures { OnOk result (text.new.items ≡ text.old.items ++ escaped words.now) }
{
    for byte in words {
        put_byte(text, *byte)?;
    }
    Ok(())
}

/// A byte of a text.
#[tactic(auto, unfolding(crate::specs::Escaping::escaped_byte))]
fn put_byte(text: &mut Vec<u8>, byte: u8) -> Result<(), AllocError>
    ensures { OnOk result (text.new.items ≡ text.old.items ++ escaped_byte byte) }
{
    match byte {
        b'&' => text.extend_from_slice(b"&amp;"),
        b'<' => text.extend_from_slice(b"&lt;"),
        b'>' => text.extend_from_slice(b"&gt;"),
        b'"' => text.extend_from_slice(b"&quot;"),
        _ => text.extend_from_slice(&[byte]),
    }
}
