//! Text in markup.

use rdm_markup::{Place, put_escaped};
use std::alloc::Global;
use std::process::Abort;

/// Texts, and what stands for each in an element and in an attribute. The references are those of XML 1.0.
const TEXTS: &[(&str, &str, &str)] = &[
    ("", "", ""),
    (
        "a<b> & \"20 °C\"'",
        "a&lt;b&gt; &amp; &quot;20 °C&quot;'",
        "a&lt;b&gt; &amp; &quot;20 °C&quot;'",
    ),
    // A CR would be read as an LF, and in an attribute a tab or an LF as a space.
    ("\t\n\rä", "\t\n&#13;ä", "&#9;&#10;&#13;ä"),
    // These can't be read from XML: the other controls, and what is no character.
    (
        "\u{0}\u{8}\u{B}\u{1F}\u{FFFE}\u{FFFF}",
        "\u{FFFD}\u{FFFD}\u{FFFD}\u{FFFD}\u{FFFD}\u{FFFD}",
        "\u{FFFD}\u{FFFD}\u{FFFD}\u{FFFD}\u{FFFD}\u{FFFD}",
    ),
    ("\u{7F}\u{FFFD}😀", "\u{7F}\u{FFFD}😀", "\u{7F}\u{FFFD}😀"),
];

/// What is put for a text behind a tag.
fn escaped(rt: &impl Abort, alloc: Global, place: Place, text: &str) -> String {
    let mut markup = String::from_str(alloc, "<a>").expect(rt, "memory");
    put_escaped(&mut markup, place, text).expect(rt, "memory");
    markup
}

#[test]
fn texts_are_escaped(rt: HostRuntime) {
    for (text, content, value) in TEXTS {
        let found = escaped(&rt, rt.alloc(), Place::Content, text);
        assert!(rt;
            found.as_str().strip_prefix("<a>") == Some(*content),
            "{found}"
        );
        let found = escaped(&rt, rt.alloc(), Place::Attribute, text);
        assert!(rt;
            found.as_str().strip_prefix("<a>") == Some(*value),
            "{found}"
        );
    }
}
