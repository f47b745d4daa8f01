//! Elements of SVG, and their text.

ghost use Rattle.std.specs.Prelude.{◌≡◌, ◌++◌, ◌∷◌, [], OnOk, IfOk, string_bytes};
ghost use Rattle.std.specs.List.{flat_map};
ghost use Rattle.rdm_chart.specs.Elements.{tag_name, key_name, attribute_text, attributes_text, tag_front, tag_rest, end_tag, element_text};

use rdm_markup::{Place, put_escaped};
use std::alloc::{AllocError, Global};

/// What an element is (SVG 1.1).
#[derive(Clone, Copy)]
pub(crate) enum Tag {
    /// The whole picture.
    Svg,
    /// The title of the document.
    Title,
    /// The style sheet.
    Style,
    /// A rectangle.
    Rect,
    /// A line, or the outline of an area.
    Path,
    /// A line of text.
    Text,
}

/// What an attribute says of its element.
#[derive(Clone, Copy)]
pub(crate) enum Key {
    /// The namespace of SVG.
    Namespace,
    /// What the units of the picture are, by its left and upper end, its width and its height.
    ViewBox,
    /// What the element is to those who can't see it.
    Role,
    /// The element that names it.
    LabelledBy,
    /// By what name others point to it.
    Id,
    /// How it looks.
    Class,
    /// Where it begins, or a text stands.
    X,
    /// How far down.
    Y,
    /// How wide it is.
    Width,
    /// How high it is.
    Height,
    /// The radius of its corners.
    Radius,
    /// The way of a line.
    Way,
}

/// An attribute of an element.
#[derive(Drop)]
pub(crate) struct Attribute {
    pub(crate) key: Key,
    pub(crate) value: String,
}

/// An element: its attributes in order, and the text in it, which may be empty.
#[derive(Drop)]
pub(crate) struct Element {
    pub(crate) tag: Tag,
    pub(crate) attributes: Vec<Attribute>,
    pub(crate) words: String,
}

impl Element {
    /// An element without attributes and text.
    pub(crate) fn new(alloc: Global, tag: Tag) -> Self
        ensures tag { result.tag ≡ tag }
        ensures attributes { result.attributes.items ≡ [] }
        ensures words { string_bytes result.words ≡ [] }
    {
        Element {
            tag,
            attributes: Vec::new(alloc),
            words: String::new(alloc),
        }
    }

    /// Adds an attribute.
    pub(crate) fn say(&mut self, key: Key, value: String) -> Result<(), AllocError>
        ensures tag { self.new.tag ≡ self.old.tag }
        ensures attributes { OnOk result (self.new.attributes.items ≡ self.old.attributes.items ++ record { key = key; value = value } ∷ []) }
        ensures words { self.new.words ≡ self.old.words }
    {
        Ok(self.attributes.push(Attribute { key, value })?)
    }
}

impl Tag {
    /// Its name.
    fn name(self) -> &'static str
        ensures { result.now ≡ tag_name self }
    {
        match self {
            Tag::Svg => "svg",
            Tag::Title => "title",
            Tag::Style => "style",
            Tag::Rect => "rect",
            Tag::Path => "path",
            Tag::Text => "text",
        }
    }
}

impl Key {
    /// Its name.
    fn name(self) -> &'static str
        ensures { result.now ≡ key_name self }
    {
        match self {
            Key::Namespace => "xmlns",
            Key::ViewBox => "viewBox",
            Key::Role => "role",
            Key::LabelledBy => "aria-labelledby",
            Key::Id => "id",
            Key::Class => "class",
            Key::X => "x",
            Key::Y => "y",
            Key::Width => "width",
            Key::Height => "height",
            Key::Radius => "rx",
            Key::Way => "d",
        }
    }
}

/// Puts an element at the end of markup, on a line of its own.
#[tactic(auto, unfolding(crate::specs::Elements::element_text))]
pub(crate) fn put_element(markup: &mut String, element: &Element) -> Result<(), AllocError>
    ensures { OnOk result (string_bytes markup.new ≡ string_bytes markup.old ++ element_text element.now) }
{
    put_tag_front(markup, element.tag, element.attributes.as_slice())?;
    put_tag_rest(markup, element.tag, element.words.as_str())?;
    markup.push_str("\n")
}

/// Puts the tag that opens an element, but for its end.
pub(crate) fn put_tag_front(
    markup: &mut String,
    tag: Tag,
    attributes: &[Attribute],
) -> Result<(), AllocError>
    ensures { OnOk result (string_bytes markup.new ≡ string_bytes markup.old ++ tag_front tag attributes.now) }
{
    markup.push_str("<")?;
    markup.push_str(tag.name())?;
    put_attributes(markup, attributes)
}

/// Puts the end of that tag, the text in the element, and the tag that closes it. One tag does both if there is no text.
fn put_tag_rest(markup: &mut String, tag: Tag, words: &str) -> Result<(), AllocError>
    ensures { OnOk result (string_bytes markup.new ≡ string_bytes markup.old ++ tag_rest tag words.now) }
{
    if words.is_empty() {
        return markup.push_str("/>");
    }
    markup.push_str(">")?;
    put_escaped(markup, Place::Content, words)?;
    put_end_tag(markup, tag)
}

/// Puts the tag that closes an element.
pub(crate) fn put_end_tag(markup: &mut String, tag: Tag) -> Result<(), AllocError>
    ensures { OnOk result (string_bytes markup.new ≡ string_bytes markup.old ++ end_tag tag) }
{
    markup.push_str("</")?;
    markup.push_str(tag.name())?;
    markup.push_str(">")
}

fn put_attributes(markup: &mut String, attributes: &[Attribute]) -> Result<(), AllocError>
    ensures { OnOk result (string_bytes markup.new ≡ string_bytes markup.old ++ attributes_text attributes.now) }
{
    for attribute in attributes {
        put_attribute(markup, attribute)?;
    }
    Ok(())
}

#[tactic(auto, unfolding(crate::specs::Elements::attribute_text))]
fn put_attribute(markup: &mut String, attribute: &Attribute) -> Result<(), AllocError>
    ensures { OnOk result (string_bytes markup.new ≡ string_bytes markup.old ++ attribute_text attribute.now) }
{
    markup.push_str(" ")?;
    markup.push_str(attribute.key.name())?;
    markup.push_str("=\"")?;
    put_escaped(markup, Place::Attribute, attribute.value.as_str())?;
    markup.push_str("\"")
}
