//! What is drawn, kept small: a trace has some ten shapes for each transaction. Each becomes an element only when the page is
//! written.

ghost use Rattle.std.specs.Prelude.{[], ◌∷◌, IfOk, OnOk, string_bytes};
ghost use Rattle.rdm_chart.specs.Elements.{IsName};
ghost use Rattle.rdm_chart.specs.Reading.{kind_named};
ghost use Rattle.rdm_chart.specs.Drawings.{kinds_of_shafts};
ghost use Rattle.rdm_chart.specs.Pictures.{AreDrawn, IsDrawnAs};

use crate::arrow::Shaft;
use crate::element::{Element, Key, Tag, put_element};
use crate::layout::{Px, TIP_LENGTH};
use crate::style::{Class, STYLE};
use std::alloc::{AllocError, Global};

/// By what name the document points to its title.
pub(crate) const TITLE_ID: &str = "title";

/// Something that is drawn.
#[derive(Drop)]
pub(crate) enum Shape {
    /// The title of the document.
    Title(String),
    /// The style sheet.
    Style,
    /// A text, from this place on its base line, or as its class says.
    Text {
        class: Class,
        x: Px,
        y: Px,
        words: String,
    },
    /// A rectangle with corners of this radius.
    Rect {
        class: Class,
        area: Area,
        radius: Px,
    },
    /// A line that goes this way.
    Path {
        class: Class,
        way: Way,
    },
}

/// A rectangle: its upper left corner and its size.
#[derive(Clone, Copy)]
pub(crate) struct Area {
    pub(crate) x: Px,
    pub(crate) y: Px,
    pub(crate) width: Px,
    pub(crate) height: Px,
}

/// The way of a line.
#[derive(Clone, Copy)]
pub(crate) enum Way {
    /// From left to right or back.
    Across { from: Px, to: Px, y: Px },
    /// Downwards.
    Down { x: Px, from: Px, to: Px },
    /// Round the tip of an arrow that ends here, pointing to the right or to the left.
    Tip { x: Px, y: Px, to_the_right: bool },
    /// Over a cross with its centre here.
    Cross { x: Px, y: Px },
}

/// Puts what is drawn at the end of markup, each element on a line of its own.
pub(crate) fn put_shapes(
    markup: &mut String,
    alloc: Global,
    shapes: &[Shape],
) -> Result<(), AllocError>
    ensures { OnOk result (AreDrawn [] (string_bytes markup.old) (string_bytes markup.new)) }
{
    for shape in shapes {
        let element = shape.element(alloc)?;
        put_element(markup, &element)?;
    }
    Ok(())
}

/// Puts the shafts of arrows at the end of markup, in the same way.
pub(crate) fn put_shafts(
    markup: &mut String,
    alloc: Global,
    shafts: &[Shaft],
) -> Result<(), AllocError>
    ensures { OnOk result (AreDrawn (kinds_of_shafts shafts.now) (string_bytes markup.old) (string_bytes markup.new)) }
{
    for shaft in shafts {
        put_shaft(markup, alloc, shaft)?;
    }
    Ok(())
}

fn put_shaft(markup: &mut String, alloc: Global, shaft: &Shaft) -> Result<(), AllocError>
    ensures { OnOk result (AreDrawn (shaft.now.kind ∷ []) (string_bytes markup.old) (string_bytes markup.new)) }
{
    let Shaft { kind, from, to, y } = *shaft;
    let element = path_of(alloc, kind.name(), Way::Across { from, to, y })?;
    put_element(markup, &element)?;
    Ok(())
}

impl Shape {
    /// Its element.
    fn element(&self, alloc: Global) -> Result<Element, AllocError>
        ensures { IfOk result (λ element. IsDrawnAs [] element) }
    {
        match self {
            Shape::Title(words) => title_of(alloc, words.as_str()),
            Shape::Style => style(alloc),
            Shape::Text { class, x, y, words } => text_of(alloc, *class, *x, *y, words.as_str()),
            Shape::Rect {
                class,
                area,
                radius,
            } => rect_of(alloc, *class, *area, *radius),
            Shape::Path { class, way } => path_of(alloc, class.name(), *way),
        }
    }
}

fn title_of(alloc: Global, words: &str) -> Result<Element, AllocError>
    ensures { IfOk result (λ element. IsDrawnAs [] element) }
{
    let mut title = Element::new(alloc, Tag::Title);
    title.say(Key::Id, String::from_str(alloc, TITLE_ID)?)?;
    title.words.push_str(words)?;
    Ok(title)
}

fn style(alloc: Global) -> Result<Element, AllocError>
    ensures { IfOk result (λ element. IsDrawnAs [] element) }
{
    let mut style = Element::new(alloc, Tag::Style);
    style.words.push_str(STYLE)?;
    Ok(style)
}

fn text_of(alloc: Global, class: Class, x: Px, y: Px, words: &str) -> Result<Element, AllocError>
    ensures { IfOk result (λ element. IsDrawnAs [] element) }
{
    let mut text = Element::new(alloc, Tag::Text);
    text.say(Key::Class, String::from_str(alloc, class.name())?)?;
    text.say(Key::X, format!(in alloc; "{x}")?)?;
    text.say(Key::Y, format!(in alloc; "{y}")?)?;
    text.words.push_str(words)?;
    Ok(text)
}

fn rect_of(alloc: Global, class: Class, area: Area, radius: Px) -> Result<Element, AllocError>
    ensures { IfOk result (λ element. IsDrawnAs [] element) }
{
    let mut rect = Element::new(alloc, Tag::Rect);
    rect.say(Key::Class, String::from_str(alloc, class.name())?)?;
    let Area {
        x,
        y,
        width,
        height,
    } = area;
    rect.say(Key::X, format!(in alloc; "{x}")?)?;
    rect.say(Key::Y, format!(in alloc; "{y}")?)?;
    rect.say(Key::Width, format!(in alloc; "{width}")?)?;
    rect.say(Key::Height, format!(in alloc; "{height}")?)?;
    rect.say(Key::Radius, format!(in alloc; "{radius}")?)?;
    Ok(rect)
}

/// A line that goes this way, with this class.
fn path_of(alloc: Global, class: &str, way: Way) -> Result<Element, AllocError>
    ensures { IsName class.now → IfOk result (λ element. IsDrawnAs (kind_named class.now) element) }
{
    let mut path = Element::new(alloc, Tag::Path);
    path.say(Key::Class, String::from_str(alloc, class)?)?;
    path.say(Key::Way, way.text(alloc)?)?;
    Ok(path)
}

impl Way {
    /// The way, as SVG says it.
    fn text(self, alloc: Global) -> Result<String, AllocError> {
        match self {
            Way::Across { from, to, y } => format!(in alloc; "M {from} {y} H {to}"),
            Way::Down { x, from, to } => format!(in alloc; "M {x} {from} V {to}"),
            Way::Tip { x, y, to_the_right } => {
                let back = if to_the_right { "-" } else { "" };
                format!(in alloc; "M {x} {y} l {back}{TIP_LENGTH} -5 v 10 z")
            }
            Way::Cross { x, y } => {
                format!(in alloc; "M {x} {y} m -6 -6 l 12 12 m 0 -12 l -12 12")
            }
        }
    }
}
