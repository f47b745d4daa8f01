//! The page around a chart.

ghost use Rattle.std.specs.Prelude.{◌≡◌, IfOk, OnOk, true, string_bytes};
ghost use Rattle.rdm_chart.specs.Drawings.{kinds_of_shafts};
ghost use Rattle.rdm_chart.specs.Elements.{are_once};
ghost use Rattle.rdm_chart.specs.Pictures.{AreDrawn, IsDocument};
ghost use Rattle.rdm_chart.specs.Reading.{arrows_in};

use crate::arrow::Shaft;
use crate::cast::Cast;
use crate::drawing::Drawing;
use crate::element::{Attribute, Element, Key, Tag, put_end_tag, put_tag_front};
use crate::layout::{GAP, HEAD_HEIGHT, HEAD_WIDTH, MARGIN, Px, SUBTITLE_Y, TITLE_Y, TOP};
use crate::shape::{Area, Shape, TITLE_ID, put_shafts, put_shapes};
use crate::style::Class;
use crate::svg::Svg;
use crate::title::{Named, Title};
use std::alloc::{AllocError, Global};

/// A picture: the attributes of its document, and its layers, in the order in which they are painted.
#[derive(Drop)]
pub(crate) struct Picture {
    pub(crate) attributes: Vec<Attribute>,
    /// The title, the looks and the ground.
    pub(crate) ground: Svg,
    /// What lies behind the lifelines.
    pub(crate) back: Svg,
    pub(crate) lives: Svg,
    pub(crate) arrows: Vec<Shaft>,
    /// What lies before the lifelines.
    pub(crate) front: Svg,
}

impl Picture {
    /// The page of a chart.
    pub(crate) fn of(
        alloc: Global,
        drawing: Drawing,
        named: Option<Named<'_>>,
    ) -> Result<Picture, AllocError>
        ensures arrows { IfOk result (λ picture. picture.arrows ≡ drawing.arrows) }
        ensures once { IfOk result (λ picture. are_once picture.attributes.items ≡ true) }
    {
        let width = width_of(&drawing.cast);
        let height = drawing.y.saturating_add(MARGIN);
        let attributes = attributes_of(alloc, width, height)?;
        let title = Title::of(alloc, drawing.addressed, named, drawing.transactions)?;
        let ground = ground(alloc, &title, width, height)?;
        let lives = lives(alloc, &drawing)?;
        Ok(Picture {
            attributes,
            ground,
            back: drawing.back,
            lives,
            arrows: drawing.arrows,
            front: drawing.front,
        })
    }

    /// The document of the picture.
    pub(crate) fn text(&self, alloc: Global) -> Result<String, AllocError>
        ensures document { are_once self.now.attributes.items ≡ true → IfOk result (λ text. IsDocument (string_bytes text)) }
        ensures arrows { IfOk result (λ text. arrows_in (string_bytes text) ≡ kinds_of_shafts self.now.arrows.items) }
    {
        let mut text = String::new(alloc);
        put_tag_front(&mut text, Tag::Svg, self.attributes.as_slice())?;
        text.push_str(">\n")?;
        self.put_content(&mut text, alloc)?;
        put_end_tag(&mut text, Tag::Svg)?;
        text.push_str("\n")?;
        Ok(text)
    }

    /// Puts the elements of the picture.
    fn put_content(&self, text: &mut String, alloc: Global) -> Result<(), AllocError>
        ensures { OnOk result (AreDrawn (kinds_of_shafts self.now.arrows.items) (string_bytes text.old) (string_bytes text.new)) }
    {
        put_shapes(text, alloc, self.ground.shapes.as_slice())?;
        put_shapes(text, alloc, self.back.shapes.as_slice())?;
        put_shapes(text, alloc, self.lives.shapes.as_slice())?;
        put_shafts(text, alloc, self.arrows.as_slice())?;
        put_shapes(text, alloc, self.front.shapes.as_slice())?;
        Ok(())
    }
}

/// How wide the page is.
pub(crate) fn width_of(cast: &Cast) -> Px {
    cast.last_x().saturating_add(HEAD_WIDTH / 2 + MARGIN)
}

/// The attributes of the document.
fn attributes_of(alloc: Global, width: Px, height: Px) -> Result<Vec<Attribute>, AllocError>
    ensures { IfOk result (λ attributes. are_once attributes.items ≡ true) }
{
    let mut svg = Element::new(alloc, Tag::Svg);
    let namespace = String::from_str(alloc, "http://www.w3.org/2000/svg")?;
    svg.say(Key::Namespace, namespace)?;
    svg.say(Key::ViewBox, format!(in alloc; "0 0 {width} {height}")?)?;
    svg.say(Key::Width, format!(in alloc; "{width}")?)?;
    svg.say(Key::Height, format!(in alloc; "{height}")?)?;
    svg.say(Key::Role, String::from_str(alloc, "img")?)?;
    svg.say(Key::LabelledBy, String::from_str(alloc, TITLE_ID)?)?;
    Ok(svg.attributes)
}

/// The title of the document, how its elements look, and the page that the chart is drawn on.
fn ground(alloc: Global, title: &Title, width: Px, height: Px) -> Result<Svg, AllocError> {
    let (heading, detail) = (title.heading.as_str(), title.detail.as_str());
    let mut svg = Svg::new(alloc);
    let words = format!(in alloc; "{heading}: {detail}")?;
    svg.shapes.push(Shape::Title(words))?;
    svg.shapes.push(Shape::Style)?;
    let area = Area {
        x: 1,
        y: 1,
        width: width.saturating_sub(2),
        height: height.saturating_sub(2),
    };
    svg.area(Class::Page, area, 10)?;
    svg.text(Class::Title, MARGIN, TITLE_Y, heading)?;
    svg.text(Class::Subtitle, MARGIN, SUBTITLE_Y, detail)?;
    Ok(svg)
}

/// The lifelines.
fn lives(alloc: Global, drawing: &Drawing) -> Result<Svg, AllocError> {
    let mut svg = Svg::new(alloc);
    let end = match drawing.lives_to {
        Some(y) => y,
        None => drawing.y.saturating_add(GAP),
    };
    for party in drawing.cast.parties() {
        svg.down(
            Class::Life,
            drawing.cast.x_of(*party),
            TOP + HEAD_HEIGHT,
            end,
        )?;
    }
    Ok(svg)
}
