//! What is drawn, shape by shape.

use crate::layout::Px;
use crate::shape::{Area, Shape, Way};
use crate::style::Class;
use std::alloc::{AllocError, Global};

/// What is drawn in a layer, in the order in which it is painted.
#[derive(Drop)]
pub(crate) struct Svg {
    pub(crate) shapes: Vec<Shape>,
}

impl Svg {
    /// Nothing.
    pub(crate) fn new(alloc: Global) -> Self {
        Svg {
            shapes: Vec::new(alloc),
        }
    }

    fn alloc(&self) -> Global {
        *self.shapes.allocator()
    }

    /// A text, from this place on its base line, or as its class says.
    pub(crate) fn text(
        &mut self,
        class: Class,
        x: Px,
        y: Px,
        words: &str,
    ) -> Result<(), AllocError> {
        let words = String::from_str(self.alloc(), words)?;
        Ok(self.shapes.push(Shape::Text { class, x, y, words })?)
    }

    /// A rectangle with corners of this radius.
    pub(crate) fn area(&mut self, class: Class, area: Area, radius: Px) -> Result<(), AllocError> {
        Ok(
            self.shapes.push(Shape::Rect {
                class,
                area,
                radius,
            })?,
        )
    }

    /// A line from left to right or back.
    pub(crate) fn across(
        &mut self,
        class: Class,
        from: Px,
        to: Px,
        y: Px,
    ) -> Result<(), AllocError> {
        self.path(class, Way::Across { from, to, y })
    }

    /// A line downwards.
    pub(crate) fn down(&mut self, class: Class, x: Px, from: Px, to: Px) -> Result<(), AllocError> {
        self.path(class, Way::Down { x, from, to })
    }

    /// The tip of an arrow that ends here, pointing to the right or to the left.
    pub(crate) fn tip(
        &mut self,
        class: Class,
        x: Px,
        y: Px,
        to_the_right: bool,
    ) -> Result<(), AllocError> {
        self.path(class, Way::Tip { x, y, to_the_right })
    }

    /// A cross with its centre here.
    pub(crate) fn cross(&mut self, x: Px, y: Px) -> Result<(), AllocError> {
        self.path(Class::Cross, Way::Cross { x, y })
    }

    /// A line that goes this way.
    fn path(&mut self, class: Class, way: Way) -> Result<(), AllocError> {
        Ok(self.shapes.push(Shape::Path { class, way })?)
    }
}
