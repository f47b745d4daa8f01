//! The heads of the lifelines.

use crate::cast::{Cast, Party};
use crate::layout::{HEAD_BASE, HEAD_HEIGHT, HEAD_WIDTH, Px};
use crate::shape::Area;
use crate::style::Class;
use crate::svg::Svg;
use std::alloc::{AllocError, Global};

/// Draws the head of each lifeline, with its upper edge at this height.
pub(crate) fn draw_heads(
    alloc: Global,
    svg: &mut Svg,
    cast: &Cast,
    y: Px,
) -> Result<(), AllocError> {
    for party in cast.parties() {
        draw_head(alloc, svg, *party, cast.x_of(*party), y)?;
    }
    Ok(())
}

fn draw_head(alloc: Global, svg: &mut Svg, party: Party, x: Px, y: Px) -> Result<(), AllocError> {
    let class = match party {
        Party::Responder => Class::Device,
        Party::Controller | Party::Worker(_) | Party::Panel => Class::Party,
    };
    let area = Area {
        x: x.saturating_sub(HEAD_WIDTH / 2),
        y,
        width: HEAD_WIDTH,
        height: HEAD_HEIGHT,
    };
    svg.area(class, area, 4)?;
    let name = name_of(alloc, party)?;
    svg.text(Class::Name, x, y.saturating_add(HEAD_BASE), name.as_str())
}

fn name_of(alloc: Global, party: Party) -> Result<String, AllocError> {
    match party {
        Party::Controller => String::from_str(alloc, "controller"),
        Party::Responder => String::from_str(alloc, "responder"),
        Party::Worker(number) => format!(in alloc; "worker {number}"),
        Party::Panel => String::from_str(alloc, "panel"),
    }
}
