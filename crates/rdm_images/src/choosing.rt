//! Which of two areas holds the newest image, and where the next one goes.
//!
//! These calls know no memory: firmware that reads, erases and writes its areas itself asks them what to do, as `Images` does.

ghost use Rattle.std.specs.Prelude.{◌≡◌, List, ℕ};
ghost use Rattle.rdm_images.specs.declared.memory.Side.{Side as TheSide};
ghost use Rattle.rdm_images.specs.declared.memory.Side.TheVariants as sides;
ghost use Rattle.rdm_images.specs.Areas.{newest, next_side, next_counter, said_of, said_by};
ghost use Rattle.rdm_images.specs.Reading.{held, said};

use crate::image::Image;
use crate::memory::Side;

/// Where the next image goes.
#[derive(Clone, Copy, Debug)]
pub struct NextImage {
    /// The area that is erased, and then written.
    pub side: Side,
    /// The counter of the image.
    pub counter: u16,
}

/// The newer of two images, and which area holds it: the second one if its counter is the next after that of the first, and else the
/// first. They are what `decode_image` returns for the first and the second area, and `None` stands for its errors.
pub fn newest_image(first: Option<Image>, second: Option<Image>) -> Option<(Side, Image)>
    ensures said { result ≡ said_by first second }
    // So it is the newest of the two areas that these were read from.
    ensures newest { (key : ℕ) (areas : TheSide → List ℕ) → first ≡ said (held key (areas sides.First))
        → second ≡ said (held key (areas sides.Second)) → result ≡ said_of (newest key areas) }
{
    match (first, second) {
        (None, None) => None,
        (None, Some(second)) => Some((Side::Second, second)),
        (Some(first), None) => Some((Side::First, first)),
        (Some(first), Some(second)) => {
            if second.counter == first.counter.wrapping_add(1) {
                Some((Side::Second, second))
            } else {
                Some((Side::First, first))
            }
        }
    }
}

/// Where the next image goes, and its counter: into the area that doesn't hold the newest image, and into the first if there is none.
pub fn next_image(found: Option<(Side, Image)>) -> NextImage
    ensures side { result.side ≡ next_side found }
    ensures counter { result.counter ≡ next_counter found }
{
    match found {
        None => NextImage {
            side: Side::First,
            counter: 0,
        },
        Some((Side::First, image)) => NextImage {
            side: Side::Second,
            counter: image.counter.wrapping_add(1),
        },
        Some((Side::Second, image)) => NextImage {
            side: Side::First,
            counter: image.counter.wrapping_add(1),
        },
    }
}
