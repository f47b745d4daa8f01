//! What an area of the firmware's memory holds, as numbers.

ghost use Rattle.std.specs.Prelude.{◌≡◌};
ghost use Rattle.rdm_c.specs.Images.{image_in, number_of, of_image_error};

use crate::status::Status;
use rdm_images::{Image, ImageError, Side};

/// What an area holds. The header calls it `felosumay_image`.
#[repr(C)]
#[derive(Clone, Copy)]
pub struct ImageNumbers {
    /// The counter of the image: of two images the newer has the next number, and 0 follows 65535.
    pub counter: u16,
    /// How many bytes its payload has.
    pub length: u16,
    /// 0 if the area holds no image, and else 1.
    pub there: u8,
}

impl ImageNumbers {
    /// The numbers of an image, or those of none.
    pub(crate) fn of(image: Option<Image>) -> ImageNumbers
        ensures { image_in result ≡ image }
    {
        match image {
            None => ImageNumbers {
                counter: 0,
                length: 0,
                there: 0,
            },
            Some(image) => ImageNumbers {
                counter: image.counter,
                length: image.length,
                there: 1,
            },
        }
    }

    /// The image that the numbers stand for, if they stand for one.
    pub(crate) fn image(&self) -> Option<Image>
        ensures { result ≡ image_in self.now }
    {
        if self.there == 0 {
            return None;
        }
        Some(Image {
            counter: self.counter,
            length: self.length,
        })
    }
}

/// The number of an area.
pub(crate) fn number_of(side: Side) -> u8
    ensures { result ≡ number_of side }
{
    match side {
        Side::First => 0,
        Side::Second => 1,
    }
}

/// What it is called that bytes are no image.
pub(crate) fn status_of(error: ImageError) -> Status
    ensures { result ≡ of_image_error error }
{
    match error {
        ImageError::Cut => Status::ImageLength,
        ImageError::Altered => Status::AlteredImage,
        ImageError::OfAnother => Status::ForeignImage,
    }
}
