//! Laws of images, over every value. Each is the contract of a call that does nothing.

ghost use Rattle.std.specs.Prelude.{◌≡◌, ◌↔◌, IsTrue};
ghost use Rattle.rdm_images.specs.Laws.{ImageIsReadBack, CutIsRefused, AlteredIsRefused, ErasedIsSound};
ghost use Rattle.rdm_images.specs.Restarts.{ValuesOutlastRestarts};
ghost use Rattle.rdm_images.specs.Saves.{InterruptedIsWhole, FinishedIsLoaded};

use crate::{Image, ImageError, ImagesError, MemoryFault, Side};

/// What is written of an image is read back, whatever stands behind it.
pub fn image_is_read_back()
    ensures { ImageIsReadBack }
{}

/// An image that is cut anywhere is refused as cut.
pub fn cut_image_is_refused()
    ensures { CutIsRefused }
{}

/// An image in which one byte is another is refused: one of the check, of the header or of the payload.
pub fn altered_image_is_refused()
    ensures { AlteredIsRefused }
{}

/// An area that is erased holds no image, and images that are saved into it are kept over power failures.
pub fn erased_area_is_sound()
    ensures { ErasedIsSound }
{}

/// Power may fail at any moment while the area of the next image is erased or written, or between the two: what is loaded is the old
/// values or the new, whole. Each area is left such that this holds for the next save, too.
pub fn interrupted_save_is_whole()
    ensures { InterruptedIsWhole }
{}

/// When that area was erased and the next image is written in it, the new values are loaded.
pub fn finished_save_is_loaded()
    ensures { FinishedIsLoaded }
{}

/// After any saves into a disk that was erased once, each of them cut off at whatever byte or not, and restarts between them: what is
/// loaded is what was saved last or, if that save wasn't over, that or what would have been loaded before it, whole.
pub fn values_outlast_restarts()
    ensures { ValuesOutlastRestarts }
{}

/// Two headers are equal by `==` exactly when each of their fields is.
pub fn images_are_equal_by_value()
    ensures { (a b : Image) → IsTrue (⟦<Image as PartialEq>⟧.eq a b) ↔ (a ≡ b) }
{}

/// Two sides are equal by `==` exactly when they are the same.
pub fn sides_are_equal_by_value()
    ensures { (a b : Side) → IsTrue (⟦<Side as PartialEq>⟧.eq a b) ↔ (a ≡ b) }
{}

/// Two refusals of bytes are equal by `==` exactly when they name the same test.
pub fn image_errors_are_equal_by_value()
    ensures { (d e : ImageError) → IsTrue (⟦<ImageError as PartialEq>⟧.eq d e) ↔ (d ≡ e) }
{}

/// Two errors of a save or a load are equal by `==` exactly when they name the same reason.
pub fn images_errors_are_equal_by_value()
    ensures { (d e : ImagesError) → IsTrue (⟦<ImagesError as PartialEq>⟧.eq d e) ↔ (d ≡ e) }
{}

/// Two faults of a memory are equal by `==` exactly when they have the same number.
pub fn memory_faults_are_equal_by_value()
    ensures { (d e : MemoryFault) → IsTrue (⟦<MemoryFault as PartialEq>⟧.eq d e) ↔ (d ≡ e) }
{}
