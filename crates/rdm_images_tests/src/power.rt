//! Power that fails within a save, and saves after a restart.

ghost use Rattle.std.specs.Prelude.{◌≡◌, ◌≤◌, ◌⊎◌, length, Some, IsSome, is_ok};
ghost use Rattle.rdm_images.specs.Areas.{loaded, AreSound};
ghost use Rattle.rdm_images.specs.Restarts.{IsSave};
ghost use Rattle.rdm_images_tests.specs.Sides.{area_of};

use crate::cells::{AREA, Cells};
use rdm_images::{AREA_BYTES, Disk, DiskMemory, Images, ImagesError};

/// What a save leaves in a memory that loses power at any byte of it, or at none: the old values or the new, whole.
pub fn old_or_new_after_power_failure(cells: Cells, key: u32, payload: &[u8]) -> Cells
    requires sound { AreSound (area_of cells.first cells.second) }
    ensures whole { (loaded key (area_of result.first result.second) ≡ loaded key (area_of cells.first cells.second))
        ⊎ (loaded key (area_of result.first result.second) ≡ Some payload.now) }
    // It is the new ones if there is power still.
    ensures finished { length payload.now ≤ 52 → IsSome result.left → loaded key (area_of result.first result.second) ≡ Some payload.now }
    // What is left is again such as is asked for.
    ensures sound { AreSound (area_of result.first result.second) }
{
    let mut images = Images::new(cells, key);
    let _ = images.save(payload, &mut [0; AREA]);
    images.into_memory()
}

/// Saves values into a disk, as a program does that knows nothing but what the disk holds: it was started again. What the save makes of
/// the disk is a step of a history, by which the law of `values_outlast_restarts` says what is loaded.
pub fn save_after_restart<D: Disk + Drop>(
    disk: D,
    key: u32,
    payload: &[u8],
) -> (D, Result<(), ImagesError>)
    ensures { IsSave key (record { payload = payload.now; is_over = is_ok result.1 })
        (D.holds disk) (D.holds result.0) }
{
    let mut images = Images::new(DiskMemory::new(disk), key);
    let saved = images.save(payload, &mut [0; AREA_BYTES]);
    (images.into_memory().into_disk(), saved)
}
