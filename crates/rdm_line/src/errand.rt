//! What happens to the devices of a line beside what they hear.

ghost use Rattle.std.specs.Prelude.{◌≡◌, length};
ghost use Rattle.std.specs.List.{AllZip};

use crate::{Device, Line};

/// Something that is done to each device of a line, beside what it hears.
pub trait Errand<D> {
    // What it makes of a device.
    ghost does: { Self → D → D → Type 0 };

    /// Does it to a device.
    fn run(&self, device: &mut D)
        ensures { does self.now device.old device.new };
}

impl<D: Device> Line<D> {
    /// Does this to each device of the line, in the order of their UIDs.
    pub fn each<E: Errand<D>>(&mut self, errand: &E)
        ensures each { AllZip (E.does errand.now) self.old.devices self.new.devices }
        ensures uids { self.new.uids ≡ self.old.uids }
        ensures rule { self.new.rule ≡ self.old.rule }
    {
        run_all(self.devices.as_mut_slice(), errand);
    }
}

/// Does this to each of these devices.
fn run_all<D: Device, E: Errand<D>>(devices: &mut [D], errand: &E)
    ensures each { AllZip (E.does errand.now) devices.old devices.new }
    ensures len { length devices.new ≡ length devices.old }
{
    for index in 0..devices.len() {
        errand.run(&mut devices[index]);
    }
}
