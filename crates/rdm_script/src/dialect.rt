//! How the words of a script are read.

ghost use Rattle.std.specs.Prelude.{◌≡◌};
ghost use Rattle.rdm_script.specs.Dialects.{dialect_of};

use rdm_device::ParameterDef;
use rdm_frame::Uid;
use std::marker::Model;

/// How the words of a script are spelled.
#[derive(Clone, Copy, Debug)]
pub enum Spelling {
    /// As in the program `rdm_play`: sub-devices, parameters and data are hexadecimal digits.
    Strict,
    /// So, or as people say them: a sub-device is `root` or a decimal number, a parameter has its name (E1.20 table A-3, or in double
    /// quotes that of one of the maker's own), and data are a text in double quotes. A line `find` is a search.
    Friendly,
}

/// Of which device the words `dev` and `maker` of a script speak, how its other words are spelled, and which parameters of the maker's own
/// they may name.
#[derive(Drop)]
pub struct Dialect<'a> {
    /// The UID of the device.
    pub device: Uid,
    /// How the words are spelled.
    pub spelling: Spelling,
    /// The parameters of the maker's own. Of two with one name, the name says the first.
    pub own: &'a [ParameterDef],
}

impl<'a> Model for Dialect<'a> {
    ghost use Rattle.rdm_script.specs.Dialects.{Dialect as TheDialect};

    ghost Value = { TheDialect };

    ghost view = { λ d. record { device = d.device; spelling = d.spelling; own = d.own.now } };
}

impl<'a> Dialect<'a> {
    /// Scripts for a device of this UID without parameters of the maker's own, in words that are spelled so.
    pub fn of(device: Uid, spelling: Spelling) -> Self
        ensures { result ≡ dialect_of device spelling }
    {
        Dialect {
            device,
            spelling,
            own: &[],
        }
    }
}
