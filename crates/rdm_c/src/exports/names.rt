//! Names and the version, as C asks for them.

ghost use Rattle.std.specs.Prelude.{◌≡◌};
ghost use Rattle.rdm_frame.specs.Nacks.{reason_name};
ghost use Rattle.rdm_frame.specs.Names.{for_c, name_in};
ghost use Rattle.rdm_params.specs.Table.Names.{parameter_name};
ghost use Rattle.rdm_c.specs.Names.{named, results, version};

use crate::names::{NameNumbers, result_name};
use rdm_params::{parameter_name_for_c, reason_name_for_c};

/// Tells the name of what became of a call, as the header has it behind `FELOSUMAY_`, or `unknown` if no call answers so.
#[unsafe(no_mangle)]
pub extern "C" fn felosumay_tell_status(status: u8, name: &mut NameNumbers)
    ensures { name.new.letters.now ≡ named (name_in results status) }
{
    name.tell(result_name(status));
}

/// Tells the name of a parameter in the standard (E1.20 table A-3), or `unknown` if it has none for this PID.
#[unsafe(no_mangle)]
pub extern "C" fn felosumay_tell_parameter(pid: u16, name: &mut NameNumbers)
    ensures { name.new.letters.now ≡ named (parameter_name pid) }
{
    name.tell(parameter_name_for_c(pid));
}

/// Tells the reason of a NACK in words (E1.20 table A-17), or `unknown` if the table has none of this code.
#[unsafe(no_mangle)]
pub extern "C" fn felosumay_tell_reason(reason: u16, name: &mut NameNumbers)
    ensures { name.new.letters.now ≡ named (reason_name reason) }
{
    name.tell(reason_name_for_c(reason));
}

/// Tells which version of the library it is.
#[unsafe(no_mangle)]
pub extern "C" fn felosumay_tell_version(name: &mut NameNumbers)
    ensures { name.new.letters.now ≡ for_c version }
{
    name.letters = b"0.1.0\0";
}
