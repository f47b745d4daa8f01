//! From the data of a command to the value that it says.

ghost use Rattle.std.specs.Prelude.{◌≡◌};
ghost use Rattle.rdm_table.specs.Table.Kinds.{pid_of};
ghost use Rattle.rdm_table.specs.Table.Rows.{row_of, command_in, command_of};
ghost use Rattle.rdm_table.specs.Table.Uses.{read, is_bare};

use crate::table::rows;
use crate::{Found, Kind, Verb};
use rdm_device::columns::forms;
use rdm_device::{Argument, Value};
use rdm_frame::Nack;

macro_rules! read_rows {
    (($kind:ident $verb:ident $data:ident) $(($name:ident $pid:tt $at:ident $get:tt $set:tt))*) => {
        match $kind {
            $(Kind::$name => match $verb {
                Verb::Get => read_command!($get $data),
                Verb::Set => read_command!($set $data),
            },)*
        }
    };
}

macro_rules! read_command {
    (none $data:ident) => { Err(Nack::FormatError) };
    ((reads $source:tt) $data:ident) => { forms::nothing($data).ok_or(Nack::FormatError) };
    (($command:ident $form:ident $($rest:tt)*) $data:ident) => { forms::$form($data).ok_or(Nack::FormatError) };
}

/// The value that the data of a command says.
///
/// It is `FormatError` if the data doesn't have the length of the command, or if the parameter has no such command.
pub fn read_value(kind: Kind, verb: Verb, data: &[u8]) -> Result<Value, Nack>
    ensures { result ≡ read (command_in (row_of (pid_of kind)) verb) data.now }
{
    match read_argument(kind, verb, data) {
        Ok(argument) => Ok(argument.to_value()),
        Err(nack) => Err(nack),
    }
}

/// What the data of a command hands in.
#[tactic(auto, unfolding(crate::specs::Table::Rows::row_of, crate::specs::Table::Rows::table))]
#[inline(always)]
pub fn read_argument(kind: Kind, verb: Verb, data: &[u8]) -> Result<Argument<'_>, Nack>
    ensures { result ≡ read (command_in (row_of (pid_of kind)) verb) data.now }
{
    rows!(read_rows!(kind verb data))
}

/// The value that the data of a command stand for, if they have its form.
// Apart from the test of the range: a value that is handed on behind that test is copied.
#[inline(always)]
#[tactic(auto, using(crate::proofs::BareCommands::read_bare))]
pub fn read_form<'a>(verb: Verb, found: Found, data: &'a [u8]) -> Result<Argument<'a>, Nack>
    requires { found.is_bare ≡ is_bare (command_of (pid_of found.kind) verb) }
    ensures { result ≡ read (command_of (pid_of found.kind) verb) data.now }
{
    if found.is_bare {
        return forms::nothing(data).ok_or(Nack::FormatError);
    }
    read_argument(found.kind, verb, data)
}
