//! Which SETs keep their data as the value of their parameter.

ghost use Rattle.std.specs.Prelude.{◌≡◌};
ghost use Rattle.rdm_table.specs.declared.kind.Verb.TheVariants.{Set};
ghost use Rattle.rdm_table.specs.Table.Kinds.{pid_of};
ghost use Rattle.rdm_table.specs.Table.Rows.{row_of, command_in};
ghost use Rattle.rdm_table.specs.Table.Uses.{keeps};

use crate::Kind;
use crate::table::rows;

macro_rules! keep_rows {
    (($kind:ident) $(($name:ident $pid:tt $at:ident $get:tt $set:tt))*) => {
        match $kind {
            $(Kind::$name => keep_command!($set),)*
        }
    };
}

macro_rules! keep_command {
    ((takes $form:ident $range:tt $field:tt)) => { true };
    ((starts $form:ident $range:tt $slow:ident $field:tt)) => { true };
    ($command:tt) => { false };
}

/// Whether a SET of the parameter keeps its data, at once or at the end of its job.
#[tactic(auto, unfolding(crate::specs::Table::Rows::row_of, crate::specs::Table::Rows::table))]
pub fn keeps_data(kind: Kind) -> bool
    ensures { result ≡ keeps (command_in (row_of (pid_of kind)) Set) }
{
    rows!(keep_rows!(kind))
}
