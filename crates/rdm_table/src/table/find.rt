//! The parameter of a PID, which the device must have, and which must have the command.

ghost use Rattle.std.specs.Prelude.{◌≡◌, [], true, false, IsTrue, IfOk, IfErr, Ok, Err};
ghost use Rattle.rdm_table.specs.declared.way.Way.TheVariants.{AtOnce};
ghost use Rattle.rdm_profile.specs.declared.value.Value.{Value};
ghost use Rattle.rdm_added.specs.Spot.{Spot};
ghost use Rattle.rdm_table.specs.Table.Rows.{command_of, row_of};
ghost use Rattle.rdm_table.specs.Table.Kinds.{pid_of};
ghost use Rattle.rdm_table.specs.Table.Uses.{access, way_of, is_bare, reply};

use crate::table::rows;
use crate::{Kind, Slow, Verb, Way};
use rdm_frame::Nack;

/// A command that a device has.
#[derive(Clone, Copy)]
pub struct Found {
    /// The parameter.
    pub kind: Kind,
    /// How the command is answered.
    pub way: Way,
    /// Whether it hands in no data, and so has no range to ask about.
    pub is_bare: bool,
    /// Whether its reply can have data, and so needs the device.
    pub has_reply: bool,
}

impl Found {
    /// Whether the command hands in no data and is answered at once, as most GETs.
    #[inline(always)]
    pub fn is_plain_get(&self) -> bool
        ensures bare { IsTrue result → self.now.is_bare ≡ true }
        ensures way { IsTrue result → self.now.way ≡ AtOnce }
    {
        match self.way {
            Way::AtOnce => self.is_bare,
            Way::ByJob(_) | Way::FromQueue | Way::FromStatus | Way::Clears => false,
        }
    }
}

macro_rules! found_rows {
    (($pid:ident $is_root:ident $verb:ident) $(($name:ident $number:tt $at:ident $get:tt $set:tt))*) => {
        match $pid {
            $($number => {
                if !at_place!($at $is_root) {
                    return Err(Nack::UnknownPid);
                }
                match $verb {
                    Verb::Get => found_command!($name $get),
                    Verb::Set => found_command!($name $set),
                }
            })*
            _ => Err(Nack::UnknownPid),
        }
    };
}

macro_rules! found_command {
    ($name:ident none) => { Err(Nack::UnsupportedCommandClass) };
    ($name:ident $command:tt) => {
        Ok(Found { kind: Kind::$name, way: way_command!($command), is_bare: is_bare!($command), has_reply: has_reply!($command) })
    };
}

macro_rules! at_place {
    (both $is_root:ident) => { true };
    (root $is_root:ident) => { $is_root };
}

macro_rules! way_command {
    ((starts $form:ident $range:tt $slow:ident $field:tt)) => {
        Way::ByJob(Slow::$slow)
    };
    ((measures $form:ident $range:tt $slow:ident $reply:ident)) => {
        Way::ByJob(Slow::$slow)
    };
    ((fetches $form:ident $range:tt $way:ident)) => { Way::$way };
    ((clears $form:ident $range:tt)) => { Way::Clears };
    ($command:tt) => { Way::AtOnce };
}

macro_rules! is_bare {
    ((reads $source:tt)) => { true };
    (($command:ident nothing (any) $($rest:tt)*)) => { true };
    ($command:tt) => { false };
}

macro_rules! has_reply {
    ((takes $($rest:tt)*)) => { false };
    ((starts $($rest:tt)*)) => { false };
    ((clears $($rest:tt)*)) => { false };
    ((sets $form:ident $range:tt $change:tt none)) => { false };
    ($command:tt) => { true };
}

/// The command that the root, or else a sub-device, has for a PID, or the first reason to reject it.
// One look at the table for the parameter, the right to it, the way and the form.
#[inline(always)]
#[tactic(auto, unfolding(crate::specs::Table::Rows::row_of, crate::specs::Table::Rows::table))]
pub fn find(pid: u16, is_root: bool, verb: Verb) -> Result<Found, Nack>
    ensures kind { IfOk result (λ found. pid_of found.kind ≡ pid) }
    ensures way { IfOk result (λ found. found.way ≡ way_of (command_of pid verb)) }
    ensures bare { IfOk result (λ found. found.is_bare ≡ is_bare (command_of pid verb)) }
    ensures silent { IfOk result (λ found. found.has_reply ≡ false → (spot : Spot) (value : Value) → reply (command_of (pid_of found.kind) verb) spot value ≡ []) }
    ensures ok { IfOk result (λ found. access (row_of pid) is_root verb ≡ Ok tt) }
    ensures err { IfErr result (λ nack. access (row_of pid) is_root verb ≡ Err nack) }
{
    rows!(found_rows!(pid is_root verb))
}
