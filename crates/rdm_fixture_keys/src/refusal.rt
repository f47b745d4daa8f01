//! Why a table isn't a valid fixture, and where in it.

ghost use Rattle.std.specs.Prelude.{◌≡◌, ◌≤◌, length, map, chars};
ghost use Rattle.rdm_fixture_keys.specs.Faults as says;
ghost use Rattle.rdm_fixture_keys.specs.Faults.{shown, kept, fault, in_entry, in_section, told};

use arrayvec::ArrayString;
use rdm_standard_names::NameKind;

/// The name of a key as it is shown: one of more than 40 bytes is cut, and ends in `..`. A control character is `?` in it.
pub type Name = ArrayString<40>;

/// What was wanted of a key.
#[derive(Clone, Copy, Debug, PartialEq, Eq)]
pub enum Wanted {
    /// It has to be there, and isn't.
    Key,
    /// The format has no such key.
    NoSuchKey,
    /// An integer of this range.
    Number { least: i64, most: i64 },
    /// A name of the standard, or its number.
    Named(NameKind),
    /// A string of at most 32 printable ASCII characters.
    Text,
    /// A UID that isn't a broadcast.
    Uid,
    /// A language code of two lowercase letters.
    Language,
    /// A list with this many entries.
    List { least: usize, most: usize },
    /// A table.
    Table,
    /// Another value than that of an earlier entry.
    Other,
    /// The PID of a parameter that a profile can add (E1.20 table A-3).
    Pid,
    /// A greater PID than that of each earlier entry.
    Ascending,
    /// The commands of a parameter (table A-16).
    CommandClass,
    /// The type of the data of a parameter (table A-15).
    DataType,
    /// A string of at most 64 hexadecimal digits, two for each slot.
    Slots,
    /// What agrees with the other keys of a parameter, or with the parameters.
    Agreement(Agreement),
    /// `true` or `false`.
    Boolean,
    /// A list of names of the standard's parameters (table A-3).
    Parameter,
    /// A list without parameters that every fixture has (table A-3).
    Optional,
    /// A list without parameters that one which isn't in it needs.
    Unneeded,
    /// `true`.
    True,
    /// A parameter whose command is a job.
    Task,
    /// How bad a failure is.
    Severity,
    /// An outcome: there is none.
    Outcome,
    /// Nothing: the outcome is told already.
    OneOutcome,
    /// An outcome that the parameter can have.
    Suiting,
}

/// With what the value of a key has to agree.
#[derive(Clone, Copy, Debug, PartialEq, Eq)]
pub enum Agreement {
    /// With each other: a list of at most 8 numbers that slots say, a table each.
    Fields,
    /// With the slots of the data: numbers that take all of them, each with its limits in order.
    AllSlots,
    /// With the form and the range of the data.
    Start,
    /// With the commands and the data of a parameter of E1.20 or E1.37-1.
    Standard,
    /// With the choices: a name for each thing that can be chosen, and no other, in their order (E1.37-1).
    Names,
    /// With the standards: a list of PIDs, or of names of their parameters.
    Pids,
    /// With the other tables of the list: they lock at most 64 times together (E1.37-1).
    Locks,
    /// With LOCK_STATE: tables of states that it has (E1.37-1).
    States,
    /// With LOCK_STATE: it can be read, and LOCK_PIN stands beside it (E1.37-1).
    Opened,
    /// With the root: it can be set what is locked, and what is locked can be opened again (E1.37-1).
    Held,
    /// With the data: `true` only where FACTORY_DEFAULTS has a value to set back (E1.20 section 10.5.6).
    Reset,
    /// With the fixture: a parameter that it has, and whose commands start jobs.
    Lacked,
    /// With the parameter: a value with which a command starts a job.
    Unasked,
    /// With the status IDs: one of the standard's, or one that the file describes (section 10.3.3).
    Unexplained,
    /// With the sensors: SENSOR_DEFINITION stays if there are some (section 10.7.1).
    Sensors,
    /// With the starting values: the parameters that show them stay.
    Started,
    /// With each other: a list of points, a table each (E1.20 section 10.7.2).
    Points,
    /// With each other: points in the order of their times.
    Rising,
    /// With the points: one of the ways from one to the next.
    Way,
    /// With the points: `true` only where there are two or more, and the first is at 0.
    Rounds,
    /// With the sensor: points only where it is answered at once.
    AtOnce,
    /// With the personalities: each has slots of its own, or those of one that has its own (section 10.6.4).
    OwnSlots,
}

/// An entry of a list.
#[derive(Debug, Drop, PartialEq, Eq)]
pub struct Entry {
    /// The key of the list.
    pub list: Name,
    /// Which of its entries it is, from 1.
    pub number: usize,
}

/// A table of a fixture.
#[derive(Clone, Copy, Debug, PartialEq, Eq)]
pub enum Section {
    /// The one at the top.
    Top,
    /// That of the sub-devices.
    SubDevices,
    /// That of the times of slow commands.
    Estimates,
    /// That of their workers.
    Workers,
}

/// Why a table isn't a valid fixture.
#[derive(Debug, Drop, PartialEq, Eq)]
pub struct Refusal {
    /// In which table it is.
    pub section: Section,
    /// In which entry of which list it is, if in any.
    pub entry: Option<Entry>,
    /// The key.
    pub key: Name,
    /// What was wanted of it.
    pub wanted: Wanted,
    /// The line where the text has it, from 1: that of the key, or if it is missing that of its table, which is the last
    /// line for the table at the top. There is none if there was no memory to look for it.
    pub line: Option<usize>,
}

impl Refusal {
    /// At a key of the table that is read.
    pub fn at(key: &str, wanted: Wanted) -> Refusal
        ensures { told result ≡ fault key.now wanted }
    {
        Refusal {
            section: Section::Top,
            entry: None,
            key: name_of(key),
            wanted,
            line: None,
        }
    }

    /// The same in an entry of a list.
    pub fn in_entry(self, list: &str, number: usize) -> Refusal
        ensures { told result ≡ in_entry list.now number (told self) }
    {
        let list = name_of(list);
        Refusal {
            entry: Some(Entry { list, number }),
            ..self
        }
    }

    /// The same in this table.
    pub fn in_section(self, section: Section) -> Refusal
        ensures { told result ≡ in_section section (told self) }
    {
        Refusal { section, ..self }
    }
}

/// What is shown of a key.
#[tactic(auto, unfolding(crate::specs::Faults::shown))]
pub fn name_of(key: &str) -> Name
    ensures { result.bytes ≡ shown key.now }
{
    if key.len() <= 40 {
        return front_of(key, 40);
    }
    let mut name = front_of(key, 38);
    name.push_str("..");
    name
}

/// As many of its characters as fit in `room` bytes.
fn front_of(key: &str, room: usize) -> Name
    requires { room ≤ 40 }
    ensures value { result.bytes ≡ kept room (map says.shown_character (chars key.now)) }
    ensures fits { length result.bytes ≤ room }
{
    let mut name = Name::new();
    for c in key.chars() {
        let shown = shown_character(c);
        if name.len() + shown.len_utf8() > room {
            return name;
        }
        name.push(shown);
    }
    name
}

fn shown_character(c: char) -> char
    ensures { result ≡ says.shown_character c }
{
    if c.is_control() { '?' } else { c }
}
