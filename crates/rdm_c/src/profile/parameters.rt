//! A parameter of the maker's own as a plain struct of C's.

ghost use Rattle.std.specs.Prelude.{◌≡◌};
ghost use Rattle.std.specs.List.{list_all};
ghost use Rattle.rdm_c.specs.Parameters.{parameter_in, rights_in, shape_in, shape_of, width_in, has_width, has_widths, has_commands, field_in, choice_in, lock_in};

use crate::profile::TextNumbers;
use crate::profile::lists::{Numbers, fill};
use arrayvec::ArrayVec;
use rdm_params::{ChoiceName, Field, Lock, ParameterDef, Rights, Shape, Width};

/// More slots than the data of a parameter can have.
const TOO_MANY_SLOTS: u8 = 255;

/// A parameter of the maker's own (E1.20 section 10.4.2). The header calls it `felosumay_parameter`.
#[repr(C)]
#[derive(Clone, Copy)]
pub struct ParameterNumbers {
    /// The least value, where the data are a number.
    pub low: i64,
    /// The greatest value, where the data are a number.
    pub high: i64,
    /// Its PID.
    pub pid: u16,
    /// The type of its data (table A-15, and some more).
    pub kind: u8,
    /// Which commands it has (table A-16, and one more).
    pub commands: u8,
    /// How many slots its data have, where the type doesn't say it: 0 to 32.
    pub size: u8,
    /// The unit of its values (table A-13).
    pub unit: u8,
    /// The prefix of the unit (table A-14).
    pub prefix: u8,
    /// 0 if FACTORY_DEFAULTS leaves it as it is, else it sets it back (section 10.5.6).
    pub resets: u8,
    /// The data that it starts with.
    pub start: TextNumbers,
    /// What it is called.
    pub name: TextNumbers,
    /// How many fields its slots have: 0 to 8.
    pub field_count: u8,
    /// The numbers that its slots say, one after another.
    pub fields: [FieldNumbers; 8],
}

/// One of the numbers in the slots of a parameter. The header calls it `felosumay_field`.
#[repr(C)]
#[derive(Clone, Copy)]
pub struct FieldNumbers {
    /// The least number that it can be.
    pub low: u32,
    /// The greatest number that it can be.
    pub high: u32,
    /// One more number that it can be; where there is none, one of its range again.
    pub also: u32,
    /// How many slots it has: 1, 2 or 4.
    pub slots: u8,
}

/// What one of several things is called of which one is chosen. The header calls it `felosumay_choice`.
#[repr(C)]
#[derive(Clone, Copy)]
pub struct ChoiceNumbers {
    /// The frequency, in hertz, if it is one.
    pub hertz: u32,
    /// The PID of the parameter that tells it.
    pub pid: u16,
    /// The number of the thing, from 1.
    pub number: u8,
    /// What it is called.
    pub name: TextNumbers,
}

/// A parameter that a lock state keeps from being set. The header calls it `felosumay_lock`.
#[repr(C)]
#[derive(Clone, Copy)]
pub struct LockNumbers {
    /// The PID of the parameter.
    pub pid: u16,
    /// The lock state, from 1.
    pub state: u8,
}

impl Numbers<Lock> for LockNumbers {
    ghost stands_for = { lock_in };

    fn entry(&self) -> Lock {
        Lock {
            state: self.state,
            pid: self.pid,
        }
    }
}

impl Numbers<Field> for FieldNumbers {
    ghost stands_for = { field_in };

    fn entry(&self) -> Field {
        Field {
            width: width_in(self.slots),
            low: self.low,
            high: self.high,
            also: self.also,
        }
    }
}

impl FieldNumbers {
    /// Whether it has 1, 2 or 4 slots.
    fn has_width(&self) -> bool
        ensures { result ≡ has_width self.now }
    {
        self.slots == 1 || self.slots == 2 || self.slots == 4
    }
}

/// The width of a number of so many slots; one slot stands for those that there aren't.
fn width_in(slots: u8) -> Width
    ensures { result ≡ width_in slots }
{
    match slots {
        2 => Width::Two,
        4 => Width::Four,
        _ => Width::One,
    }
}

impl Numbers<ChoiceName> for ChoiceNumbers {
    ghost stands_for = { choice_in };

    fn entry(&self) -> ChoiceName {
        ChoiceName {
            pid: self.pid,
            number: self.number,
            hertz: self.hertz,
            name: self.name.text(),
        }
    }
}

impl Numbers<ParameterDef> for ParameterNumbers {
    ghost stands_for = { parameter_in };

    fn entry(&self) -> ParameterDef {
        ParameterDef {
            pid: self.pid,
            rights: rights_in(self.commands),
            shape: self.shape(),
            low: self.low,
            high: self.high,
            fields: self.fields(),
            start: self.start.text(),
            unit: self.unit,
            prefix: self.prefix,
            name: self.name.text(),
            resets: self.resets != 0,
        }
    }
}

impl ParameterNumbers {
    /// Its data, if its fields are ones.
    fn shape(&self) -> Shape
        ensures { result ≡ (parameter_in self.now).shape }
    {
        if self.has_widths() {
            shape_in(self.commands, self.kind, self.size)
        } else {
            Shape::Slots(TOO_MANY_SLOTS)
        }
    }

    /// Whether there are no more fields than there can be, and each has 1, 2 or 4 slots.
    fn has_widths(&self) -> bool
        ensures { result ≡ has_widths self.now }
    {
        let count = usize::from(self.field_count);
        count <= 8 && have_widths(&self.fields[..count])
    }

    /// The numbers that its slots say.
    fn fields(&self) -> ArrayVec<Field, 8>
        ensures { result ≡ (parameter_in self.now).fields }
    {
        let count = usize::from(self.field_count).min(8);
        let mut fields = ArrayVec::new();
        fill(&self.fields[..count], &mut fields);
        fields
    }
}

/// Whether each of these fields has 1, 2 or 4 slots.
fn have_widths(numbers: &[FieldNumbers]) -> bool
    ensures { result ≡ list_all has_width numbers.now }
{
    numbers.iter().all(|number| number.has_width())
}

/// The commands of this number: those of table A-16, and those of COMMS_STATUS.
fn rights_in(commands: u8) -> Rights
    ensures { result ≡ rights_in commands }
{
    match commands {
        0x01 => Rights::Get,
        0x02 => Rights::Set,
        0xF0 => Rights::Clear,
        _ => Rights::Both,
    }
}

/// Whether commands have this number.
fn has_commands(commands: u8) -> bool
    ensures { result ≡ has_commands commands }
{
    (1 <= commands && commands <= 3) || commands == 0xF0
}

/// The data of this type, if commands have the number that is passed.
fn shape_in(commands: u8, kind: u8, size: u8) -> Shape
    ensures { result ≡ shape_in commands kind size }
{
    if has_commands(commands) {
        shape_of(kind, size)
    } else {
        Shape::Slots(TOO_MANY_SLOTS)
    }
}

/// The data of this type of table A-15, with so many slots where it doesn't say how many. Those from F0 on are none of the table's.
fn shape_of(kind: u8, size: u8) -> Shape
    ensures { result ≡ shape_of kind size }
{
    match kind {
        0x00 => Shape::Slots(size),
        0x01 => Shape::Bits(size),
        0x02 => Shape::Text,
        0x03 => Shape::Byte,
        0x04 => Shape::SignedByte,
        0x05 => Shape::Word,
        0x06 => Shape::SignedWord,
        0x07 => Shape::Long,
        0x08 => Shape::SignedLong,
        0xF0 => Shape::Choice,
        0xF1 => Shape::Names,
        0xF2 => Shape::Rates,
        0xF3 => Shape::Scenes,
        0xF4 => Shape::Lock,
        0xF5 => Shape::Pin,
        0xF6 => Shape::Block,
        _ => Shape::Slots(TOO_MANY_SLOTS),
    }
}
