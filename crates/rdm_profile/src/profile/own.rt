//! The parameters that a fixture has beside those of the standard.

ghost use Rattle.std.specs.Prelude.{◌≡◌, ◌<◌, ◌≤◌, [], ◌∷◌, ◌++◌, length, IfOk, OnErr, OnOk};
ghost use Rattle.rdm_profile.specs.OwnParameters.{is_makers};

use crate::Field;
use arrayvec::ArrayVec;
use rdm_frame::Text;
use std::alloc::{AllocError, Global};
use std::marker::Model;

/// Which commands a parameter has (E1.20 section 10.4.2, command class).
#[derive(Clone, Copy, Debug, PartialEq, Eq)]
pub enum Rights {
    /// GET alone.
    Get,
    /// SET alone: it is an order. Each that is accepted is told as a change, also one as the last.
    Set,
    /// GET and SET.
    Both,
    /// GET, and a SET without data that clears it to zero: the counts of COMMS_STATUS (E1.20 section 10.2.1).
    Clear,
}

/// Which data a parameter has (section 10.4.2 and table A-15).
#[derive(Clone, Copy, Debug, PartialEq, Eq)]
pub enum Shape {
    /// A number of 8 bits.
    Byte,
    /// A number of 16 bits.
    Word,
    /// A number of 32 bits.
    Long,
    /// A signed number of 8 bits.
    SignedByte,
    /// A signed number of 16 bits.
    SignedWord,
    /// A signed number of 32 bits.
    SignedLong,
    /// A text of at most 32 bytes.
    Text,
    /// A field of bits of so many slots, of which there are at most 32.
    Bits(u8),
    /// So many slots, of which there are at most 32: numbers, if the parameter has fields, else of a form that the maker tells elsewhere.
    Slots(u8),
    /// The number of one of several things, in one slot; a GET also replies the greatest (E1.37-1 CURVE and the like).
    Choice,
    /// No data of its own: it tells what the things of a choice are called, of which a GET asks with their number, from 1 (E1.37-1
    /// CURVE_DESCRIPTION and the like).
    Names,
    /// The same, with a frequency of each (E1.37-1 MODULATION_FREQUENCY_DESCRIPTION).
    Rates,
    /// The times of each of several scenes, from 1 to the greatest number, and whether it is programmed, of which the first can only be
    /// read: as many as the least number (E1.37-1 PRESET_STATUS).
    Scenes,
    /// The number of a lock state: 0, which is unlocked, to the greatest, which a GET also replies; a SET hands in the PIN before it
    /// (E1.37-1 LOCK_STATE).
    Lock,
    /// The PIN of four digits with which that is set; a SET hands in the new one, and then that which is kept (E1.37-1 LOCK_PIN).
    Pin,
    /// No data of its own: it tells where the slots of all sub-devices lie, and a SET hands in where they are to begin (E1.37-1
    /// DMX_BLOCK_ADDRESS).
    Block,
}

/// A parameter that the maker of the fixture adds, at the root device.
#[derive(Debug, Drop, PartialEq, Eq)]
pub struct ParameterDef {
    /// Its PID: 0x8000 to 0xFFDF, or one of the standards' whose data can be described so.
    pub pid: u16,
    /// Which commands it has.
    pub rights: Rights,
    /// Which data it has.
    pub shape: Shape,
    /// The least value, where the data are a number.
    pub low: i64,
    /// The greatest value, where the data are a number.
    pub high: i64,
    /// The numbers that its slots say, one after another, where the data are slots; none where the maker tells elsewhere what they are.
    pub fields: ArrayVec<Field, 8>,
    /// The data that it starts with.
    pub start: Text,
    /// The unit of its values (table A-13).
    pub unit: u8,
    /// The prefix of the unit (table A-14).
    pub prefix: u8,
    /// What it is called (section 10.4.2).
    pub name: Text,
    /// Whether FACTORY_DEFAULTS sets it back (section 10.5.6).
    pub resets: bool,
}

/// The parameters that the maker of a fixture adds: at most 32. A contract sees the list of them.
// Behind a pointer, so that a profile has no room for what few fixtures have; and as many places as there are parameters, since one is
// large.
#[derive(Debug, Drop)]
pub struct OwnParameters {
    list: Option<Box<Vec<ParameterDef>>>,
}

impl Model for OwnParameters {
    ghost use Rattle.std.specs.Prelude.{List, ◌≤◌, length};
    ghost use Rattle.rdm_profile.specs.declared.profile.own.ParameterDef.{ParameterDef};
    ghost use Rattle.rdm_profile.specs.Views.Own.{grown};

    ghost Value = { List ParameterDef };

    ghost view = { λ o. grown o.list };

    ghost invariant = { λ o. length (grown o.list) ≤ 32 };
}

impl OwnParameters {
    /// No parameters.
    pub fn none() -> Self
        ensures { result ≡ [] }
    {
        OwnParameters { list: None }
    }

    /// No parameters, with room for so many: pushing them takes no more memory.
    pub fn with_room(alloc: Global, count: usize) -> Result<Self, AllocError>
        ensures { IfOk result (λ own. own ≡ []) }
    {
        if count == 0 {
            return Ok(OwnParameters::none());
        }
        let list = Some(Box::new(alloc, Vec::with_capacity(alloc, count)?)?);
        Ok(OwnParameters { list })
    }

    /// These parameters. They take memory unless there are none.
    pub fn of(alloc: Global, list: ArrayVec<ParameterDef, 32>) -> Result<Self, AllocError>
        ensures { IfOk result (λ own. own ≡ list.items) }
    {
        if list.is_empty() {
            return Ok(OwnParameters::none());
        }
        let list = Some(Box::new(alloc, grown(alloc, list)?)?);
        Ok(OwnParameters { list })
    }

    /// The parameters.
    pub fn as_slice(&self) -> &[ParameterDef]
        ensures value { result.now ≡ self.now }
        ensures few { length result.now ≤ 32 }
    {
        match &self.list {
            Some(list) => list.as_slice(),
            None => &[],
        }
    }

    /// Adds a parameter, after those that there are. There must be room.
    pub fn push(&mut self, alloc: Global, def: ParameterDef) -> Result<(), AllocError>
        requires { length self.old < 32 }
        ensures pushed { OnOk result (self.new ≡ self.old ++ def ∷ []) }
        ensures same { OnErr result (self.new ≡ self.old) }
    {
        match &mut self.list {
            Some(list) => list.push(def)?,
            None => {
                let mut list = Vec::new(alloc);
                list.push(def)?;
                self.list = Some(Box::new(alloc, list)?);
            }
        }
        Ok(())
    }
}

/// Whether the standard leaves the PID to makers.
pub fn is_makers(pid: u16) -> bool
    ensures { result ≡ is_makers pid }
{
    0x8000 <= pid && pid < 0xFFE0
}

/// These parameters, in as much memory as they need.
fn grown(alloc: Global, list: ArrayVec<ParameterDef, 32>) -> Result<Vec<ParameterDef>, AllocError>
    ensures items { IfOk result (λ all. all.items ≡ list.items) }
    ensures few { IfOk result (λ all. length all.items ≤ 32) }
{
    let mut all = Vec::with_capacity(alloc, list.len())?;
    for def in list {
        all.push(def)?;
    }
    Ok(all)
}

impl PartialEq for OwnParameters {
    ghost use Rattle.std.specs.Cmp.Lexicographic.{lists_per, pointwise};
    ghost use Rattle.rdm_profile.specs.contracts.profile.own.ParameterDefPartialEq.TheImpl.Laws as params;

    ghost eq = { pointwise ⟦<ParameterDef as PartialEq>⟧.eq };

    ghost laws = { lists_per params.laws-law };

    fn eq(&self, other: &Self) -> bool {
        self.as_slice() == other.as_slice()
    }
}

impl Eq for OwnParameters {
    ghost use Rattle.std.specs.Cmp.Lexicographic.{lists_equiv};
    ghost use Rattle.rdm_profile.specs.contracts.profile.own.ParameterDefEq.TheImpl.Laws as params;

    ghost laws = { lists_equiv params.laws-law };
}
