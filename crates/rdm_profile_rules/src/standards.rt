//! The parameters of the standards that a profile can add to the table.

ghost use Rattle.std.specs.Prelude.{◌≡◌, ◌↔◌, ◌==◌, ◌&&◌, ◌||◌, not, length, IsTrue};
ghost use Rattle.std.specs.List.{list_all};
ghost use Rattle.rdm_profile.specs.Fields.{have_sizes};
ghost use Rattle.rdm_profile.specs.Profiles.{FollowStandards};
ghost use Rattle.rdm_profile.specs.Standards.{are_words, is_choice, choice, numbers, lock, pin, block, is_standards, is_shown, is_clear, is_only_standards, may_have, follows_at, follows};
ghost use Rattle.rdm_profile_rules.specs.Standards.{fits};

use crate::lines::{STANDARDS, Standard, StandardShape, is_lent};
use rdm_profile::{Field, ParameterDef, Rights, Shape};

/// Whether each has the commands and the data of its standard, if its PID is one of a standard.
pub(crate) fn follow_standards(defs: &[ParameterDef]) -> bool
    ensures { IsTrue result ↔ FollowStandards defs.now }
{
    defs.iter().all(|def| follows(def))
}

/// Whether a parameter has the commands and the data of its standard, if its PID is one of a standard.
pub fn follows(def: &ParameterDef) -> bool
    ensures { result ≡ follows def.now }
{
    follows_at(def.pid, def) && (!is_only_standards(def) || is_lent(def.pid))
}

/// Whether a parameter has the commands and the data of the standard's parameter with this PID, if it is one that a profile can add.
fn follows_at(pid: u16, def: &ParameterDef) -> bool
    ensures { result ≡ follows_at pid def.now }
{
    follows_each(STANDARDS, pid, def)
}

/// Whether a parameter is as each of these lines of a PID says.
fn follows_each(lines: &[Standard], pid: u16, def: &ParameterDef) -> bool
    ensures { result ≡ list_all (λ s. not (s.pid == pid) || (may_have s.rights def.now.rights && fits s.shape def.now)) lines.now }
{
    lines
        .iter()
        .all(|line| line.pid != pid || follows_line(line, def))
}

/// Whether a parameter has commands and the data of a line.
fn follows_line(line: &Standard, def: &ParameterDef) -> bool
    ensures { result ≡ (may_have line.now.rights def.now.rights && fits line.now.shape def.now) }
{
    may_have(line.rights, def.rights) && fits(line.shape, def)
}

/// Whether the data of a parameter are these.
fn fits(shape: StandardShape, def: &ParameterDef) -> bool
    ensures { result ≡ fits shape def.now }
{
    match shape {
        StandardShape::Numbers(size, sizes) => has_numbers(def, size, sizes),
        StandardShape::Words(most) => are_words(def.shape, most),
        StandardShape::Choice => has_choice(def),
        StandardShape::Names => matches!(def.shape, Shape::Names),
        StandardShape::Rates => matches!(def.shape, Shape::Rates),
        StandardShape::Scenes => matches!(def.shape, Shape::Scenes),
        StandardShape::Lock => has_lock(def),
        StandardShape::Pin => has_pin(def),
        StandardShape::Block => has_block(def),
    }
}

/// Whether these rights give no command that the standard's don't.
fn may_have(rights: Rights, own: Rights) -> bool
    ensures { result ≡ may_have rights own }
{
    match rights {
        Rights::Get => matches!(own, Rights::Get),
        Rights::Set => matches!(own, Rights::Set),
        Rights::Both => !is_clear(own),
        Rights::Clear => matches!(own, Rights::Get | Rights::Clear),
    }
}

/// Whether its data or its commands are those that only a parameter of the standards has.
fn is_only_standards(def: &ParameterDef) -> bool
    ensures { result ≡ is_only_standards def.now }
{
    is_standards(def.shape) || is_clear(def.rights)
}

/// Whether data are of a shape that only a parameter of the standards has.
fn is_standards(shape: Shape) -> bool
    ensures { result ≡ is_standards shape }
{
    match shape {
        Shape::Choice | Shape::Names | Shape::Rates => true,
        Shape::Scenes | Shape::Lock | Shape::Pin | Shape::Block => true,
        _ => false,
    }
}

/// Whether data are the number of one of several things.
fn is_choice(shape: Shape) -> bool
    ensures { result ≡ is_choice shape }
{
    matches!(shape, Shape::Choice)
}

/// Whether its data are the number of one of several things, from 1.
fn has_choice(def: &ParameterDef) -> bool
    ensures { result ≡ choice def.now }
{
    is_choice(def.shape) && def.low == 1
}

/// Whether its data are the number of a lock state, from 0.
fn has_lock(def: &ParameterDef) -> bool
    ensures { result ≡ lock def.now }
{
    matches!(def.shape, Shape::Lock) && def.low == 0
}

/// Whether its data are a PIN.
fn has_pin(def: &ParameterDef) -> bool
    ensures { result ≡ pin def.now }
{
    matches!(def.shape, Shape::Pin) && def.low == 0 && def.high == 9999
}

/// Whether it tells where the slots of all sub-devices lie.
fn has_block(def: &ParameterDef) -> bool
    ensures { result ≡ block def.now }
{
    matches!(def.shape, Shape::Block) && is_shown(def.rights)
}

/// Whether there is a GET.
fn is_shown(rights: Rights) -> bool
    ensures { result ≡ is_shown rights }
{
    match rights {
        Rights::Set => false,
        Rights::Get | Rights::Both | Rights::Clear => true,
    }
}

/// Whether a SET clears counts, and has no data.
fn is_clear(rights: Rights) -> bool
    ensures { result ≡ is_clear rights }
{
    match rights {
        Rights::Clear => true,
        Rights::Get | Rights::Set | Rights::Both => false,
    }
}

/// Whether data are a list of numbers of two slots: one at least, and so many at most.
fn are_words(shape: Shape, most: u8) -> bool
    ensures { result ≡ are_words most shape }
{
    match shape {
        Shape::Word => 1 <= most,
        Shape::Slots(size) => size % 2 == 0 && 2 <= size && size as u16 <= 2 * most as u16,
        _ => false,
    }
}

/// Whether its data have so many slots in all, in which numbers of so many slots each stand one after another.
fn has_numbers(def: &ParameterDef, size: u8, sizes: &[u8]) -> bool
    ensures { result ≡ numbers size sizes.now def.now }
{
    match def.shape {
        Shape::Byte => sizes == [1].as_slice(),
        Shape::Word => sizes == [2].as_slice(),
        Shape::Long => sizes == [4].as_slice(),
        Shape::Slots(slots) => slots == size && have_sizes_if_any(def.fields.as_slice(), sizes),
        _ => false,
    }
}

/// Whether there are no fields, or each has as many slots as these say.
fn have_sizes_if_any(fields: &[Field], sizes: &[u8]) -> bool
    ensures { result ≡ ((length fields.now == 0) || have_sizes fields.now sizes.now) }
{
    fields.is_empty() || have_sizes(fields, sizes)
}

/// Whether each field has as many slots as these say.
#[tactic(auto, using(rdm_profile::proofs::FieldSteps::one_size, rdm_profile::proofs::FieldSteps::other_size, rdm_profile::proofs::FieldSteps::all_sizes, rdm_profile::proofs::FieldSteps::more_sizes, std::proofs::lemmas::Grind::common_steps))]
fn have_sizes(fields: &[Field], sizes: &[u8]) -> bool
    ensures { result ≡ have_sizes fields.now sizes.now }
{
    if fields.len() != sizes.len() {
        return false;
    }
    for i in 0..fields.len() {
        if fields[i].width.slots() != sizes[i] as usize {
            return false;
        }
    }
    true
}
