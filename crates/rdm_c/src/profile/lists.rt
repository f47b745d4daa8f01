//! The lists of a profile, each filled where it lies: in its array, or in memory. None gets more entries than it has room for.

ghost use Rattle.std.specs.Prelude.{◌≡◌, ◌<◌, ◌≤◌, ◌++◌, ◌∷◌, [], ℕ, List, OnOk, length, map};

use arrayvec::ArrayVec;
use rdm_params::{ChoiceName, ChoiceNames, Lock, Locks, OwnParameters, ParameterDef};
use std::alloc::{AllocError, Global};

/// Numbers of C that stand for an entry of a list.
pub(super) trait Numbers<T> {
    // The entry that they stand for.
    ghost stands_for: { Self → T };

    /// The entry that they stand for.
    fn entry(&self) -> T
        ensures { result ≡ stands_for self.now };
}

/// Replaces what a list has by the entries that these numbers stand for.
#[inline(never)]
pub(super) fn fill<T: Default + Drop, E: Numbers<T>, const N: usize>(
    numbers: &[E],
    list: &mut ArrayVec<T, N>,
)
    requires { length numbers.now ≤ N }
    ensures { list.new.items ≡ map E.stands_for numbers.now }
{
    list.clear();
    for number in numbers {
        list.push(number.entry());
    }
}

/// Replaces what a list has by these numbers.
pub(super) fn copy<const N: usize>(numbers: &[u16], list: &mut ArrayVec<u16, N>)
    requires { length numbers.now ≤ N }
    ensures { list.new.items ≡ numbers.now }
{
    list.clear();
    let _ = list.try_extend_from_slice(numbers);
}

/// A list of a profile that takes memory.
pub(super) trait InMemory<T> {
    // How many entries it has room for.
    ghost most: { ℕ };

    // Its entries.
    ghost entries: { Self → List T };

    /// Adds an entry behind those that there are. There must be room.
    fn add(&mut self, alloc: Global, entry: T) -> Result<(), AllocError>
        requires { length (entries self.old) < most }
        ensures { OnOk result (entries self.new ≡ entries self.old ++ entry ∷ []) };
}

/// Adds the entries that these numbers stand for to a list that has none.
pub(super) fn keep<T, E: Numbers<T>, L: InMemory<T>>(
    alloc: Global,
    numbers: &[E],
    list: &mut L,
) -> Result<(), AllocError>
    requires empty { L.entries list.old ≡ [] }
    requires room { length numbers.now ≤ L.most }
    ensures { OnOk result (L.entries list.new ≡ map E.stands_for numbers.now) }
{
    for number in numbers {
        list.add(alloc, number.entry())?;
    }
    Ok(())
}

impl InMemory<ParameterDef> for OwnParameters {
    ghost most = { 32 };

    ghost entries = { λ own. own };

    fn add(&mut self, alloc: Global, entry: ParameterDef) -> Result<(), AllocError> {
        self.push(alloc, entry)
    }
}

impl InMemory<ChoiceName> for ChoiceNames {
    ghost most = { 64 };

    ghost entries = { λ names. names };

    fn add(&mut self, alloc: Global, entry: ChoiceName) -> Result<(), AllocError> {
        self.push(alloc, entry)
    }
}

impl InMemory<Lock> for Locks {
    ghost most = { 64 };

    ghost entries = { λ locks. locks };

    fn add(&mut self, alloc: Global, entry: Lock) -> Result<(), AllocError> {
        self.push(alloc, entry)
    }
}
