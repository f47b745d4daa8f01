//! What an update keeps, over all values. Each law is the contract of a call that does nothing.

ghost use Rattle.std.specs.Prelude.{◌≡◌, ◌==◌};
ghost use Rattle.rdm_updates.specs.Lasting.{SavedIsRead};
ghost use Rattle.rdm_updates.specs.Laws.{StartIsCounted, UpdateKeeps};
ghost use Rattle.rdm_updates.specs.Updated.{is_same_word};

/// An image of another version of the same model isn't refused, and what both versions know and the new one can have is as it was saved.
pub fn update_keeps_values()
    ensures { UpdateKeeps }
{}

/// The law above asks for counts that an image can hold, and for as many sensors and sub-devices as the profile says. So has a fixture that
/// starts.
pub fn start_is_counted()
    ensures { StartIsCounted }
{}

/// Numbers of 16 bits are the same for the law if they are equal.
pub fn words_are_compared(first: u16, second: u16)
    ensures { is_same_word first second ≡ (first == second) }
{}

/// What is read from the image of a fixture, one by one, are its values that last, in their order.
pub fn saved_values_are_read()
    ensures { SavedIsRead }
{}
