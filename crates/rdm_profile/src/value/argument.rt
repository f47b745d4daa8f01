//! What a command hands in.

ghost use Rattle.std.specs.Prelude.{◌≡◌, ◌≤◌, ◌↔◌, length, unwrap_or, Some, None, IfSome, false, if◌then◌else◌};
ghost use Rattle.std.specs.Option.{option_copied};
ghost use Rattle.rdm_profile.specs.declared.value.Value.TheVariants.{Nothing, Byte, Word, Label};
ghost use Rattle.rdm_profile.specs.Forms.{nothing, label, has_form, is_of_a_form};
ghost use Rattle.rdm_profile.specs.Values.{byte_in, word_in, long_in, preset_in, label_in};

use crate::{Value, writes};
use rdm_frame::Text;
use std::marker::Model;

/// The value that a command hands in, whose text is borrowed, so that it is cheap to move. A contract sees the value.
#[derive(Debug, Drop)]
pub struct Argument<'a> {
    /// The form that it has.
    pub value: ValueRef<'a>,
}

/// The forms of such a value.
#[derive(Debug, Drop)]
pub enum ValueRef<'a> {
    /// No data.
    Nothing,
    /// An 8-bit number.
    Byte(u8),
    /// A 16-bit number.
    Word(u16),
    /// A 32-bit number.
    Long(u32),
    /// A preset and its level.
    Preset(u16, u8),
    /// A text of at most 32 bytes.
    Label(&'a [u8]),
}

impl<'a> Model for Argument<'a> {
    ghost use Rattle.std.specs.Prelude.{◌≤◌};
    ghost use Rattle.rdm_profile.specs.declared.value.Value.{Value as TheValue};
    ghost use Rattle.rdm_profile.specs.Views.ValueRef.{value_of_ref, text_length};

    ghost Value = { TheValue };

    ghost view = { λ a. value_of_ref a.value };

    ghost invariant = { λ a. text_length a.value ≤ 32 };
}

impl<'a> Argument<'a> {
    /// This value, if it has a form that a command can have.
    pub fn of(value: &'a Value) -> Option<Self>
        ensures { result ≡ if is_of_a_form value.now then Some value.now else None }
    {
        let value = match value {
            Value::Nothing => ValueRef::Nothing,
            Value::Byte(number) => ValueRef::Byte(*number),
            Value::Word(number) => ValueRef::Word(*number),
            Value::Long(number) => ValueRef::Long(*number),
            Value::Preset { mode, level } => ValueRef::Preset(*mode, *level),
            Value::Label(text) => ValueRef::Label(text.as_slice()),
            _ => return None,
        };
        Some(Argument { value })
    }

    /// No data.
    #[inline]
    pub fn nothing() -> Self
        ensures { result ≡ Nothing }
    {
        Argument {
            value: ValueRef::Nothing,
        }
    }

    /// A 16-bit number.
    #[inline]
    pub fn from_word(number: u16) -> Self
        ensures { result ≡ Word number }
    {
        Argument {
            value: ValueRef::Word(number),
        }
    }

    /// A text.
    #[inline]
    pub fn from_label(text: &'a [u8]) -> Self
        requires { length text.now ≤ 32 }
        ensures { result ≡ Label text.now }
    {
        Argument {
            value: ValueRef::Label(text),
        }
    }

    /// An 8-bit number.
    #[inline]
    pub fn from_byte(number: u8) -> Self
        ensures { result ≡ Byte number }
    {
        Argument {
            value: ValueRef::Byte(number),
        }
    }

    /// The value.
    pub fn to_value(&self) -> Value
        ensures { result ≡ self.now }
    {
        match &self.value {
            ValueRef::Nothing => Value::Nothing,
            ValueRef::Byte(number) => Value::Byte(*number),
            ValueRef::Word(number) => Value::Word(*number),
            ValueRef::Long(number) => Value::Long(*number),
            ValueRef::Preset(mode, level) => Value::Preset {
                mode: *mode,
                level: *level,
            },
            ValueRef::Label(bytes) => Value::Label(Text::of(bytes)),
        }
    }

    /// Whether the value has no data.
    #[inline]
    pub fn is_nothing(&self) -> bool
        ensures { result ≡ has_form nothing self.now }
    {
        matches!(&self.value, ValueRef::Nothing)
    }

    /// Whether the value is a text.
    #[inline]
    pub fn is_label(&self) -> bool
        ensures { result ≡ has_form label self.now }
    {
        matches!(&self.value, ValueRef::Label(_))
    }

    /// The 8-bit number, if the value is one.
    #[inline]
    pub fn byte(&self) -> Option<u8>
        ensures { result ≡ byte_in self.now }
    {
        match &self.value {
            ValueRef::Byte(number) => Some(*number),
            _ => None,
        }
    }

    /// The 16-bit number, if the value is one.
    #[inline]
    pub fn word(&self) -> Option<u16>
        ensures { result ≡ word_in self.now }
    {
        match &self.value {
            ValueRef::Word(number) => Some(*number),
            _ => None,
        }
    }

    /// The 32-bit number, if the value is one.
    #[inline]
    pub fn long(&self) -> Option<u32>
        ensures { result ≡ long_in self.now }
    {
        match &self.value {
            ValueRef::Long(number) => Some(*number),
            _ => None,
        }
    }

    /// The preset and its level, if the value is one.
    #[inline]
    pub fn preset(&self) -> Option<(u16, u8)>
        ensures { result ≡ preset_in self.now }
    {
        match &self.value {
            ValueRef::Preset(mode, level) => Some((*mode, *level)),
            _ => None,
        }
    }

    /// The text or the slots, if the value is such.
    #[inline]
    pub fn label(&self) -> Option<&[u8]>
        ensures text { option_copied result ≡ label_in self.now }
        ensures few { IfSome result (λ bytes. length bytes.now ≤ 32) }
    {
        match &self.value {
            ValueRef::Label(bytes) => Some(bytes),
            _ => None,
        }
    }

    /// Writes the text over another one, if the value is a text, and says whether it is another text.
    // A call: if the text lay among the bytes of a match over all rows, each SET would make room for it.
    #[inline(never)]
    pub fn write_label(&self, label: &mut Text) -> bool
        ensures now { label.new ≡ unwrap_or (label_in self.now) label.old }
        ensures same { (result ≡ false) ↔ (label.new ≡ label.old) }
    {
        match &self.value {
            ValueRef::Label(bytes) => writes::text(label, bytes),
            _ => false,
        }
    }
}
