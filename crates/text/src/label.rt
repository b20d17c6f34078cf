// A label that waits for its branch, and the byte in which it waits: its number, and as much more as there are labels while its brackets
// are open. One byte each, since 2,047 of them may wait in the stack of a call.
ghost use Rattle.std.specs.Prelude.{false, true, ◌≡◌};
ghost use Rattle.text.specs.Pass.{with_brackets};

use crate::number::{LABELS, Number};
use std::marker::Model;

#[derive(Clone, Copy, Debug, PartialEq, Eq)]
pub(crate) struct Label {
    byte: u8,
}

impl Model for Label {
    ghost use Rattle.std.specs.Prelude.{refl};
    ghost use Rattle.text.specs.Labels.{HoldsLabel, Label as TheLabel, byte_of_label, label_in, label_kept};

    ghost Value = { TheLabel };

    ghost view = { λ l. label_in l.byte };

    ghost invariant = { λ l. HoldsLabel l.byte };

    ghost inverse = { λ l. record { byte = byte_of_label l } };

    ghost inverse_ok = { λ l h. rw (label_kept l.byte h) refl };
}

impl Label {
    // What an array of labels is filled with before one waits.
    pub(crate) const BLANK: Label = Label { byte: 0 };

    // It has no brackets so far.
    pub(crate) fn new(number: Number) -> Self
        ensures { result ≡ with_brackets false number }
    {
        Label {
            byte: number.value(),
        }
    }

    pub(crate) fn number(self) -> Number
        ensures { result ≡ self.number }
    {
        Number::new(self.byte % LABELS)
    }

    pub(crate) fn is_open(self) -> bool
        ensures { result ≡ self.is_open }
    {
        LABELS <= self.byte
    }

    pub(crate) fn opened(self) -> Self
        ensures { result ≡ with_brackets true self.number }
    {
        Label {
            byte: self.number().value() + LABELS,
        }
    }

    pub(crate) fn closed(self) -> Self
        ensures { result ≡ with_brackets false self.number }
    {
        Label::new(self.number())
    }
}
