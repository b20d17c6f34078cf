// The number of a label, at most the highest: so a byte has room for it and for what is to be known beside it.
ghost use Rattle.std.specs.Prelude.{◌≡◌, ◌≤◌};

use paper::limits::HIGHEST_LABEL;
use std::marker::Model;

// So many labels there are.
pub(crate) const LABELS: u8 = HIGHEST_LABEL + 1;

// No `Copy`: with it the kit's proof of a match over an enum that holds one does not check.
#[derive(Clone, Debug, Drop, PartialEq, Eq)]
pub(crate) struct Number {
    value: u8,
}

impl Model for Number {
    ghost use Rattle.std.specs.Prelude.{ℕ, ◌≤◌};

    ghost Value = { ℕ };

    ghost view = { λ n. n.value };

    ghost invariant = { λ n. n.value ≤ 63 };

    ghost inverse = { λ n. record { value = n } };
}

impl Number {
    pub(crate) fn new(value: u8) -> Self
        requires { value ≤ 63 }
        ensures { result ≡ value }
    {
        Number { value }
    }

    pub(crate) fn value(self) -> u8
        ensures same { result ≡ self }
        ensures small { result ≤ 63 }
    {
        self.value
    }
}
