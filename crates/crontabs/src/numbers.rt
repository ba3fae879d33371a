//! The numbers that a field has.
ghost use Rattle.std.specs.Prelude.{◌≡◌, ◌^◌, ◌<◌, ◌↔◌, IsTrue};
ghost use Rattle.crontabs.specs.Fields.{field_has};
ghost use Rattle.crontabs.specs.Found.{SomeBetween};

use crate::stepped_range::SteppedRange;

/// Whether a field has a number.
pub(crate) fn has(field: &[SteppedRange], number: u64) -> bool
    ensures { result ≡ field_has field.now number }
{
    field.iter().any(|steps| steps.has(number))
}

/// Whether a field has a number between these, both included.
pub(crate) fn has_between(field: &[SteppedRange], low: u64, high: u64) -> bool
    requires { high < 2 ^ 63 }
    ensures { IsTrue result ↔ SomeBetween (field_has field.now) low high }
{
    for number in low..high + 1 {
        if has(field, number) {
            return true;
        }
    }
    false
}
