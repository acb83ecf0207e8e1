//! Settings of nodes by their numbers, which begin with 1.

ghost use Rattle.std.specs.Prelude.{◌≡◌};
ghost use Rattle.std.specs.Option.{option_copied};
ghost use Rattle.claim_model.specs.Numbered.{numbered};

/// What stands under a number.
pub(crate) fn of_number<T>(items: &[T], number: u16) -> Option<&T>
    ensures { option_copied result ≡ numbered items.now number }
{
    if number == 0 {
        return None;
    }
    items.get(number as usize - 1)
}
