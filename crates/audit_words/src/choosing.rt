//! Of several things of which one at most may be asked for, that one.

ghost use Rattle.std.specs.Prelude.{◌≡◌};
ghost use Rattle.audit_words.specs.Choosing.{asked_ones, fitting, one_at_most};

/// What is asked for of these, where one at most is: each is there where it is asked for. None at all where several are.
pub(crate) fn one_of<T: Copy>(them: &[Option<T>]) -> Option<Option<T>>
    ensures { result ≡ one_at_most (asked_ones them.now) }
{
    let mut one = None;
    for it in them {
        if it.is_some() {
            if one.is_some() {
                return None;
            }
            one = *it;
        }
    }
    Some(one)
}

/// What is asked for, where something is, and it fits; none at all where it does not.
pub(crate) fn fitting<T>(asked: Option<Option<T>>) -> Option<Option<T>>
    ensures { result ≡ fitting asked }
{
    match asked {
        Some(Some(fits)) => Some(Some(fits)),
        Some(None) => None,
        None => Some(None),
    }
}
