//! Bytes against those that have to stand there.

ghost use Rattle.std.specs.Prelude.{◌≡◌};
ghost use Rattle.kept_logs.specs.Frames.{met};
ghost use Rattle.kept_logs.specs.MetSeen.{met_seen};

/// What bytes are beside those that have to stand at their front.
#[derive(Clone, Copy)]
pub(crate) enum Met<'a> {
    /// They stand there, and this follows.
    Whole(&'a [u8]),
    /// The bytes end before, and are so far as they have to be.
    Torn,
    /// One is another.
    Differs,
}

/// What these bytes are beside the wanted ones.
pub(crate) fn meet<'a>(wanted: &[u8], bytes: &'a [u8]) -> Met<'a>
    ensures { met_seen result ≡ met wanted.now bytes.now }
{
    let common = bytes.len().min(wanted.len());
    if wanted[..common] != bytes[..common] {
        Met::Differs
    } else if common < wanted.len() {
        Met::Torn
    } else {
        Met::Whole(&bytes[common..])
    }
}
