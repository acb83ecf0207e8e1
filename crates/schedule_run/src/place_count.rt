//! How many transactions a request has.

ghost use Rattle.std.specs.Prelude.{◌≡◌, option_and_then};
ghost use Rattle.std.specs.Option.{option_copied};
ghost use Rattle.claim_profile.specs.Readable.{readable_header};
ghost use Rattle.node_logged.specs.TillSeen.{till_seen};
ghost use Rattle.schedule_run.specs.Places.{places_asked, places_of_header, request_of};

use claim_profile::check_readable;
use node_threads::{Receipt, Till};

/// How many transactions the request of a receipt has; one where there is none.
pub(crate) fn places_of(till: &Till, number: u64) -> u8
    ensures { result ≡ places_asked number (till_seen till.now) }
{
    match request_of(till.receipts(), number) {
        Some(request) => count_in(request),
        None => 1,
    }
}

/// The request of the first receipt with this number.
fn request_of(receipts: &[Receipt], number: u64) -> Option<&[u8]>
    ensures { option_copied result ≡ request_of number receipts.now }
{
    for receipt in receipts {
        if receipt.number() == number {
            return Some(receipt.request());
        }
    }
    None
}

/// How many transactions the header of a request counts.
fn count_in(request: &[u8]) -> u8
    ensures { result ≡ places_of_header (readable_header request.now) }
{
    match check_readable(request) {
        Some(framed) => framed.header().count(),
        None => 1,
    }
}
