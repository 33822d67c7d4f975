//! The place in a trace after many bytes.

ghost use Rattle.std.specs.Prelude.{◌≡◌};
ghost use Rattle.trace_ranges.specs.Spots.{is_quoted, place_over};

use memchr::{memchr, memrchr};
use trace_pieces::Place;

// Whether a quote may go on.
fn is_quoted(place: Place) -> bool
    ensures { result ≡ is_quoted place }
{
    matches!(place, Place::InQuotes | Place::AfterQuote)
}

// The place after these bytes, found byte by byte.
fn place_by_bytes(place: Place, bytes: &[u8]) -> Place
    ensures { result ≡ place_over place bytes.now }
{
    let mut place = place;
    for byte in bytes {
        place = place.after(*byte);
    }
    place
}

/// The place after these bytes. Without quotes each line feed leads between two records, so only the bytes after the last one count.
pub(crate) fn place_over(place: Place, bytes: &[u8]) -> Place
    ensures { result ≡ place_over place bytes.now }
{
    if is_quoted(place) || memchr(b'"', bytes).is_some() {
        return place_by_bytes(place, bytes);
    }
    match memrchr(b'\n', bytes) {
        Some(at) => place_by_bytes(Place::Between, &bytes[at + 1..]),
        None => place_by_bytes(place, bytes),
    }
}
