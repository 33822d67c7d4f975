//! Where a trace is between two records that come after its header, byte by byte.

ghost use Rattle.std.specs.Prelude.{◌≡◌};
ghost use Rattle.trace_ranges.specs.Spots.{in_header, is_cut, spot_after};

use trace_pieces::Place;

/// Where a reader is in a trace.
#[derive(Clone, Copy, PartialEq, Eq)]
pub enum Spot {
    /// Before the first byte.
    Start,
    /// After the first byte of a byte order mark.
    MarkBegun,
    /// After the first two bytes of one.
    MarkGoesOn,
    Header(Place),
    Records(Place),
}

// The spot after a byte that is no part of a byte order mark, where the header hasn't ended before it.
fn in_header(place: Place, byte: u8) -> Spot
    ensures { result ≡ in_header place byte }
{
    let next = place.after(byte);
    if next.is_between() && !place.is_between() {
        Spot::Records(next)
    } else {
        Spot::Header(next)
    }
}

impl Spot {
    /// The spot after this byte.
    pub(crate) fn after(self, byte: u8) -> Spot
        ensures { result ≡ spot_after self byte }
    {
        match self {
            Spot::Start if byte == 0xEF => Spot::MarkBegun,
            Spot::Start => in_header(Place::Between, byte),
            Spot::MarkBegun if byte == 0xBB => Spot::MarkGoesOn,
            Spot::MarkBegun => in_header(Place::InField, byte),
            Spot::MarkGoesOn if byte == 0xBF => Spot::Header(Place::Between),
            Spot::MarkGoesOn => in_header(Place::InField, byte),
            Spot::Header(place) => in_header(place, byte),
            Spot::Records(place) => Spot::Records(place.after(byte)),
        }
    }

    /// Is this between two records, or after the header?
    pub(crate) fn is_cut(self) -> bool
        ensures { result ≡ is_cut self }
    {
        match self {
            Spot::Records(place) => place.is_between(),
            _ => false,
        }
    }
}
