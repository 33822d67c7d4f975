//! Where a text of CSV is between two records, byte by byte.

ghost use Rattle.std.specs.Prelude.{◌≡◌, ◌↔◌, false, true};
ghost use Rattle.csv.specs.Machine as csv;
ghost use Rattle.csv.specs.Reading.{default_config};
ghost use Rattle.trace_pieces.specs.Machine.{next_state, state_of};

/// Where the reader of CSV is in a text: between two records, perhaps after a carriage return, or in a record.
#[derive(Clone, Copy, PartialEq, Eq)]
pub enum Place {
    Between,
    AfterReturn,
    FieldStart,
    InField,
    InQuotes,
    AfterQuote,
}

impl Place {
    /// Is this between two records?
    pub fn is_between(self) -> bool
        ensures { result ≡ true ↔ (csv.ends_at_end (state_of self) ≡ false) }
    {
        match self {
            Place::Between | Place::AfterReturn => true,
            _ => false,
        }
    }

    // The place after a byte that is no quote where a quote is one.
    fn in_field(byte: u8) -> Place
        ensures { state_of result ≡ (csv.in_field default_config byte).0 }
    {
        match byte {
            b',' => Place::FieldStart,
            b'\r' => Place::AfterReturn,
            b'\n' => Place::Between,
            _ => Place::InField,
        }
    }

    fn start_field(byte: u8) -> Place
        ensures { state_of result ≡ (csv.start_field default_config byte).0 }
    {
        match byte {
            b'"' => Place::InQuotes,
            _ => Place::in_field(byte),
        }
    }

    fn start_record(byte: u8) -> Place
        ensures { state_of result ≡ (csv.start_record default_config byte).0 }
    {
        match byte {
            b'\r' | b'\n' => Place::Between,
            _ => Place::start_field(byte),
        }
    }

    /// The place after this byte.
    pub fn after(self, byte: u8) -> Place
        ensures { state_of result ≡ next_state (state_of self) byte }
    {
        match self {
            Place::Between => Place::start_record(byte),
            Place::AfterReturn => match byte {
                b'\n' => Place::Between,
                _ => Place::start_record(byte),
            },
            Place::FieldStart => Place::start_field(byte),
            Place::InField => Place::in_field(byte),
            Place::InQuotes => match byte {
                b'"' => Place::AfterQuote,
                _ => Place::InQuotes,
            },
            Place::AfterQuote => match byte {
                b'"' => Place::InQuotes,
                _ => Place::in_field(byte),
            },
        }
    }
}
