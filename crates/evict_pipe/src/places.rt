//! The places of a ring of records.

ghost use Rattle.std.specs.Prelude.{◌≡◌, ◌*◌, ◌<◌, ◌≤◌};
ghost use Rattle.evict_pipe.specs.Rings.{place_after};

/// The place of the first word of a record, the one at the first place being 0.
pub fn start_of(record_words: usize, places: u32, first: u32, i: u32) -> usize
    requires words { record_words ≤ 512 }
    requires places { places ≤ 65536 }
    requires first { first < places }
    requires range { i < places }
    ensures { result ≡ place_after places first i * record_words }
{
    let at = first + i;
    let place = if at < places { at } else { at - places };
    place as usize * record_words
}
