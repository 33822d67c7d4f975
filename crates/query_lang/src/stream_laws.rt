//! Streams of three packets, computed from their definitions.

ghost use Rattle.query_lang.specs.StreamExamples.{FilterExample, MapExample, ZipExample, GroupExample};

/// A filter, a map and a zip of small streams, and a groupby whose keys are filtered.
pub fn small_streams()
    ensures filter { FilterExample }
    ensures map { MapExample }
    ensures zip { ZipExample }
    ensures group { GroupExample }
{}
