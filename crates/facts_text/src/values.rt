//! Names, places and lists as values of JSON.

use query_lang::{Name, Names, Span};
use serde_json::{Map, Value, put};
use std::alloc::{AllocError, Global};

/// The members of an object that is being made.
#[derive(Drop)]
pub(crate) struct Members {
    alloc: Global,
    made: Map<String, Value>,
}

impl Members {
    /// None yet.
    pub(crate) fn new(alloc: Global) -> Members {
        Members {
            alloc,
            made: Map::new(alloc),
        }
    }

    /// Adds a member.
    pub(crate) fn put(&mut self, name: &str, value: Value) -> Result<(), AllocError> {
        put(&mut self.made, self.alloc, name, value)
    }

    /// Adds a member that is made, if it could be.
    pub(crate) fn put_made(
        &mut self,
        name: &str,
        made: Result<Value, AllocError>,
    ) -> Result<(), AllocError> {
        self.put(name, made?)
    }

    /// Adds a member that is a text.
    pub(crate) fn put_text(&mut self, name: &str, text: &str) -> Result<(), AllocError> {
        self.put_made(name, Value::try_from_str(self.alloc, text))
    }

    /// The object of these members.
    pub(crate) fn into_object(self) -> Value {
        Value::Object(self.made)
    }
}

/// Adds an element that is made, if it could be.
pub(crate) fn push_made(
    list: &mut Vec<Value>,
    made: Result<Value, AllocError>,
) -> Result<(), AllocError> {
    list.push(made?)?;
    Ok(())
}

/// A text of bytes: names and tokens are ASCII.
pub(crate) fn bytes_value(alloc: Global, bytes: &[u8]) -> Result<Value, AllocError> {
    match std::str::from_utf8(bytes) {
        Ok(text) => Value::try_from_str(alloc, text),
        Err(_) => Ok(Value::Null),
    }
}

/// A word, or null.
pub(crate) fn word_value(alloc: Global, word: Option<&str>) -> Result<Value, AllocError> {
    match word {
        Some(text) => Value::try_from_str(alloc, text),
        None => Ok(Value::Null),
    }
}

/// The text of the name with this number.
pub(crate) fn name_value(alloc: Global, names: &Names, id: u32) -> Result<Value, AllocError> {
    if (id as usize) < names.len() {
        return bytes_value(alloc, names.text(id));
    }
    Ok(Value::Null)
}

/// A name, and where it stands.
pub(crate) fn placed(alloc: Global, names: &Names, name: Name) -> Result<Value, AllocError> {
    let mut members = Members::new(alloc);
    members.put_made("name", name_value(alloc, names, name.id))?;
    members.put("start", Value::from(name.span.start))?;
    Ok(members.into_object())
}

/// The texts of these names.
pub(crate) fn name_list(alloc: Global, names: &Names, ids: &[u32]) -> Result<Value, AllocError> {
    let mut list = Vec::new(alloc);
    for id in ids {
        push_made(&mut list, name_value(alloc, names, *id))?;
    }
    Ok(Value::Array(list))
}

/// These names, each with its place.
pub(crate) fn placed_list(alloc: Global, names: &Names, all: &[Name]) -> Result<Value, AllocError> {
    let mut list = Vec::new(alloc);
    for name in all {
        push_made(&mut list, placed(alloc, names, *name))?;
    }
    Ok(Value::Array(list))
}

/// Adds where something begins and ends.
pub(crate) fn put_span(to: &mut Members, span: Span) -> Result<(), AllocError> {
    to.put("start", Value::from(span.start))?;
    to.put("end", Value::from(span.end))
}

/// A word and a place.
pub(crate) fn word_at(alloc: Global, word: &str, span: Span) -> Result<Value, AllocError> {
    let mut members = Members::new(alloc);
    members.put_text("kind", word)?;
    put_span(&mut members, span)?;
    Ok(members.into_object())
}
