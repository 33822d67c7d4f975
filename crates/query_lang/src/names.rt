//! The names of a query, by number.

ghost use Rattle.std.specs.{Prelude.{◌≡◌, ℕ, ◌-◌, ◌^◌, ◌<◌, Some, [], length, map, slice_get, IfOk, OnOk, OnErr}, Str.bytes_eq};
ghost use Rattle.query_lang.specs.Names.{AreOnce, number_in, print_of, texts_of, with_name};

use std::alloc::{AllocError, Global};
use std::marker::Model;

/// Texts of names, which contracts see as a list. A name's number is its place, from 0, by first appearance. Each text has
/// a word, by which most others are passed over.
pub struct Names {
    alloc: Global,
    texts: Vec<Vec<u8>>,
    prints: Vec<u64>,
}

// A word by which most texts differ.
fn print_of(text: &[u8]) -> u64
    ensures { result ≡ print_of text.now }
{
    let mut print = 0u64;
    for byte in text {
        print = (print ^ *byte as u64).wrapping_mul(0x100_0000_01b3);
    }
    print
}

// Are these the same text? Each is given with its word.
fn is_same(known: &[u8], known_print: u64, text: &[u8], print: u64) -> bool
    requires known { known_print ≡ print_of known.now }
    requires text { print ≡ print_of text.now }
    ensures { result ≡ bytes_eq text.now known.now }
{
    known_print == print && text == known
}

// The place of a text, or how many texts there are.
fn place_of(texts: &[Vec<u8>], prints: &[u64], text: &[u8], print: u64) -> usize
    requires prints { prints.now ≡ map print_of (texts_of texts.now) }
    requires print { print ≡ print_of text.now }
    ensures { result ≡ number_in (texts_of texts.now) text.now }
{
    for at in 0..texts.len() {
        if is_same(texts[at].as_slice(), prints[at], text, print) {
            return at;
        }
    }
    texts.len()
}

impl Drop for Names {
    fn drop(self) {
        let Names {
            alloc: _,
            texts: _,
            prints: _,
        } = self;
    }
}

impl Model for Names {
    ghost use Rattle.std.specs.Prelude.{List, ℕ};
    ghost use Rattle.query_lang.specs.Names.{AreNumbered, texts_of};

    ghost Value = { List (List ℕ) };

    ghost view = { λ n. texts_of n.texts.items };

    ghost invariant = { λ n. AreNumbered (texts_of n.texts.items) n.prints.items };
}

impl Names {
    /// No names.
    pub fn new(alloc: Global) -> Names
        ensures { result ≡ [] }
    {
        Names {
            alloc,
            texts: Vec::new(alloc),
            prints: Vec::new(alloc),
        }
    }

    /// The number of names.
    pub fn len(&self) -> usize
        ensures { result ≡ length self.now }
    {
        self.texts.len()
    }

    /// No two numbers have the same text.
    pub fn invariant(&self)
        ensures { AreOnce self.now }
    {
        let _count = self.texts.len();
    }

    /// The number of a name, which is the next one where the name is new.
    pub fn number(&mut self, text: &[u8]) -> Result<u32, AllocError>
        requires { length self.old < 2 ^ 32 - 1 }
        ensures number { IfOk result (λ id. id ≡ number_in self.old text.now) }
        ensures names { OnOk result (self.new ≡ with_name self.old text.now) }
        ensures text { IfOk result (λ id. slice_get self.new id ≡ Some text.now) }
        ensures err { OnErr result (self.new ≡ self.old) }
    {
        let print = print_of(text);
        let at = place_of(self.texts.as_slice(), self.prints.as_slice(), text, print);
        if at < self.texts.len() {
            return Ok(at as u32);
        }
        let owned = Vec::from_slice(self.alloc, text)?;
        self.prints.reserve(1)?;
        self.texts.push(owned)?;
        self.prints.push_reserved(print);
        Ok(at as u32)
    }

    /// The number of a text: that of its name, or the next number where no name has it. It takes no memory.
    pub fn find(&self, text: &[u8]) -> u32
        requires { length self.now < 2 ^ 32 }
        ensures { result ≡ number_in self.now text.now }
    {
        place_of(
            self.texts.as_slice(),
            self.prints.as_slice(),
            text,
            print_of(text),
        ) as u32
    }

    /// The text of the name with this number.
    pub fn text(&self, id: u32) -> &[u8]
        requires { id < length self.now }
        ensures { slice_get self.now id ≡ Some result.now }
    {
        self.texts.as_slice()[id as usize].as_slice()
    }
}
