//! Chains of keys, by which keys are found. Keys with one home make a chain, from the last one to the first.

ghost use Rattle.std.specs.Prelude.{◌≡◌, ℕ, [], ◌∷◌, ◌+◌, ◌*◌, ◌++◌, ◌<◌, ◌≤◌, get_or, length, vec_capacity, vec_len, OnOk, OnErr};
ghost use Rattle.epoch_model.specs.Keys.{key_eq};
ghost use Rattle.backing_store.specs.{Chains.{home_of, tag_of}, Searches.Finds};
ghost use Rattle.backing_store.specs.Prints.{fingerprint, home_for, no_home, prints_of, row_at, AreKeys, LinksAreChained, Tells};

use crate::sip::sip_hash;
use crate::slices::{is_same, row};
use std::alloc::{AllocError, Global};
use table_rows::push_few;

// The most keys: a home has no room for larger numbers.
const MOST_KEYS: usize = 4_294_967_295;

const FEWEST_HOMES: usize = 16;

/// A key in its chain.
#[derive(Clone, Copy)]
pub struct Link {
    /// The key's fingerprint.
    pub print: u64,
    /// One more than the number of the key before it with its home, or 0.
    pub before: usize,
}

/// The end of a chain, and what the tags of its keys are between.
#[derive(Clone, Copy)]
pub struct Home {
    /// One more than the number of the last key, or 0.
    pub last: u32,
    /// No key has a lower tag.
    pub least: u16,
    /// No key has a higher tag.
    pub greatest: u16,
}

/// What a search for a key found.
#[derive(Clone, Copy)]
pub enum Search {
    /// The key, at this place.
    Found(usize),
    /// No such key. It has this fingerprint.
    Free(u64),
}

// The only word of a key, or else a hash of its words for which keys can't be chosen cheaply.
fn fingerprint(key: &[u64]) -> u64
    ensures { result ≡ fingerprint key.now }
{
    if key.len() == 1 {
        return key[0];
    }
    sip_hash(key)
}

// The home of a fingerprint among a number of homes, which is a power of two or 0.
#[tactic(auto, unfolding(crate::specs::Chains::home_of))]
fn home_of(print: u64, homes: usize) -> usize
    ensures value { result ≡ home_of print homes }
    ensures within { 0 < homes → result < homes }
{
    let spread = print.wrapping_mul(0x9e37_79b9_7f4a_7c15);
    let mixed = (spread ^ (spread >> 32)).wrapping_mul(0x9e37_79b9_7f4a_7c15);
    ((mixed >> 32) as usize) & homes.saturating_sub(1)
}

// A tag of a fingerprint, which is spread otherwise than its home.
#[tactic(auto, unfolding(crate::specs::Chains::tag_of))]
fn tag_of(print: u64) -> u16
    ensures { result ≡ tag_of print }
{
    (print.wrapping_mul(0x9e37_79b9_7f4a_7c15) >> 48) as u16
}

// The home of a fingerprint, or one of no keys where there are no homes.
fn home_for(homes: &[Home], print: u64) -> Home
    ensures { result ≡ home_for homes.now print }
{
    match homes.get(home_of(print, homes.len())) {
        Some(home) => *home,
        None => Home {
            last: 0,
            least: 0,
            greatest: 0,
        },
    }
}

// Where a search for a fingerprint begins: one more than the number of the last key of its home, or 0 where its home tells that
// no key there has it.
fn end_of(homes: &[Home], print: u64) -> usize
    ensures told { Tells (home_for homes.now print) (tag_of print) → result ≡ (home_for homes.now print).last }
    ensures other { (Tells (home_for homes.now print) (tag_of print) → ⊥) → result ≡ 0 }
{
    let home = home_for(homes, print);
    let tag = tag_of(print);
    if home.least <= tag && tag <= home.greatest {
        home.last as usize
    } else {
        0
    }
}

// Is the key at a place, where the link is? The words there aren't read where they have one word each, which is the fingerprint.
#[inline(always)]
fn is_at(width: usize, words: &[u64], at: usize, link: Link, key: &[u64], print: u64) -> bool
    requires row { at * width + width ≤ length words.now }
    requires link { link.print ≡ fingerprint (row_at width words.now at) }
    requires print { print ≡ fingerprint key.now }
    ensures { result ≡ key_eq (row_at width words.now at) key.now }
{
    if link.print != print {
        return false;
    }
    if width == 1 && key.len() == 1 {
        return true;
    }
    is_same(row(words, width, at), key)
}

/// Searches a key, from the last key with its home to the first.
pub fn find_key(width: usize, words: &[u64], links: &[Link], homes: &[Home], key: &[u64]) -> Search
    requires { AreKeys width words.now links.now homes.now }
    ensures { Finds width words.now (length links.now) key.now result }
{
    let print = fingerprint(key);
    let mut next = end_of(homes, print);
    while next > 0 {
        let at = next - 1;
        let link = links[at];
        if is_at(width, words, at, link, key, print) {
            return Search::Found(at);
        }
        next = link.before;
    }
    Search::Free(print)
}

/// One more than the number of the last key with the home of the key, which is read, or 0.
pub fn first_found(homes: &[Home], key: &[u64]) -> usize {
    home_for(homes, fingerprint(key)).last as usize
}

// Puts the key with a number, the first that isn't in a chain, at the end of its chain.
fn chain(links: &mut [Link], homes: &mut [Home], number: usize)
    requires number { number < length links.old }
    requires few { number < MOST_KEYS }
    requires homes { 0 < length homes.old }
    requires chained { LinksAreChained number links.old homes.old }
    ensures chained { LinksAreChained (number + 1) links.new homes.new }
    ensures prints { prints_of links.new ≡ prints_of links.old }
    ensures homes { length homes.new ≡ length homes.old }
{
    let print = links[number].print;
    let at = home_of(print, homes.len());
    let home = homes[at];
    links[number] = Link {
        print,
        before: home.last as usize,
    };
    let tag = tag_of(print);
    homes[at] = Home {
        last: (number + 1) as u32,
        least: home.least.min(tag),
        greatest: home.greatest.max(tag),
    };
}

// Puts all keys in chains, by homes at which there is none yet.
fn chain_all(links: &mut [Link], homes: &mut [Home])
    requires few { length links.old ≤ MOST_KEYS }
    requires homes { 0 < length homes.old }
    requires free { (home : ℕ) → (get_or homes.old home no_home).last ≡ 0 }
    ensures chained { LinksAreChained (length links.new) links.new homes.new }
    ensures prints { prints_of links.new ≡ prints_of links.old }
    ensures homes { length homes.new ≡ length homes.old }
{
    for number in 0..links.len() {
        chain(links, homes, number);
    }
}

// Makes twice as many homes where each could have a key.
fn make_room(alloc: Global, links: &mut Vec<Link>, homes: &mut Vec<Home>) -> Result<(), AllocError>
    requires few { length links.old.items ≤ MOST_KEYS }
    requires room { length links.old.items ≤ length homes.old.items }
    requires chained { LinksAreChained (length links.old.items) links.old.items homes.old.items }
    ensures chained { LinksAreChained (length links.new.items) links.new.items homes.new.items }
    ensures prints { prints_of links.new.items ≡ prints_of links.old.items }
    ensures homes { length homes.old.items ≤ length homes.new.items }
    ensures room { OnOk result (length links.new.items < length homes.new.items) }
{
    if links.len() < homes.len() {
        return Ok(());
    }
    let count = homes.len().saturating_mul(2).max(FEWEST_HOMES);
    let free = Home {
        last: 0,
        least: u16::MAX,
        greatest: 0,
    };
    let mut more = vec![in alloc; free; count]?;
    chain_all(links.as_mut_slice(), more.as_mut_slice());
    *homes = more;
    Ok(())
}

// Adds a link at the end, in its chain.
fn push_link(links: &mut Vec<Link>, homes: &mut Vec<Home>, print: u64)
    requires place { vec_len links.old < vec_capacity links.old }
    requires few { length links.old.items < MOST_KEYS }
    requires room { length links.old.items < length homes.old.items }
    requires chained { LinksAreChained (length links.old.items) links.old.items homes.old.items }
    ensures chained { LinksAreChained (length links.new.items) links.new.items homes.new.items }
    ensures prints { prints_of links.new.items ≡ prints_of links.old.items ++ print ∷ [] }
    ensures homes { length homes.new.items ≡ length homes.old.items }
{
    let number = links.len();
    links.push_reserved(Link { print, before: 0 });
    chain(links.as_mut_slice(), homes.as_mut_slice(), number);
}

/// Adds a key with its fingerprint. On an error the keys are unchanged.
pub fn add_key(
    alloc: Global,
    width: usize,
    words: &mut Vec<u64>,
    links: &mut Vec<Link>,
    homes: &mut Vec<Home>,
    key: &[u64],
    print: u64,
) -> Result<(), AllocError>
    requires keys { AreKeys width words.old.items links.old.items homes.old.items }
    requires width { length key.now ≡ width }
    requires print { print ≡ fingerprint key.now }
    ensures keys { AreKeys width words.new.items links.new.items homes.new.items }
    ensures ok { OnOk result ((words.new.items ≡ words.old.items ++ key.now) × (length links.new.items ≡ length links.old.items + 1)) }
    ensures err { OnErr result ((words.new.items ≡ words.old.items) × (length links.new.items ≡ length links.old.items)) }
{
    if links.len() >= MOST_KEYS {
        return Err(AllocError);
    }
    make_room(alloc, links, homes)?;
    words.reserve(key.len())?;
    links.reserve(1)?;
    push_few(words, key);
    push_link(links, homes, print);
    Ok(())
}
