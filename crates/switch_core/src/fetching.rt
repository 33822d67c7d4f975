//! Words that lie far from one another, read side by side.

ghost use Rattle.std.specs.Prelude.{◌≤◌, length};

use crate::lane::Lane;
use crate::upkeep::Upkeep;
use epoch_entry::AnyEpochs;
use stage_plan::{Operand, Plan};

// So many buckets of one way don't lie near.
const FAR_BUCKETS: u32 = 16384;

// The word of an operand, 0 where there is no such register.
fn word_of(operand: Operand, registers: &[u64]) -> u64 {
    match operand {
        Operand::Register(r) => {
            let at = r as usize;
            if at < registers.len() {
                registers[at]
            } else {
                0
            }
        }
        Operand::Number(n) => n,
    }
}

// The words of operands in order, as far as there is room. Returns their number.
fn words_into(operands: &[Operand], registers: &[u64], into: &mut [u64]) -> usize
    ensures { result ≤ length into.new }
{
    let count = operands.len().min(into.len());
    for at in 0..count {
        into[at] = word_of(operands[at], registers);
    }
    count
}

// Keeps a number in the last word of a room, of which no word means anything.
fn keep(number: u64, room: &mut [u64]) {
    let count = room.len();
    if count > 0 {
        room[count - 1] = number;
    }
}

// Reads the words of all lanes' caches with which a packet begins.
#[inline(never)]
fn read_all_caches<const WAYS: usize>(
    lanes: &[Lane<AnyEpochs, WAYS>],
    plan: &Plan,
    registers: &[u64],
    key: &mut [u64],
    room: &mut [u64],
) {
    let mut sum = 0u64;
    for i in 0..plan.groups() {
        let at = i as usize;
        if at < lanes.len() {
            let operands = plan.wiring(i).keys.as_slice();
            let count = words_into(operands, registers, key);
            sum = sum.wrapping_add(lanes[at].cache().read_ahead(&key[..count]));
        }
    }
    keep(sum, room);
}

/// Reads the words of all lanes' caches with which a packet begins, before the first lane takes it, where caches are large and
/// have one way. A lane takes so long that the next one's words would be asked for only when its own have come; reads that follow
/// one another wait together. What was read has to be kept, or nothing would be read: no word of `key` and `room` means anything.
#[inline(always)]
pub fn read_caches<const WAYS: usize>(
    buckets: u32,
    lanes: &[Lane<AnyEpochs, WAYS>],
    plan: &Plan,
    registers: &[u64],
    key: &mut [u64],
    room: &mut [u64],
) {
    if WAYS == 1 && buckets >= FAR_BUCKETS {
        read_all_caches(lanes, plan, registers, key, room);
    }
}

// A number that depends on the words of a lane's store with which the merge of its oldest record begins, 0 where there is none.
#[inline(always)]
fn read_store<const WAYS: usize>(lane: &Lane<AnyEpochs, WAYS>) -> u64 {
    let pipe = lane.pipe();
    if pipe.len() == 0 {
        return 0;
    }
    let record = pipe.front();
    let count = record.len().min(lane.cache().key_words());
    lane.store().read_ahead(&record[..count])
}

// Reads the words of all lanes' stores with which merges begin.
#[inline(never)]
fn read_all_stores<const WAYS: usize>(lanes: &[Lane<AnyEpochs, WAYS>], room: &mut [u64]) {
    let mut sum = 0u64;
    for lane in lanes {
        sum = sum.wrapping_add(read_store(lane));
    }
    keep(sum, room);
}

/// Reads the words of all lanes' stores with which merges begin, before the first of several lanes merges, for the same reason.
/// Where that one has nothing to merge, nothing is read, since lanes mostly have the same packets.
#[inline(always)]
pub fn read_stores<const WAYS: usize>(
    upkeep: Upkeep,
    lanes: &[Lane<AnyEpochs, WAYS>],
    room: &mut [u64],
) {
    let Upkeep::Lag = upkeep else {
        return;
    };
    if lanes.len() < 2 || lanes[0].pipe().len() == 0 {
        return;
    }
    read_all_stores(lanes, room);
}
