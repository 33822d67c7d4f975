//! Digits of a number, read eight and four at once.

ghost use Rattle.std.specs.Prelude.{◌≡◌, ◌+◌, ◌≤◌, IfSome, length};
ghost use Rattle.trace_reader.specs.Blocks.{IsFront};

/// The number of the first eight bytes, none where one of them is no digit. Each byte is a digit exactly where neither a sum
/// with 0x46 nor a difference from `0` sets its highest bit; and then pairs of digits are added up, pairs of these, and so on.
#[inline(always)]
pub fn eight(text: &[u8]) -> Option<u64>
    requires { 8 ≤ length text.now }
    ensures { IfSome result (IsFront text.now 8) }
{
    let word = u64::from_le_bytes([
        text[0], text[1], text[2], text[3], text[4], text[5], text[6], text[7],
    ]);
    let digits = word.wrapping_sub(0x3030_3030_3030_3030);
    if (word.wrapping_add(0x4646_4646_4646_4646) | digits) & 0x8080_8080_8080_8080 != 0 {
        return None;
    }
    let pairs = digits.wrapping_mul(10).wrapping_add(digits >> 8);
    let first = (pairs & 0xFF_0000_00FF).wrapping_mul(0xF_4240_0000_0064);
    let second = ((pairs >> 16) & 0xFF_0000_00FF).wrapping_mul(0x2710_0000_0001);
    Some(first.wrapping_add(second) >> 32)
}

/// The number with the next four bytes at its end, none where one of them is no digit. A byte is a digit as in `eight`.
#[inline(always)]
pub fn with_four(text: &[u8], read: usize, number: u64) -> Option<u64>
    requires front { IsFront text.now read number }
    requires room { read + 4 ≤ length text.now }
    requires few { read ≤ 15 }
    ensures { IfSome result (IsFront text.now (read + 4)) }
{
    let word = u32::from_le_bytes([text[read], text[read + 1], text[read + 2], text[read + 3]]);
    let digits = word.wrapping_sub(0x3030_3030);
    if (word.wrapping_add(0x4646_4646) | digits) & 0x8080_8080 != 0 {
        return None;
    }
    let pairs = digits.wrapping_mul(10).wrapping_add(digits >> 8);
    let four = pairs % 256 * 100 + (pairs >> 16) % 256;
    Some(number * 10_000 + u64::from(four))
}
