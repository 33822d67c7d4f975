//! Which bytes of a trace are kept: its header, and the records that begin in a range.

ghost use Rattle.std.specs.Prelude.{◌≡◌, ◌<◌, ◌≤◌, length, take};
ghost use Rattle.trace_ranges.specs.Ranges.{first_window, is_past, kept, window_after, window_over};

use crate::places::place_over;
use crate::spot::Spot;

/// The bytes at hand: where they are, whether they are kept, and how many bytes are to go until the range begins, and until it ends.
#[derive(Clone, Copy, PartialEq, Eq)]
pub struct Window {
    spot: Spot,
    keeps: bool,
    from: u64,
    to: u64,
}

impl Window {
    /// Before the first byte of a text. The range begins at byte `from`, counted from 0, and ends before byte `to`.
    pub fn first(from: u64, to: u64) -> Window
        ensures { result ≡ first_window from to }
    {
        Window {
            spot: Spot::Start,
            keeps: true,
            from,
            to,
        }
    }

    fn after(self, byte: u8) -> Window
        ensures { result ≡ window_after self byte }
    {
        let spot = self.spot.after(byte);
        let from = self.from.saturating_sub(1);
        let to = self.to.saturating_sub(1);
        let keeps = if spot.is_cut() {
            from == 0 && to > 0
        } else {
            self.keeps
        };
        Window {
            spot,
            keeps,
            from,
            to,
        }
    }

    /// Whether no further byte is kept.
    pub(crate) fn is_past(self) -> bool
        ensures { result ≡ is_past self }
    {
        !self.keeps && self.to == 0
    }

    // What `keep` does, byte by byte.
    fn keep_each(&mut self, bytes: &[u8], buf: &mut [u8]) -> usize
        requires { length bytes.now ≤ length buf.old }
        ensures room { length buf.new ≡ length buf.old }
        ensures within { result ≤ length bytes.now }
        ensures kept { take result buf.new ≡ kept self.old bytes.now }
        ensures window { self.new ≡ window_over self.old bytes.now }
    {
        let mut window = *self;
        let mut count = 0;
        for i in 0..bytes.len() {
            if window.keeps {
                buf[count] = bytes[i];
                count += 1;
            }
            window = window.after(bytes[i]);
        }
        *self = window;
        count
    }

    /// Puts what is kept of these bytes into the start of the buffer, and gives how many bytes that are.
    pub(crate) fn keep(&mut self, bytes: &[u8], buf: &mut [u8]) -> usize
        requires { length bytes.now ≤ length buf.old }
        ensures room { length buf.new ≡ length buf.old }
        ensures within { result ≤ length bytes.now }
        ensures kept { take result buf.new ≡ kept self.old bytes.now }
        ensures window { self.new ≡ window_over self.old bytes.now }
    {
        let Spot::Records(place) = self.spot else {
            return self.keep_each(bytes, buf);
        };
        let count = bytes.len() as u64;
        if self.keeps && self.from == 0 && count < self.to {
            self.spot = Spot::Records(place_over(place, bytes));
            self.to -= count;
            buf[..bytes.len()].copy_from_slice(bytes);
            return bytes.len();
        }
        if !self.keeps && count < self.from {
            self.spot = Spot::Records(place_over(place, bytes));
            self.from -= count;
            self.to = self.to.saturating_sub(count);
            return 0;
        }
        self.keep_each(bytes, buf)
    }
}
