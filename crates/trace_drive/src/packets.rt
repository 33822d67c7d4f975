//! Where packets come from.

ghost use Rattle.std.specs.Prelude.{◌≡◌, [], ◌∷◌, IfErr, None, Some, drop, true, false};
ghost use Rattle.trace_drive.specs.Drives.{coming, fault_of};
ghost use Rattle.trace_reader.specs.Faults.{IfRefused};

use crate::kept::KeptPackets;
use marple_base::{Packet, Seq};
use trace_reader::{Trace, TraceAnswer};

/// The packets of a trace, or packets that were made or kept, with the place of the next one. The last variant, which is the
/// usual one, is tested first.
pub enum Packets<'a> {
    Made(Seq<Packet>, usize),
    Kept(KeptPackets, usize),
    Trace(Trace<'a>),
}

impl Drop for Packets<'_> {
    fn drop(self) {
        match self {
            Packets::Trace(trace) => drop(trace),
            Packets::Made(made, _) => drop(made),
            Packets::Kept(kept, _) => drop(kept),
        }
    }
}

impl<'a> Packets<'a> {
    /// The next packet into `packet`, and whether there was one.
    #[inline(always)]
    pub fn next_into(&mut self, packet: &mut Packet) -> Result<bool, TraceAnswer>
        ensures packet { result ≡ Ok true → coming self.old ≡ packet.new ∷ coming self.new }
        ensures fault { result ≡ Ok true → fault_of self.new ≡ fault_of self.old }
        ensures end { result ≡ Ok false → (coming self.old ≡ []) × (coming self.new ≡ []) × (fault_of self.old ≡ None)
            × (fault_of self.new ≡ None) }
        ensures refused { IfErr result (λ answer. IfRefused answer (λ fault. fault_of self.old ≡ Some fault)) }
    {
        match self {
            Packets::Trace(trace) => trace.next_into(packet),
            Packets::Made(made, at) => Ok(made_into(made, at, packet)),
            Packets::Kept(kept, at) => Ok(kept_into(kept, at, packet)),
        }
    }
}

// The packet at the next place, of those that were made.
fn made_into(made: &Seq<Packet>, at: &mut usize, packet: &mut Packet) -> bool
    ensures packet { result ≡ true → drop at.old made.now ≡ packet.new ∷ drop at.new made.now }
    ensures end { result ≡ false → (drop at.old made.now ≡ []) × (drop at.new made.now ≡ []) }
{
    if *at >= made.len() {
        return false;
    }
    *packet = *made.get(*at);
    *at += 1;
    true
}

// The packet at the next place, of those that were kept.
fn kept_into(kept: &KeptPackets, at: &mut usize, packet: &mut Packet) -> bool
    ensures packet { result ≡ true → drop at.old kept.now.packets ≡ packet.new ∷ drop at.new kept.now.packets }
    ensures end { result ≡ false → (drop at.old kept.now.packets ≡ []) × (drop at.new kept.now.packets ≡ []) }
{
    if *at >= kept.len() {
        return false;
    }
    kept.packet_into(*at, packet);
    *at += 1;
    true
}
