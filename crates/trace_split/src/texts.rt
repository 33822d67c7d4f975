//! The texts of all parts, of which the last bytes wait.

ghost use Rattle.std.specs.Prelude.{◌≡◌, ◌++◌, ◌∷◌, [], ◌≤◌, ◌<◌, ℕ, List, IfOk, IsErrOf, OnErr, OnOk, length};
ghost use Rattle.marple_base.specs.{Faults.Rose, declared.field.Packet.{Packet as AnyPacket}};
ghost use Rattle.trace_split.specs.Holding.{Holds, TakeFronts, TakeTexts, Taken};
ghost use Rattle.trace_split.specs.PartTexts.{HoldsPackets, IsOf, SameSetting, is_setting, texts_of, parts_of};

use crate::parts::{Parts, add_line, write_part};
use crate::splitting::{Splitting, fields_in, part_of, written_fields};
use crate::waiting::Waiting;
use marple_base::{Field, FieldSet, Packet, Steps, WriteError};
use part_texts::header_line;
use queue_sim::LineBuffer;
use std::alloc::{AllocError, Global};
use std::sync::ledger::Ledger;

/// The texts of all parts: their columns, which packets are whose, and the bytes that wait.
#[derive(Drop)]
pub(crate) struct PartTexts {
    columns: Vec<Field>,
    by: Vec<Field>,
    salt: u64,
    parts: u32,
    waiting: Vec<Waiting>,
    line: LineBuffer,
}

impl PartTexts {
    /// The texts of no packet: their headers wait.
    pub(crate) fn new(
        alloc: Global,
        reads: FieldSet,
        splitting: &Splitting,
    ) -> Result<PartTexts, AllocError>
        requires { 0 < splitting.now.parts }
        ensures of { IfOk result (IsOf reads splitting.now) }
        ensures none { IfOk result (λ texts. (taken : Taken) → HoldsPackets taken taken texts []) }
    {
        let columns = written_fields(alloc, reads)?;
        let by = fields_in(alloc, splitting.by)?;
        let header = header_line(alloc, columns.as_slice())?;
        let names = header.as_slice();
        let mut waiting = Vec::new(alloc);
        for _part in 0..splitting.parts {
            waiting.push(Waiting::new(alloc, names)?)?;
        }
        Ok(PartTexts {
            columns,
            by,
            salt: splitting.salt,
            parts: splitting.parts,
            waiting,
            line: LineBuffer::new(),
        })
    }

    /// One packet more, in its part.
    #[inline(always)]
    pub(crate) fn add<P: Parts, L: Ledger>(
        &mut self,
        packet: &Packet,
        parts: &mut P,
        steps: &mut Steps<L>,
    ) -> Result<(), WriteError>
        requires { is_setting self.old }
        ensures same { SameSetting self.old self.new }
        ensures ok { OnOk result ((first : Taken) (sent : List AnyPacket) → HoldsPackets first (P.taken parts.old) self.old sent
            → HoldsPackets first (P.taken parts.new) self.new (sent ++ packet.now ∷ [])) }
        ensures err { OnErr result ((first : Taken) (sent : List AnyPacket) → HoldsPackets first (P.taken parts.old) self.old sent
            → TakeFronts (parts_of self.old) first (P.taken parts.new) (texts_of self.old sent)) }
        ensures failed { IsErrOf result WriteError.Failed → Rose (P.faults parts.old) (P.faults parts.new) }
        ensures later { P.faults parts.old ≤ P.faults parts.new }
        ensures steps { steps.old ≤ steps.new }
    {
        let part = part_of(self.by.as_slice(), self.salt, self.parts, packet, steps);
        let line = self.line.format(self.columns.as_slice(), packet);
        let waiting = &mut self.waiting[part as usize];
        add_line(waiting, line, parts, part)
    }

    /// Writes what waits: the texts end.
    pub(crate) fn finish<P: Parts>(&self, parts: &mut P) -> Result<(), WriteError>
        requires { is_setting self.now }
        ensures ok { OnOk result ((first : Taken) (sent : List AnyPacket) → HoldsPackets first (P.taken parts.old) self.now sent
            → TakeTexts (parts_of self.now) first (P.taken parts.new) (texts_of self.now sent)) }
        ensures err { OnErr result ((first : Taken) (sent : List AnyPacket) → HoldsPackets first (P.taken parts.old) self.now sent
            → TakeFronts (parts_of self.now) first (P.taken parts.new) (texts_of self.now sent)) }
        ensures failed { IsErrOf result WriteError.Failed → Rose (P.faults parts.old) (P.faults parts.new) }
        ensures later { P.faults parts.old ≤ P.faults parts.new }
    {
        for part in 0..self.parts {
            write_part(parts, part, self.waiting[part as usize].as_slice())?;
        }
        Ok(())
    }
}
