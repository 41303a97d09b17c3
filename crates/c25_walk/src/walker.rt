//! A walk under way.
ghost use Rattle.std.specs.Prelude.{◌≡◌, ◌∷◌, ◌++◌, [], ◌+◌, ◌<◌, ◌^◌, None, IfOk, IfErr, OnOk};
ghost use Rattle.c25_isa.specs.Walk as spec;

use crate::access::Access;
use crate::code::Placed;
use crate::fault::WalkFault;
use crate::known::Known;
use crate::report::{AddressBlock, WalkReport};
use std::alloc::Global;
use std::mem;
use word_base::NoMemory;

/// What is known along the stretch and which addresses it has listed so far, the blocks of the stretches before it, the place of each
/// block, this stretch's too where it has listed an address, and how many address instructions there were.
#[derive(Drop)]
pub(crate) struct Walker {
    known: Known,
    addresses: Vec<u16>,
    blocks: Vec<AddressBlock>,
    places: Vec<u16>,
    count: u32,
}

impl Walker {
    ghost use Rattle.c25_walk.specs.KnownView.{known_of};
    ghost use Rattle.c25_walk.specs.Walking.{walking_of, started, walked_over, cut_off, begun, IsUnknown};

    /// Before the first instruction.
    pub(crate) fn new(alloc: Global) -> Self
        ensures { walking_of result ≡ started }
    {
        Walker {
            known: Known::nothing(),
            addresses: Vec::new(alloc),
            blocks: Vec::new(alloc),
            places: Vec::new(alloc),
            count: 0,
        }
    }

    /// Goes over an instruction.
    pub(crate) fn walk_over(&mut self, placed: &Placed) -> Result<(), WalkFault>
        requires { self.old.count + 1 < 2 ^ 32 }
        ensures known { OnOk result (spec.unknown_at placed.now.at (spec.access (known_of self.old.known) placed.now.instr) ≡ None) }
        ensures walked { OnOk result (walking_of self.new ≡ walked_over (walking_of self.old) placed.now) }
        ensures fault { IfErr result (IsUnknown (spec.unknown_at placed.now.at (spec.access (known_of self.old.known) placed.now.instr))) }
    {
        let instr = placed.instr();
        match self.known.access(instr) {
            Access::Listed(address) => self.list(placed.at(), address)?,
            Access::Unlisted => {}
            Access::Unknown => return Err(WalkFault::UnknownAddress { at: placed.at() }),
        }
        if self.known.is_address_instruction(instr) {
            self.count += 1;
        }
        self.known.pass(instr);
        Ok(())
    }

    // Lists an address. The first one of a stretch begins a block at its instruction.
    fn list(&mut self, at: u16, address: u16) -> Result<(), NoMemory>
        ensures addresses { OnOk result (self.new.addresses.items ≡ self.old.addresses.items ++ address ∷ []) }
        ensures places { OnOk result (self.new.places.items ≡ self.old.places.items ++ begun self.old.addresses.items (at ∷ [])) }
        ensures known { self.new.known ≡ self.old.known }
        ensures blocks { self.new.blocks ≡ self.old.blocks }
        ensures count { self.new.count ≡ self.old.count }
    {
        if self.addresses.is_empty() {
            self.places.push(at)?;
        }
        self.addresses.push(address)?;
        Ok(())
    }

    /// Ends a stretch: its addresses become a block, where there are some, and nothing is known any more.
    pub(crate) fn cut(&mut self, alloc: Global) -> Result<(), NoMemory>
        ensures { OnOk result (walking_of self.new ≡ cut_off (walking_of self.old)) }
    {
        self.known = Known::nothing();
        if !self.addresses.is_empty() {
            let addresses = mem::replace(&mut self.addresses, Vec::new(alloc));
            self.blocks.push(AddressBlock::new(addresses))?;
        }
        Ok(())
    }

    /// What the walk answers behind the last instruction.
    pub(crate) fn finish(mut self, alloc: Global) -> Result<WalkReport, NoMemory>
        ensures blocks { IfOk result (λ report. report.blocks.items ≡ (cut_off (walking_of self)).blocks) }
        ensures places { IfOk result (λ report. report.places.items ≡ (walking_of self).places) }
        ensures count { IfOk result (λ report. report.count ≡ (walking_of self).count) }
    {
        self.cut(alloc)?;
        Ok(WalkReport {
            blocks: self.blocks,
            places: self.places,
            count: self.count,
        })
    }
}
