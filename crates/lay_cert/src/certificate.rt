//! What a certificate holds.
ghost use Rattle.std.specs.Prelude.{◌≡◌, ◌≤◌, length};
ghost use Rattle.lay_model.specs.Arrangements.{Arranges};
ghost use Rattle.lay_cert.specs.Frames.{IsFrame};

use lay_model::{Arrangement, Sequence};
use lay_tree::{Log, Mark};
use std::marker::Model;
use word_base::Text;

/// The most address registers of a frame.
pub(crate) const MOST_REGISTERS: u8 = 4;

/// What is claimed of a layout.
#[derive(Clone, Copy, Debug, PartialEq, Eq)]
pub enum Claim {
    /// No layout costs less, as the log shows.
    Optimal,
    /// It is the best that was found. The log is that of the first piece that has nodes left, at this quota.
    Best { piece: u8, quota: u32 },
}

/// A frame by its name, over how many registers it is laid out, from 1 to 4, its accesses, its layout in at most as many lists, the base address of each list,
/// the cost, what is claimed, and the log. Contracts see all of these.
#[derive(Drop)]
pub struct CertFrame {
    name: Text,
    registers: u8,
    seq: Sequence,
    arr: Arrangement,
    bases: Vec<u16>,
    cost: u64,
    claim: Claim,
    log: Log,
}

impl Model for CertFrame {
    ghost use Rattle.lay_cert.specs.Frames.{Frame, IsFrame};

    ghost Value = { Frame };

    ghost view = { λ f. record { name = f.name; registers = f.registers; seq = f.seq; arr = f.arr; bases = f.bases.items; cost = f.cost; claim = f.claim; log = f.log } };

    ghost invariant = { λ f. IsFrame (record { name = f.name; registers = f.registers; seq = f.seq; arr = f.arr; bases = f.bases.items; cost = f.cost; claim = f.claim; log = f.log }) };
}

/// The parts of a frame. Each is there for all to see, and nothing ties them together yet.
#[derive(Drop)]
pub struct FrameParts {
    pub name: Text,
    pub registers: u8,
    pub seq: Sequence,
    pub arr: Arrangement,
    pub bases: Vec<u16>,
    pub cost: u64,
    pub claim: Claim,
    pub log: Log,
}

impl CertFrame {
    /// The frame of these parts. It takes no memory.
    pub fn new(parts: FrameParts) -> Self
        requires { IsFrame (record { name = parts.name; registers = parts.registers; seq = parts.seq; arr = parts.arr; bases = parts.bases.items; cost = parts.cost; claim = parts.claim; log = parts.log }) }
        ensures { result ≡ record { name = parts.name; registers = parts.registers; seq = parts.seq; arr = parts.arr; bases = parts.bases.items; cost = parts.cost; claim = parts.claim; log = parts.log } }
    {
        CertFrame {
            name: parts.name,
            registers: parts.registers,
            seq: parts.seq,
            arr: parts.arr,
            bases: parts.bases,
            cost: parts.cost,
            claim: parts.claim,
            log: parts.log,
        }
    }

    pub fn name(&self) -> &str
        ensures name { result.now ≡ self.now.name }
        ensures frame { IsFrame self.now }
    {
        self.name.as_str()
    }

    /// Over how many registers the frame is laid out, from 1 to 4.
    pub fn registers(&self) -> u8
        ensures registers { result ≡ self.now.registers }
        ensures some { 1 ≤ result }
        ensures few { result ≤ 4 }
    {
        self.registers
    }

    pub fn seq(&self) -> &Sequence
        ensures { result.now ≡ self.now.seq }
    {
        &self.seq
    }

    pub fn arr(&self) -> &Arrangement
        ensures arr { result.now ≡ self.now.arr }
        ensures arranges { Arranges self.now.seq.scalars result.now }
    {
        &self.arr
    }

    /// A base address for each list of the layout.
    pub fn bases(&self) -> &[u16]
        ensures bases { result.now ≡ self.now.bases }
        ensures based { length result.now ≡ length self.now.arr }
    {
        &self.bases
    }

    pub fn cost(&self) -> u64
        ensures { result ≡ self.now.cost }
    {
        self.cost
    }

    pub fn claim(&self) -> Claim
        ensures { result ≡ self.now.claim }
    {
        self.claim
    }

    pub fn marks(&self) -> &[Mark]
        ensures { result.now ≡ self.now.log }
    {
        &self.log.marks
    }
}

/// The frames of a program, in order. Contracts see the list of them.
#[derive(Drop)]
pub struct Certificate {
    pub frames: Vec<CertFrame>,
}

impl Model for Certificate {
    ghost use Rattle.std.specs.Prelude.{List};
    ghost use Rattle.lay_cert.specs.Frames.{Frame};

    ghost Value = { List Frame };

    ghost view = { λ c. c.frames.items };
}
