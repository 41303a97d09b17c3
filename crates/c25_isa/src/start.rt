//! What a board holds at a reset.
ghost use Rattle.std.specs.Prelude.{◌≡◌, ◌<◌, IfOk, vec_len};
ghost use Rattle.c25_isa.specs.State.{zero_start};

use crate::image::Image;
use std::alloc::Global;
use word_base::NoMemory;

/// How many words each memory has.
pub const MEMORY_WORDS: usize = 65_536;

/// The registers, modes and memories of a board at a reset. A run begins with PC 0, an empty hardware stack and no repeat
/// pending.
#[derive(Drop)]
pub struct Start {
    pub acc: u32,
    pub t: u16,
    pub p: u32,
    pub ar: [u16; 8],
    /// The current address register, below 8.
    pub arp: u8,
    /// The page of direct addresses, below 512.
    pub dp: u16,
    pub sxm: bool,
    pub ovm: bool,
    /// The shift of products, below 4.
    pub pm: u8,
    /// 65,536 words.
    pub program: Vec<u16>,
    /// 65,536 words.
    pub ram: Vec<u16>,
    ghost arp_fits: { arp < 8 },
    ghost dp_fits: { dp < 512 },
    ghost pm_fits: { pm < 4 },
    ghost program_fits: { vec_len program ≡ 65536 },
    ghost ram_fits: { vec_len ram ≡ 65536 },
}

impl Start {
    ghost use Rattle.c25_isa.specs.StartView.{start_of};

    /// Zero everywhere, with the image from program word 0 on.
    pub fn zero(alloc: Global, image: &Image) -> Result<Self, NoMemory>
        ensures { IfOk result (λ s. start_of s ≡ zero_start image.now.words) }
    {
        let mut program = Vec::from_slice(alloc, image.words())?;
        program.resize(MEMORY_WORDS, 0)?;
        Ok(Start {
            acc: 0,
            t: 0,
            p: 0,
            ar: [0; 8],
            arp: 0,
            dp: 0,
            sxm: false,
            ovm: false,
            pm: 0,
            program,
            ram: vec![in alloc; 0; MEMORY_WORDS]?,
        })
    }
}
