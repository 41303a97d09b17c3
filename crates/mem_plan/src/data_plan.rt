//! Plans of data memory. Addresses and lengths count words of 16 bits.
ghost use Rattle.std.specs.Prelude.{◌≡◌};
ghost use Rattle.mem_plan.specs.declared.data_plan.PlanFault.TheVariants as plan_faults;

use word_base::{Items, NoMemory};

/// The address of the first word, which is the first of the scratch words.
pub const DATA_START: u16 = 0x0300;

/// How many scratch words there are.
pub const SCRATCH_WORDS: u16 = 16;

/// How many words there are from `DATA_START` on.
pub const MOST_DATA_WORDS: u32 = 64_768;

/// How many lists an arrangement has at most.
pub const MOST_LISTS: usize = 4;

/// Where the frame of a function lies.
#[derive(Drop)]
pub struct FramePlan {
    /// For each list of the arrangement, the address of its first scalar. The others follow it in order.
    pub bases: Items<u16>,
    /// The address of each local object, by its number.
    pub locals: Items<u16>,
    /// The address of the return word, where there is one: the function calls one or uses a routine.
    pub back: Option<u16>,
}

/// Where the data of a program lies.
#[derive(Drop)]
pub struct DataPlan {
    /// The address of each static object, by its number.
    pub statics: Items<u16>,
    /// One for each function, by its number.
    pub frames: Items<FramePlan>,
    /// How many words are used, from `DATA_START` on: at most `MOST_DATA_WORDS`.
    pub used: u32,
}

/// Why there is no plan.
#[derive(Drop)]
pub enum PlanFault {
    /// The program needs this many words, more than `MOST_DATA_WORDS`.
    DataFull { words: u64 },
    /// Memory was wanted, and there was none.
    NoMemory,
}

impl From<NoMemory> for PlanFault {
    ghost from_gives = { λ _ e. e ≡ plan_faults.NoMemory };

    fn from(_: NoMemory) -> Self {
        PlanFault::NoMemory
    }
}
