//! Why no layouts are found for a recorded run.
ghost use Rattle.std.specs.Prelude.{◌≡◌};

use c25_walk::WalkFault;
use cc_compile::{
    BuildFault, LexFault, LinkFault, ParseFault, PlanFault, TranslationFault, TypeFault,
};
use std::alloc::{AllocError, AllocFailed};
use word_base::NoMemory;

/// Why a source isn't compiled with layouts for a recorded run, in the order in which these are answered. A place is a byte offset in the
/// source. Want of memory in a part is `NoMemory` here, and is in none of the others.
#[derive(Drop)]
pub enum ProfileFault {
    /// It has no tokens.
    Lex(LexFault),
    /// Its tokens have no tree of height at most 200.
    Parse(ParseFault),
    /// Its tree breaks a rule of names and types, or one of the whole source.
    Types(TypeFault),
    /// The image that was run hasn't the shape of its functions: their names in order, and the lengths of their blocks of accesses.
    OtherSource,
    /// Its data find no room in data memory.
    Plan(PlanFault),
    /// Its code finds no room in program memory.
    Link(LinkFault),
    NoMemory,
}

impl From<NoMemory> for ProfileFault {
    ghost use Rattle.lay_profile.specs.declared.fault.ProfileFault.TheVariants as fault;

    ghost from_gives = { λ _ e. e ≡ fault.NoMemory };

    fn from(_: NoMemory) -> Self {
        ProfileFault::NoMemory
    }
}

impl From<AllocError> for ProfileFault {
    ghost use Rattle.lay_profile.specs.declared.fault.ProfileFault.TheVariants as fault;

    ghost from_gives = { λ _ e. e ≡ fault.NoMemory };

    fn from(_: AllocError) -> Self {
        ProfileFault::NoMemory
    }
}

impl<T: Drop> From<AllocFailed<T>> for ProfileFault {
    ghost use Rattle.lay_profile.specs.declared.fault.ProfileFault.TheVariants as fault;

    ghost from_gives = { λ _ e. e ≡ fault.NoMemory };

    fn from(_: AllocFailed<T>) -> Self {
        ProfileFault::NoMemory
    }
}

impl From<BuildFault> for ProfileFault {
    ghost use Rattle.lay_profile.specs.PartFaults.{of_build_fault};

    ghost from_gives = { λ given e. e ≡ of_build_fault given };

    fn from(fault: BuildFault) -> Self {
        match fault {
            BuildFault::Lex(why) => ProfileFault::Lex(why),
            BuildFault::Parse(why) => ProfileFault::Parse(why),
            BuildFault::Types(why) => ProfileFault::Types(why),
            BuildFault::Plan(why) => ProfileFault::Plan(why),
            BuildFault::Link(why) => ProfileFault::Link(why),
            BuildFault::NoMemory => ProfileFault::NoMemory,
        }
    }
}

impl From<TranslationFault> for ProfileFault {
    ghost use Rattle.lay_profile.specs.PartFaults.{of_translation_fault};

    ghost from_gives = { λ given e. e ≡ of_translation_fault given };

    fn from(fault: TranslationFault) -> Self {
        match fault {
            TranslationFault::Plan(why) => ProfileFault::Plan(why),
            TranslationFault::Link(why) => ProfileFault::Link(why),
            TranslationFault::NoMemory => ProfileFault::NoMemory,
        }
    }
}

impl From<WalkFault> for ProfileFault {
    ghost use Rattle.lay_profile.specs.PartFaults.{of_walk_fault};

    ghost from_gives = { λ given e. e ≡ of_walk_fault given };

    fn from(fault: WalkFault) -> Self {
        match fault {
            WalkFault::NoMemory => ProfileFault::NoMemory,
            WalkFault::BadWord { .. } | WalkFault::UnknownAddress { .. } =>
                ProfileFault::OtherSource,
        }
    }
}
