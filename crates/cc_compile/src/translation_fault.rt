//! Why a typed program has no image.
ghost use Rattle.std.specs.Prelude.{◌≡◌};

use c25_link::LinkFault;
use frame_layouts::PlanFault;
use word_base::NoMemory;

/// Why a typed program has no image. Want of memory in a part is `NoMemory` here, and stands in none of the others.
#[derive(Drop)]
pub enum TranslationFault {
    /// Its data find no room.
    Plan(PlanFault),
    /// Its code finds no room.
    Link(LinkFault),
    NoMemory,
}

impl From<NoMemory> for TranslationFault {
    ghost use Rattle.cc_compile.specs.declared.translation_fault.TranslationFault.TheVariants as fault;

    ghost from_gives = { λ _ e. e ≡ fault.NoMemory };

    fn from(_: NoMemory) -> Self {
        TranslationFault::NoMemory
    }
}

impl From<PlanFault> for TranslationFault {
    ghost use Rattle.cc_compile.specs.TranslationFaults.{of_plan_fault};

    ghost from_gives = { λ given e. e ≡ of_plan_fault given };

    fn from(fault: PlanFault) -> Self {
        match fault {
            PlanFault::NoMemory => TranslationFault::NoMemory,
            why => TranslationFault::Plan(why),
        }
    }
}

impl From<LinkFault> for TranslationFault {
    ghost use Rattle.cc_compile.specs.TranslationFaults.{of_link_fault};

    ghost from_gives = { λ given e. e ≡ of_link_fault given };

    fn from(fault: LinkFault) -> Self {
        match fault {
            LinkFault::NoMemory => TranslationFault::NoMemory,
            why => TranslationFault::Link(why),
        }
    }
}
