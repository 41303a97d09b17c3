//! The faults of a source.
ghost use Rattle.std.specs.Prelude.{◌≡◌};

use crate::translation_fault::TranslationFault;
use c_lexer::LexFault;
use c_parser::ParseFault;
use c_rules::TypeFault;
use c25_link::LinkFault;
use frame_layouts::PlanFault;
use word_base::NoMemory;

/// Why a source isn't compiled, in the order in which these are answered. A place is a byte offset in the source. Want of
/// memory in a part is `NoMemory` here, and stands in none of the others.
#[derive(Drop)]
pub enum BuildFault {
    /// It has no tokens.
    Lex(LexFault),
    /// Its tokens have no tree of height at most 200.
    Parse(ParseFault),
    /// Its tree breaks a rule of names and types, or one of the whole source.
    Types(TypeFault),
    /// Its data find no room in data memory.
    Plan(PlanFault),
    /// Its code finds no room in program memory.
    Link(LinkFault),
    NoMemory,
}

impl From<NoMemory> for BuildFault {
    ghost use Rattle.cc_compile.specs.declared.fault.BuildFault.TheVariants as fault;

    ghost from_gives = { λ _ e. e ≡ fault.NoMemory };

    fn from(_: NoMemory) -> Self {
        BuildFault::NoMemory
    }
}

impl From<LexFault> for BuildFault {
    ghost use Rattle.cc_compile.specs.PartFaults.{of_lex_fault};

    ghost from_gives = { λ given e. e ≡ of_lex_fault given };

    fn from(fault: LexFault) -> Self {
        match fault {
            LexFault::NoMemory => BuildFault::NoMemory,
            why => BuildFault::Lex(why),
        }
    }
}

impl From<ParseFault> for BuildFault {
    ghost use Rattle.cc_compile.specs.PartFaults.{of_parse_fault};

    ghost from_gives = { λ given e. e ≡ of_parse_fault given };

    fn from(fault: ParseFault) -> Self {
        match fault {
            ParseFault::NoMemory => BuildFault::NoMemory,
            why => BuildFault::Parse(why),
        }
    }
}

impl From<TypeFault> for BuildFault {
    ghost use Rattle.cc_compile.specs.PartFaults.{of_type_fault};

    ghost from_gives = { λ given e. e ≡ of_type_fault given };

    fn from(fault: TypeFault) -> Self {
        match fault {
            TypeFault::NoMemory => BuildFault::NoMemory,
            why => BuildFault::Types(why),
        }
    }
}

impl From<TranslationFault> for BuildFault {
    ghost use Rattle.cc_compile.specs.PartFaults.{of_translation_fault};

    ghost from_gives = { λ given e. e ≡ of_translation_fault given };

    fn from(fault: TranslationFault) -> Self {
        match fault {
            TranslationFault::Plan(why) => BuildFault::Plan(why),
            TranslationFault::Link(why) => BuildFault::Link(why),
            TranslationFault::NoMemory => BuildFault::NoMemory,
        }
    }
}
