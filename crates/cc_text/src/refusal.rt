//! Why a command is refused.
ghost use Rattle.std.specs.Prelude.{◌≡◌};
ghost use Rattle.cc_text.specs.Refusals.{why_of, of_image_fault, of_port_fault, of_sequence_fault, of_certificate_fault, of_assembly_fault, of_script_fault, of_profile_fault, refusal_status, file_status};

use c_macro::MacroFault;
use c_units::UnitFault;
use c25_asm::AsmFault;
use c25_debug::ScriptFault;
use c25_image::{ImageFault, PortFault};
use lay_profile::{BuildFault, CertFault, ProfileFault};
use lay_text::SeqFault;
use word_base::NoMemory;

/// Why a file is refused.
#[derive(Clone, Copy, PartialEq, Eq)]
pub enum FileFault {
    /// It couldn't be read, or there is none.
    Read,
    /// It is longer than its limit.
    TooLong,
    /// It is no image.
    Image(ImageFault),
    /// It is no port file.
    Ports(PortFault),
    /// It is no sequence file.
    Sequence(SeqFault),
    /// It is no certificate.
    Certificate(CertFault),
    /// It is no assembler text.
    Assembly(AsmFault),
    /// It is no script.
    Script(ScriptFault),
    /// It is the image of another source.
    OtherSource,
}

impl FileFault {
    fn status(self) -> u8
        ensures { result ≡ file_status self }
    {
        match self {
            FileFault::Read => 3,
            FileFault::TooLong
            | FileFault::Image(_)
            | FileFault::Ports(_)
            | FileFault::Sequence(_)
            | FileFault::Certificate(_)
            | FileFault::Assembly(_)
            | FileFault::Script(_)
            | FileFault::OtherSource => 9,
        }
    }
}

/// Why a command is refused. Want of memory in a part is `NoMemory` here, and stands in none of the others.
#[derive(Drop)]
pub enum Refusal<'a> {
    /// One of its files, of this name.
    File { name: &'a str, why: FileFault },
    /// The source isn't compiled.
    Source(BuildFault),
    /// The source has no expansion.
    Macros(MacroFault),
    /// The sources aren't joined.
    Units(UnitFault),
    /// The store failed.
    Store,
    NoMemory,
}

impl<'a> Refusal<'a> {
    /// A file of this name is no image.
    pub fn of_image(name: &'a str, fault: ImageFault) -> Self
        ensures { why_of result ≡ of_image_fault name.now fault }
    {
        match fault {
            ImageFault::NoMemory => Refusal::NoMemory,
            why => Refusal::File {
                name,
                why: FileFault::Image(why),
            },
        }
    }

    /// A file of this name is no port file.
    pub fn of_ports(name: &'a str, fault: PortFault) -> Self
        ensures { why_of result ≡ of_port_fault name.now fault }
    {
        match fault {
            PortFault::NoMemory => Refusal::NoMemory,
            why => Refusal::File {
                name,
                why: FileFault::Ports(why),
            },
        }
    }

    /// A file of this name is no sequence file.
    pub fn of_sequence(name: &'a str, fault: SeqFault) -> Self
        ensures { why_of result ≡ of_sequence_fault name.now fault }
    {
        match fault {
            SeqFault::NoMemory => Refusal::NoMemory,
            why => Refusal::File {
                name,
                why: FileFault::Sequence(why),
            },
        }
    }

    /// A file of this name is no certificate.
    pub fn of_certificate(name: &'a str, fault: CertFault) -> Self
        ensures { why_of result ≡ of_certificate_fault name.now fault }
    {
        match fault {
            CertFault::NoMemory => Refusal::NoMemory,
            why => Refusal::File {
                name,
                why: FileFault::Certificate(why),
            },
        }
    }

    /// A file of this name is no assembler text.
    pub fn of_assembly(name: &'a str, fault: AsmFault) -> Self
        ensures { why_of result ≡ of_assembly_fault name.now fault }
    {
        match fault {
            AsmFault::NoMemory => Refusal::NoMemory,
            why => Refusal::File {
                name,
                why: FileFault::Assembly(why),
            },
        }
    }

    /// A file of this name is no script.
    pub fn of_script(name: &'a str, fault: ScriptFault) -> Self
        ensures { why_of result ≡ of_script_fault name.now fault }
    {
        match fault {
            ScriptFault::NoMemory => Refusal::NoMemory,
            why => Refusal::File {
                name,
                why: FileFault::Script(why),
            },
        }
    }

    /// A source isn't compiled with layouts for a recorded run of the image of this name.
    pub fn of_profile(name: &'a str, fault: ProfileFault) -> Self
        ensures { why_of result ≡ of_profile_fault name.now fault }
    {
        match fault {
            ProfileFault::Lex(why) => Refusal::Source(BuildFault::Lex(why)),
            ProfileFault::Parse(why) => Refusal::Source(BuildFault::Parse(why)),
            ProfileFault::Types(why) => Refusal::Source(BuildFault::Types(why)),
            ProfileFault::OtherSource => Refusal::File {
                name,
                why: FileFault::OtherSource,
            },
            ProfileFault::Plan(why) => Refusal::Source(BuildFault::Plan(why)),
            ProfileFault::Link(why) => Refusal::Source(BuildFault::Link(why)),
            ProfileFault::NoMemory => Refusal::NoMemory,
        }
    }

    /// The status of a command that is refused so.
    pub fn status(&self) -> u8
        ensures { result ≡ refusal_status (why_of self.now) }
    {
        match self {
            Refusal::File { why, .. } => why.status(),
            Refusal::Source(_) | Refusal::Macros(_) | Refusal::Units(_) => 1,
            Refusal::Store => 4,
            Refusal::NoMemory => 5,
        }
    }
}

impl<'a> From<NoMemory> for Refusal<'a> {
    ghost use Rattle.cc_text.specs.Refusals.{why_of, OfMemory};

    ghost from_gives = { λ _ e. why_of e ≡ OfMemory };

    fn from(_: NoMemory) -> Self {
        Refusal::NoMemory
    }
}

impl<'a> From<BuildFault> for Refusal<'a> {
    ghost use Rattle.cc_text.specs.Refusals.{why_of, of_build_fault};

    ghost from_gives = { λ given e. why_of e ≡ of_build_fault given };

    fn from(fault: BuildFault) -> Self {
        match fault {
            BuildFault::NoMemory => Refusal::NoMemory,
            why => Refusal::Source(why),
        }
    }
}

impl<'a> From<MacroFault> for Refusal<'a> {
    ghost use Rattle.cc_text.specs.Refusals.{why_of, of_macro_fault};

    ghost from_gives = { λ given e. why_of e ≡ of_macro_fault given };

    fn from(fault: MacroFault) -> Self {
        match fault {
            MacroFault::NoMemory => Refusal::NoMemory,
            why => Refusal::Macros(why),
        }
    }
}

impl<'a> From<UnitFault> for Refusal<'a> {
    ghost use Rattle.cc_text.specs.Refusals.{why_of, of_unit_fault};

    ghost from_gives = { λ given e. why_of e ≡ of_unit_fault given };

    fn from(fault: UnitFault) -> Self {
        match fault {
            UnitFault::NoMemory => Refusal::NoMemory,
            why => Refusal::Units(why),
        }
    }
}
