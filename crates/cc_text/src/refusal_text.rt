//! The line that refuses a file.
ghost use Rattle.std.specs.Prelude.{◌≡◌, IfOk, string_bytes};
ghost use Rattle.cc_text.specs.Refusals.{file_line, image_line, port_line, sequence_line, certificate_line, assembly_line, script_line};

use crate::refusal::FileFault;
use c25_asm::AsmFault;
use c25_debug::ScriptFault;
use c25_image::{ImageFault, PortFault};
use lay_profile::CertFault;
use lay_text::SeqFault;
use std::alloc::Global;
use word_base::NoMemory;

// The line that refuses an image.
fn image_line(alloc: Global, name: &str, fault: ImageFault) -> Result<String, NoMemory>
    ensures { IfOk result (λ line. string_bytes line ≡ image_line name.now fault) }
{
    match fault {
        ImageFault::BadLine { line } => {
            Ok(format!(in alloc; "file refused: {name} bad line {line}\n")?)
        }
        ImageFault::TooLong { count } => {
            Ok(format!(in alloc; "file refused: {name} too long {count}\n")?)
        }
        ImageFault::BadRange { line } => {
            Ok(format!(in alloc; "file refused: {name} bad range line {line}\n")?)
        }
        ImageFault::NoMemory => Err(NoMemory),
    }
}

// The line that refuses a port file.
fn port_line(alloc: Global, name: &str, fault: PortFault) -> Result<String, NoMemory>
    ensures { IfOk result (λ line. string_bytes line ≡ port_line name.now fault) }
{
    match fault {
        PortFault::BadLine { line } => {
            Ok(format!(in alloc; "file refused: {name} bad line {line}\n")?)
        }
        PortFault::NoMemory => Err(NoMemory),
    }
}

// The line that refuses a sequence file.
fn sequence_line(alloc: Global, name: &str, fault: SeqFault) -> Result<String, NoMemory>
    ensures { IfOk result (λ line. string_bytes line ≡ sequence_line name.now fault) }
{
    match fault {
        SeqFault::BadLine { line } => {
            Ok(format!(in alloc; "file refused: {name} bad line {line}\n")?)
        }
        SeqFault::TooManyScalars { count } => {
            Ok(format!(in alloc; "file refused: {name} too many scalars {count}\n")?)
        }
        SeqFault::NoMemory => Err(NoMemory),
    }
}

// The line that refuses a certificate.
fn certificate_line(alloc: Global, name: &str, fault: CertFault) -> Result<String, NoMemory>
    ensures { IfOk result (λ line. string_bytes line ≡ certificate_line name.now fault) }
{
    match fault {
        CertFault::BadLine { line } => {
            Ok(format!(in alloc; "file refused: {name} bad line {line}\n")?)
        }
        CertFault::Short { frame } => {
            Ok(format!(in alloc; "file refused: {name} short frame {frame}\n")?)
        }
        CertFault::Version { found } => {
            Ok(format!(in alloc; "file refused: {name} version {found}\n")?)
        }
        CertFault::NoMemory => Err(NoMemory),
    }
}

// The line that refuses an assembler text.
fn assembly_line(alloc: Global, name: &str, fault: AsmFault) -> Result<String, NoMemory>
    ensures { IfOk result (λ line. string_bytes line ≡ assembly_line name.now fault) }
{
    match fault {
        AsmFault::BadLine { line } => {
            Ok(format!(in alloc; "file refused: {name} bad line {line}\n")?)
        }
        AsmFault::UnknownLabel { line } => {
            Ok(format!(in alloc; "file refused: {name} unknown label line {line}\n")?)
        }
        AsmFault::LabelTwice { line } => {
            Ok(format!(in alloc; "file refused: {name} label twice line {line}\n")?)
        }
        AsmFault::OutOfRange { line } => {
            Ok(format!(in alloc; "file refused: {name} out of range line {line}\n")?)
        }
        AsmFault::TooLong { count } => {
            Ok(format!(in alloc; "file refused: {name} too long {count}\n")?)
        }
        AsmFault::NoMemory => Err(NoMemory),
    }
}

// The line that refuses a script.
fn script_line(alloc: Global, name: &str, fault: ScriptFault) -> Result<String, NoMemory>
    ensures { IfOk result (λ line. string_bytes line ≡ script_line name.now fault) }
{
    match fault {
        ScriptFault::BadLine { line } => {
            Ok(format!(in alloc; "file refused: {name} bad line {line}\n")?)
        }
        ScriptFault::TooLong { count } => {
            Ok(format!(in alloc; "file refused: {name} too long {count}\n")?)
        }
        ScriptFault::NoMemory => Err(NoMemory),
    }
}

/// The line that refuses a file of a name, with its line feed. Want of memory is no fault of one, and has none.
pub fn file_line(alloc: Global, name: &str, fault: FileFault) -> Result<String, NoMemory>
    ensures { IfOk result (λ line. string_bytes line ≡ file_line name.now fault) }
{
    match fault {
        FileFault::Read => Ok(format!(in alloc; "read fault: {name}\n")?),
        FileFault::TooLong => Ok(format!(in alloc; "file refused: {name} too long\n")?),
        FileFault::Image(why) => image_line(alloc, name, why),
        FileFault::Ports(why) => port_line(alloc, name, why),
        FileFault::Sequence(why) => sequence_line(alloc, name, why),
        FileFault::Certificate(why) => certificate_line(alloc, name, why),
        FileFault::Assembly(why) => assembly_line(alloc, name, why),
        FileFault::Script(why) => script_line(alloc, name, why),
        FileFault::OtherSource => Ok(format!(in alloc; "file refused: {name} other source\n")?),
    }
}
