//! The files by themselves.
ghost use Rattle.std.specs.Prelude.{◌≡◌, ◌≢◌, ◌<◌, ◌≤◌, ◌^◌, ⊤, length, map, All, IfOk, OnOk, IfErr};
ghost use Rattle.c_tree.specs.c_syntax.Lexes.{most_tokens};
ghost use Rattle.c_tree.specs.c_syntax.Source.{IsSource};
ghost use Rattle.c_tree.specs.c_syntax.SyntaxView.{unit_of};
ghost use Rattle.c_rules.specs.Checked.{Holds};
ghost use Rattle.c_units.specs.declared.fault.UnitFault.TheVariants as faults;
ghost use Rattle.c_units.specs.Files.{HasTokens, IsFile, AreFiles, HasTree, HasOwnFault, HasFileFault};
ghost use Rattle.c_units.specs.PartFaults.{of_lex_fault, of_parse_fault, of_type_fault};
ghost use Rattle.c_units.specs.Views.{file_of};

use crate::externs::{Kept, without_externs};
use crate::fault::UnitFault;
use c_lexer::{LexFault, lex};
use c_parser::{ParseFault, parse};
use c_syntax::{Token, Unit};
use c_types::{TypeFault, check};
use std::alloc::Global;

/// A file that has no fault of its own.
#[derive(Drop)]
pub(crate) struct SourceFile {
    pub(crate) tokens: Vec<Token>,
    pub(crate) externs: Vec<u32>,
    pub(crate) unit: Unit,
}

// A fault of the tokens of the file of this number.
fn of_tokens(number: u8, fault: LexFault) -> UnitFault
    ensures { result ≡ of_lex_fault number fault }
{
    match fault {
        LexFault::NoMemory => UnitFault::NoMemory,
        fault => UnitFault::Lex {
            file: number,
            fault,
        },
    }
}

// A fault of its syntax.
fn of_syntax(number: u8, fault: ParseFault) -> UnitFault
    ensures { result ≡ of_parse_fault number fault }
{
    match fault {
        ParseFault::NoMemory => UnitFault::NoMemory,
        fault => UnitFault::Parse {
            file: number,
            fault,
        },
    }
}

// A fault of its types. What is wanted of a whole program is left to the joined text.
fn of_types(number: u8, fault: TypeFault) -> Option<UnitFault>
    ensures { result ≡ of_type_fault number fault }
{
    match fault {
        TypeFault::MissingMain { .. }
        | TypeFault::MissingBody { .. }
        | TypeFault::Recursion { .. }
        | TypeFault::Limit { .. } => None,
        TypeFault::NoMemory => Some(UnitFault::NoMemory),
        fault => Some(UnitFault::Types {
            file: number,
            fault,
        }),
    }
}

// The tokens of a file that are left.
fn kept_tokens(alloc: Global, number: u8, source: &[u8]) -> Result<Kept, UnitFault>
    requires short { length source.now < 2 ^ 32 }
    ensures tokens { IfOk result (λ kept. HasTokens source.now kept.tokens.items kept.externs.items) }
    ensures fault { IfErr result (λ fault. fault ≢ faults.NoMemory → HasOwnFault number source.now fault) }
{
    match lex(alloc, source) {
        Ok(tokens) => Ok(without_externs(alloc, tokens)?),
        Err(fault) => Err(of_tokens(number, fault)),
    }
}

// Their tree.
fn tree(alloc: Global, number: u8, source: &[u8], kept: &Kept) -> Result<Unit, UnitFault>
    requires tokens { HasTokens source.now kept.now.tokens.items kept.now.externs.items }
    ensures tree { IfOk result (λ unit. IsSource kept.now.tokens.items (unit_of unit)) }
    ensures fault { IfErr result (λ fault. fault ≢ faults.NoMemory → HasOwnFault number source.now fault) }
{
    match parse(alloc, &kept.tokens) {
        Ok(unit) => Ok(unit),
        Err(fault) => Err(of_syntax(number, fault)),
    }
}

// Refuses the first rule that a node of a file breaks.
fn check_rules(alloc: Global, number: u8, source: &[u8], file: &SourceFile) -> Result<(), UnitFault>
    requires tree { HasTree source.now (file_of file.now) }
    ensures valid { OnOk result (Holds (unit_of file.now.unit) (λ functions. ⊤)) }
    ensures fault { IfErr result (λ fault. fault ≢ faults.NoMemory → HasOwnFault number source.now fault) }
{
    match check(alloc, &file.unit) {
        Ok(_) => Ok(()),
        Err(fault) => match of_types(number, fault) {
            Some(own) => Err(own),
            None => Ok(()),
        },
    }
}

// The file of this number, or its fault.
fn read_file(alloc: Global, number: u8, source: &[u8]) -> Result<SourceFile, UnitFault>
    requires short { length source.now < 2 ^ 32 }
    ensures file { IfOk result (λ file. IsFile source.now (file_of file)) }
    ensures fault { IfErr result (λ fault. fault ≢ faults.NoMemory → HasOwnFault number source.now fault) }
{
    let kept = kept_tokens(alloc, number, source)?;
    let unit = tree(alloc, number, source, &kept)?;
    let file = SourceFile {
        tokens: kept.tokens,
        externs: kept.externs,
        unit,
    };
    check_rules(alloc, number, source, &file)?;
    Ok(file)
}

/// The files of these bytes, at most sixteen, or the fault of the first that has one of its own.
pub(crate) fn read_files(alloc: Global, sources: &[Vec<u8>]) -> Result<Vec<SourceFile>, UnitFault>
    requires few { length sources.now ≤ 16 }
    requires short { All (λ s. length s.items < 2 ^ 32) sources.now }
    ensures files { IfOk result (λ files. AreFiles (map (λ s. s.items) sources.now) (map file_of files.items)) }
    ensures fault { IfErr result (λ fault. fault ≢ faults.NoMemory → HasFileFault (map (λ s. s.items) sources.now) fault) }
{
    let mut files = Vec::new(alloc);
    for source in sources {
        let number = files.len() as u8 + 1;
        files.push(read_file(alloc, number, source)?)?;
    }
    Ok(files)
}
