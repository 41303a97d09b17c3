//! The expansion of sources.
ghost use Rattle.std.specs.Prelude.{◌≡◌, ◌≢◌, ◌<◌, ◌^◌, List, length, Ok, Err, IfOk, IfErr, MatchResult};
ghost use Rattle.c_syntax.specs.declared.token.Token.{Token};
ghost use Rattle.c_macro.specs.Expands.{Expands, Outcome};
ghost use Rattle.c_macro.specs.declared.fault.MacroFault.{MacroFault};
ghost use Rattle.c_macro.specs.declared.fault.MacroFault.TheVariants as macro_faults;

use crate::expander::Expander;
use crate::fault::MacroFault;
use c_syntax::Token;
use std::alloc::Global;

/// The tokens that a source expands to: those of its kept lines, in which each name or keyword that is a macro is
/// replaced by its body, and the macros in that but those that are being replaced (ISO 9899:1990 6.8.1 and 6.8.3, for
/// macros without parameters). What replaces a token has its place and length. A place is a byte offset in the source.
///
/// A refusal names the first fault in the source.
pub fn expand(alloc: Global, bytes: &[u8]) -> Result<Vec<Token>, MacroFault>
    requires places { length bytes.now < 2 ^ 32 }
    // What is answered are the tokens that the source expands to.
    ensures tokens { IfOk result (λ tokens. Expands bytes.now tokens.items) }
    // Where the source expands to tokens they are answered, unless memory is wanting.
    ensures expanded { (tokens : List Token) → Expands bytes.now tokens
        → MatchResult result (λ found. found.items ≡ tokens) (λ fault. fault ≡ macro_faults.NoMemory) }
    // Each fault is the first of the source.
    ensures fault { IfErr result (λ fault. fault ≢ macro_faults.NoMemory → Outcome bytes.now (Err fault)) }
    // Where the source has a fault it is answered, unless memory is wanting.
    ensures faulty { (cause : MacroFault) → Outcome bytes.now (Err cause)
        → MatchResult result (λ found. ⊥) (λ fault. fault ≢ macro_faults.NoMemory → fault ≡ cause) }
{
    let mut expander = Expander::new(alloc)?;
    let mut rest = bytes;
    while !rest.is_empty() {
        let at = (bytes.len() - rest.len()) as u32;
        rest = expander.take_first_line(at, rest)?;
    }
    expander.finish()
}
