//! Reading whole certificates.
ghost use Rattle.std.specs.Prelude.{◌≡◌, ◌≢◌, ◌⊎◌, ◌≤◌, List, length, MatchResult, IfOk, IfErr};
ghost use Rattle.lay_cert.specs.Frames.{Frame, AreWhole};
ghost use Rattle.lay_cert.specs.CertReading.{Reads, Says};
ghost use Rattle.lay_cert.specs.declared.fault.CertFault.{CertFault};
ghost use Rattle.lay_cert.specs.declared.fault.CertFault.TheVariants as faults;

use crate::certificate::{CertFrame, Certificate};
use crate::fault::CertFault;
use crate::reader::CertReader;
use std::alloc::Global;

// Reads all frames.
fn read_frames(alloc: Global, bytes: &[u8]) -> Result<Vec<CertFrame>, CertFault>
    requires { length bytes.now ≤ 536870912 }
    ensures { MatchResult result (λ frames. Reads bytes.now frames.items) (Says bytes.now) }
{
    let mut reader = CertReader::new(bytes)?;
    let mut frames = Vec::new(alloc);
    while let Some(frame) = reader.next(alloc)? {
        frames.push(frame)?;
    }
    Ok(frames)
}

/// The certificate that a text gives.
///
/// `Version` comes exactly where line 1 is well formed with a number other than 1 and 2, and `Short` exactly where the unbroken run of lines of marks behind the
/// line `marks M` of the first such frame holds fewer than M, unless the text ends in that run without its line feed. For all other bytes that are no
/// certificate, `BadLine` names the first line, from 1, that can't stand behind those before it: a text that ends early is faulty at the line behind its last, and
/// a last line without its line feed is faulty itself. Lists that aren't an arrangement make the line of the cost faulty.
pub fn read_cert(alloc: Global, bytes: &[u8]) -> Result<Certificate, CertFault>
    requires { length bytes.now ≤ 536870912 }
    // What is read is what the bytes say.
    ensures reads { IfOk result (Reads bytes.now) }
    // Its frames are frames, and their numbers have their bits.
    ensures whole { IfOk result AreWhole }
    // What bytes say is read, unless memory is wanting.
    ensures written { (fs : List Frame) → Reads bytes.now fs → MatchResult result (λ found. found ≡ fs) (λ fault. fault ≡ faults.NoMemory) }
    // Which fault it is, and where.
    ensures fault { IfErr result (Says bytes.now) }
    // Bytes that have a fault are answered with that one, unless memory is wanting.
    ensures only { (fault : CertFault) → fault ≢ faults.NoMemory → Says bytes.now fault → MatchResult result (λ _. ⊥) (λ found. (found ≡ fault) ⊎ (found ≡ faults.NoMemory)) }
{
    let frames = read_frames(alloc, bytes)?;
    Ok(Certificate { frames })
}
