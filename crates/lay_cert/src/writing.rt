//! Writing certificates.
ghost use Rattle.std.specs.Prelude.{◌≡◌, ◌<◌, ◌^◌, ◌++◌, true, length, IfOk, OnOk};
ghost use Rattle.std.specs.List.{flat_map};
ghost use Rattle.lay_model.specs.Sequences.{IsSequence};
ghost use Rattle.text_base.specs.Lines.{with_feed, lines_text};
ghost use Rattle.lay_cert.specs.Frames.{IsFrame, IsWhole, AreWhole, IsClaim};
ghost use Rattle.lay_cert.specs.CertReading.{Reads};
ghost use Rattle.lay_cert.specs.CertText.{claim_line, log_lines, layout_lines, frame_lines, cert_text};

use crate::certificate::{CertFrame, Certificate, Claim};
use lay_lines::{push_blocks, push_lists, push_mark_lines, push_number};
use std::alloc::Global;
use text_base::push_decimal;
use word_base::NoMemory;

// The line of a claim.
fn push_claim(text: &mut Vec<u8>, claim: Claim) -> Result<(), NoMemory>
    ensures text { OnOk result (text.new.items ≡ text.old.items ++ with_feed (claim_line claim)) }
    ensures claim { OnOk result (IsClaim claim) }
{
    match claim {
        Claim::Optimal => text.extend_from_slice(b"claim optimal")?,
        Claim::Best { piece, quota } => {
            text.extend_from_slice(b"claim best ")?;
            push_decimal(text, u64::from(piece))?;
            text.push(b' ')?;
            push_decimal(text, u64::from(quota))?;
        }
    }
    text.push(b'\n')?;
    Ok(())
}

// The line that says how many marks there are, those of the marks, and the last of a frame.
fn push_log(text: &mut Vec<u8>, frame: &CertFrame) -> Result<(), NoMemory>
    ensures text { OnOk result (text.new.items ≡ text.old.items ++ lines_text (log_lines frame.now)) }
    ensures marks { OnOk result (length frame.now.log < 2 ^ 64) }
{
    push_number(text, b"marks ", frame.marks().len() as u64)?;
    push_mark_lines(text, frame.marks())?;
    text.extend_from_slice(b"endframe\n")?;
    Ok(())
}

// The lines of the blocks, of the layout, of what is claimed, and of the log.
fn push_layout(text: &mut Vec<u8>, frame: &CertFrame) -> Result<(), NoMemory>
    ensures text { OnOk result (text.new.items ≡ text.old.items ++ lines_text (layout_lines frame.now)) }
    ensures whole { OnOk result (IsFrame frame.now → IsSequence frame.now.seq → IsWhole frame.now) }
{
    push_blocks(text, frame.seq().blocks())?;
    push_lists(text, frame.bases(), frame.arr().lists())?;
    push_number(text, b"cost ", frame.cost())?;
    push_claim(text, frame.claim())?;
    push_log(text, frame)?;
    Ok(())
}

// All lines of a frame.
fn push_frame(text: &mut Vec<u8>, frame: &CertFrame) -> Result<(), NoMemory>
    ensures text { OnOk result (text.new.items ≡ text.old.items ++ lines_text (frame_lines true frame.now)) }
    ensures whole { OnOk result (IsWhole frame.now) }
{
    text.extend_from_slice(b"frame ")?;
    text.extend_from_slice(frame.name().as_bytes())?;
    text.push(b'\n')?;
    push_number(text, b"registers ", u64::from(frame.registers()))?;
    push_number(text, b"step ", u64::from(frame.seq().step()))?;
    push_number(text, b"scalars ", u64::from(frame.seq().scalars()))?;
    push_layout(text, frame)?;
    Ok(())
}

// The lines of all frames.
fn push_frames(text: &mut Vec<u8>, frames: &[CertFrame]) -> Result<(), NoMemory>
    ensures text { OnOk result (text.new.items ≡ text.old.items ++ lines_text (flat_map (frame_lines true) frames.now)) }
    ensures whole { OnOk result (AreWhole frames.now) }
{
    for frame in frames {
        push_frame(text, frame)?;
    }
    Ok(())
}

/// The text of a certificate, of version 2: its one spelling. Only the want of memory is refused.
pub fn write_cert(alloc: Global, certificate: &Certificate) -> Result<Vec<u8>, NoMemory>
    ensures text { IfOk result (λ text. text.items ≡ cert_text certificate.now) }
    // Reading the text gives the certificate again.
    ensures read_back { IfOk result (λ text. Reads text.items certificate.now) }
{
    let mut text = Vec::new(alloc);
    text.extend_from_slice(b"C25 CERTIFICATE 2\n")?;
    push_frames(&mut text, &certificate.frames)?;
    text.extend_from_slice(b"end\n")?;
    Ok(text)
}
