//! Names and claims.
ghost use Rattle.std.specs.Prelude.{◌≡◌, ◌≢◌, ℕ, List, MatchOption};
ghost use Rattle.word_base.specs.Name.{IsName};
ghost use Rattle.lay_cert.specs.declared.certificate.Claim.{Claim};
ghost use Rattle.lay_cert.specs.Frames.{IsClaim};
ghost use Rattle.lay_cert.specs.CertText.{frame_line, claim_line};

use crate::certificate::Claim;
use text_base::read_pair;
use word_base::name_text;

// The name on the first line of a frame.
pub(crate) fn read_name(line: &[u8]) -> Option<&str>
    ensures { MatchOption result ((name : List ℕ) → IsName name → line.now ≢ frame_line name) (λ name. IsName name.now × (line.now ≡ frame_line name.now)) }
{
    name_text(line.strip_prefix(b"frame ")?)
}

// The claim that the line makes.
pub(crate) fn read_claim(line: &[u8]) -> Option<Claim>
    ensures { MatchOption result ((claim : Claim) → IsClaim claim → line.now ≢ claim_line claim) (λ claim. IsClaim claim × (line.now ≡ claim_line claim)) }
{
    if line == b"claim optimal".as_slice() {
        return Some(Claim::Optimal);
    }
    let (piece, quota) = read_pair(line.strip_prefix(b"claim best ")?)?;
    if piece > u64::from(u8::MAX) || quota > u64::from(u32::MAX) {
        return None;
    }
    Some(Claim::Best {
        piece: piece as u8,
        quota: quota as u32,
    })
}
