//! The certificate of a program's frames.
ghost use Rattle.std.specs.Prelude.{◌≡◌, All, IfOk};
ghost use Rattle.frame_layouts.specs.Frames.{frame_with, frames_with};
ghost use Rattle.lay_cert.specs.Frames.{IsFrame};

use crate::layouts::{Finding, Layouts};
use lay_cert::{CertFrame, Certificate, FrameParts};
use lay_model::Arrangement;
use mem_plan::FramePlan;
use std::alloc::Global;
use word_base::NoMemory;

/// The certificate of layouts: a frame for each of them, in order, whose lists begin where the plan puts them.
pub fn certificate_of(
    alloc: Global,
    layouts: Layouts,
    plans: &[FramePlan],
) -> Result<Certificate, NoMemory>
    requires { All IsFrame (frames_with layouts.findings.items layouts.arrangements.items plans.now) }
    ensures { IfOk result (λ cert. cert ≡ frames_with layouts.findings.items layouts.arrangements.items plans.now) }
{
    let mut frames = Vec::new(alloc);
    let mut arrangements = layouts.arrangements.into_iter();
    let mut rest = plans;
    for finding in layouts.findings {
        let Some(arrangement) = arrangements.next() else {
            break;
        };
        let Some((plan, more)) = rest.split_first() else {
            break;
        };
        rest = more;
        frames.push(frame(alloc, finding, arrangement, plan)?)?;
    }
    Ok(Certificate { frames })
}

fn frame(
    alloc: Global,
    finding: Finding,
    arrangement: Arrangement,
    plan: &FramePlan,
) -> Result<CertFrame, NoMemory>
    requires { IsFrame (frame_with finding arrangement plan.now) }
    ensures { IfOk result (λ f. f ≡ frame_with finding arrangement plan.now) }
{
    Ok(CertFrame::new(FrameParts {
        name: finding.name,
        registers: finding.job.registers(),
        seq: finding.job.into_sequence(),
        arr: arrangement,
        bases: plan.bases.as_slice().to_vec(alloc)?,
        cost: finding.cost,
        claim: finding.claim,
        log: finding.log,
    }))
}
