//! The laws of frames. Each function does nothing: its clauses are what callers cite.
ghost use Rattle.std.specs.Prelude.{◌≡◌, map, length, All, List};
ghost use Rattle.acc_code.specs.AccTree.{FunctionItems};
ghost use Rattle.frame_layouts.specs.declared.layouts.Layouts.{Layouts};
ghost use Rattle.frame_layouts.specs.Frames.{AreLayouts, AreBased, ClaimsHold, IsJob, jobs_in, layout_of, frames_of, frames_with};
ghost use Rattle.lay_cert.specs.Frames.{Frame, IsFrame};
ghost use Rattle.lay_cost.specs.Cost.{IsArranged};
ghost use Rattle.lay_par.specs.Jobs.{Job};
ghost use Rattle.mem_plan.specs.declared.data_plan.FramePlan.{FramePlan};
ghost use Rattle.word_base.specs.Name.{IsName};

/// The frames of layouts are those of the functions and their jobs, one for each in order where each has its plan, and each is a frame.
pub fn frames_are_arranged()
    ensures same { (fs : List FunctionItems) (jobs : List Job) (l : Layouts) (plans : List FramePlan) → AreLayouts fs jobs l → frames_with l.findings.items l.arrangements.items plans ≡ frames_of fs jobs plans }
    // What was searched for is kept.
    ensures jobs { (fs : List FunctionItems) (jobs : List Job) (l : Layouts) → length jobs ≡ length fs → AreLayouts fs jobs l → jobs_in l ≡ jobs }
    ensures each { (fs : List FunctionItems) (jobs : List Job) (plans : List FramePlan) → All IsJob jobs → All (λ f. IsName f.name) fs → AreBased jobs plans → All IsFrame (frames_of fs jobs plans) }
    ensures all { (fs : List FunctionItems) (jobs : List Job) (plans : List FramePlan) → length jobs ≡ length fs → AreBased jobs plans → map (λ (f : Frame). f.name) (frames_of fs jobs plans) ≡ map (λ (f : FunctionItems). f.name) fs }
    ensures sequences { (fs : List FunctionItems) (jobs : List Job) (plans : List FramePlan) → length jobs ≡ length fs → AreBased jobs plans → map (λ (f : Frame). f.seq) (frames_of fs jobs plans) ≡ map (λ (job : Job). job.sequence) jobs }
{
    lay_tree::answers_arrange();
}

/// What a frame costs is what its layout costs. Where it is claimed to be optimal, its log fits the tree for that cost, and no layout costs less.
pub fn claims_hold()
    ensures { (fs : List FunctionItems) (jobs : List Job) (plans : List FramePlan) → All IsJob jobs → All ClaimsHold (frames_of fs jobs plans) }
{
    lay_tree::answers_cost_little();
    lay_tree::certified_logs_replay();
    lay_tree::certified_answers_are_least();
}

/// A layout arranges the scalars of its job over the registers.
pub fn layouts_are_arranged()
    ensures { (job : Job) → IsJob job → IsArranged job.sequence job.registers (layout_of job) }
{
    lay_tree::answers_arrange();
}
