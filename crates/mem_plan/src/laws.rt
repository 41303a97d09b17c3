//! The laws of plans.
ghost use Rattle.std.specs.Prelude.{◌≡◌, ℕ, List};
ghost use Rattle.mem_plan.specs.declared.data_plan.DataPlan.{DataPlan};
ghost use Rattle.mem_plan.specs.Plan.{AreArranged, AreBegins, IsPlan};
ghost use Rattle.mem_plan.specs.Ranges.{KeepApart, LieWithin};
ghost use Rattle.tree_code.specs.WordTree.{ProgramCode};

/// In a plan, things that are used at once lie apart, objects with their spare words: static objects from all, what is in one frame
/// from each other, and what is in the frames of two functions of which one reaches the other by calls. All but the scratch words
/// lies behind these, at addresses of 16 bits. A program has one begin for each frame, so it has one plan for its arrangements.
pub fn plans_keep_apart()
    ensures apart { (p : ProgramCode) (arrangements : List (List (List ℕ))) (plan : DataPlan) → AreArranged p.functions arrangements → IsPlan p arrangements plan → KeepApart p arrangements plan }
    ensures within { (p : ProgramCode) (arrangements : List (List (List ℕ))) (plan : DataPlan) → AreArranged p.functions arrangements → IsPlan p arrangements plan → LieWithin p arrangements plan }
    ensures one_begin { (p : ProgramCode) (b c : ℕ → ℕ) → AreBegins p b → AreBegins p c → (f : ℕ) → b f ≡ c f }
{}
