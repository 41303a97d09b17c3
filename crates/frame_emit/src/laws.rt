//! Laws of pieces: the calls do nothing, their clauses are what crates above cite.
ghost use Rattle.std.specs.Prelude.{◌≡◌, ◌≤◌, ◌<◌, ◌∷◌, ℕ, Bool, List, Option, true, false, map, length, All};
ghost use Rattle.word_base.specs.Name.{IsName};
ghost use Rattle.c_tree.specs.declared.program.VarRef.{VarRef};
ghost use Rattle.c_tree.specs.TypedTree.{ObjectTree};
ghost use Rattle.tree_code.specs.WordTree.{ProgramCode};
ghost use Rattle.acc_code.specs.AccTree.{FunctionItems, ItemList};
ghost use Rattle.acc_code.specs.Emittable.{Throughout, RefersRight};
ghost use Rattle.mem_plan.specs.declared.data_plan.DataPlan.{DataPlan};
ghost use Rattle.mem_plan.specs.Plan.{AreArranged, IsPlan};
ghost use Rattle.emit_control.specs.Emits.{IsRightItem};
ghost use Rattle.frame_emit.specs.Emitted.{IsCounted, behind_startup, emitted};
ghost use Rattle.frame_emit.specs.Startup.{startup_name, startup_piece, static_words};

/// The first piece of a program is the startup, which isn't listed, and whose name is no name of C. The others are listed, and have the names
/// of the functions.
pub fn pieces_are_right()
    ensures first { (p : ProgramCode) (gs : List FunctionItems) (plan : DataPlan) (arrangements : List (List (List ℕ))) (step : ℕ)
        → emitted p gs plan arrangements step ≡ startup_piece plan.statics p.statics ∷ behind_startup p gs plan arrangements step }
    ensures startup_name { (statics : List ℕ) (os : List ObjectTree) → (startup_piece statics os).name ≡ startup_name }
    ensures unlisted { (statics : List ℕ) (os : List ObjectTree) → (startup_piece statics os).listed ≡ false }
    ensures no_name { ¬ IsName startup_name }
    ensures listed { (p : ProgramCode) (gs : List FunctionItems) (plan : DataPlan) (arrangements : List (List (List ℕ))) (step : ℕ)
        → All (λ q. q.listed ≡ true) (behind_startup p gs plan arrangements step) }
    ensures names { (p : ProgramCode) (gs : List FunctionItems) (plan : DataPlan) (arrangements : List (List (List ℕ))) (step : ℕ) → IsCounted p gs plan arrangements
        → map (λ q. q.name) (behind_startup p gs plan arrangements step) ≡ map (λ g. g.name) gs }
{}

/// What `emit` wants follows from a plan of data memory by arrangements, and from code that meets what emission wants.
pub fn plans_are_enough()
    ensures statics { (p : ProgramCode) (arrangements : List (List (List ℕ))) (plan : DataPlan) → IsPlan p arrangements plan → static_words p.statics < 65536 }
    ensures lists { (p : ProgramCode) (arrangements : List (List (List ℕ))) → AreArranged p.functions arrangements → All (λ lists. length lists ≤ 4) arrangements }
    ensures right { (scalars : ℕ) (cells : VarRef → Option ℕ) (parameters : ℕ → Option ℕ) (helps : Bool) (xs : ItemList)
        → Throughout (RefersRight scalars cells parameters helps) xs → Throughout IsRightItem xs }
    ensures counted { (p : ProgramCode) (gs : List FunctionItems) (plan : DataPlan) (arrangements : List (List (List ℕ)))
        → length gs ≡ length p.functions → AreArranged p.functions arrangements → IsPlan p arrangements plan → IsCounted p gs plan arrangements }
{}
