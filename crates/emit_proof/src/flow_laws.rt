//! Laws of pieces. Each call does nothing: its clauses are what crates above cite.
ghost use Rattle.std.specs.Prelude.{◌≤◌, ℕ, Bool, false, Option};
ghost use Rattle.c_tree.specs.declared.program.VarRef.{VarRef};
ghost use Rattle.acc_code.specs.AccTree.{ItemList};
ghost use Rattle.acc_code.specs.Emittable.{IsEmittableBody, IsPlaced, RefersRight};
ghost use Rattle.c25_isa.specs.Pieces.{items_size};
ghost use Rattle.c25_code.specs.Links.{IsMarkOf, MarksDiffer, MarksAtWords};
ghost use Rattle.emit_control.specs.Cuts.{function_items};
ghost use Rattle.emit_control.specs.Settings.{Setting};
ghost use Rattle.emit_proof.specs.Calls.{IsJumpTo, CallsAre, IsNameOf, StandsIn};

/// The marks of a function's piece are the labels that its jumps name, each stands once, and its calls are those of its body.
pub fn marks_are_right()
    ensures once { (m : Setting) (body : ItemList) → IsPlaced false false false body → MarksDiffer (function_items m body) }
    ensures stand { (m : Setting) (body : ItemList) (mark : ℕ) → IsPlaced false false false body → IsJumpTo mark (function_items m body) → IsMarkOf mark (function_items m body) }
    // So each mark is a cut.
    ensures named { (m : Setting) (body : ItemList) (mark : ℕ) → IsPlaced false false false body → IsMarkOf mark (function_items m body) → IsJumpTo mark (function_items m body) }
    // Each name that is called is that of a Call or a Helper of the body.
    ensures calls { (m : Setting) (body : ItemList) → IsPlaced false false false body → CallsAre (IsNameOf (λ x. StandsIn x body) m) (function_items m body) }
    // So it is the name of a function that may be called, or of a helper where those may be.
    ensures refers { (scalars : ℕ) (cells : VarRef → Option ℕ) (parameters : ℕ → Option ℕ) (helps : Bool) (m : Setting) (body : ItemList) → IsEmittableBody scalars cells parameters helps body
        → CallsAre (IsNameOf (RefersRight scalars cells parameters helps) m) (function_items m body) }
    // A word stands behind each mark, whatever the body.
    ensures behind { (m : Setting) (body : ItemList) → MarksAtWords (function_items m body) }
    ensures word { (m : Setting) (body : ItemList) → 1 ≤ items_size (function_items m body) }
{}
