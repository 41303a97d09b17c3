//! Laws of active functions and of where their words lie. Each call does nothing: its clauses are what crates above cite.
ghost use Rattle.std.specs.Prelude.{◌≡◌, ◌<◌, ℕ, Bool, true, false, List, ◌∷◌, length, slice_get, Option, Some};
ghost use Rattle.tree_code.specs.WordTree.{FunctionCode};
ghost use Rattle.acc_code.specs.AccTree.{FunctionItems};
ghost use Rattle.mem_plan.specs.declared.data_plan.FramePlan.{FramePlan};
ghost use Rattle.c25_isa.specs.Direct.{is_among};
ghost use Rattle.c25_isa.specs.State as machine;
ghost use Rattle.c25_isa.specs.State.{Memory};
ghost use Rattle.c25_code.specs.Returns as entries;
ghost use Rattle.c25_code.specs.Work.{Work};
ghost use Rattle.ir_semantics.specs.AccRows.{Gone, low_half};
ghost use Rattle.ir_semantics.specs.AccRun.{Machine, at_most_low, entered, left};
ghost use Rattle.ir_semantics.specs.Outside.{Frame};
ghost use Rattle.frame_emit.specs.emit_control.Settings.{Setting};
ghost use Rattle.emit_proof.specs.Accessing.{site_may};
ghost use Rattle.emit_proof.specs.Code.{ReturnsMeet};
ghost use Rattle.emit_proof.specs.Sites.{Beside, with_stack};
ghost use Rattle.image_proof.specs.PlanPlaces.{places_of};
ghost use Rattle.image_proof.specs.ActiveSites.{site_of};
ghost use Rattle.image_proof.specs.Kept.{IsKept, kept_for, stack_in};
ghost use Rattle.image_proof.specs.Active.{AreActive, IsAmong, back_of};
ghost use Rattle.image_proof.specs.Directs.{own_words};
ghost use Rattle.image_proof.specs.FunctionWalks.{IsFunctionOf};
ghost use Rattle.image_proof.specs.Emissions.{Emission, IsEmission};

/// A function is entered and left with its state, and that of its caller, beside the machine.
pub fn calls_stand()
    // What is kept while it runs are words of the plan.
    ensures kept { (e : Emission) (g : ℕ) (active : List ℕ) (frame : Frame) (ret : ℕ) (kept : ℕ → Option ℕ) → IsEmission e → AreActive e (g ∷ active) → IsKept e active kept → IsKept e (g ∷ active) (kept_for e g active frame ret kept) }
    ensures enters { (e : Emission) (g : ℕ) (active : List ℕ) (kept : ℕ → Option ℕ) (stack : List ℕ) (code : FunctionCode) (ret : ℕ) (v : Machine) (w : Work) → IsEmission e → AreActive e (g ∷ active) → IsKept e active kept → slice_get e.code.functions g ≡ Some code
        → Beside (site_of e active kept stack) v w → ret < 65536 → length stack < 8
        → Beside (site_of e (g ∷ active) (kept_for e g active v.frame ret kept) (stack_in (back_of e g) ret stack)) (entered (places_of e.plan) g code v) (entries.entered (back_of e g) ret w) }
    // At its return only the low half of ACC is known, or behind its body nothing of ACC.
    ensures leaves { (e : Emission) (g : ℕ) (active : List ℕ) (kept : ℕ → Option ℕ) (stack held : List ℕ) (code : FunctionCode) (ret : ℕ) (v t : Machine) (w u : Work) → IsEmission e → AreActive e (g ∷ active) → IsKept e active kept → slice_get e.code.functions g ≡ Some code
        → Beside (site_of e active kept stack) v w → Beside (with_stack stack (site_of e (g ∷ active) (kept_for e g active v.frame ret kept) held)) t u
        → Beside (site_of e active kept stack) (left (places_of e.plan) g code (at_most_low (low_half t.registers.acc)) v.frame t) u }
    ensures leaves_gone { (e : Emission) (g : ℕ) (active : List ℕ) (kept : ℕ → Option ℕ) (stack held : List ℕ) (code : FunctionCode) (ret : ℕ) (v t : Machine) (w u : Work) → IsEmission e → AreActive e (g ∷ active) → IsKept e active kept → slice_get e.code.functions g ≡ Some code
        → Beside (site_of e active kept stack) v w → Beside (with_stack stack (site_of e (g ∷ active) (kept_for e g active v.frame ret kept) held)) t u
        → Beside (site_of e active kept stack) (left (places_of e.plan) g code Gone v.frame t) u }
    ensures returns { (e : Emission) (g : ℕ) (active : List ℕ) (frame : Frame) (kept : ℕ → Option ℕ) (stack : List ℕ) (ret : ℕ) (start : machine.State) (program : Memory) (names : List ℕ → ℕ) (m : Setting) → IsEmission e → AreActive e (g ∷ active) → m.back ≡ back_of e g → length stack < 8
        → ReturnsMeet start program names m (site_of e (g ∷ active) (kept_for e g active frame ret kept) (stack_in (back_of e g) ret stack)) (with_stack stack (site_of e (g ∷ active) (kept_for e g active frame ret kept) (stack_in (back_of e g) ret stack))) ret }
{}

/// While a function runs, its code accesses no word of a caller's scalar through an address register, and none of its own scalars through AR1: what
/// its runs of operations may access there (`site_may`, which `runs_do_operations` holds them to) are other words.
pub fn sites_spare_frames()
    ensures own { (e : Emission) (g : ℕ) (active : List ℕ) (kept : ℕ → Option ℕ) (stack : List ℕ) (stores : Bool) (code : FunctionCode) (items : FunctionItems) (frame : FramePlan) (lists : List (List ℕ)) (a : ℕ) → IsEmission e → AreActive e (g ∷ active) → IsKept e (g ∷ active) kept
        → IsFunctionOf e g code items frame lists → is_among a (own_words code frame lists) ≡ true
        → site_may (site_of e (g ∷ active) kept stack) (record { address = a; through = Some 1; stores = stores }) ≡ false }
    ensures callers { (e : Emission) (g : ℕ) (active : List ℕ) (kept : ℕ → Option ℕ) (stack : List ℕ) (stores : Bool) (caller : ℕ) (code : FunctionCode) (items : FunctionItems) (frame : FramePlan) (lists : List (List ℕ)) (a register : ℕ) → IsEmission e → AreActive e (g ∷ active) → IsKept e (g ∷ active) kept
        → IsAmong active caller → IsFunctionOf e caller code items frame lists → is_among a (own_words code frame lists) ≡ true
        → site_may (site_of e (g ∷ active) kept stack) (record { address = a; through = Some register; stores = stores }) ≡ false }
{}
