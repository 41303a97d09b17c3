//! What code meets, as laws. The call does nothing: its clauses are what crates above cite.
ghost use Rattle.std.specs.Prelude.{◌≡◌, ◌<◌, ◌==◌, if◌then◌else◌, ℕ, Bool, List, [], length, Option};
ghost use Rattle.c_tree.specs.declared.program.VarRef.{VarRef};
ghost use Rattle.c25_isa.specs.State.{State, Memory};
ghost use Rattle.c25_isa.specs.Leads.{Leads};
ghost use Rattle.c25_code.specs.Work.{Work, calm};
ghost use Rattle.acc_code.specs.AccTree.{ItemList};
ghost use Rattle.acc_code.specs.Emittable.{Throughout, RefersRight, IsPlaced};
ghost use Rattle.ir_semantics.specs.AccRun.{Machine, Context, run};
ghost use Rattle.emit_control.specs.declared.ways.Ways.{Ways};
ghost use Rattle.emit_control.specs.Entries.{Entry};
ghost use Rattle.emit_control.specs.Flow.{emit, body_entries};
ghost use Rattle.emit_control.specs.Cuts.{State as Cut, begun};
ghost use Rattle.emit_control.specs.Settings.{Setting};
ghost use Rattle.emit_proof.specs.Sites.{Site, Beside};
ghost use Rattle.emit_proof.specs.Arrivals.{Begun, Meets};
ghost use Rattle.emit_proof.specs.Entries.{Passes, BeginsAt, EntriesAt};
ghost use Rattle.emit_proof.specs.Code.{CodeStands, ItemStands};
ghost use Rattle.emit_proof.specs.Bodies.{MeetsBody};

/// Where the entries of a function's items stand in program memory, the machine does what the items do.
pub fn code_meets()
    // Items before entries that begin at the label that is placed next, from where control passes.
    ensures lists { (start : State) (program : Memory) (names : List ℕ → ℕ) (m : Setting) (k : Site) (marks label : ℕ → ℕ) (caller : Site) (back : ℕ) (c : Context) (cells : VarRef → Option ℕ) (parameters : ℕ → Option ℕ) (scalars : ℕ) (helps breaks continues cases : Bool)
        (xs : ItemList) (ways : Ways) (base next : ℕ) (rest : List Entry) (s : Cut) (pc : ℕ) (v : Machine) (w : Work) (b : Begun) → CodeStands start program names m k marks label caller back c cells parameters
        → Throughout (RefersRight scalars cells parameters helps) xs → scalars ≡ length k.places.scalars → IsPlaced breaks continues cases xs → Throughout (ItemStands start program names m k) xs
        → EntriesAt program marks names m label pc s (emit xs [] ways base next rest) → BeginsAt next rest → next < base → Passes s.before → Leads b.steps start (calm program pc w) v.outside.outs → b.work ≡ v.work → Beside k v w
        → Meets start program k caller b (record { onward = label ways.onward; broken = label ways.broken; continued = label ways.continued; back = back }) (if ways.onward == next then 0 else 1) 4 c.limit (run c xs v) }
    // A body, from its entries on: it returns to its caller, and the end of its list does too.
    ensures bodies { (start : State) (program : Memory) (names : List ℕ → ℕ) (m : Setting) (k : Site) (marks label : ℕ → ℕ) (caller : Site) (back : ℕ) (c : Context) (cells : VarRef → Option ℕ) (parameters : ℕ → Option ℕ) (scalars : ℕ) (helps breaks continues cases : Bool)
        (body : ItemList) (pc : ℕ) (v : Machine) (w : Work) (b : Begun) → CodeStands start program names m k marks label caller back c cells parameters
        → Throughout (RefersRight scalars cells parameters helps) body → scalars ≡ length k.places.scalars → IsPlaced breaks continues cases body → Throughout (ItemStands start program names m k) body
        → EntriesAt program marks names m label pc begun (body_entries body) → Leads b.steps start (calm program pc w) v.outside.outs → b.work ≡ v.work → Beside k v w
        → MeetsBody start program caller b back c.limit (run c body v) }
{}
