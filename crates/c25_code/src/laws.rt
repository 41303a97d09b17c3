//! What emitted code does, as laws: each call does nothing, its clauses are what crates above cite.
ghost use Rattle.std.specs.Prelude.{◌≡◌, Bool, true, false, ℕ, suc, ◌+◌, ◌<◌, ◌≤◌, List, [], ◌∷◌, ◌++◌, length, None};
ghost use Rattle.word_base.specs.declared.outcome.Ending.{Ending};
ghost use Rattle.word_base.specs.declared.outcome.Ending.TheVariants.{Returned};
ghost use Rattle.word_base.specs.Ports.{Input, IsInput, Outputs};
ghost use Rattle.word_base.specs.declared.outcome.Outcome.TheVariants as source;
ghost use Rattle.word_base.specs.Keeps.{Outcomes, Keeps};
ghost use Rattle.c25_isa.specs.declared.instruction.Instr.{Instr};
ghost use Rattle.c25_isa.specs.declared.instruction.Instr.TheVariants.{Rovm, Rptk, Spm, Idle, Ret, Branch, Call};
ghost use Rattle.c25_isa.specs.declared.instruction.JumpOp.{JumpOp};
ghost use Rattle.c25_isa.specs.declared.operand.Indirect.{Indirect};
ghost use Rattle.c25_isa.specs.declared.operand.Operand.TheVariants.{Indirect as Through};
ghost use Rattle.c25_isa.specs.Agrees.{SourceRuns, Steps, any_number, at_most, EndsAlike, PutsBefore, GoesOnAlike, AgreesAt, Agrees};
ghost use Rattle.c25_isa.specs.Image.{Contents};
ghost use Rattle.c25_isa.specs.Pieces.{Piece, Linked, PiecesFit};
ghost use Rattle.c25_isa.specs.State.{State, Memory, Start, BeginsWith};
ghost use Rattle.c25_isa.specs.Step.{Over, can_repeat, wrap16, step};
ghost use Rattle.c25_isa.specs.MachineRun.{HasStopped, machine_run};
ghost use Rattle.c25_isa.specs.Table.{IsInstr};
ghost use Rattle.c25_isa.specs.CodeAt.{StandsAt, CodeAt};
ghost use Rattle.c25_isa.specs.Leads.{Leads};
ghost use Rattle.c25_isa.specs.StretchRuns.{DataAccess};
ghost use Rattle.c25_code.specs.Work.{Work, Modes, at_modes, calm, modes_of, work_of, InRange};
ghost use Rattle.c25_code.specs.Straight.{behind_operand, first_of, rest_of, NonEmpty, behind_instr, InstrReady, code_size, code_minds_modes, FitModes, is_taken, branch_target, behind_repeats, RepeatsReady};
ghost use Rattle.c25_code.specs.Accesses.{Accesses, LeadsWithin, CodeMay, RepeatsMay};
ghost use Rattle.c25_code.specs.Items.{no_change};
ghost use Rattle.c25_code.specs.CodeRuns.{CodeRuns, EndsAtInput, RunsInPart};
ghost use Rattle.c25_code.specs.Links.{address_of, EachIsInMemory, AllStand};

/// Straight code that stands in program memory leads from a calm state to a calm state, in one step an instruction.
pub fn straight_code_leads()
    ensures leads { (program : Memory) (code : List Instr) (pc : ℕ) (w u : Work) (put : Outputs) → CodeAt program pc code → CodeRuns code w u put → pc + code_size code < 65536
        → Leads (length code) (calm program pc w) (calm program (pc + code_size code) u) put }
    // The run ends at an input of a port that has no word left, behind a step for each instruction before it.
    ensures ends { (program : Memory) (code : List Instr) (pc : ℕ) (w : Work) (put : Outputs) (ending : Ending) → CodeAt program pc code → (at : EndsAtInput code w put ending)
        → (t : State) × Leads (length at.front) (calm program pc w) t put × (step t ≡ Over ending) }
    // Of code that runs in part, the outputs of that part are put.
    ensures part { (program : Memory) (code : List Instr) (pc : ℕ) (w : Work) (put : Outputs) → CodeAt program pc code → (at : RunsInPart code w put)
        → (t : State) × Leads (length at.front) (calm program pc w) t put }
    // An instruction that is ready keeps each part of the state in its range.
    ensures ranges { (i : Instr) (w : Work) → IsInstr i → InstrReady i w → InRange w → InRange (behind_instr i w) }
{}

/// Straight code that doesn't mind the modes leads on at any: it forms no sum, takes no product and sets no mode. Jumps, calls and returns lead
/// on at any, and IDLE ends there.
pub fn code_leads_at_modes()
    // A state without a repeat is one at its modes, as each is behind a reset.
    ensures each { (s : State) → s.repeats ≡ None → s ≡ at_modes (modes_of s) s.program s.pc (work_of s) }
    ensures leads { (modes : Modes) (program : Memory) (code : List Instr) (pc : ℕ) (w u : Work) (put : Outputs) → FitModes modes (code_minds_modes code) → CodeAt program pc code → CodeRuns code w u put → pc + code_size code < 65536
        → Leads (length code) (at_modes modes program pc w) (at_modes modes program (pc + code_size code) u) put }
    ensures ends { (modes : Modes) (program : Memory) (code : List Instr) (pc : ℕ) (w : Work) (put : Outputs) (ending : Ending) → FitModes modes (code_minds_modes code) → CodeAt program pc code → (at : EndsAtInput code w put ending)
        → (t : State) × Leads (length at.front) (at_modes modes program pc w) t put × (step t ≡ Over ending) }
    ensures part { (modes : Modes) (program : Memory) (code : List Instr) (pc : ℕ) (w : Work) (put : Outputs) → FitModes modes (code_minds_modes code) → CodeAt program pc code → (at : RunsInPart code w put)
        → (t : State) × Leads (length at.front) (at_modes modes program pc w) t put }
    ensures branch { (modes : Modes) (program : Memory) (pc : ℕ) (w : Work) (op : JumpOp) (to : ℕ) (i : Indirect) → StandsAt program pc (Branch op to i) → (is_taken op w.acc ≡ false → pc + 2 < 65536)
        → Leads 1 (at_modes modes program pc w) (at_modes modes program (branch_target op w.acc to (pc + 2)) (behind_operand (Through i) w)) [] }
    ensures call { (modes : Modes) (program : Memory) (pc : ℕ) (w : Work) (to : ℕ) (i : Indirect) → StandsAt program pc (Call to i) → length w.stack < 8 → pc + 2 < 65536
        → Leads 1 (at_modes modes program pc w) (at_modes modes program to (behind_operand (Through i) (record w { stack = (pc + 2) ∷ w.stack }))) [] }
    ensures back { (modes : Modes) (program : Memory) (pc : ℕ) (w : Work) → StandsAt program pc Ret → NonEmpty w.stack
        → Leads 1 (at_modes modes program pc w) (at_modes modes program (first_of w.stack) (record w { stack = rest_of w.stack })) [] }
    ensures end { (modes : Modes) (program : Memory) (pc : ℕ) (w : Work) → StandsAt program pc Idle → step (at_modes modes program pc w) ≡ Over (Returned (wrap16 w.acc)) }
{}

/// Jumps, calls and returns lead from a calm state to a calm state in one step, and IDLE ends there.
pub fn jumps_lead()
    ensures branch { (program : Memory) (pc : ℕ) (w : Work) (op : JumpOp) (to : ℕ) (i : Indirect) → StandsAt program pc (Branch op to i) → (is_taken op w.acc ≡ false → pc + 2 < 65536)
        → Leads 1 (calm program pc w) (calm program (branch_target op w.acc to (pc + 2)) (behind_operand (Through i) w)) [] }
    ensures call { (program : Memory) (pc : ℕ) (w : Work) (to : ℕ) (i : Indirect) → StandsAt program pc (Call to i) → length w.stack < 8 → pc + 2 < 65536
        → Leads 1 (calm program pc w) (calm program to (behind_operand (Through i) (record w { stack = (pc + 2) ∷ w.stack }))) [] }
    ensures back { (program : Memory) (pc : ℕ) (w : Work) → StandsAt program pc Ret → NonEmpty w.stack
        → Leads 1 (calm program pc w) (calm program (first_of w.stack) (record w { stack = rest_of w.stack })) [] }
    ensures end { (program : Memory) (pc : ℕ) (w : Work) → StandsAt program pc Idle → step (calm program pc w) ≡ Over (Returned (wrap16 w.acc)) }
    // ROVM and SPM make each state calm where no repeat is pending.
    ensures calms { (s : State) → s.repeats ≡ None → CodeAt s.program s.pc (Rovm ∷ Spm ∷ []) → s.pc + 2 < 65536 → Leads 2 s (calm s.program (s.pc + 1 + 1) (work_of s)) [] }
{}

/// On the way of straight code, data memory is accessed only as the instructions may, and on that of jumps, calls and returns it isn't.
pub fn code_leads_within()
    ensures straight { (may : DataAccess → Bool) (program : Memory) (code : List Instr) (pc : ℕ) (w u : Work) (put : Outputs) → CodeAt program pc code → CodeRuns code w u put → CodeMay may code w → pc + code_size code < 65536
        → LeadsWithin (Accesses may) (length code) (calm program pc w) (calm program (pc + code_size code) u) put }
    ensures taken { (may : DataAccess → Bool) (program : Memory) (pc : ℕ) (op : JumpOp) (to : ℕ) (w : Work) → StandsAt program pc (Branch op to no_change) → is_taken op w.acc ≡ true → LeadsWithin (Accesses may) 1 (calm program pc w) (calm program to w) [] }
    ensures passed { (may : DataAccess → Bool) (program : Memory) (pc : ℕ) (op : JumpOp) (to : ℕ) (w : Work) → StandsAt program pc (Branch op to no_change) → pc + 2 < 65536 → is_taken op w.acc ≡ false
        → LeadsWithin (Accesses may) 1 (calm program pc w) (calm program (pc + 2) w) [] }
    ensures call { (may : DataAccess → Bool) (program : Memory) (pc to : ℕ) (w : Work) → StandsAt program pc (Call to no_change) → length w.stack < 8 → pc + 2 < 65536
        → LeadsWithin (Accesses may) 1 (calm program pc w) (calm program to (record w { stack = (pc + 2) ∷ w.stack })) [] }
    ensures back { (may : DataAccess → Bool) (program : Memory) (pc : ℕ) (w : Work) → StandsAt program pc Ret → NonEmpty w.stack
        → LeadsWithin (Accesses may) 1 (calm program pc w) (calm program (first_of w.stack) (record w { stack = rest_of w.stack })) [] }
    // An instruction that is repeated accesses data memory as it would once, so many times.
    ensures again { (may : DataAccess → Bool) (program : Memory) (pc times : ℕ) (i : Instr) (w : Work) → CodeAt program pc (Rptk times ∷ i ∷ []) → can_repeat i ≡ true → RepeatsReady (suc times) i w → RepeatsMay may (suc times) i w → pc + 2 < 65536
        → LeadsWithin (Accesses may) (times + 2) (calm program pc w) (calm program (pc + 2) (behind_repeats (suc times) i w)) [] }
    // One way stands behind another.
    ensures on { (may : DataAccess → Bool) (n m : ℕ) (s t u : State) (p q : Outputs) → LeadsWithin (Accesses may) n s t p → LeadsWithin (Accesses may) m t u q → LeadsWithin (Accesses may) (n + m) s u (p ++ q) }
{}

/// Pieces whose instructions stand in program memory each at its address stand there with their marks at their addresses.
pub fn linked_pieces_stand()
    ensures pieces { (program : Memory) (place : ℕ → ℕ) (all : List Piece) → EachIsInMemory program (address_of place all) place all → AllStand program place all }
    // So do those of an image at a reset.
    ensures image { (b : Start) (all : List Piece) (image : Contents) → (linked : Linked all image) → BeginsWith image.words b
        → PiecesFit all → length image.words ≤ 65536 → AllStand b.program linked.place all }
{}

/// A run agrees where another one does that keeps it, part by part; a limit of steps may be widened.
pub fn agreement_composes()
    ensures ends { (most : ℕ → ℕ) (run other : Outcomes) (machine : Steps) → Keeps run other → EndsAlike (at_most most) other machine → EndsAlike (at_most most) run machine }
    ensures goes_on { (run other : Outcomes) (machine : Steps) → Keeps run other → GoesOnAlike other machine → GoesOnAlike run machine }
    // The other run may end or go on there.
    ensures undefined { (run other : Outcomes) (machine : Steps) → Keeps run other → AgreesAt other machine → PutsBefore run machine }
    ensures all { (run other : Outcomes) (machine : Steps) → Keeps run other → AgreesAt other machine → AgreesAt run machine }
    ensures everywhere { (run other : SourceRuns) (words : List ℕ) → ((input : Input) → IsInput input → Keeps (run input) (other input)) → Agrees other words → Agrees run words }
    ensures wider { (few most : ℕ → ℕ) (run : Outcomes) (machine : Steps) → ((n : ℕ) (outs : Outputs) (ending : Ending) → run n ≡ source.Ended outs ending → few n ≤ most n) → EndsAlike (at_most few) run machine → EndsAlike (at_most most) run machine }
    ensures any { (most : ℕ → ℕ) (run : Outcomes) (machine : Steps) → EndsAlike (at_most most) run machine → EndsAlike any_number run machine }
{}

/// What ended, or what a trap stopped, is so at every greater number of steps.
pub fn stopped_runs_stay()
    ensures stays { (b : Start) (input : Input) (fewer more : ℕ) → fewer ≤ more → HasStopped (machine_run b input fewer) → machine_run b input more ≡ machine_run b input fewer }
{}
