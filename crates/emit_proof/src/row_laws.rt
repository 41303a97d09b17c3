//! Laws of rows. Each call does nothing: its clauses are what crates above cite.
ghost use Rattle.std.specs.Prelude.{◌≡◌, ◌<◌, ℕ, Bool, false, length, Some};
ghost use Rattle.c25_isa.specs.declared.operand.Operand.{Operand};
ghost use Rattle.c25_code.specs.Straight.{InRam, InstrReady, behind_instr, operand_word};
ghost use Rattle.c25_code.specs.Work.{InRange, Work};
ghost use Rattle.acc_code.specs.declared.operation.AccOp.{AccOp};
ghost use Rattle.acc_code.specs.declared.operation.AccOp.TheVariants as row;
ghost use Rattle.ir_semantics.specs.AccRows.{Registers, acted};
ghost use Rattle.emit_blocks.specs.Instructions.{constant_instr, word_instr};
ghost use Rattle.emit_proof.specs.Accessing.{site_may};
ghost use Rattle.emit_proof.specs.Code.{RunsMeet};
ghost use Rattle.emit_proof.specs.Registers.{RegistersAlike};
ghost use Rattle.emit_proof.specs.Rows.{WorksOnConstant, WorksOnWord};
ghost use Rattle.emit_proof.specs.Sites.{Site, IsSite};
ghost use Rattle.emit_proof.specs.Standing.{scalar_address, parameter_address};

/// What an operation makes of registers that are known in part is so of the machine's registers behind its row, whatever the operand's address.
pub fn rows_do_operations()
    ensures on_words { (o : AccOp) (m : Operand) (x : ℕ) (r s : Registers) (w : Work) → WorksOnWord o → InRange w → operand_word w m ≡ x → RegistersAlike r w → acted o x r ≡ Some s
        → RegistersAlike s (behind_instr (word_instr o m) w) }
    ensures on_constants { (o : AccOp) (x : ℕ) (r s : Registers) (w : Work) → WorksOnConstant o → InRange w → x < 65536 → RegistersAlike r w → acted o x r ≡ Some s
        → RegistersAlike s (behind_instr (constant_instr o x) w) }
    // A load of AR1 leaves them, whether or not the accumulator is known.
    ensures on_pointers { (m : Operand) (r : Registers) (w : Work) → RegistersAlike r w → RegistersAlike r (behind_instr (word_instr row.Point m) w) }
    ensures on_addresses { (x : ℕ) (r : Registers) (w : Work) → RegistersAlike r w → RegistersAlike r (behind_instr (constant_instr row.Point x) w) }
    // So does what changes none of them.
    ensures elsewhere { (r : Registers) (w u : Work) → u.acc ≡ w.acc → u.t ≡ w.t → u.p ≡ w.p → u.sxm ≡ w.sxm → RegistersAlike r w → RegistersAlike r u }
    // A row is ready where its operand lies in RAM.
    ensures words_ready { (o : AccOp) (m : Operand) (w : Work) → WorksOnWord o → InRam m w → InstrReady (word_instr o m) w }
    ensures constants_ready { (o : AccOp) (x : ℕ) (w : Work) → WorksOnConstant o → InstrReady (constant_instr o x) w }
{}

/// The instructions of a run of operations do what these do: as a whole, up to an input of a port that has no word left, or in part. Through an address
/// register they access a scalar of the function, in the list of this register, or through AR1 a word of an object that lives.
pub fn runs_do_operations()
    ensures meet { (k : Site) → IsSite k → RunsMeet k }
    // So through AR1 they access no scalar,
    ensures scalars { (k : Site) (n : ℕ) (stores : Bool) → IsSite k → n < length k.places.scalars → site_may k (record { address = scalar_address k.places n; through = Some 1; stores = stores }) ≡ false }
    // and through no register a word that the function's callers keep, or a parameter of another function.
    ensures callers { (k : Site) (a x register : ℕ) (stores : Bool) → IsSite k → k.kept a ≡ Some x → site_may k (record { address = a; through = Some register; stores = stores }) ≡ false }
    ensures parameters { (k : Site) (f i register : ℕ) (stores : Bool) → IsSite k → i < k.counts f → site_may k (record { address = parameter_address k.places f i; through = Some register; stores = stores }) ≡ false }
{}
