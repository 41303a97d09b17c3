//! Laws of typed programs.
ghost use Rattle.std.specs.Prelude.{◌≡◌, All};
ghost use Rattle.word_base.specs.Name.{IsName};
ghost use Rattle.c_syntax.specs.Counts.{IsWithinLimits};
ghost use Rattle.c_syntax.specs.FunctionNames.{function_names};
ghost use Rattle.c_syntax.specs.SyntaxTree.{UnitTree};
ghost use Rattle.c_tree.specs.TypedTree.{ProgramTree};
ghost use Rattle.c_tree.specs.WellFormedProgram.{IsProgram};
ghost use Rattle.c_rules.specs.Checked.{IsTyped};
ghost use Rattle.c_rules.specs.Faults.{Says};
ghost use Rattle.c_rules.specs.declared.fault.TypeFault.{TypeFault};
ghost use Rattle.c_rules.specs.declared.fault.TypeFault.TheVariants as faults;

/// A source has at most one typed program.
pub fn one_typed_program()
    ensures { (unit : UnitTree) (a b : ProgramTree) → IsTyped unit a → IsTyped unit b → a ≡ b }
{}

/// A source that has a typed program has no fault: it is refused for want of memory alone.
pub fn typed_is_accepted()
    ensures { (unit : UnitTree) (program : ProgramTree) (fault : TypeFault) → IsTyped unit program → Says unit fault → fault ≡ faults.NoMemory }
{}

/// Of a source at most one fault is said, but for want of memory.
pub fn one_fault()
    ensures { (unit : UnitTree) (a b : TypeFault) → Says unit a → Says unit b → ¬ (a ≡ faults.NoMemory) → ¬ (b ≡ faults.NoMemory) → a ≡ b }
{}

/// The typed program of a source is well formed, where its functions have names and its tree is within the limits of one.
pub fn typed_is_well_formed()
    ensures { (unit : UnitTree) (program : ProgramTree) → IsTyped unit program → All IsName (function_names unit) → IsWithinLimits unit → IsProgram program }
{}
