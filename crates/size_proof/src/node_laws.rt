//! The law of nodes. The call does nothing: its clause is what crates above cite.
ghost use Rattle.std.specs.Prelude.{◌≤◌, ◌*◌};
ghost use Rattle.c_syntax.specs.Counts.{unit_count};
ghost use Rattle.c_syntax.specs.SyntaxTree.{UnitTree};
ghost use Rattle.c_tree.specs.TypedTree.{ProgramTree};
ghost use Rattle.c_rules.specs.Checked.{IsTyped};
ghost use Rattle.ir_semantics.specs.SourceWeights.{source_weight};

/// The typed program of a source weighs at most 64 for each of its nodes that counts: an expression, a statement, a declared item.
pub fn programs_weigh_by_nodes()
    ensures { (unit : UnitTree) (program : ProgramTree) → IsTyped unit program → source_weight program ≤ 64 * unit_count unit }
{}
