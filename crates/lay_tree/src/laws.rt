//! The laws of the search. Each function does nothing: its clause is what callers cite.
ghost use Rattle.std.specs.Prelude.{◌≡◌, ◌⊎◌, ◌≤◌, ℕ, true, ◌≤ℤ◌, pos, List, [], ◌∷◌};
ghost use Rattle.lay_model.specs.Sequences.{Sequence, IsSequence};
ghost use Rattle.lay_cost.specs.Cost.{arranged_cost, IsArranged, Least};
ghost use Rattle.lay_cost.specs.Parts.{Node, node_lists};
ghost use Rattle.lay_tree.specs.declared.answer.Mark.{Mark};
ghost use Rattle.lay_tree.specs.declared.answer.Answer.TheVariants.{Certified, Exhausted};
ghost use Rattle.lay_tree.specs.Tree.{root, all_scalars, is_complete, IsBelow};
ghost use Rattle.lay_tree.specs.Bound.{bound};
ghost use Rattle.lay_tree.specs.Greedy.{starting_lists};
ghost use Rattle.lay_tree.specs.Search.{search_answer, answer_lists, answer_cost, is_certified};
ghost use Rattle.lay_tree.specs.Marked.{HasFewNodes, IsUnfinished};
ghost use Rattle.lay_tree.specs.Replays.{Replays};

/// The bound of a node is at most what each complete node below it costs, at every step and over any number of registers.
pub fn bounds_hold()
    ensures { (k : ℕ) (seq : Sequence) (n m : Node) → IsSequence seq → IsBelow k seq n m → is_complete seq m ≡ true → bound k seq n ≤ℤ pos (arranged_cost seq (node_lists m)) }
{}

/// Where a log fits the tree for a number, no arrangement in at most k lists costs less. Where one costs that much, no placement over k registers costs less.
pub fn logs_show_least()
    ensures lists { (k : ℕ) (seq : Sequence) (c : ℕ) (marks : List Mark) (lists : List (List ℕ)) → IsSequence seq → Replays k seq c marks → IsArranged seq k lists → c ≤ arranged_cost seq lists }
    ensures least { (k : ℕ) (seq : Sequence) (c : ℕ) (marks : List Mark) (lists : List (List ℕ)) → IsSequence seq → Replays k seq c marks → IsArranged seq k lists → arranged_cost seq lists ≡ c → Least seq k c }
{
    lay_cost::placements_close_up();
}

/// The log of a certified answer fits the tree for its cost.
pub fn certified_logs_replay()
    ensures { (k : ℕ) (seq : Sequence) (budget : ℕ) (lists : List (List ℕ)) (cost : ℕ) (log : List Mark) → IsSequence seq → search_answer k seq budget ≡ Certified lists cost log → Replays k seq cost log }
{}

/// Certified or not, an answer says what its layout costs. That is at most what the starting layout costs, and so at most what all scalars in rising order on one
/// register cost.
pub fn answers_cost_little()
    ensures says { (k : ℕ) (seq : Sequence) (budget : ℕ) → answer_cost (search_answer k seq budget) ≡ arranged_cost seq (answer_lists (search_answer k seq budget)) }
    ensures start { (k : ℕ) (seq : Sequence) (budget : ℕ) → answer_cost (search_answer k seq budget) ≤ arranged_cost seq (starting_lists k seq) }
    ensures rising { (k : ℕ) (seq : Sequence) (budget : ℕ) → answer_cost (search_answer k seq budget) ≤ arranged_cost seq (all_scalars seq ∷ []) }
{}

/// The layout of an answer is an arrangement of the scalars in at most k lists, and so is the starting layout.
pub fn answers_arrange()
    ensures answer { (k : ℕ) (seq : Sequence) (budget : ℕ) → IsSequence seq → 1 ≤ k → IsArranged seq k (answer_lists (search_answer k seq budget)) }
    ensures start { (k : ℕ) (seq : Sequence) → IsSequence seq → 1 ≤ k → IsArranged seq k (starting_lists k seq) }
{}

/// No placement over k registers costs less than a certified answer.
pub fn certified_answers_are_least()
    ensures { (k : ℕ) (seq : Sequence) (budget : ℕ) (lists : List (List ℕ)) (cost : ℕ) (log : List Mark) → IsSequence seq → 1 ≤ k → search_answer k seq budget ≡ Certified lists cost log → Least seq k cost }
{
    lay_cost::placements_close_up();
}

/// A search over at most eight scalars on one register, or at most six on up to four, is certified within a budget of 200,000. The tree
/// of the former has at most 109,601 nodes, and that of the latter at most 43,933; each piece has at most 13,700 and 7,322.
pub fn small_searches_end()
    ensures one_register { (k : ℕ) (seq : Sequence) → seq.scalars ≤ 8 → k ≤ 1 → HasFewNodes k seq 109601 13700 }
    ensures registers { (k : ℕ) (seq : Sequence) → seq.scalars ≤ 6 → k ≤ 4 → HasFewNodes k seq 43933 7322 }
    ensures certified { (k : ℕ) (seq : Sequence) (budget : ℕ) → 200000 ≤ budget → ((seq.scalars ≤ 8) × (k ≤ 1)) ⊎ ((seq.scalars ≤ 6) × (k ≤ 4)) → is_certified (search_answer k seq budget) ≡ true }
{}

/// An exhausted answer has the number of a piece, and all marks that this piece might write. Each mark is for a node of the piece, and
/// the bound of each branched node is below what the starting layout costs.
pub fn exhausted_answers_are_full()
    ensures { (k : ℕ) (seq : Sequence) (budget : ℕ) (lists : List (List ℕ)) (cost piece quota : ℕ) (log : List Mark) → search_answer k seq budget ≡ Exhausted lists cost piece quota log → IsUnfinished k seq budget piece quota log }
{}
