//! Laws of costs. The functions do nothing: their clauses are what callers cite.
ghost use Rattle.std.specs.Prelude.{◌≡◌, ◌≤◌, ◌+◌, ℕ, Bool, true, false, List, [], ◌∷◌, ◌++◌, All};
ghost use Rattle.std.specs.List.{concat};
ghost use Rattle.lay_model.specs.Sequences.{Sequence, IsSequence};
ghost use Rattle.lay_cost.specs.Placements.{Placement, IsPlacement, placement_of, has};
ghost use Rattle.lay_cost.specs.Cost.{cost_of, arranged_cost, ClosesUp, IsArranged, Least, LeastArranged};
ghost use Rattle.lay_cost.specs.Parts.{part_cost_of, is_outside, StandOnce, AreMembers};
ghost use Rattle.lay_cost.specs.Restricted.{loads};
ghost use Rattle.lay_cost.specs.Weights.{weight_between, sum_of_pairs, sum_of_adjacent};

/// However the registers are numbered, a placement costs the same.
pub fn registers_are_alike()
    ensures { (seq : Sequence) (p : Placement) (number : ℕ → ℕ) → ((r s : ℕ) → number r ≡ number s → r ≡ s) → cost_of seq (record p { register = λ s. number (p.register s) }) ≡ cost_of seq p }
{}

/// At a step above 1 no placement costs more than at a step of 1.
pub fn a_step_costs_no_more()
    ensures { (seq : Sequence) (p : Placement) → cost_of seq p ≤ cost_of (record seq { step = 1 }) p }
{}

/// For each placement there are lists that cost no more, and lists are a placement themselves. So the best placement costs what the
/// best lists cost.
pub fn placements_close_up()
    ensures closes { (seq : Sequence) (k : ℕ) (p : Placement) → IsSequence seq → IsPlacement seq k p → ClosesUp seq k p }
    ensures lists { (seq : Sequence) (k : ℕ) (lists : List (List ℕ)) → IsArranged seq k lists → IsPlacement seq k (placement_of lists) }
    ensures least { (seq : Sequence) (k c : ℕ) → IsSequence seq → Least seq k c → LeastArranged seq k c }
    ensures least_lists { (seq : Sequence) (k c : ℕ) → IsSequence seq → LeastArranged seq k c → Least seq k c }
{}

/// At any step all lists cost what the first ones do over the accesses of their own scalars, and one load more for each block that
/// holds another scalar, or more.
pub fn others_load()
    ensures { (seq : Sequence) (closed more : List (List ℕ)) → part_cost_of seq closed + loads seq (is_outside closed) ≤ arranged_cost seq (closed ++ more) }
{}

/// At a step of 1 lists of different scalars cost what they cost by themselves, each over the accesses of its own scalars.
pub fn lists_add_up()
    ensures { (seq : Sequence) (front back : List (List ℕ)) → seq.step ≡ 1 → StandOnce (concat (front ++ back)) → part_cost_of seq (front ++ back) ≡ part_cost_of seq front + part_cost_of seq back }
{}

/// At a step of 1 a list costs its loads and the weights of each two of its scalars, but not of those that lie beside one another in it.
/// And where it is the last of lists of all scalars, these cost that and what the others cost.
pub fn a_list_costs_its_pairs()
    ensures alone { (seq : Sequence) (list members : List ℕ) → seq.step ≡ 1 → AreMembers list members → part_cost_of seq (list ∷ []) + sum_of_adjacent (weight_between seq (has list)) list ≡ loads seq (has list) + sum_of_pairs (weight_between seq (has list)) members }
    ensures last { (seq : Sequence) (closed : List (List ℕ)) (list members : List ℕ) → seq.step ≡ 1 → StandOnce (concat (closed ++ (list ∷ []))) → All (λ b. All (λ s. has (concat (closed ++ (list ∷ []))) s ≡ true) b.accesses) seq.blocks → AreMembers list members → arranged_cost seq (closed ++ (list ∷ [])) + sum_of_adjacent (weight_between seq (is_outside closed)) list ≡ part_cost_of seq closed + (loads seq (is_outside closed) + sum_of_pairs (weight_between seq (is_outside closed)) members) }
{}

/// The weight of two scalars is the same in either order. It is 0 for a scalar and itself, and where one isn't in the set.
pub fn weights_are_of_pairs()
    ensures turned { (seq : Sequence) (set : ℕ → Bool) (x y : ℕ) → weight_between seq set x y ≡ weight_between seq set y x }
    ensures itself { (seq : Sequence) (set : ℕ → Bool) (x : ℕ) → weight_between seq set x x ≡ 0 }
    ensures outside { (seq : Sequence) (set : ℕ → Bool) (x y : ℕ) → set x ≡ false → weight_between seq set x y ≡ 0 }
{}
