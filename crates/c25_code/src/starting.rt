//! Startups as laws: items with marks that lead on wherever they stand, loops that clear words among them, and where a startup of such items
//! arrives from a reset. The calls do nothing.
ghost use Rattle.std.specs.Prelude.{◌≡◌, ℕ, ◌≤◌, List, [], ◌∷◌};
ghost use Rattle.word_base.specs.Ports.{Input};
ghost use Rattle.c25_isa.specs.declared.piece.PieceItem.{PieceItem};
ghost use Rattle.c25_isa.specs.MachineRun.{reset};
ghost use Rattle.c25_isa.specs.Pieces.{Piece, items_size, ItemsAt};
ghost use Rattle.c25_isa.specs.State.{Memory, Start};
ghost use Rattle.c25_code.specs.Work.{Work, work_of};
ghost use Rattle.c25_code.specs.ItemRuns.{ItemsRun};
ghost use Rattle.c25_code.specs.Links.{MarksDiffer, MarksAreFit, PieceIsFit, address_of, marks_of, AllStand};
ghost use Rattle.c25_code.specs.Startups.{startup_items};
ghost use Rattle.c25_code.specs.Startups.{StartupArrives};

/// A startup whose items lead on arrives at its call, with what programs ask of it: where they arrive comes of their sizes.
pub fn startups_arrive()
    ensures arrives { (b : Start) (input : Input) (marks : ℕ → ℕ) (names : List ℕ → ℕ) (init : List PieceItem) (main : List ℕ) (steps : ℕ) (work : Work)
        → ItemsAt b.program marks names 0 (startup_items init main) → items_size (startup_items init main) ≤ 65536
        → ItemsRun init steps (work_of (reset b input)) work [] → StartupArrives b input (names main) steps work }
    // The first of pieces that stand has its items at its address, 0.
    ensures first { (program : Memory) (place : ℕ → ℕ) (p : Piece) (rest : List Piece) → place 0 ≡ 0 → PieceIsFit p → AllStand program place (p ∷ rest)
        → ItemsAt program (marks_of place (p ∷ rest) p.name) (address_of place (p ∷ rest)) 0 p.items × (items_size p.items ≤ 65536) }
    // A startup's marks are fit where they differ.
    ensures marks { (init : List PieceItem) (main : List ℕ) → MarksDiffer init → MarksAreFit (startup_items init main) }
{}
