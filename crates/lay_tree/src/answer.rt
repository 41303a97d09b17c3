//! What a search answers.
use lay_model::Arrangement;
use std::marker::Model;

/// What became of a node of the tree.
#[derive(Debug, Clone, Copy, PartialEq, Eq)]
pub enum Mark {
    /// Its children come next.
    Branched,
    /// Nothing below it costs less than what was found.
    Closed,
}

/// The marks of nodes, in the order in which they were visited: each node before its children. Contracts see the list of the marks.
#[derive(Debug, Drop)]
pub struct Log {
    pub marks: Vec<Mark>,
}

impl Model for Log {
    ghost use Rattle.std.specs.Prelude.{List};
    ghost use Rattle.lay_tree.specs.declared.answer.Mark.{Mark};

    ghost Value = { List Mark };

    ghost view = { λ l. l.marks.items };
}

/// The end of a piece of a search: the layout that is best by then with its cost, whether no node is left, and the marks of the piece.
#[derive(Debug, Drop)]
pub struct PieceEnd {
    pub arrangement: Arrangement,
    pub cost: u64,
    pub finished: bool,
    pub log: Log,
}

/// What a search found.
#[derive(Debug, Drop)]
pub enum Answer {
    /// A layout that costs least, and the log that shows it.
    Certified {
        arrangement: Arrangement,
        cost: u64,
        log: Log,
    },
    /// The best layout that was found, and the number, the quota and the log of the first piece that has nodes left.
    Exhausted {
        arrangement: Arrangement,
        cost: u64,
        piece: u8,
        quota: u32,
        log: Log,
    },
}
