//! How a search ends.
ghost use Rattle.std.specs.Prelude.{◌≡◌, ◌≤◌, length, [], ◌∷◌, IfOk};
ghost use Rattle.lay_tree.specs.declared.answer.Mark.TheVariants.{Branched};
ghost use Rattle.lay_search.specs.declared.closing.Outcome.TheVariants.{Unfinished};
ghost use Rattle.lay_search.specs.Openings.{outcome_of, answer_by};

use lay_model::Arrangement;
use lay_tree::{Answer, Log, Mark, PieceEnd};
use std::alloc::Global;
use word_base::NoMemory;

/// What the ends of all pieces show.
#[derive(Drop)]
pub(crate) enum Outcome {
    /// The marks of the root and of all pieces.
    AllFinished(Log),
    /// The first piece that has nodes left, and its marks.
    Unfinished { piece: u8, log: Log },
}

/// The answer that the ends of all pieces in order make, with the best arrangement behind them.
pub fn close_search(
    alloc: Global,
    quota: u32,
    arrangement: Arrangement,
    cost: u64,
    ends: &[PieceEnd],
) -> Result<Answer, NoMemory>
    requires { length ends.now ≤ 64 }
    ensures { IfOk result (λ answer. answer ≡ answer_by quota arrangement cost (outcome_of (Branched ∷ []) 0 ends.now)) }
{
    match read_ends(alloc, ends)? {
        Outcome::AllFinished(log) => Ok(Answer::Certified {
            arrangement,
            cost,
            log,
        }),
        Outcome::Unfinished { piece, log } => Ok(Answer::Exhausted {
            arrangement,
            cost,
            piece,
            quota,
            log,
        }),
    }
}

fn read_ends(alloc: Global, ends: &[PieceEnd]) -> Result<Outcome, NoMemory>
    requires { length ends.now ≤ 64 }
    ensures { IfOk result (λ found. found ≡ outcome_of (Branched ∷ []) 0 ends.now) }
{
    let mut marks = Vec::new(alloc);
    marks.push(Mark::Branched)?;
    let mut piece = 0;
    for end in ends {
        if !end.finished {
            return unfinished(alloc, piece, &end.log.marks);
        }
        marks.extend_from_slice(&end.log.marks)?;
        piece += 1;
    }
    Ok(Outcome::AllFinished(Log { marks }))
}

fn unfinished(alloc: Global, piece: u8, marks: &[Mark]) -> Result<Outcome, NoMemory>
    ensures { IfOk result (λ found. found ≡ Unfinished piece marks.now) }
{
    Ok(Outcome::Unfinished {
        piece,
        log: Log {
            marks: marks.to_vec(alloc)?,
        },
    })
}
