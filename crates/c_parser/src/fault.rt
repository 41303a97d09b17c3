//! Why tokens have no tree.
use thiserror::Error;

/// Why tokens have no tree.
#[derive(Clone, Copy, Debug, PartialEq, Eq, Error)]
pub enum ParseFault {
    /// The tokens derive no tree of height at most 200. The place, in bytes of the source, is that of the first token with
    /// which none can go on; or the end of the last token where all fit and more is wanted, 0 where there is none.
    #[error("the tokens are no source")]
    Syntax { at: u32 },
    #[error("memory was wanting for the tree")]
    NoMemory,
}
