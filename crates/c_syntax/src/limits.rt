//! How large a source may be (docs/LANGUAGE.md, "Limits").

/// The most tokens of a source, and so the most externals, parameters and stars of its tree.
pub const MOST_TOKENS: usize = 200_000;

/// The greatest height of the tree of a source.
pub const GREATEST_HEIGHT: u32 = 200;

/// The most expressions, statements and declared items of the tree of a source.
pub const MOST_NODES: usize = 400_000;
