//! Code that grows, and what may be wanting for it.
use acc_code::AccItem;
use word_base::NoMemory;

/// A list of items that more are appended to.
pub(crate) type Code = Vec<AccItem>;

/// What needs memory, and nothing else that may be wanting.
pub(crate) type Result<T> = std::result::Result<T, NoMemory>;
