//! Accesses of data memory.

/// An access: its address is listed; or none is, since there is no access, or it goes through another register; or the address isn't
/// known.
#[derive(Clone, Copy)]
pub(crate) enum Access {
    Listed(u16),
    Unlisted,
    Unknown,
}
