//! The limits of an input.

/// The greatest number of bytes of an input.
pub const MOST_BYTES: u32 = 67_108_864;

/// The greatest number of reads of an input.
pub(crate) const READ_TURNS: u32 = 134_217_728;
