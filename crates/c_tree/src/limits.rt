//! How large a program may be (docs/LANGUAGE.md, "Limits").

/// The most functions with bodies.
pub const MOST_FUNCTIONS: usize = 256;

/// The most parameters of a function.
pub const MOST_PARAMETERS: usize = 31;

/// The most scalars in the frame of a function, temporaries of calls among them.
pub const MOST_FRAME_SCALARS: usize = 64;

/// The most `case` labels of a switch.
pub const MOST_CASES: usize = 256;

/// The most objects in memory.
pub const MOST_OBJECTS: usize = 400_000;

/// The most cells of an object.
pub const MOST_CELLS: u16 = 32_767;
