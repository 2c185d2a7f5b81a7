//! The layout of memory: the addresses at which its parts begin.

/// The address at which the image begins: code first, then constants.
pub const IMAGE: u64 = 0x1_0000;

/// The address at which the data begin, which a program reads besides its image.
pub const DATA: u64 = 0x2000_0000;

/// The address at which the state begins. The stack ends here.
pub const STATE: u64 = 0x4000_0000;

/// How many bytes the stack has.
pub const STACK: usize = 1_024;

/// The address at which a program ends. No memory is there.
pub const RETURN: u64 = 0xffff_fffc;
