// The inputs that request P9 looks at, by document 01's names, and its own.
pub const LOAD_START: u32 = 13;

pub const LOAD_DONE: u32 = 14;

pub const UNLOAD_START: u32 = 24;

pub const CONTINUE: u32 = 36;
