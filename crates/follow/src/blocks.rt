// A tool's blocks: document 01's, and what requests add.
pub const BLOCKS: usize = 2;
