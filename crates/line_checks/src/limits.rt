// A ticket's limits, named as in the definitions (crates/spec/specs/Limits.antt), and the words that are enough for every ticket.

// 1: bytes of a text.
pub const TEXT_LIMIT: usize = 65536;

// 8: lines of a kind.
pub const TYPE_LINES: u64 = 256;

pub const STORAGE_LINES: u64 = 256;

pub const VARIABLE_LINES: u64 = 64;

pub const STATIC_LINES: u64 = 64;

pub const PLACE_LINES: u64 = 1024;

pub const NODE_LINES: u64 = 1024;

// 6: a type's bytes and weight.
pub const TYPE_SIZE_LIMIT: u64 = 1024;

pub const TYPE_WEIGHT_LIMIT: u64 = 4096;

// 9: depth of places and nodes, and of types.
pub const DEPTH_LIMIT: u64 = 64;

pub const TYPE_DEPTH_LIMIT: u64 = 16;

// 10: the sums over nodes of their types' sizes and weights.
pub const SIZE_SUM_LIMIT: u64 = 8192;

pub const WEIGHT_SUM_LIMIT: u64 = 8192;

// Rows: 40 words for a line of each kind, with those for keys, and a line more than the kind that may have the most.
pub const ROWS_LENGTH: usize = (NODE_LINES as usize + 1) * 40;

// Rows that have words for keys: only types have them.
pub const KEY_LINES: usize = TYPE_LINES as usize;

// Numbers of lines: two bytes of text have one at most.
pub const LISTS_LENGTH: usize = TEXT_LIMIT / 2;

// Records of the nodes' values: eight words each.
pub const STACK_LENGTH: usize = WEIGHT_SUM_LIMIT as usize * 8;

// A mark for each storage.
pub const MARKS_LENGTH: usize = STORAGE_LINES as usize;
