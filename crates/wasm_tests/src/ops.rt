// Made by tools/wasm_vectors.py; not edited by hand.
// The operations of each group of outcomes.rt; a case names group g's operation k by 16 * g + k.
pub const IADD: u64 = 0;

pub const ISUB: u64 = 1;

pub const IMUL: u64 = 2;

pub const INEG: u64 = 3;

pub const IADD_SAT_U: u64 = 4;

pub const IADD_SAT_S: u64 = 5;

pub const ISUB_SAT_U: u64 = 6;

pub const ISUB_SAT_S: u64 = 7;

pub const IDIV_U: u64 = 0;

pub const IDIV_S: u64 = 1;

pub const IREM_U: u64 = 2;

pub const IREM_S: u64 = 3;

pub const IDIV_U_TRAPS: u64 = 4;

pub const IDIV_S_TRAPS: u64 = 5;

pub const IREM_U_TRAPS: u64 = 6;

pub const IREM_S_TRAPS: u64 = 7;

pub const INOT: u64 = 0;

pub const IAND: u64 = 1;

pub const IOR: u64 = 2;

pub const IXOR: u64 = 3;

pub const ISHL: u64 = 4;

pub const ISHR_U: u64 = 5;

pub const ISHR_S: u64 = 6;

pub const IROTL: u64 = 7;

pub const IROTR: u64 = 8;

pub const ICLZ: u64 = 9;

pub const ICTZ: u64 = 10;

pub const IPOPCNT: u64 = 11;

pub const IEQZ: u64 = 0;

pub const IEQ: u64 = 1;

pub const INE: u64 = 2;

pub const ILT_U: u64 = 3;

pub const ILT_S: u64 = 4;

pub const IGT_U: u64 = 5;

pub const IGT_S: u64 = 6;

pub const ILE_U: u64 = 7;

pub const ILE_S: u64 = 8;

pub const IGE_U: u64 = 9;

pub const IGE_S: u64 = 10;

pub const WRAP: u64 = 0;

pub const EXTEND_U: u64 = 1;

pub const EXTEND_S: u64 = 2;
