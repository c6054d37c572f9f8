// The integer operations of the WebAssembly Core Specification, chapter Numerics, at a width n from 1 to 64.
// Operands are read modulo 2^n. At any other width the answer is 0, or None.
#![tactic(auto)]

mod arithmetic;
mod bits;
mod compare;
mod convert;
mod saturate;
mod width;

pub use arithmetic::{iadd, idiv_s, idiv_u, imul, ineg, irem_s, irem_u, isub};
pub use bits::{iand, iclz, ictz, inot, ior, ipopcnt, irotl, irotr, ishl, ishr_s, ishr_u, ixor};
pub use compare::{ieq, ieqz, ige_s, ige_u, igt_s, igt_u, ile_s, ile_u, ilt_s, ilt_u, ine};
pub use convert::{extend_s, extend_u, wrap};
pub use saturate::{iadd_sat_s, iadd_sat_u, isub_sat_s, isub_sat_u};
