// Conversions from width m to width n. Widths outside 1 to 64, or in the wrong order, are answered by 0.
// `wrap` and `extend_u` look alike and stay apart: one line each over `Width`, each a clause of the specification, under its name there.
ghost use Rattle.std.specs.Prelude.{◌≡◌};
ghost use Rattle.numerics.specs.Numerics as wasm;
ghost use Rattle.numerics.specs.Functions.{narrowing_at, widening_at};

use super::width::Width;

#[tactic(auto, using(crate::proofs::Modulo::narrowed), unfolding(crate::specs::Functions::narrowing_at, crate::specs::Numerics::wrap))]
pub fn wrap(m: u64, n: u64, a: u64) -> u64
    ensures { result ≡ narrowing_at wasm.wrap m n a }
{
    Width::pair(n, m).map_or(0, |(narrow, _)| narrow.low(a))
}

#[tactic(auto, unfolding(crate::specs::Functions::widening_at, crate::specs::Numerics::extend_u))]
pub fn extend_u(m: u64, n: u64, a: u64) -> u64
    ensures { result ≡ widening_at wasm.extend_u m n a }
{
    Width::pair(m, n).map_or(0, |(narrow, _)| narrow.low(a))
}

#[tactic(auto, unfolding(crate::specs::Functions::widening_at, crate::specs::Numerics::extend_s))]
pub fn extend_s(m: u64, n: u64, a: u64) -> u64
    ensures { result ≡ widening_at wasm.extend_s m n a }
{
    Width::pair(m, n).map_or(0, |(narrow, wide)| wide.unsigned(narrow.signed(a)))
}
