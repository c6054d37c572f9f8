// Sums and differences that stop at the ends of the range.
// Those that look alike stay apart: one step each over `Width`, each a clause of the specification, under its name there.
ghost use Rattle.std.specs.Prelude.{◌≡◌};
ghost use Rattle.numerics.specs.Numerics as wasm;
ghost use Rattle.numerics.specs.Functions.{binary_at};

use super::width::Width;

#[tactic(auto, unfolding(crate::specs::Functions::binary_at, crate::specs::Numerics::iadd_sat_u, crate::specs::Numerics::sat_u))]
pub fn iadd_sat_u(n: u64, a: u64, b: u64) -> u64
    ensures { result ≡ binary_at wasm.iadd_sat_u n a b }
{
    Width::new(n).map_or(0, |w| {
        w.low(a).saturating_add(w.low(b)).min(w.all_ones())
    })
}

#[tactic(auto, unfolding(crate::specs::Functions::binary_at, crate::specs::Numerics::isub_sat_u, crate::specs::Numerics::sat_u))]
pub fn isub_sat_u(n: u64, a: u64, b: u64) -> u64
    ensures { result ≡ binary_at wasm.isub_sat_u n a b }
{
    Width::new(n).map_or(0, |w| w.low(a).saturating_sub(w.low(b)))
}

#[tactic(auto, using(crate::proofs::Signed::cut_twice, crate::proofs::Signed::passed), unfolding(crate::specs::Functions::binary_at, crate::specs::Numerics::iadd_sat_s))]
pub fn iadd_sat_s(n: u64, a: u64, b: u64) -> u64
    ensures { result ≡ binary_at wasm.iadd_sat_s n a b }
{
    Width::new(n).map_or(0, |w| w.saturated(w.signed(a).saturating_add(w.signed(b))))
}

#[tactic(auto, using(crate::proofs::Signed::cut_twice, crate::proofs::Signed::passed), unfolding(crate::specs::Functions::binary_at, crate::specs::Numerics::isub_sat_s))]
pub fn isub_sat_s(n: u64, a: u64, b: u64) -> u64
    ensures { result ≡ binary_at wasm.isub_sat_s n a b }
{
    Width::new(n).map_or(0, |w| w.saturated(w.signed(a).saturating_sub(w.signed(b))))
}
