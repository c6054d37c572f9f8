// Sums, differences, products and quotients.
// Those that look alike stay apart: one line each over `Width`, each a clause of the specification, under its name there.
ghost use Rattle.std.specs.Prelude.{◌≡◌};
ghost use Rattle.numerics.specs.Numerics as wasm;
ghost use Rattle.numerics.specs.Functions.{unary_at, binary_at, quotient_at};

use super::width::Width;

#[tactic(auto, using(crate::proofs::Modulo::sum_mod), unfolding(crate::specs::Functions::binary_at, crate::specs::Numerics::iadd))]
pub fn iadd(n: u64, a: u64, b: u64) -> u64
    ensures { result ≡ binary_at wasm.iadd n a b }
{
    Width::new(n).map_or(0, |w| w.low(a.wrapping_add(b)))
}

#[tactic(auto, using(crate::proofs::Modulo::difference_mod), unfolding(crate::specs::Functions::binary_at, crate::specs::Numerics::isub))]
pub fn isub(n: u64, a: u64, b: u64) -> u64
    ensures { result ≡ binary_at wasm.isub n a b }
{
    Width::new(n).map_or(0, |w| w.low(a.wrapping_sub(b)))
}

#[tactic(auto, using(crate::proofs::Modulo::zero_less), unfolding(crate::specs::Functions::binary_at, crate::specs::Functions::unary_at, crate::specs::Numerics::isub, crate::specs::Numerics::ineg))]
pub fn ineg(n: u64, a: u64) -> u64
    ensures { result ≡ unary_at wasm.ineg n a }
{
    isub(n, 0, a)
}

#[tactic(auto, using(crate::proofs::Modulo::product_mod), unfolding(crate::specs::Functions::binary_at, crate::specs::Numerics::imul))]
pub fn imul(n: u64, a: u64, b: u64) -> u64
    ensures { result ≡ binary_at wasm.imul n a b }
{
    Width::new(n).map_or(0, |w| w.low(a.wrapping_mul(b)))
}

#[tactic(auto, unfolding(crate::specs::Functions::quotient_at, crate::specs::Numerics::idiv_u))]
pub fn idiv_u(n: u64, a: u64, b: u64) -> Option<u64>
    ensures { result ≡ quotient_at wasm.idiv_u n a b }
{
    let w = Width::new(n)?;
    w.low(a).checked_div(w.low(b))
}

#[tactic(auto, unfolding(crate::specs::Functions::quotient_at, crate::specs::Numerics::irem_u))]
pub fn irem_u(n: u64, a: u64, b: u64) -> Option<u64>
    ensures { result ≡ quotient_at wasm.irem_u n a b }
{
    let w = Width::new(n)?;
    w.low(a).checked_rem(w.low(b))
}

// The quotient 2^(n - 1) has no signed reading.
#[tactic(auto, using(crate::proofs::Signed::quotients))]
pub fn idiv_s(n: u64, a: u64, b: u64) -> Option<u64>
    ensures { result ≡ quotient_at wasm.idiv_s n a b }
{
    let w = Width::new(n)?;
    let q = w.signed(a).checked_div(w.signed(b))?;
    if w.max() < q {
        return None;
    }
    Some(w.unsigned(q))
}

// With the dividend's sign.
#[tactic(auto, using(crate::proofs::Signed::remainders))]
pub fn irem_s(n: u64, a: u64, b: u64) -> Option<u64>
    ensures { result ≡ quotient_at wasm.irem_s n a b }
{
    let w = Width::new(n)?;
    let j = w.signed(b);
    if j == 0 {
        return None;
    }
    Some(w.unsigned(w.signed(a).wrapping_rem(j)))
}
