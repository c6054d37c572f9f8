// Tests and comparisons: 1 if it holds, 0 if not.
// Those that look alike stay apart: one line each over `Width`, each a clause of the specification, under its name there.
ghost use Rattle.std.specs.Prelude.{◌≡◌};
ghost use Rattle.numerics.specs.Numerics as wasm;
ghost use Rattle.numerics.specs.Functions.{unary_at, binary_at};

use super::width::Width;

#[tactic(auto, unfolding(crate::specs::Functions::unary_at, crate::specs::Numerics::ieqz))]
pub fn ieqz(n: u64, a: u64) -> u64
    ensures { result ≡ unary_at wasm.ieqz n a }
{
    Width::new(n).map_or(0, |w| u64::from(w.low(a) == 0))
}

#[tactic(auto, unfolding(crate::specs::Functions::binary_at, crate::specs::Numerics::ieq))]
pub fn ieq(n: u64, a: u64, b: u64) -> u64
    ensures { result ≡ binary_at wasm.ieq n a b }
{
    Width::new(n).map_or(0, |w| u64::from(w.low(a) == w.low(b)))
}

#[tactic(auto, unfolding(crate::specs::Functions::binary_at, crate::specs::Numerics::ine))]
pub fn ine(n: u64, a: u64, b: u64) -> u64
    ensures { result ≡ binary_at wasm.ine n a b }
{
    Width::new(n).map_or(0, |w| u64::from(w.low(a) != w.low(b)))
}

#[tactic(auto, unfolding(crate::specs::Functions::binary_at, crate::specs::Numerics::ilt_u))]
pub fn ilt_u(n: u64, a: u64, b: u64) -> u64
    ensures { result ≡ binary_at wasm.ilt_u n a b }
{
    Width::new(n).map_or(0, |w| u64::from(w.low(a) < w.low(b)))
}

#[tactic(auto, unfolding(crate::specs::Functions::binary_at, crate::specs::Numerics::ile_u))]
pub fn ile_u(n: u64, a: u64, b: u64) -> u64
    ensures { result ≡ binary_at wasm.ile_u n a b }
{
    Width::new(n).map_or(0, |w| u64::from(w.low(a) <= w.low(b)))
}

#[tactic(auto, unfolding(crate::specs::Functions::binary_at, crate::specs::Numerics::ilt_s))]
pub fn ilt_s(n: u64, a: u64, b: u64) -> u64
    ensures { result ≡ binary_at wasm.ilt_s n a b }
{
    Width::new(n).map_or(0, |w| u64::from(w.signed(a) < w.signed(b)))
}

#[tactic(auto, unfolding(crate::specs::Functions::binary_at, crate::specs::Numerics::ile_s))]
pub fn ile_s(n: u64, a: u64, b: u64) -> u64
    ensures { result ≡ binary_at wasm.ile_s n a b }
{
    Width::new(n).map_or(0, |w| u64::from(w.signed(a) <= w.signed(b)))
}

#[tactic(auto, unfolding(crate::specs::Functions::binary_at, crate::specs::Numerics::igt_u, crate::specs::Numerics::ilt_u))]
pub fn igt_u(n: u64, a: u64, b: u64) -> u64
    ensures { result ≡ binary_at wasm.igt_u n a b }
{
    ilt_u(n, b, a)
}

#[tactic(auto, unfolding(crate::specs::Functions::binary_at, crate::specs::Numerics::ige_u, crate::specs::Numerics::ile_u))]
pub fn ige_u(n: u64, a: u64, b: u64) -> u64
    ensures { result ≡ binary_at wasm.ige_u n a b }
{
    ile_u(n, b, a)
}

#[tactic(auto, unfolding(crate::specs::Functions::binary_at, crate::specs::Numerics::igt_s, crate::specs::Numerics::ilt_s))]
pub fn igt_s(n: u64, a: u64, b: u64) -> u64
    ensures { result ≡ binary_at wasm.igt_s n a b }
{
    ilt_s(n, b, a)
}

#[tactic(auto, unfolding(crate::specs::Functions::binary_at, crate::specs::Numerics::ige_s, crate::specs::Numerics::ile_s))]
pub fn ige_s(n: u64, a: u64, b: u64) -> u64
    ensures { result ≡ binary_at wasm.ige_s n a b }
{
    ile_s(n, b, a)
}
