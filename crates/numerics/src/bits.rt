// Operations on the bits: logic, shifts, rotates and counts.
ghost use Rattle.std.specs.Prelude.{◌≡◌, ◌%◌, ◌^◌, ◌<◌};
ghost use Rattle.numerics.specs.Numerics as wasm;
ghost use Rattle.numerics.specs.Functions.{unary_at, binary_at};

use super::width::Width;

#[tactic(auto, unfolding(crate::specs::Functions::unary_at, crate::specs::Numerics::inot))]
pub fn inot(n: u64, a: u64) -> u64
    ensures { result ≡ unary_at wasm.inot n a }
{
    Width::new(n).map_or(0, |w| w.all_ones() - w.low(a))
}

#[tactic(auto, using(crate::proofs::Modulo::low_of_and), unfolding(crate::specs::Functions::binary_at, crate::specs::Numerics::iand))]
pub fn iand(n: u64, a: u64, b: u64) -> u64
    ensures { result ≡ binary_at wasm.iand n a b }
{
    Width::new(n).map_or(0, |w| w.low(a & b))
}

#[tactic(auto, using(std::proofs::lemmas::Nat::or_mod), unfolding(crate::specs::Functions::binary_at, crate::specs::Numerics::ior))]
pub fn ior(n: u64, a: u64, b: u64) -> u64
    ensures { result ≡ binary_at wasm.ior n a b }
{
    Width::new(n).map_or(0, |w| w.low(a | b))
}

#[tactic(auto, using(std::proofs::lemmas::Nat::xor_mod), unfolding(crate::specs::Functions::binary_at, crate::specs::Numerics::ixor))]
pub fn ixor(n: u64, a: u64, b: u64) -> u64
    ensures { result ≡ binary_at wasm.ixor n a b }
{
    Width::new(n).map_or(0, |w| w.low(a ^ b))
}

#[tactic(auto, using(crate::proofs::Moves::moved_left), unfolding(crate::specs::Functions::binary_at, crate::specs::Numerics::ishl, crate::specs::Numerics::shifted_left))]
pub fn ishl(n: u64, a: u64, b: u64) -> u64
    ensures { result ≡ binary_at wasm.ishl n a b }
{
    Width::new(n).map_or(0, |w| w.low(a << w.distance(b)))
}

#[tactic(auto, unfolding(crate::specs::Functions::binary_at, crate::specs::Numerics::ishr_u, crate::specs::Numerics::shifted_right))]
pub fn ishr_u(n: u64, a: u64, b: u64) -> u64
    ensures { result ≡ binary_at wasm.ishr_u n a b }
{
    Width::new(n).map_or(0, |w| w.low(a) >> w.distance(b))
}

#[tactic(auto, using(crate::proofs::Signed::sign_shifted, crate::proofs::Signed::passed), unfolding(crate::specs::Functions::binary_at, crate::specs::Numerics::ishr_s))]
pub fn ishr_s(n: u64, a: u64, b: u64) -> u64
    ensures { result ≡ binary_at wasm.ishr_s n a b }
{
    Width::new(n).map_or(0, |w| w.unsigned(w.signed(a) >> w.distance(b)))
}

// The bits of a moved left by k, those that leave at the top coming in below. The shift right is done in two, since n - k can be 64.
#[tactic(auto, using(crate::proofs::Moves::rotated_is, crate::proofs::Moves::rotated_fits))]
fn turned(w: Width, a: u64, k: u64) -> u64
    requires { k < w.bits }
    ensures { result ≡ wasm.rotated_left w.bits (a % 2 ^ w.bits) k }
{
    w.low(a << k) + (w.low(a) >> 1 >> (w.bits - 1 - k))
}

#[tactic(auto, unfolding(crate::specs::Functions::binary_at, crate::specs::Numerics::irotl))]
pub fn irotl(n: u64, a: u64, b: u64) -> u64
    ensures { result ≡ binary_at wasm.irotl n a b }
{
    Width::new(n).map_or(0, |w| turned(w, a, w.distance(b)))
}

// To the right by k is to the left by n - k.
#[tactic(auto, using(crate::proofs::Moves::rotated_other, crate::proofs::Moves::rotated_none), unfolding(crate::specs::Functions::binary_at, crate::specs::Numerics::irotr))]
pub fn irotr(n: u64, a: u64, b: u64) -> u64
    ensures { result ≡ binary_at wasm.irotr n a b }
{
    Width::new(n).map_or(0, |w| {
        let k = w.distance(b);
        if k == 0 {
            w.low(a)
        } else {
            turned(w, a, n - k)
        }
    })
}

#[tactic(auto, using(crate::proofs::Counts::leading_enough, crate::proofs::Counts::leading_left), unfolding(crate::specs::Functions::unary_at, crate::specs::Numerics::iclz))]
pub fn iclz(n: u64, a: u64) -> u64
    ensures { result ≡ unary_at wasm.iclz n a }
{
    Width::new(n).map_or(0, |w| u64::from(w.low(a).leading_zeros()) - (64 - n))
}

// All n where no bit is set.
#[tactic(auto, using(crate::proofs::Counts::trailing_left), unfolding(crate::specs::Functions::unary_at, crate::specs::Numerics::ictz))]
pub fn ictz(n: u64, a: u64) -> u64
    ensures { result ≡ unary_at wasm.ictz n a }
{
    Width::new(n).map_or(0, |w| u64::from(w.low(a).trailing_zeros()).min(n))
}

#[tactic(auto, using(crate::proofs::Counts::ones_left), unfolding(crate::specs::Functions::unary_at, crate::specs::Numerics::ipopcnt))]
pub fn ipopcnt(n: u64, a: u64) -> u64
    ensures { result ≡ unary_at wasm.ipopcnt n a }
{
    Width::new(n).map_or(0, |w| u64::from(w.low(a).count_ones()))
}
