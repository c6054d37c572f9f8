// The operation that a case names, computed by the proved function of that name. It stays a number: it is used in one match, and an enum
// would be one more match of as many arms.
ghost use Rattle.std.specs.Prelude.{◌≡◌};
ghost use Rattle.wasm_tests.specs.Answers.{arithmetic_of, traps, quotient_of, bits_of, comparison_of, conversion_of, answer_of};

use super::ops;

// Sums, differences and products.
#[tactic(auto, using(std::proofs::lemmas::List::get_or_past), unfolding(crate::specs::Answers::arithmetic_of))]
fn arithmetic(op: u64, n: u64, a: u64, b: u64) -> u64
    ensures { result ≡ arithmetic_of op n a b }
{
    match op {
        ops::IADD => numerics::iadd(n, a, b),
        ops::ISUB => numerics::isub(n, a, b),
        ops::IMUL => numerics::imul(n, a, b),
        ops::INEG => numerics::ineg(n, a),
        ops::IADD_SAT_U => numerics::iadd_sat_u(n, a, b),
        ops::IADD_SAT_S => numerics::iadd_sat_s(n, a, b),
        ops::ISUB_SAT_U => numerics::isub_sat_u(n, a, b),
        ops::ISUB_SAT_S => numerics::isub_sat_s(n, a, b),
        _ => 0,
    }
}

// Quotients and remainders; an operation _TRAPS answers 1 where there is none.
#[tactic(auto, using(std::proofs::lemmas::List::get_or_past), unfolding(crate::specs::Answers::quotient_of))]
fn quotient(op: u64, n: u64, a: u64, b: u64) -> Option<u64>
    ensures { result ≡ quotient_of op n a b }
{
    match op {
        ops::IDIV_U => numerics::idiv_u(n, a, b),
        ops::IDIV_S => numerics::idiv_s(n, a, b),
        ops::IREM_U => numerics::irem_u(n, a, b),
        ops::IREM_S => numerics::irem_s(n, a, b),
        ops::IDIV_U_TRAPS => undefined(numerics::idiv_u(n, a, b)),
        ops::IDIV_S_TRAPS => undefined(numerics::idiv_s(n, a, b)),
        ops::IREM_U_TRAPS => undefined(numerics::irem_u(n, a, b)),
        ops::IREM_S_TRAPS => undefined(numerics::irem_s(n, a, b)),
        _ => None,
    }
}

fn undefined(q: Option<u64>) -> Option<u64>
    ensures { result ≡ traps q }
{
    Some(u64::from(q.is_none()))
}

// Logic, shifts and counts.
#[tactic(auto, using(std::proofs::lemmas::List::get_or_past), unfolding(crate::specs::Answers::bits_of))]
fn bits(op: u64, n: u64, a: u64, b: u64) -> u64
    ensures { result ≡ bits_of op n a b }
{
    match op {
        ops::INOT => numerics::inot(n, a),
        ops::IAND => numerics::iand(n, a, b),
        ops::IOR => numerics::ior(n, a, b),
        ops::IXOR => numerics::ixor(n, a, b),
        ops::ISHL => numerics::ishl(n, a, b),
        ops::ISHR_U => numerics::ishr_u(n, a, b),
        ops::ISHR_S => numerics::ishr_s(n, a, b),
        ops::IROTL => numerics::irotl(n, a, b),
        ops::IROTR => numerics::irotr(n, a, b),
        ops::ICLZ => numerics::iclz(n, a),
        ops::ICTZ => numerics::ictz(n, a),
        ops::IPOPCNT => numerics::ipopcnt(n, a),
        _ => 0,
    }
}

// Tests and comparisons.
#[tactic(auto, using(std::proofs::lemmas::List::get_or_past), unfolding(crate::specs::Answers::comparison_of))]
fn comparison(op: u64, n: u64, a: u64, b: u64) -> u64
    ensures { result ≡ comparison_of op n a b }
{
    match op {
        ops::IEQZ => numerics::ieqz(n, a),
        ops::IEQ => numerics::ieq(n, a, b),
        ops::INE => numerics::ine(n, a, b),
        ops::ILT_U => numerics::ilt_u(n, a, b),
        ops::ILT_S => numerics::ilt_s(n, a, b),
        ops::IGT_U => numerics::igt_u(n, a, b),
        ops::IGT_S => numerics::igt_s(n, a, b),
        ops::ILE_U => numerics::ile_u(n, a, b),
        ops::ILE_S => numerics::ile_s(n, a, b),
        ops::IGE_U => numerics::ige_u(n, a, b),
        ops::IGE_S => numerics::ige_s(n, a, b),
        _ => 0,
    }
}

// From width m to width n.
#[tactic(auto, using(std::proofs::lemmas::List::get_or_past), unfolding(crate::specs::Answers::conversion_of))]
fn conversion(op: u64, m: u64, n: u64, a: u64) -> u64
    ensures { result ≡ conversion_of op m n a }
{
    match op {
        ops::WRAP => numerics::wrap(m, n, a),
        ops::EXTEND_U => numerics::extend_u(m, n, a),
        ops::EXTEND_S => numerics::extend_s(m, n, a),
        _ => 0,
    }
}

// None also for a number that names no operation, so that the case fails.
pub fn answer(op: u64, x: u64, y: u64, z: u64) -> Option<u64>
    ensures { result ≡ answer_of op x y z }
{
    match op {
        0..=15 => Some(arithmetic(op, x, y, z)),
        16..=31 => quotient(op - 16, x, y, z),
        32..=47 => Some(bits(op - 32, x, y, z)),
        48..=63 => Some(comparison(op - 48, x, y, z)),
        64..=79 => Some(conversion(op - 64, x, y, z)),
        _ => None,
    }
}
