// A width, and what the operations take from it. An operand is a number below 2^n; any other is read modulo 2^n.
#![tactic(auto, using(crate::proofs::Signed::readings))]

ghost use Rattle.std.specs.Prelude.{◌≡◌, ◌-◌, ◌%◌, ◌^◌, ◌≤◌, MatchOption, false, pos, negsuc};
ghost use Rattle.numerics.specs.Numerics as wasm;
ghost use Rattle.numerics.specs.Functions.{IsWidth, widths};

/// A number of bits, from 1 to 64.
#[derive(Clone, Copy)]
pub struct Width {
    pub bits: u64,
    ghost is_width: { IsWidth bits },
}

impl Width {
    pub fn new(bits: u64) -> Option<Width>
        ensures { MatchOption result (widths bits bits ≡ false) (λ w. w.bits ≡ bits) }
    {
        match bits {
            1..=64 => Some(Width { bits }),
            _ => None,
        }
    }

    /// Two widths, of which the first is no larger.
    pub fn pair(low: u64, high: u64) -> Option<(Width, Width)>
        ensures { MatchOption result (widths low high ≡ false) (λ p. (p.0.bits ≡ low) × (p.1.bits ≡ high) × (low ≤ high)) }
    {
        let wide = Width::new(high)?;
        match low {
            1.. if low <= high => Some((Width { bits: low }, wide)),
            _ => None,
        }
    }

    /// 2^n - 1: all n bits set.
    #[tactic(auto, using(crate::proofs::Modulo::ones_shr))]
    pub fn all_ones(self) -> u64
        ensures { result ≡ 2 ^ self.bits - 1 }
    {
        u64::MAX >> (64 - self.bits)
    }

    /// `a` modulo 2^n.
    #[tactic(auto, using(std::proofs::lemmas::Nat::and_mask))]
    pub fn low(self, a: u64) -> u64
        ensures { result ≡ a % 2 ^ self.bits }
    {
        a & self.all_ones()
    }

    /// The distance of a shift: the operand modulo the width. Most distances are below it and cost no division.
    pub fn distance(self, b: u64) -> u64
        ensures { result ≡ b % 2 ^ self.bits % self.bits }
    {
        let k = self.low(b);
        if k < self.bits { k } else { k % self.bits }
    }

    /// The largest signed reading.
    pub fn max(self) -> i64
        ensures { result ≡ pos (2 ^ (self.bits - 1) - 1) }
    {
        i64::MAX >> (64 - self.bits)
    }

    /// The smallest signed reading.
    pub fn min(self) -> i64
        ensures { result ≡ negsuc (2 ^ (self.bits - 1) - 1) }
    {
        i64::MIN >> (64 - self.bits)
    }

    /// The signed reading: the highest of n bits is the sign.
    pub fn signed(self, a: u64) -> i64
        ensures { result ≡ wasm.signed self.bits (a % 2 ^ self.bits) }
    {
        let unused = 64 - self.bits;
        (a << unused).cast_signed() >> unused
    }

    /// The number of n bits whose signed reading is `z`, or is congruent to it.
    pub fn unsigned(self, z: i64) -> u64
        ensures { result ≡ wasm.unsigned self.bits z }
    {
        self.low(z.cast_unsigned())
    }

    /// The number of n bits whose signed reading is nearest to `z`.
    pub fn saturated(self, z: i64) -> u64
        ensures { result ≡ wasm.sat_s self.bits z }
    {
        self.unsigned(z.clamp(self.min(), self.max()))
    }
}
