// Appending: allocation of storages, and instructions byte by byte.
#![tactic(auto)]

ghost use Rattle.std.specs.Prelude.{◌≡◌, ◌∷◌, [], ℕ, ◌+◌, ◌-◌, ◌*◌, ◌%◌, ◌^◌, ◌<◌, eqb, Some};
ghost use Rattle.spec.specs.Hir as hir;
ghost use Rattle.spec.specs.Lir as spec-lir;
ghost use Rattle.spec.specs.Ticket.{Tables};
ghost use Rattle.spec.specs.Allocation.{bool_type};
ghost use Rattle.spec.specs.Operands.{all_immediate, lowest_byte};
ghost use Rattle.spec.specs.Operators as operators;
ghost use Rattle.spec.specs.Operators.{rotate_direction, compare_op};
ghost use Rattle.spec.specs.Arithmetic.{zip3, carry_in, carry_out, negates, masks, rotates, byte_rotates, first_operand, byte_rotate, shifts, binary_instructions, unary_instructions};
ghost use Rattle.spec.specs.Conversions.{bit_to_bytes};
ghost use Rattle.lir.specs.Abstract.{tab, pick, byte_storage_of, byte_operand_of, bit_operand_of, carry_of, bytes_of, destinations_of, byte_binary_op_of, rotate_direction_of, shift_op_of, compare_op_of, kind_of, purpose_of, Small};
ghost use Rattle.lir.specs.Sound.{Sound};
ghost use Rattle.lir.specs.Tab.{spot};
ghost use Rattle.emission.specs.Appends.{Room};
ghost use Rattle.emission.specs.Emits.{Emits};
ghost use Rattle.emission.specs.Does.{Does, Meets};
ghost use Rattle.emission.specs.Kinds.{Makes, bit_kind, turn_kind, zero_bytes, direction_option};
ghost use Rattle.emission.specs.Made.{EmitsCarried, EmitsBytes};
ghost use Rattle.emission.specs.Forms.{HasWidth, unary_form_of, binary_form_of, comparing, comparing_zero};

use answers::Refusal;
use lir::{
    BitOperand, ByteBinaryOp, ByteOperand, ByteStorage, Bytes, CompareOp, Destinations,
    InstructionKind, IntegerBinaryBytesOp, IntegerUnaryBytesOp, Purpose, RotateDirection, ShiftOp,
    Source, StorageId,
};

pub mod emitter;
pub mod operands;

pub use emitter::{Emitter, TEMPORARY_REGIONS};
pub use operands::Operands;

// How an operator is lowered: byte by byte with a carry or without, or as one instruction. A variant for each arm of the `match` on the
// operator in the Rust's `lower_integer_unary` and `lower_integer_binary`, so that the two can be held side by side, and with it the
// operator that the arm maps to (`integer_binary_bytes_op` in the last).
#[derive(Clone, Copy, Debug, PartialEq, Eq)]
pub enum UnaryForm {
    Negating,
    Inverting,
    Counting(IntegerUnaryBytesOp),
}

#[derive(Clone, Copy, Debug, PartialEq, Eq)]
pub enum BinaryForm {
    Adding,
    Subtracting,
    Bytewise(ByteBinaryOp),
    Shifting(ShiftOp),
    Whole(IntegerBinaryBytesOp),
}

// ---------------------------------------------------------------- an instruction for each byte

fn carry_in(carry: StorageId, i: u64) -> Option<StorageId>
    ensures { carry_of result ≡ carry_in carry.0 i }
{
    if i == 0 { None } else { Some(carry) }
}

fn carry_out(carry: StorageId, count: u64, i: u64) -> Option<StorageId>
    requires { i < 4611686018427387904 }
    ensures { carry_of result ≡ carry_out carry.0 count i }
{
    if i + 1 == count { None } else { Some(carry) }
}

fn destination(d: Destinations, i: u64) -> ByteStorage
    ensures { result ≡ record { storage = d.storage; offset = i } }
{
    ByteStorage {
        storage: d.storage,
        offset: i,
    }
}

// The first byte gets the bit, the others 0.
fn bit_byte(d: Destinations, b: BitOperand, i: u64) -> InstructionKind
    ensures { Makes (bit_kind d b i) result }
{
    let to = destination(d, i);
    if i == 0 {
        InstructionKind::BitToByte(to, b)
    } else {
        InstructionKind::CopyByte(to, ByteOperand::Immediate(0))
    }
}

// Turns are of the first byte, again and again: the first reads the operand, each other what the one before it left.
fn turn_byte(d: Destinations, direction: RotateDirection, x: ByteOperand, i: u64) -> InstructionKind
    ensures { Makes (turn_kind d direction x i) result }
{
    let to = destination(d, 0);
    if i == 0 {
        InstructionKind::Rotate(direction, to, x)
    } else {
        InstructionKind::Rotate(direction, to, ByteOperand::Storage(to))
    }
}

fn zero_bytes(n: u64) -> Bytes
    ensures { result ≡ zero_bytes n }
{
    Bytes {
        source: Source::Constant(0),
        count: 0,
        total: n,
    }
}

// ---------------------------------------------------------------- questions about a value's bytes

// A run of a storage's bytes begins with one: where the first byte is a constant, all are.
#[tactic(auto, using(crate::specs::Operands::all_empty, crate::specs::Operands::all_first))]
fn all_immediate(b: Bytes) -> bool
    requires { Small b }
    ensures { result ≡ all_immediate (bytes_of b) }
{
    if b.total == 0 {
        return true;
    }
    match lir::byte_at(b, 0) {
        ByteOperand::Immediate(_) => true,
        ByteOperand::Storage(_) => false,
    }
}

// 0 where the first byte is no constant.
#[tactic(auto, using(crate::specs::Operands::lowest_empty, crate::specs::Operands::lowest_first))]
fn lowest_byte(b: Bytes) -> u64
    requires { Small b }
    ensures { result ≡ lowest_byte (bytes_of b) }
{
    if b.total == 0 {
        return 0;
    }
    match lir::byte_at(b, 0) {
        ByteOperand::Immediate(n) => n,
        ByteOperand::Storage(_) => 0,
    }
}

// One byte, turned by a constant.
#[tactic(auto, using(spec::proofs::Lengths::length_bytes_from, crate::specs::Operands::length_bytes), unfolding(spec::specs::Arithmetic::byte_rotate))]
fn byte_rotate(width: u64, o: Operands) -> bool
    ensures { result ≡ byte_rotate width (destinations_of o.to) (bytes_of o.left) (bytes_of o.right) }
{
    if width != 8 || o.to.count != 1 || o.left.total != 1 {
        return false;
    }
    all_immediate(o.right)
}

// 2 ^ k - 1, the mask of a byte's k lowest bits.
fn mask_of(k: u64) -> u64
    requires { k < 8 }
    ensures { result ≡ 2 ^ k - 1 }
{
    (1 << k) - 1
}

// The other way round: of a turn by more than half.
fn opposite(direction: RotateDirection) -> RotateDirection
    ensures { rotate_direction_of result ≡ operators.opposite (rotate_direction_of direction) }
{
    match direction {
        RotateDirection::Left => RotateDirection::Right,
        RotateDirection::Right => RotateDirection::Left,
    }
}

// The rotates among the shifts, with their direction.
#[tactic(auto, unfolding(spec::specs::Operators::rotate_direction))]
fn rotate_direction(op: ShiftOp) -> Option<RotateDirection>
    ensures { direction_option result ≡ rotate_direction (shift_op_of op) }
{
    match op {
        ShiftOp::Left | ShiftOp::RightUnsigned | ShiftOp::RightSigned => None,
        ShiftOp::RotateLeft => Some(RotateDirection::Left),
        ShiftOp::RotateRight => Some(RotateDirection::Right),
    }
}

impl Emitter<'_> {
    // ------------------------------------------------------------ byte by byte

    // Sums and differences: `make` is the variant, and a carry goes from each byte to the next.
    pub fn carried_bytes<F>(&mut self, o: Operands, carry: StorageId, make: F)
    where
        F: Fn(
            ByteStorage,
            ByteOperand,
            ByteOperand,
            Option<StorageId>,
            Option<StorageId>,
        ) -> InstructionKind,
        requires room { Room o.to.count self.old }
        requires callable { F.IsAlwaysCallable make }
        requires sound { (d : _) (x : _) (y : _) (i : _) (u : _) (k : _) → F.post make d x y i u k → Sound k }
        ensures { EmitsCarried (F.post make) o carry.0 self.old self.new }
    {
        let n = o.to.count.min(o.left.total.min(o.right.total));
        self.emit_each(
            n,
            |i|
                requires { (i < 4611686018427387904) × (Small o.left) × (Small o.right) × (F.IsAlwaysCallable make) }
            {
                make(
                    destination(o.to, i),
                    lir::byte_at(o.left, i),
                    lir::byte_at(o.right, i),
                    carry_in(carry, i),
                    carry_out(carry, o.to.count, i),
                )
            },
        );
    }

    // And, or, xor.
    pub fn binary_bytes(&mut self, op: ByteBinaryOp, o: Operands)
        requires { Room o.to.count self.old }
        ensures { Emits self.old (zip3 (λ i x a b. spec-lir.byte_binary (byte_binary_op_of op) x a b) 0 (destinations_of o.to) (bytes_of o.left) (bytes_of o.right)) self.new }
    {
        let n = o.to.count.min(o.left.total.min(o.right.total));
        self.emit_each(n, |i| {
            InstructionKind::ByteBinary(
                op,
                destination(o.to, i),
                lir::byte_at(o.left, i),
                lir::byte_at(o.right, i),
            )
        });
    }

    // A difference from zeros.
    pub fn negate_bytes(&mut self, d: Destinations, b: Bytes, carry: StorageId)
        requires { (Small b) × (Room d.count self.old) }
        ensures { Emits self.old (negates carry.0 (destinations_of d) (bytes_of b)) self.new }
    {
        let o = Operands {
            to: d,
            left: zero_bytes(b.total),
            right: b,
        };
        self.carried_bytes(o, carry, InstructionKind::Subtract);
    }

    // Copies, and complements: `make` is the variant.
    pub fn each_byte<F>(&mut self, d: Destinations, b: Bytes, make: F)
    where
        F: Fn(ByteStorage, ByteOperand) -> InstructionKind,
        requires room { (Small b) × (Room d.count self.old) }
        requires callable { F.IsAlwaysCallable make }
        requires sound { (x : _) (y : _) (k : _) → F.post make x y k → Sound k }
        ensures { EmitsBytes (F.post make) d b self.old self.new }
    {
        let n = d.count.min(b.total);
        self.emit_each(
            n,
            |i|
                requires { (Small b) × (F.IsAlwaysCallable make) }
            { make(destination(d, i), lir::byte_at(b, i)) },
        );
    }

    // The first byte gets the bit, the others 0.
    pub fn bit_to_bytes(&mut self, d: Destinations, b: BitOperand)
        requires { Room d.count self.old }
        ensures { Emits self.old (bit_to_bytes (destinations_of d) (bit_operand_of b)) self.new }
    {
        self.emit_each(d.count, |i| bit_byte(d, b, i));
    }

    // ------------------------------------------------------------ a mask, turns by a constant, shifts

    // The last byte of a type with odd bits keeps so many.
    pub fn mask_location(&mut self, d: Destinations, odd: u64)
        requires { (odd < 8) × (Room 1 self.old) }
        ensures { Emits self.old (masks odd (destinations_of d)) self.new }
    {
        if odd == 0 {
            return;
        }
        if d.count == 0 {
            return;
        }
        let last = destination(d, d.count - 1);
        self.emit(InstructionKind::ByteBinary(
            ByteBinaryOp::And,
            last,
            ByteOperand::Storage(last),
            ByteOperand::Immediate(mask_of(odd)),
        ));
    }

    fn turns(&mut self, d: Destinations, direction: RotateDirection, x: ByteOperand, n: u64)
        requires { Room n self.old }
        ensures { Emits self.old (rotates (rotate_direction_of direction) (spot d.storage.0 0) (byte_operand_of x) n) self.new }
    {
        self.emit_each(n, |i| turn_byte(d, direction, x, i));
    }

    // By the shorter way round; a distance of 0 copies.
    #[tactic(auto, using(crate::specs::Loops::turn_none, crate::specs::Loops::turn_few, crate::specs::Loops::turn_back))]
    fn byte_rotates(
        &mut self,
        d: Destinations,
        direction: RotateDirection,
        x: ByteOperand,
        amount: u64,
    )
        requires { (amount < 8) × (Room 4 self.old) }
        ensures { Emits self.old (byte_rotates (rotate_direction_of direction) (spot d.storage.0 0) (byte_operand_of x) amount) self.new }
    {
        if amount == 0 {
            self.emit(InstructionKind::CopyByte(destination(d, 0), x));
        } else if amount <= 4 {
            self.turns(d, direction, x, amount);
        } else {
            let back = opposite(direction);
            self.turns(d, back, x, 8 - amount);
        }
    }

    fn whole_shift(&mut self, op: ShiftOp, width: u64, o: Operands)
        requires { Room 1 self.old }
        ensures { Emits self.old (spec-lir.shift_bytes (shift_op_of op) width (destinations_of o.to) (bytes_of o.left) (bytes_of o.right) ∷ []) self.new }
    {
        self.emit(InstructionKind::ShiftBytes(op, width, o.to, o.left, o.right));
    }

    #[tactic(auto, using(spec::proofs::Lengths::length_bytes_from, crate::specs::Appends::room_less, crate::specs::Loops::turned_one, crate::specs::Loops::shift_plain, crate::specs::Loops::shift_whole))]
    pub fn shift_bytes(&mut self, op: ShiftOp, width: u64, o: Operands)
        requires { Room (2 * o.to.count + 2) self.old }
        ensures { Emits self.old (shifts (shift_op_of op) width (destinations_of o.to) (bytes_of o.left) (bytes_of o.right)) self.new }
    {
        let Some(direction) = rotate_direction(op) else {
            return self.whole_shift(op, width, o);
        };
        if byte_rotate(width, o) {
            let first = lir::byte_at(o.left, 0);
            self.byte_rotates(o.to, direction, first, lowest_byte(o.right) % 8);
        } else {
            self.whole_shift(op, width, o);
        }
    }

    // ------------------------------------------------------------ operators, form by form

    pub fn unary_instructions(
        &mut self,
        form: UnaryForm,
        width: Option<u64>,
        d: Destinations,
        b: Bytes,
    ) -> Result<(), Refusal>
        requires { (Small b) × (Room (2 * d.count + 2) self.old) }
        ensures { (T : Tables) (ty : ℕ) → HasWidth T ty width → Meets (2 * d.count + 2) self.old (unary_instructions T (unary_form_of form) ty (destinations_of d) (bytes_of b)) self.new result }
    {
        match form {
            UnaryForm::Negating => {
                let borrow = self.allocate_carry(Purpose::NegateBorrow);
                self.negate_bytes(d, b, borrow);
                Ok(())
            }
            UnaryForm::Inverting => {
                self.each_byte(d, b, InstructionKind::NotByte);
                Ok(())
            }
            UnaryForm::Counting(op) => {
                let Some(width) = width else {
                    return Err(Refusal::UnsupportedType);
                };
                self.emit(InstructionKind::IntegerUnaryBytes(op, width, d, b));
                Ok(())
            }
        }
    }

    pub fn binary_instructions(
        &mut self,
        form: BinaryForm,
        width: Option<u64>,
        o: Operands,
    ) -> Result<(), Refusal>
        requires { Room (2 * o.to.count + 2) self.old }
        ensures { (T : Tables) (ty : ℕ) → HasWidth T ty width → Meets (2 * o.to.count + 2) self.old (binary_instructions T (binary_form_of form) ty (destinations_of o.to) (bytes_of o.left) (bytes_of o.right)) self.new result }
    {
        match form {
            BinaryForm::Adding => {
                let carry = self.allocate_carry(Purpose::AddCarry);
                self.carried_bytes(o, carry, InstructionKind::Add);
                Ok(())
            }
            BinaryForm::Subtracting => {
                let borrow = self.allocate_carry(Purpose::SubtractBorrow);
                self.carried_bytes(o, borrow, InstructionKind::Subtract);
                Ok(())
            }
            BinaryForm::Bytewise(op) => {
                self.binary_bytes(op, o);
                Ok(())
            }
            BinaryForm::Shifting(op) => {
                let Some(width) = width else {
                    return Err(Refusal::UnsupportedType);
                };
                self.shift_bytes(op, width, o);
                Ok(())
            }
            BinaryForm::Whole(op) => {
                let Some(width) = width else {
                    return Err(Refusal::UnsupportedType);
                };
                self.emit(InstructionKind::IntegerBinaryBytes(op, width, o.to, o.left, o.right));
                Ok(())
            }
        }
    }

    // ------------------------------------------------------------ comparing, and extending a sign

    // A comparison's bit, given the width and the operands' bytes.
    pub fn compare(&mut self, op: CompareOp, width: u64, l: Bytes, r: Bytes) -> StorageId
        requires { (Small l) × (Small r) × (Room 2 self.old) }
        ensures { (o : hir.CompareOp) → compare_op o ≡ Some (compare_op_of op) → Does 1 self.old (comparing o width (bytes_of l) (bytes_of r)) (spec-lir.value bool_type (spec-lir.bit_value (spec-lir.stored_bit result.0))) self.new }
    {
        let bit = self.allocate_bit_temporary(Purpose::Compare);
        self.emit(InstructionKind::CompareBytes(op, width, bit, l, r));
        bit
    }

    // Whether a number is not 0, as a new bit.
    pub fn not_zero(&mut self, purpose: Purpose, width: u64, b: Bytes) -> StorageId
        requires { (Small b) × (Room 2 self.old) }
        ensures { Does 1 self.old (comparing_zero (purpose_of purpose) width (bytes_of b)) result.0 self.new }
    {
        let bit = self.allocate_bit_temporary(purpose);
        let zeros = zero_bytes(b.total);
        self.emit(InstructionKind::CompareBytes(CompareOp::NotEqual, width, bit, b, zeros));
        bit
    }

    pub fn sign_extend(&mut self, width: u64, d: Destinations, b: Bytes)
        requires { (Small b) × (Room 1 self.old) }
        ensures { Emits self.old (spec-lir.sign_extend width (destinations_of d) (bytes_of b) ∷ []) self.new }
    {
        self.emit(InstructionKind::SignExtend(width, d, b));
    }
}
