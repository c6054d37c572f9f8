// lir.rs's operands, instructions and storages by value. A value's bytes are a run of a storage's bytes or of a constant's, and zeros
// behind it: constants, reads, truncation and extension all keep that form, so lists of operands need no room of their own.
#![tactic(auto)]

ghost use Rattle.std.specs.Prelude.{◌≡◌, ◌∷◌, ◌++◌, [], ◌/◌, ◌%◌, ◌^◌, List, ℕ, drop};
ghost use Rattle.spec.specs.Text.{comma, digits, fields, line};
ghost use Rattle.spec.specs.Print.{byte_storage, byte_operand, bit_operand, carry_operand, listed, byte_binary_word, rotate_word, kind_number, kind_length, purpose_number, shift_number, compare_number, unary_number, binary_number, instruction_line, storage_line, narrowed_line, value_line, done_line};
ghost use Rattle.text.specs.Writes.{Writes};
ghost use Rattle.lir.specs.Abstract.{byte_storage_of, byte_operand_of, bit_operand_of, carry_of, byte_at, bytes_of, destinations_of, byte_binary_op_of, rotate_direction_of, shift_op_of, compare_op_of, unary_op_of, binary_op_of, instruction_of, storage_kind_of, purpose_of, storage_of, Small};
ghost use Rattle.lir.specs.Sound.{Sound};
ghost use Rattle.lir.specs.Fields.{WritesFields, kind_text};
ghost use Rattle.lir.specs.Lines.{unit_fields, bit_fields, bytes_fields, aggregate_fields};

use text::writer::Writer;

// A storage's number.
#[derive(Clone, Copy, Debug, PartialEq, Eq)]
pub struct StorageId(pub u64);

// A temporary's number.
#[derive(Clone, Copy, Debug, PartialEq, Eq)]
pub struct TemporaryId(pub u64);

// A node's number: its line counted among the nodes, from 0.
#[derive(Clone, Copy, Debug, PartialEq, Eq)]
pub struct NodeId(pub u64);

// A byte of a storage.
#[derive(Clone, Copy, Debug, PartialEq, Eq)]
pub struct ByteStorage {
    pub storage: StorageId,
    pub offset: u64,
}

#[derive(Clone, Copy, Debug, PartialEq, Eq)]
pub enum ByteOperand {
    Immediate(u64),
    Storage(ByteStorage),
}

// Beside `ByteOperand` as in the Rust, where the two constants have names of their own; one generic enum would drop one of them.
#[derive(Clone, Copy, Debug, PartialEq, Eq)]
pub enum BitOperand {
    Constant(u64),
    Storage(StorageId),
}

// Where the bytes of a value come from: a number's, lowest first, or a storage's from a byte on.
#[derive(Clone, Copy, Debug, PartialEq, Eq)]
pub enum Source {
    Constant(u64),
    Storage(ByteStorage),
}

// `count` bytes of a source, then zero bytes up to `total`. That they are `Small` is asked where they are read, and is no fact of the
// type: any words of the value stack are read back as such a value.
#[derive(Clone, Copy, Debug, PartialEq, Eq)]
pub struct Bytes {
    pub source: Source,
    pub count: u64,
    pub total: u64,
}

// The first `count` bytes of a storage, as destinations.
#[derive(Clone, Copy, Debug, PartialEq, Eq)]
pub struct Destinations {
    pub storage: StorageId,
    pub count: u64,
}

#[derive(Clone, Copy, Debug, PartialEq, Eq)]
pub enum ByteBinaryOp {
    And,
    Or,
    Xor,
}

#[derive(Clone, Copy, Debug, PartialEq, Eq)]
pub enum RotateDirection {
    Left,
    Right,
}

// Each operator with its number in the listing.
#[derive(Clone, Copy, Debug, PartialEq, Eq)]
pub enum ShiftOp {
    Left = 0,
    RightUnsigned = 1,
    RightSigned = 2,
    RotateLeft = 3,
    RotateRight = 4,
}

#[derive(Clone, Copy, Debug, PartialEq, Eq)]
pub enum CompareOp {
    Equal = 0,
    NotEqual = 1,
    LessThanUnsigned = 3,
    LessThanSigned = 2,
    LessThanOrEqualUnsigned = 5,
    LessThanOrEqualSigned = 4,
    GreaterThanUnsigned = 7,
    GreaterThanSigned = 6,
    GreaterThanOrEqualUnsigned = 9,
    GreaterThanOrEqualSigned = 8,
}

#[derive(Clone, Copy, Debug, PartialEq, Eq)]
pub enum IntegerUnaryBytesOp {
    CountLeadingZeros = 2,
    CountTrailingZeros = 3,
    PopulationCount = 4,
}

#[derive(Clone, Copy, Debug, PartialEq, Eq)]
pub enum IntegerBinaryBytesOp {
    Multiply = 2,
    DivideUnsigned = 4,
    DivideSigned = 3,
    RemainderUnsigned = 6,
    RemainderSigned = 5,
    SaturatingAddUnsigned = 16,
    SaturatingAddSigned = 15,
    SaturatingSubtractUnsigned = 18,
    SaturatingSubtractSigned = 17,
}

#[derive(Clone, Copy, Debug, PartialEq, Eq)]
pub enum InstructionKind {
    CopyByte(ByteStorage, ByteOperand),
    NotByte(ByteStorage, ByteOperand),
    ByteBinary(ByteBinaryOp, ByteStorage, ByteOperand, ByteOperand),
    // The carries that go in and out, if any, stand last.
    Add(ByteStorage, ByteOperand, ByteOperand, Option<StorageId>, Option<StorageId>),
    Subtract(ByteStorage, ByteOperand, ByteOperand, Option<StorageId>, Option<StorageId>),
    Rotate(RotateDirection, ByteStorage, ByteOperand),
    AddressOf(ByteStorage, ByteStorage, StorageId, u64),
    FunctionAddress(ByteStorage, ByteStorage, u64),
    ShiftBytes(ShiftOp, u64, Destinations, Bytes, Bytes),
    CompareBytes(CompareOp, u64, StorageId, Bytes, Bytes),
    SelectByte(ByteStorage, BitOperand, ByteOperand, ByteOperand),
    SelectBit(StorageId, BitOperand, BitOperand, BitOperand),
    BitToByte(ByteStorage, BitOperand),
    ByteToBit(StorageId, ByteOperand),
    SignExtend(u64, Destinations, Bytes),
    IntegerUnaryBytes(IntegerUnaryBytesOp, u64, Destinations, Bytes),
    IntegerBinaryBytes(IntegerBinaryBytesOp, u64, Destinations, Bytes, Bytes),
}

// What lowering makes and the printer takes.
#[derive(Clone, Copy, Debug, PartialEq, Eq)]
pub struct Instruction {
    pub kind: InstructionKind,
    pub node: NodeId,
}

#[derive(Clone, Copy, Debug, PartialEq, Eq)]
pub enum StorageKind {
    Bit,
    Byte,
    Bytes(u64),
    Carry,
}

// What a storage is for, with its number in the listing.
#[derive(Clone, Copy, Debug, PartialEq, Eq)]
pub enum Purpose {
    Tmp = 0,
    AddCarry = 1,
    SubtractBorrow = 2,
    NegateBorrow = 3,
    PointerCarry = 4,
    Compare = 5,
    IntegerToBoolean = 6,
    Condition = 7,
    ReadBool = 8,
    SelectBool = 9,
}

// A new storage.
#[derive(Clone, Copy, Debug, PartialEq, Eq)]
pub struct NewStorage {
    pub id: StorageId,
    pub kind: StorageKind,
    pub purpose: Purpose,
    pub number: TemporaryId,
    pub regions: u64,
}

// ---------------------------------------------------------------- numbers for names

// The listing's own numbers: discriminants where the enum has no values, so that no match stands beside it.

impl ShiftOp {
    #[tactic(auto, unfolding(spec::specs::Print::shift_number))]
    fn number(self) -> u64
        ensures { result ≡ shift_number (shift_op_of self) }
    {
        self as u64
    }
}

impl CompareOp {
    #[tactic(auto, unfolding(spec::specs::Print::compare_number))]
    fn number(self) -> u64
        ensures { result ≡ compare_number (compare_op_of self) }
    {
        self as u64
    }
}

impl IntegerUnaryBytesOp {
    #[tactic(auto, unfolding(spec::specs::Print::unary_number))]
    fn number(self) -> u64
        ensures { result ≡ unary_number (unary_op_of self) }
    {
        self as u64
    }
}

impl IntegerBinaryBytesOp {
    #[tactic(auto, unfolding(spec::specs::Print::binary_number))]
    fn number(self) -> u64
        ensures { result ≡ binary_number (binary_op_of self) }
    {
        self as u64
    }
}

impl Purpose {
    #[tactic(auto, unfolding(spec::specs::Print::purpose_number))]
    fn number(self) -> u64
        ensures { result ≡ purpose_number (purpose_of self) }
    {
        self as u64
    }
}

impl StorageKind {
    // A match, as one of its variants has a value.
    #[tactic(auto, unfolding(spec::specs::Print::kind_number))]
    fn number(self) -> u64
        ensures { result ≡ kind_number (storage_kind_of self) }
    {
        match self {
            StorageKind::Bit => 0,
            StorageKind::Byte => 1,
            StorageKind::Bytes(_) => 2,
            StorageKind::Carry => 3,
        }
    }

    // How many bytes it says that it has.
    #[tactic(auto, unfolding(spec::specs::Print::kind_length))]
    fn length(self) -> u64
        ensures { result ≡ kind_length (storage_kind_of self) }
    {
        match self {
            StorageKind::Bytes(n) => n,
            _ => 0,
        }
    }
}

// ---------------------------------------------------------------- bytes of a value

// Byte i of a number, lowest first.
fn constant_byte(n: u64, i: u64) -> u64
    ensures { result ≡ n / 256 ^ i % 256 }
{
    if i < 8 { (n >> (8 * i)) % 256 } else { 0 }
}

// Byte i of a value, a zero behind the run.
pub fn byte_at(b: Bytes, i: u64) -> ByteOperand
    requires { Small b }
    ensures { byte_operand_of result ≡ byte_at b i }
{
    if b.count <= i {
        return ByteOperand::Immediate(0);
    }
    match b.source {
        Source::Constant(n) => ByteOperand::Immediate(constant_byte(n, i)),
        Source::Storage(first) => ByteOperand::Storage(ByteStorage {
            storage: first.storage,
            offset: first.offset + i,
        }),
    }
}

// ---------------------------------------------------------------- fields of a line

// What stands in a line as one field or more, each behind its comma.
// `fmt::Display` is no such trait: it lets a write fail, and what a `Writer` has no room for is counted and no failure.
pub trait Fields {
    // What it takes to print them.
    ghost can_print: { Self → Type 0 } = { λ _. Unit {0} };

    ghost texts: { Self → List (List ℕ) };

    fn print(self, w: &mut Writer<'_>)
        requires { can_print self }
        ensures { WritesFields w.old (texts self) w.new };
}

impl Fields for u64 {
    ghost texts = { λ n. digits n ∷ [] };

    fn print(self, w: &mut Writer<'_>) {
        w.field(self);
    }
}

// Three types that document 01 names; the text of each is its number.
impl Fields for StorageId {
    ghost texts = { λ s. digits s.0 ∷ [] };

    fn print(self, w: &mut Writer<'_>) {
        self.0.print(w);
    }
}

impl Fields for TemporaryId {
    ghost texts = { λ t. digits t.0 ∷ [] };

    fn print(self, w: &mut Writer<'_>) {
        self.0.print(w);
    }
}

impl Fields for NodeId {
    ghost texts = { λ n. digits n.0 ∷ [] };

    fn print(self, w: &mut Writer<'_>) {
        self.0.print(w);
    }
}

impl Fields for ByteStorage {
    ghost texts = { λ b. byte_storage (byte_storage_of b) ∷ [] };

    fn print(self, w: &mut Writer<'_>) {
        w.field_of_two(self.storage.0, b'.', self.offset);
    }
}

// A word of the listing, and the comma that it stands behind.
fn print_word(w: &mut Writer<'_>, word: &[u8])
    requires { word.now ≡ comma ∷ drop 1 word.now }
    ensures { WritesFields w.old (drop 1 word.now ∷ []) w.new }
{
    w.bytes(word);
}

// A constant, behind a number sign.
fn print_constant(w: &mut Writer<'_>, n: u64)
    ensures { WritesFields w.old ((35 ∷ digits n) ∷ []) w.new }
{
    w.put(b',');
    w.put(b'#');
    w.number(n);
}

// An operand. Inlined, for the loop over a value's bytes: as a call, which takes its operand from memory, that takes a fifth longer.
#[tactic(auto, unfolding(spec::specs::Print::byte_operand))]
#[inline(always)]
fn print_operand(w: &mut Writer<'_>, b: ByteOperand)
    ensures { WritesFields w.old (byte_operand (byte_operand_of b) ∷ []) w.new }
{
    match b {
        ByteOperand::Immediate(n) => print_constant(w, n),
        ByteOperand::Storage(s) => s.print(w),
    }
}

impl Fields for ByteOperand {
    ghost texts = { λ b. byte_operand (byte_operand_of b) ∷ [] };

    fn print(self, w: &mut Writer<'_>) {
        print_operand(w, self);
    }
}

#[tactic(auto, unfolding(spec::specs::Print::bit_operand))]
impl Fields for BitOperand {
    ghost texts = { λ b. bit_operand (bit_operand_of b) ∷ [] };

    fn print(self, w: &mut Writer<'_>) {
        match self {
            BitOperand::Constant(n) => print_constant(w, n),
            BitOperand::Storage(s) => s.print(w),
        }
    }
}

// A carry, if there is one.
#[tactic(auto, unfolding(spec::specs::Print::carry_operand))]
impl Fields for Option<StorageId> {
    ghost texts = { λ c. carry_operand (carry_of c) ∷ [] };

    fn print(self, w: &mut Writer<'_>) {
        match self {
            None => print_word(w, b",-"),
            Some(s) => s.print(w),
        }
    }
}

// A value's operands: their count, then each.
impl Fields for Bytes {
    ghost can_print = { Small };

    ghost texts = { λ b. listed byte_operand (bytes_of b) };

    fn print(self, w: &mut Writer<'_>) {
        self.total.print(w);
        for i in 0..self.total {
            print_operand(w, byte_at(self, i));
        }
    }
}

// Destinations: their count, then each.
impl Fields for Destinations {
    ghost texts = { λ d. listed byte_storage (destinations_of d) };

    fn print(self, w: &mut Writer<'_>) {
        let storage = self.storage;
        self.count.print(w);
        for offset in 0..self.count {
            ByteStorage { storage, offset }.print(w);
        }
    }
}

#[tactic(auto, unfolding(spec::specs::Print::byte_binary_word))]
impl Fields for ByteBinaryOp {
    ghost texts = { λ op. byte_binary_word (byte_binary_op_of op) ∷ [] };

    fn print(self, w: &mut Writer<'_>) {
        match self {
            ByteBinaryOp::And => print_word(w, b",and"),
            ByteBinaryOp::Or => print_word(w, b",or"),
            ByteBinaryOp::Xor => print_word(w, b",xor"),
        }
    }
}

#[tactic(auto, unfolding(spec::specs::Print::rotate_word))]
impl Fields for RotateDirection {
    ghost texts = { λ d. rotate_word (rotate_direction_of d) ∷ [] };

    fn print(self, w: &mut Writer<'_>) {
        match self {
            RotateDirection::Left => print_word(w, b",rol"),
            RotateDirection::Right => print_word(w, b",ror"),
        }
    }
}

// Pairs and triples: a triple as a pair in a pair is no plainer where it is used.
impl<A: Fields, B: Fields> Fields for (A, B) {
    ghost can_print = { λ p. A.can_print p.0 × B.can_print p.1 };

    ghost texts = { λ p. A.texts p.0 ++ B.texts p.1 };

    #[inline(always)]
    fn print(self, w: &mut Writer<'_>) {
        let (first, second) = self;
        first.print(w);
        second.print(w);
    }
}

impl<A: Fields, B: Fields, C: Fields> Fields for (A, B, C) {
    ghost can_print = { λ p. A.can_print p.0 × B.can_print p.1 × C.can_print p.2 };

    ghost texts = { λ p. A.texts p.0 ++ B.texts p.1 ++ C.texts p.2 };

    #[inline(always)]
    fn print(self, w: &mut Writer<'_>) {
        let (first, second, third) = self;
        first.print(w);
        second.print(w);
        third.print(w);
    }
}

// ---------------------------------------------------------------- lines of the listing

// A word, and the fields behind it. Inlined, as what is below: else each tuple is cleared and stored on every call, which takes half as
// long again.
#[inline(always)]
fn print_fields<F: Fields>(w: &mut Writer<'_>, word: &[u8], f: F)
    requires { F.can_print f }
    ensures { Writes w.old (word.now ++ fields (F.texts f)) w.new }
{
    w.bytes(word);
    f.print(w);
}

// The same of an instruction up to its node: its word stands behind `i`, and the two are written as one.
#[inline(always)]
fn print_named<F: Fields>(w: &mut Writer<'_>, word: &[u8], f: F)
    requires printable { F.can_print f }
    requires behind_i { word.now ≡ 105 ∷ comma ∷ drop 2 word.now }
    ensures { Writes w.old (105 ∷ fields (drop 2 word.now ∷ F.texts f)) w.new }
{
    print_fields(w, word, f);
}

#[inline(always)]
fn print_line<F: Fields>(w: &mut Writer<'_>, word: &[u8], f: F)
    requires { F.can_print f }
    ensures { Writes w.old (line word.now (F.texts f)) w.new }
{
    print_fields(w, word, f);
    w.put(b'\n');
}

// An instruction's line up to its node.
#[tactic(auto, unfolding(spec::specs::Print::instruction_fields))]
fn print_kind(w: &mut Writer<'_>, k: InstructionKind)
    requires { Sound k }
    ensures { Writes w.old (kind_text k) w.new }
{
    match k {
        InstructionKind::CopyByte(d, s) => print_named(w, b"i,copy", (d, s)),
        InstructionKind::NotByte(d, s) => print_named(w, b"i,not", (d, s)),
        InstructionKind::ByteBinary(op, d, x, y) => print_fields(w, b"i", ((op, d), (x, y))),
        InstructionKind::Add(d, x, y, i, o) => print_named(w, b"i,add", ((d, x, y), (i, o))),
        InstructionKind::Subtract(d, x, y, i, o) => {
            print_named(w, b"i,sub", ((d, x, y), (i, o)))
        }
        InstructionKind::Rotate(dir, d, s) => print_fields(w, b"i", (dir, d, s)),
        InstructionKind::AddressOf(low, high, s, o) => {
            print_named(w, b"i,address", ((low, high), (s, o)))
        }
        InstructionKind::FunctionAddress(low, high, f) => {
            print_named(w, b"i,function", (low, high, f))
        }
        InstructionKind::ShiftBytes(op, n, d, x, y) => {
            print_named(w, b"i,shift", ((op.number(), n, d), x, y))
        }
        InstructionKind::CompareBytes(op, n, d, x, y) => {
            print_named(w, b"i,compare", ((op.number(), n, d), x, y))
        }
        InstructionKind::SelectByte(d, c, t, f) => {
            print_named(w, b"i,selbyte", ((d, c), (t, f)))
        }
        InstructionKind::SelectBit(d, c, t, f) => { print_named(w, b"i,selbit", ((d, c), (t, f))) }
        InstructionKind::BitToByte(d, s) => print_named(w, b"i,bittobyte", (d, s)),
        InstructionKind::ByteToBit(d, s) => print_named(w, b"i,bytetobit", (d, s)),
        InstructionKind::SignExtend(n, d, s) => print_named(w, b"i,sext", (n, d, s)),
        InstructionKind::IntegerUnaryBytes(op, n, d, x) => {
            print_named(w, b"i,unary", ((op.number(), n, d), x))
        }
        InstructionKind::IntegerBinaryBytes(op, n, d, x, y) => {
            print_named(w, b"i,binary", ((op.number(), n, d), x, y))
        }
    }
}

// An instruction's line; the node whose own step made it stands last.
pub fn print_instruction(w: &mut Writer<'_>, i: Instruction)
    requires { Sound i.kind }
    ensures { Writes w.old (instruction_line (instruction_of i)) w.new }
{
    print_kind(w, i.kind);
    i.node.print(w);
    w.put(b'\n');
}

// A new storage's line.
#[tactic(auto, unfolding(spec::specs::Print::storage_line))]
pub fn print_storage(w: &mut Writer<'_>, s: NewStorage)
    ensures { Writes w.old (storage_line (storage_of s)) w.new }
{
    print_line(
        w,
        b"storage",
        (
            (s.id, s.kind.number(), s.kind.length()),
            (s.purpose.number(), s.number, s.regions),
        ),
    );
}

// The line of a storage that is narrowed.
#[tactic(auto, unfolding(spec::specs::Print::narrowed_line))]
pub fn print_narrowed(w: &mut Writer<'_>, s: StorageId)
    ensures { Writes w.old (narrowed_line s.0) w.new }
{
    print_line(w, b"narrowed", s);
}

// A value's line: its type, a word behind a comma, and what is behind that.
fn print_value<F: Fields>(w: &mut Writer<'_>, ty: u64, word: &[u8], rest: F)
    requires printable { F.can_print rest }
    requires behind_comma { word.now ≡ comma ∷ drop 1 word.now }
    ensures { Writes w.old (value_line ty (drop 1 word.now ∷ F.texts rest)) w.new }
{
    print_fields(w, b"value", ty);
    print_line(w, word, rest);
}

// The lines of a value, one for each record of it: a value with no bytes.
pub fn print_unit(w: &mut Writer<'_>, ty: u64)
    ensures { Writes w.old (value_line ty unit_fields) w.new }
{
    print_fields(w, b"value", ty);
    w.bytes(b",unit\n");
}

// A bit.
pub fn print_bit(w: &mut Writer<'_>, ty: u64, b: BitOperand)
    ensures { Writes w.old (value_line ty (bit_fields (bit_operand_of b))) w.new }
{
    print_value(w, ty, b",bit", b);
}

// Bytes.
pub fn print_value_bytes(w: &mut Writer<'_>, ty: u64, b: Bytes)
    requires { Small b }
    ensures { Writes w.old (value_line ty (bytes_fields (bytes_of b))) w.new }
{
    print_value(w, ty, b",bytes", b);
}

// An aggregate, whose parts follow as lines of their own.
pub fn print_aggregate(w: &mut Writer<'_>, ty: u64, parts: u64)
    ensures { Writes w.old (value_line ty (aggregate_fields parts)) w.new }
{
    print_value(w, ty, b",aggregate", parts);
}

// The last line.
#[tactic(auto, unfolding(spec::specs::Print::done_line))]
pub fn print_done(w: &mut Writer<'_>, instructions: u64, storages: u64, next: u64)
    ensures { Writes w.old (done_line (record { instructions = instructions; storages = storages; next = next })) w.new }
{
    print_line(w, b"done", (instructions, storages, next));
}
