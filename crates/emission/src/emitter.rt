// What lowering appends to: storages are printed at once into one lent buffer and instructions into another; where there is no room
// nothing is stored, so the same code measures and writes.
ghost use Rattle.std.specs.Prelude.{◌≡◌, ◌∷◌, [], ℕ, ◌<◌, ◌≤◌, length};

use answers::Refusal;
use lir::{
    Instruction, InstructionKind, NewStorage, NodeId, Purpose, StorageId, StorageKind, TemporaryId,
};
use text::writer::Writer;

// ApplicationRam and ShadowStack; with WorkRam; CarryFlag.
pub const TEMPORARY_REGIONS: u64 = 36;

const BOOL_REGIONS: u64 = 100;

const CARRY_REGIONS: u64 = 2;

// The texts of instructions and of storages, how many instructions there are, the next storage's and temporary's numbers, and the node
// whose own step it is.
#[derive(Drop)]
pub struct Emitter<'a> {
    pub code: Writer<'a>,
    pub store: Writer<'a>,
    pub instructions: u64,
    pub storage: u64,
    pub temporary: u64,
    pub node: NodeId,
    pub ghost code_long: { length code.buf.now ≤ 18446744073709551615 },
    pub ghost code_at: { code.at ≤ 18446744073709551615 },
    pub ghost store_long: { length store.buf.now ≤ 18446744073709551615 },
    pub ghost store_at: { store.at ≤ 18446744073709551615 },
}

impl<'a> Emitter<'a> {
    ghost use Rattle.spec.specs.Ticket.{Tables};
    ghost use Rattle.spec.specs.Allocation.{allocate_storage, allocate_bit_temporary, allocate_carry, allocate_temporary, type_size};
    ghost use Rattle.lir.specs.Abstract.{kind_of, storage_kind_of, purpose_of};
    ghost use Rattle.lir.specs.Sound.{Sound};
    ghost use Rattle.emission.specs.Appends.{Room, Begins};
    ghost use Rattle.emission.specs.Emits.{Emits, EmitsMade, Allocates};
    ghost use Rattle.emission.specs.Temporaries.{MeetsTemporary};

    // Nothing emitted yet; the numbers go on from those of the storages and temporaries that are there.
    pub fn new(code: &'a mut [u8], store: &'a mut [u8], storage: u64, temporary: u64) -> Emitter<'a>
        ensures code { result.code.buf.ghost_name ≡ code.entry.ghost_name }
        ensures store { result.store.buf.ghost_name ≡ store.entry.ghost_name }
        ensures begins { Begins code.old store.old storage temporary result }
    {
        Emitter {
            code: Writer::new(code),
            store: Writer::new(store),
            instructions: 0,
            storage,
            temporary,
            node: NodeId(0),
        }
    }

    // ------------------------------------------------------------ storages

    // The next storage, with the next temporary's number in its name.
    pub fn allocate_storage(
        &mut self,
        kind: StorageKind,
        purpose: Purpose,
        regions: u64,
    ) -> StorageId
        requires { Room 1 self.old }
        ensures { Allocates self.old (allocate_storage (storage_kind_of kind) (purpose_of purpose) regions) result.0 self.new }
    {
        let id = StorageId(self.storage);
        let number = TemporaryId(self.temporary);
        self.storage += 1;
        self.temporary += 1;
        let new = NewStorage {
            id,
            kind,
            purpose,
            number,
            regions,
        };
        lir::print_storage(&mut self.store, new);
        id
    }

    #[tactic(auto, unfolding(spec::specs::Allocation::allocate_bit_temporary))]
    pub fn allocate_bit_temporary(&mut self, purpose: Purpose) -> StorageId
        requires { Room 1 self.old }
        ensures { Allocates self.old (allocate_bit_temporary (purpose_of purpose)) result.0 self.new }
    {
        self.allocate_storage(StorageKind::Bit, purpose, TEMPORARY_REGIONS)
    }

    #[tactic(auto, unfolding(spec::specs::Allocation::allocate_carry))]
    pub fn allocate_carry(&mut self, purpose: Purpose) -> StorageId
        requires { Room 1 self.old }
        ensures { Allocates self.old (allocate_carry (purpose_of purpose)) result.0 self.new }
    {
        self.allocate_storage(StorageKind::Carry, purpose, CARRY_REGIONS)
    }

    // A temporary of a type, given its number and its size in bytes; type 0 is Bool, and a type of no bytes is refused.
    #[tactic(auto, using(crate::specs::Appends::keeps_all, crate::specs::Temporaries::place_bit, crate::specs::Temporaries::place_sized, crate::specs::Temporaries::place_byte, crate::specs::Temporaries::place_bytes, crate::specs::Temporaries::place_none))]
    pub fn allocate_temporary(&mut self, ty: u64, size: u64) -> Result<StorageId, Refusal>
        requires { Room 1 self.old }
        ensures { (T : Tables) → type_size T ty ≡ size → MeetsTemporary self.old (allocate_temporary T ty) ty self.new result }
    {
        if ty == 0 {
            return Ok(self.allocate_storage(StorageKind::Bit, Purpose::Tmp, BOOL_REGIONS));
        }
        let kind = match size {
            0 => return Err(Refusal::UnsupportedType),
            1 => StorageKind::Byte,
            _ => StorageKind::Bytes(size),
        };
        Ok(self.allocate_storage(kind, Purpose::Tmp, TEMPORARY_REGIONS))
    }

    // ------------------------------------------------------------ instructions

    // The one place where an instruction is made.
    pub fn emit(&mut self, kind: InstructionKind)
        requires { (Sound kind) × (Room 1 self.old) }
        ensures { Emits self.old (kind_of kind ∷ []) self.new }
    {
        let node = self.node;
        lir::print_instruction(&mut self.code, Instruction { kind, node });
        self.instructions += 1;
    }

    // Instructions 0 to n - 1 of what `make` makes.
    #[tactic(auto, using(crate::specs::Appends::room_less, crate::specs::Emits::made_none, crate::specs::Emits::made_more, crate::specs::Emits::room_emitted))]
    pub fn emit_each<F: Fn(u64) -> InstructionKind>(&mut self, n: u64, make: F)
        requires room { Room n self.old }
        requires callable { (i : ℕ) → i < n → F.pre make i }
        requires sound { (i : ℕ) (k : _) → F.post make i k → Sound k }
        ensures { EmitsMade (F.post make) n self.old self.new }
    {
        for i in 0..n {
            self.emit(make(i));
        }
    }
}
