// A new pointer's storage, and the instructions that fill its two bytes with an address.
#![tactic(auto)]

ghost use Rattle.std.specs.Prelude.{◌∷◌, []};
ghost use Rattle.spec.specs.Lir as spec-lir;
ghost use Rattle.spec.specs.Allocation.{allocate_sized};
ghost use Rattle.emission.specs.Appends.{Room};
ghost use Rattle.emission.specs.Emits.{Emits, Allocates};

use emission::{Emitter, TEMPORARY_REGIONS};
use lir::{ByteStorage, InstructionKind, Purpose, StorageId, StorageKind};

// A temporary of two bytes, as a pointer has.
pub fn allocate_pointer(e: &mut Emitter<'_>) -> StorageId
    requires { Room 1 e.old }
    ensures { Allocates e.old (allocate_sized 2) result.0 e.new }
{
    e.allocate_storage(StorageKind::Bytes(2), Purpose::Tmp, TEMPORARY_REGIONS)
}

pub fn function_address(e: &mut Emitter<'_>, to: StorageId, f: u64)
    requires { Room 1 e.old }
    ensures { Emits e.old (spec-lir.function_address (record { storage = to.0; offset = 0 }) (record { storage = to.0; offset = 1 }) f ∷ []) e.new }
{
    let low = ByteStorage {
        storage: to,
        offset: 0,
    };
    let high = ByteStorage {
        storage: to,
        offset: 1,
    };
    e.emit(InstructionKind::FunctionAddress(low, high, f));
}

pub fn address_of(e: &mut Emitter<'_>, to: StorageId, s: StorageId, o: u64)
    requires { Room 1 e.old }
    ensures { Emits e.old (spec-lir.address_of (record { storage = to.0; offset = 0 }) (record { storage = to.0; offset = 1 }) s.0 o ∷ []) e.new }
{
    let low = ByteStorage {
        storage: to,
        offset: 0,
    };
    let high = ByteStorage {
        storage: to,
        offset: 1,
    };
    e.emit(InstructionKind::AddressOf(low, high, s, o));
}
