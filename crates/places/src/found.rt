// What places and types lead to.
ghost use Rattle.std.specs.Prelude.{◌≤◌};
ghost use Rattle.spec.specs.Limits.{offset_limit, type_size_limit};

use lir::StorageId;
use tables::TypeKind;

/// A part of a type: where it begins, and its own type.
#[derive(Clone, Copy, Debug, PartialEq, Eq)]
pub struct Part {
    pub offset: u64,
    pub ty: u64,
}

/// A base's type is a line's content: an offset makes an opaque type that no line need have.
#[derive(Clone, Copy)]
pub struct Base {
    pub storage: StorageId,
    pub offset: u64,
    pub kind: TypeKind,
    pub size: u64,
    pub bit: bool,
    pub ghost offset_most: { offset ≤ offset_limit },
    pub ghost size_most: { size ≤ type_size_limit },
}

/// Where a value stands.
#[derive(Clone, Copy)]
pub struct Location {
    pub storage: StorageId,
    pub offset: u64,
    pub ty: u64,
    pub bit: bool,
}
