// The words of types.
ghost use Rattle.std.specs.Prelude.{◌≡◌};
ghost use Rattle.spec.specs.Read.{type_number};
ghost use Rattle.tables.specs.Tables.{type_word_by};
ghost use Rattle.line_checks.specs.Words.{word_of};

/// A type's word.
#[derive(Clone, Copy, Debug, PartialEq, Eq)]
pub enum TypeWord {
    Unit,
    Bool,
    Bits,
    Float,
    Pointer,
    Array,
    Struct,
    Tuple,
    Opaque,
}

impl TypeWord {
    pub fn number(self) -> u64
        ensures { result ≡ type_number (word_of self) }
    {
        self as u64
    }
}

/// By its number in a row of lent words, which may be any: the first word where there is no such number.
impl From<u64> for TypeWord {
    ghost from_gives = { λ n w. word_of w ≡ type_word_by n };

    #[tactic(auto, using(crate::proofs::WordLaws::by_other), unfolding(tables::specs::Tables::type_word_by))]
    fn from(number: u64) -> Self {
        match number {
            1 => TypeWord::Bool,
            2 => TypeWord::Bits,
            3 => TypeWord::Float,
            4 => TypeWord::Pointer,
            5 => TypeWord::Array,
            6 => TypeWord::Struct,
            7 => TypeWord::Tuple,
            8 => TypeWord::Opaque,
            _ => TypeWord::Unit,
        }
    }
}
