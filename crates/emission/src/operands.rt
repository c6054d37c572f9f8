// An operator's two values, and where its bytes go.
ghost use Rattle.lir.specs.Abstract.{Small};

use lir::{Bytes, Destinations};

#[derive(Clone, Copy, Debug, PartialEq, Eq)]
pub struct Operands {
    pub to: Destinations,
    pub left: Bytes,
    pub right: Bytes,
    pub ghost left_small: { Small left },
    pub ghost right_small: { Small right },
}
