// Lines of the listing that are printed once lowering has ended: the storages that are narrowed, and the value.
#![tactic(auto)]

ghost use Rattle.std.specs.Prelude.{◌∷◌};
ghost use Rattle.text.specs.Writes.{Writes};
ghost use Rattle.values.specs.Heads.{head_of, Sound_value};
ghost use Rattle.parts.specs.Records.{heads_in, AreRecords};
ghost use Rattle.printing.specs.Lines.{head_line, head_lines};
ghost use Rattle.printing.specs.Marks.{marks_from, narrowed_lines};

use lir::StorageId;
use text::writer::Writer;
use values::{Repr, Value};

// The line of one record.
fn print_head(w: &mut Writer<'_>, v: Value)
    requires { Sound_value v }
    ensures { Writes w.old (head_line (head_of v)) w.new }
{
    match v.repr {
        Repr::Unit => lir::print_unit(w, v.ty),
        Repr::Bit(b) => lir::print_bit(w, v.ty, b),
        Repr::Bytes(b) => lir::print_value_bytes(w, v.ty, b),
        Repr::Aggregate(n, _) => lir::print_aggregate(w, v.ty, n),
    }
}

/// A value's lines: its head's, then those of its parts, by their records.
#[tactic(auto, using(crate::proofs::Laws::printing_first, crate::proofs::Laws::next_sound))]
pub fn print_value(w: &mut Writer<'_>, v: Value, records: &[u64])
    requires { (Sound_value v) × (AreRecords records.now) }
    ensures { Writes w.old (head_lines (head_of v ∷ heads_in records.now)) w.new }
{
    print_head(w, v);
    for record in records.chunks_exact(8) {
        print_head(w, values::value_at(record, 0));
    }
}

/// A line for each of the first n storages that is marked.
#[tactic(auto, using(crate::proofs::Laws::marking_none))]
pub fn print_narrowed(w: &mut Writer<'_>, narrowed: &[u64], n: u64)
    ensures { Writes w.old (narrowed_lines (marks_from n 0 narrowed.now)) w.new }
{
    // Read for its range alone, which the proof needs where no line is printed.
    let _at = w.at;
    for (k, mark) in (0..n).zip(narrowed) {
        if *mark != 0 {
            lir::print_narrowed(w, StorageId(k));
        }
    }
}
