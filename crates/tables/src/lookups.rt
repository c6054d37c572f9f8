// The tables of a ticket that reading accepted, and its lines by their numbers.
ghost use Rattle.spec.specs.Readable.{Readable};
ghost use Rattle.tables.specs.Tables.{tables_of, Sized};
ghost use Rattle.tables.specs.OneProof.{Readable-prop};

use super::{
    Counts, NodeKind, PlaceKind, Placed, TypeKind, behind, cell, list_at, node_in, number,
    place_kind, placed_row, type_in,
};

/// The rows of all lines, their numbers, and how many lines of each kind there are: few enough for a row's place to be worked out.
#[derive(Clone, Copy)]
pub struct Lines<'a> {
    pub rows: &'a [u64],
    pub lists: &'a [u64],
    pub counts: Counts,
    pub ghost sized: { Sized counts },
}

/// The lines of a ticket that reading accepted.
#[derive(Clone, Copy)]
pub struct Tables<'a> {
    pub lines: Lines<'a>,
    pub ghost readable: { Readable (tables_of lines.rows.now lines.lists.now lines.counts) } by { Readable-prop (tables_of lines.rows.now lines.lists.now lines.counts) },
}

impl Lines<'_> {
    ghost use Rattle.std.specs.Prelude.{◌≡◌, ◌+◌, get_or};
    ghost use Rattle.std.specs.Option.{option_map};
    ghost use Rattle.spec.specs.Operands.{nth};
    ghost use Rattle.tables.specs.Tables.{type_kind_at, size_at, weight_at, owner_at, placed_line, variables_of, statics_of, place_kind_at, node_kind_at, node_type_at, node_line_at};

    /// Word i of a list that begins at `start`.
    pub fn list_at(&self, start: u64, i: u64) -> u64
        ensures { result ≡ get_or self.now.lists.now (start + i) 0 }
    {
        list_at(self.lists, start, i)
    }

    #[tactic(auto, using(crate::proofs::Laws::few_lines), unfolding(crate::specs::Tables::type_kind_at))]
    pub fn type_at(&self, k: u64) -> TypeKind
        ensures { result ≡ type_kind_at self.now.rows.now self.now.lists.now self.now.counts k }
    {
        let types = self.counts.types;
        let w = cell(self.rows, 0, types, k, 0, 0);
        let start = cell(self.rows, 0, types, k, 1, 0);
        let n = cell(self.rows, 0, types, k, 2, 0);
        type_in(self.lists, w, start, n)
    }

    /// The stored size.
    #[tactic(auto, using(crate::proofs::Laws::few_lines))]
    pub fn type_size(&self, k: u64) -> u64
        ensures { result ≡ size_at self.now.rows.now self.now.counts k }
    {
        cell(self.rows, 0, self.counts.types, k, 3, 0)
    }

    #[tactic(auto, using(crate::proofs::Laws::few_lines))]
    pub fn type_weight(&self, k: u64) -> u64
        ensures { result ≡ weight_at self.now.rows.now self.now.counts k }
    {
        cell(self.rows, 0, self.counts.types, k, 4, 1)
    }

    #[tactic(auto, using(crate::proofs::Laws::few_lines))]
    pub fn storage_owner(&self, k: u64) -> u64
        ensures { result ≡ owner_at self.now.rows.now self.now.lists.now self.now.counts k }
    {
        number(self.rows, self.lists, 1, self.counts.storages, k, 2)
    }

    #[tactic(auto, using(crate::proofs::Laws::few_lines, crate::proofs::Laws::nth_placed))]
    pub fn variable_at(&self, k: u64) -> Option<Placed>
        ensures { nth (variables_of self.now.rows.now self.now.lists.now self.now.counts) k ≡ option_map placed_line result }
    {
        placed_row(self.rows, self.lists, 2, self.counts.variables, k)
    }

    #[tactic(auto, using(crate::proofs::Laws::few_lines, crate::proofs::Laws::nth_placed))]
    pub fn static_at(&self, k: u64) -> Option<Placed>
        ensures { nth (statics_of self.now.rows.now self.now.lists.now self.now.counts) k ≡ option_map placed_line result }
    {
        placed_row(self.rows, self.lists, 3, self.counts.statics, k)
    }

    #[tactic(auto, using(crate::proofs::Laws::few_lines), unfolding(crate::specs::Tables::place_kind_at))]
    pub fn place_at(&self, k: u64) -> PlaceKind
        ensures { result ≡ place_kind_at self.now.rows.now self.now.lists.now self.now.counts k }
    {
        let places = self.counts.places;
        let w = cell(self.rows, 4, places, k, 0, 0);
        let a = number(self.rows, self.lists, 4, places, k, 0);
        let b = number(self.rows, self.lists, 4, places, k, 1);
        place_kind(w, a, b)
    }

    #[tactic(auto, using(crate::proofs::Laws::few_lines), unfolding(crate::specs::Tables::node_kind_at))]
    pub fn node_at(&self, k: u64) -> NodeKind
        ensures { result ≡ node_kind_at self.now.rows.now self.now.lists.now self.now.counts k }
    {
        let nodes = self.counts.nodes;
        let w = cell(self.rows, 5, nodes, k, 0, 4);
        let start = cell(self.rows, 5, nodes, k, 1, 0);
        let n = cell(self.rows, 5, nodes, k, 2, 0);
        let rest = if n == 0 { 0 } else { n - 1 };
        node_in(self.lists, w, behind(self.lists, start), rest)
    }

    #[tactic(auto, using(crate::proofs::Laws::few_lines))]
    pub fn node_type(&self, k: u64) -> u64
        ensures { result ≡ node_type_at self.now.rows.now self.now.lists.now self.now.counts k }
    {
        number(self.rows, self.lists, 5, self.counts.nodes, k, 0)
    }

    #[tactic(auto, using(crate::proofs::Laws::few_lines))]
    pub fn node_line(&self, k: u64) -> u64
        ensures { result ≡ node_line_at self.now.rows.now self.now.counts k }
    {
        cell(self.rows, 5, self.counts.nodes, k, 3, 0)
    }
}
