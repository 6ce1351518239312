ghost use Rattle.std.specs.{Prelude.{◌≡◌, ◌<◌, ◌≤◌, [], true, length, slice_get, Some, Ok, Err, MatchResult, ◌==◌}, List.{list_any}};
ghost use Rattle.relax_edges.specs.{JoinedEdges.is_joined, Order.is_same};
ghost use Rattle.edges_from_text.specs.{Relaxations.{IsRelax, IsRelaxes, are_distinct_paths}, RelaxKept.{keep_path, at_most_64}};

use crate::relax_error::RelaxKind;
use arrayvec::ArrayVec;
use relax_edges::Edge;
use std::marker::Model;

/// A relaxation: 1 to 8 edges, each of which joins the next.
#[derive(Drop)]
pub struct Relax {
    edges: ArrayVec<Edge, 8>,
}

impl Model for Relax {
    ghost use Rattle.std.specs.Prelude.{List};
    ghost use Rattle.relax_edges.specs.declared.edge.Edge.{Edge as EdgeValue};
    ghost use Rattle.edges_from_text.specs.Relaxations.{IsRelax};

    ghost Value = { List EdgeValue };

    ghost view = { λ r. r.edges.items };

    ghost invariant = { λ r. IsRelax r.edges.items };
}

impl Default for Relax {
    fn default() -> Relax {
        let mut edges = ArrayVec::new();
        edges.push(Edge::default());
        Relax { edges }
    }
}

impl Relax {
    /// The edges, in order.
    pub fn edges(&self) -> &[Edge]
        ensures value { result.now ≡ self.now }
        ensures some { 0 < length result.now }
        ensures few { length result.now ≤ 8 }
        ensures joined { is_joined result.now ≡ true }
    {
        self.edges.as_slice()
    }

    fn from_path(path: &[Edge]) -> Relax
        requires { IsRelax path.now }
        ensures { result ≡ path.now }
    {
        let mut edges = ArrayVec::new();
        match edges.try_extend_from_slice(path) {
            Ok(()) => Relax { edges },
            Err(_) => unreachable!(),
        }
    }
}

/// Relaxations in order: at most 64, no two of which are the same.
#[derive(Drop)]
pub struct Relaxes {
    list: ArrayVec<Relax, 64>,
}

impl Model for Relaxes {
    ghost use Rattle.std.specs.Prelude.{List};
    ghost use Rattle.relax_edges.specs.declared.edge.Edge.{Edge as EdgeValue};
    ghost use Rattle.edges_from_text.specs.Relaxations.{IsRelaxes};

    ghost Value = { List (List EdgeValue) };

    ghost view = { λ r. r.list.items };

    ghost invariant = { λ r. IsRelaxes r.list.items };
}

impl Relaxes {
    /// The empty list.
    pub fn new() -> Relaxes
        ensures { result ≡ [] }
    {
        Relaxes {
            list: ArrayVec::new(),
        }
    }

    /// The number of relaxations.
    pub fn len(&self) -> usize
        ensures value { result ≡ length self.now }
        ensures few { result ≤ 64 }
        ensures distinct { are_distinct_paths self.now ≡ true }
    {
        self.list.len()
    }

    /// Whether there is none.
    pub fn is_empty(&self) -> bool
        ensures { result ≡ (length self.now == 0) }
    {
        self.list.is_empty()
    }

    /// Relaxation `i` of the list, from 0; `i` is below the length.
    pub fn get(&self, i: usize) -> &Relax
        requires { i < length self.now }
        ensures { slice_get self.now i ≡ Some result.now }
    {
        &self.list.as_slice()[i]
    }

    /// The relaxations, in order.
    pub fn as_slice(&self) -> &[Relax]
        ensures { result.now ≡ self.now }
    {
        self.list.as_slice()
    }

    pub(crate) fn clear(&mut self)
        ensures { self.new ≡ [] }
    {
        self.list.clear();
    }

    fn contains(&self, path: &[Edge]) -> bool
        ensures { result ≡ list_any (is_same path.now) self.now }
    {
        self.list.iter().any(|kept| path == kept.edges())
    }

    /// Appends a path, unless the list already has it; `TooManyRelaxes` if the list is full.
    #[tactic(auto, using(crate::proofs::Kept::keep_there, crate::proofs::Kept::keep_full, crate::proofs::Kept::keep_room, crate::proofs::Kept::relaxes_end))]
    pub(crate) fn keep(&mut self, path: &[Edge]) -> Result<(), RelaxKind>
        requires { IsRelax path.now }
        ensures { MatchResult result (λ _. at_most_64 (keep_path self.old path.now) ≡ Ok self.new)
            (λ kind. at_most_64 (keep_path self.old path.now) ≡ Err kind) }
    {
        if self.contains(path) {
            return Ok(());
        }
        if self.list.is_full() {
            return Err(RelaxKind::TooManyRelaxes);
        }
        self.list.push(Relax::from_path(path));
        Ok(())
    }
}
