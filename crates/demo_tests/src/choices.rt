ghost use Rattle.std.specs.Prelude.{◌≡◌, ◌<◌, ◌++◌, true, if◌then◌else◌, length, [], ◌∷◌};
ghost use Rattle.relax_edges.specs.declared.kinds.Dir.TheVariants.{R, W};
ghost use Rattle.demo_tests.specs.{Filled.{is_choice}, FilledLinks.{choice_of, choices_of}};

use arrayvec::ArrayVec;
use relax_edges::{ArchName, Dir, EDGES, Edge, Mark};

/// The most choices for a link, on any architecture.
const MAX_SLOT_CHOICES: usize = 16;

type LinkChoices = ArrayVec<Edge, MAX_SLOT_CHOICES>;

/// The choices for links on an architecture, by the directions of the accesses that a link joins.
#[derive(Drop)]
pub(crate) struct Choices {
    pub(crate) arch: ArchName,
    read_read: LinkChoices,
    read_write: LinkChoices,
    write_read: LinkChoices,
    write_write: LinkChoices,
    ghost read_read_are: { read_read.items ≡ choices_of arch R R },
    ghost read_write_are: { read_write.items ≡ choices_of arch R W },
    ghost write_read_are: { write_read.items ≡ choices_of arch W R },
    ghost write_write_are: { write_write.items ≡ choices_of arch W W },
}

impl Choices {
    pub(crate) fn new(arch: ArchName) -> Choices
        ensures { result.arch ≡ arch }
    {
        Choices {
            arch,
            read_read: choices_of(arch, Dir::R, Dir::R),
            read_write: choices_of(arch, Dir::R, Dir::W),
            write_read: choices_of(arch, Dir::W, Dir::R),
            write_write: choices_of(arch, Dir::W, Dir::W),
        }
    }

    /// The choices for a link between accesses of these directions.
    #[tactic(auto, using(crate::proofs::ChoiceLaws::some_choices))]
    fn edges_between(&self, from: Dir, to: Dir) -> &[Edge]
        ensures choices { result.now ≡ choices_of self.now.arch from to }
        ensures some { 0 < length result.now }
    {
        match from {
            Dir::R => match to {
                Dir::R => self.read_read.as_slice(),
                Dir::W => self.read_write.as_slice(),
            },
            Dir::W => match to {
                Dir::R => self.write_read.as_slice(),
                Dir::W => self.write_write.as_slice(),
            },
        }
    }

    /// The choice for a link by the drawn number.
    #[tactic(auto, unfolding(crate::specs::FilledLinks::choice_of))]
    pub(crate) fn choice(&self, drawn: u32, link: Edge) -> Edge
        ensures { result ≡ choice_of self.now.arch drawn link }
    {
        let choices = self.edges_between(link.source(), link.target());
        choices[drawn as usize % choices.len()]
    }
}

/// The choices for a link between accesses of these directions, in the byte order of their names.
fn choices_of(arch: ArchName, from: Dir, to: Dir) -> LinkChoices
    ensures { result.items ≡ choices_of arch from to }
{
    let mut choices = LinkChoices::new();
    for rank in 0..EDGES {
        add_choice(arch, from, to, Edge::at_rank(rank), &mut choices);
    }
    choices
}

/// Adds an edge if it is a choice for a link between accesses of these directions.
fn add_choice(arch: ArchName, from: Dir, to: Dir, edge: Edge, choices: &mut LinkChoices)
    requires { is_choice arch from to edge ≡ true → length choices.old.items < 16 }
    ensures { choices.new.items ≡ choices.old.items ++ (if is_choice arch from to edge then edge ∷ [] else []) }
{
    if is_choice(arch, from, to, edge) {
        choices.push(edge);
    }
}

/// Whether an edge is a choice for a link between accesses of these directions.
#[tactic(auto, unfolding(crate::specs::Filled::is_choice))]
fn is_choice(arch: ArchName, from: Dir, to: Dir, edge: Edge) -> bool
    ensures { result ≡ is_choice arch from to edge }
{
    !edge.is_external()
        && edge.is_diff()
        && edge.of_arch(arch)
        && edge.source() == from
        && edge.target() == to
        && edge.source_mark() == Mark::Plain
        && edge.target_mark() == Mark::Plain
}
