ghost use Rattle.std.specs.{Prelude.{◌≡◌, ◌≤◌, ◌<◌, ◌*◌, ◌^◌, ◌++◌, length}, List.{flat_map}};
ghost use Rattle.diy_io.specs.Page.{Sends};
ghost use Rattle.relax_edges.specs.WordParts.{word_of};
ghost use Rattle.exec_graph.specs.Graphs.{barrier_word, fence_word, further_barrier, order_word, relation_word, word_text};

use crate::drawn::Relation;
use arrayvec::ArrayString;
use diy_io::{Failed, Page, Sink};
use micro_ops::Barrier;
use program_meaning::Barred;
use relax_edges::{Edge, FenceKind, Pick};

/// The word of an arrow.
#[derive(Clone, Copy)]
pub(crate) enum Word<'a> {
    /// The name of an edge.
    OfEdge {
        edge: Edge,
    },
    /// The word of a relation to an access with these barriers before it.
    OfPair {
        relation: Relation,
        barriers: &'a [Barred],
    },
}

/// A RISC-V fence, as its instruction is written.
fn fence_word(pred: Pick, succ: Pick) -> &'static [u8]
    ensures { result.now ≡ fence_word pred succ }
{
    match pred {
        Pick::R => match succ {
            Pick::R => b"fence r,r",
            Pick::W => b"fence r,w",
            Pick::RW => b"fence r,rw",
        },
        Pick::W => match succ {
            Pick::R => b"fence w,r",
            Pick::W => b"fence w,w",
            Pick::RW => b"fence w,rw",
        },
        Pick::RW => match succ {
            Pick::R => b"fence rw,r",
            Pick::W => b"fence rw,w",
            Pick::RW => b"fence rw,rw",
        },
    }
}

/// A barrier, as its instruction is written.
fn barrier_word(barrier: Barrier) -> &'static [u8]
    ensures { result.now ≡ barrier_word barrier }
{
    let fence = match barrier {
        Barrier::Fence(fence) => fence,
        Barrier::Isb => return b"isb",
    };
    match fence {
        FenceKind::MFence => b"mfence",
        FenceKind::Sync => b"sync",
        FenceKind::LwSync => b"lwsync",
        FenceKind::Eieio => b"eieio",
        FenceKind::ISync => b"isync",
        FenceKind::DmbSy => b"dmb sy",
        FenceKind::DmbLd => b"dmb ld",
        FenceKind::DmbSt => b"dmb st",
        FenceKind::Dmb => b"dmb",
        FenceKind::Fence { pred, succ } => fence_word(pred, succ),
    }
}

/// Sends a barrier after another.
fn send_further<O: Sink>(barred: &Barred, page: &mut Page, out: &mut O) -> Result<(), Failed>
    ensures { Sends (O.seen out.old) page.old (O.seen out.new) page.new (further_barrier barred.now) result }
{
    page.send_pieces(&[b"; ", barrier_word(barred.kind)], out)
}

/// Sends barriers after another.
fn send_all_further<O: Sink>(
    barriers: &[Barred],
    page: &mut Page,
    out: &mut O,
) -> Result<(), Failed>
    ensures { Sends (O.seen out.old) page.old (O.seen out.new) page.new (flat_map further_barrier barriers.now) result }
{
    for barred in barriers {
        send_further(barred, page, out)?;
    }
    Ok(())
}

/// Sends the word of program order to an access with these barriers before it.
fn send_order<O: Sink>(barriers: &[Barred], page: &mut Page, out: &mut O) -> Result<(), Failed>
    ensures { Sends (O.seen out.old) page.old (O.seen out.new) page.new (order_word barriers.now) result }
{
    match barriers {
        [] => page.send(b"po", out),
        [first, rest @ ..] => {
            page.send(barrier_word(first.kind), out)?;
            send_all_further(rest, page, out)
        }
    }
}

/// Sends the word of a relation to an access with these barriers before it.
fn send_relation<O: Sink>(
    relation: Relation,
    barriers: &[Barred],
    page: &mut Page,
    out: &mut O,
) -> Result<(), Failed>
    ensures { Sends (O.seen out.old) page.old (O.seen out.new) page.new (relation_word relation barriers.now) result }
{
    match relation {
        Relation::Po => send_order(barriers, page, out),
        Relation::Rf => page.send(b"rf", out),
        Relation::Co => page.send(b"co", out),
        Relation::Fr => page.send(b"fr", out),
        Relation::Addr => page.send(b"addr", out),
        Relation::Data => page.send(b"data", out),
        Relation::Ctrl => page.send(b"ctrl", out),
    }
}

/// Sends the name of an edge.
fn send_edge_name<O: Sink>(edge: Edge, page: &mut Page, out: &mut O) -> Result<(), Failed>
    ensures { Sends (O.seen out.old) page.old (O.seen out.new) page.new (word_of edge) result }
{
    let mut word: ArrayString<16> = ArrayString::new();
    edge.word(&mut word);
    page.send(word.as_str().as_bytes(), out)
}

/// Sends the word of an arrow.
pub(crate) fn send_word<O: Sink>(word: Word<'_>, page: &mut Page, out: &mut O) -> Result<(), Failed>
    ensures { Sends (O.seen out.old) page.old (O.seen out.new) page.new (word_text word.entry) result }
{
    match word {
        Word::OfEdge { edge } => send_edge_name(edge, page, out),
        Word::OfPair { relation, barriers } => send_relation(relation, barriers, page, out),
    }
}

/// How many bytes a barrier after another has.
#[tactic(auto, using(crate::proofs::SentLines::barrier_short))]
fn one_further_width(barred: &Barred) -> u128
    ensures width { result ≡ length (further_barrier barred.now) }
    ensures few { result ≤ 16 }
{
    2 + barrier_word(barred.kind).len() as u128
}

/// How many bytes barriers after another have.
fn further_width(barriers: &[Barred]) -> u128
    ensures width { result ≡ length (flat_map further_barrier barriers.now) }
    ensures few { result ≤ 16 * length barriers.now }
{
    let mut width = 0;
    for barred in barriers {
        width += one_further_width(barred);
    }
    width
}

/// How many bytes the word of program order has.
fn order_width(barriers: &[Barred]) -> u128
    ensures width { result ≡ length (order_word barriers.now) }
    ensures few { result < 2 ^ 100 }
{
    match barriers {
        [] => 2,
        [first, rest @ ..] => barrier_word(first.kind).len() as u128 + further_width(rest),
    }
}

/// How many bytes the word of a relation has.
fn relation_width(relation: Relation, barriers: &[Barred]) -> u128
    ensures width { result ≡ length (relation_word relation barriers.now) }
    ensures few { result < 2 ^ 100 }
{
    match relation {
        Relation::Po => order_width(barriers),
        Relation::Rf | Relation::Co | Relation::Fr => 2,
        Relation::Addr | Relation::Data | Relation::Ctrl => 4,
    }
}

/// How many bytes the name of an edge has.
fn edge_width(edge: Edge) -> u128
    ensures width { result ≡ length (word_of edge) }
    ensures few { result < 2 ^ 100 }
{
    let mut word: ArrayString<16> = ArrayString::new();
    edge.word(&mut word);
    word.len() as u128
}

/// How many bytes the word of an arrow has.
pub(crate) fn word_width(word: Word<'_>) -> u128
    ensures width { result ≡ length (word_text word.entry) }
    ensures few { result < 2 ^ 100 }
{
    match word {
        Word::OfEdge { edge } => edge_width(edge),
        Word::OfPair { relation, barriers } => relation_width(relation, barriers),
    }
}
