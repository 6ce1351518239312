ghost use Rattle.std.specs.{Prelude.{◌≡◌, ◌≤◌, ◌+◌, ◌++◌, [], true, length}, Str.{bytes_eq}};
ghost use Rattle.relax_edges.specs.{EdgeTable.{is_diff, source_mark, target_mark}, Order.{pick_rank}};
ghost use Rattle.cycle_names.specs.LinkWords.{link_word, fence_link, dependency_link, mark_letters, kind_link_text};
ghost use Rattle.cycle_names.specs.Fitting.{letters_rank, fence_word_rank, dependency_word_rank, kind_word_rank, word_rank, link_text};

use arrayvec::ArrayString;
use relax_edges::{DepKind, Edge, FenceKind, Kind, Mark, Pick, Sd};

/// The rank of `data`. The ranks of the words of links are in byte order, with gaps.
const DATA_RANK: u8 = 45;

/// The rank of `po`, the word of a link that is program order without marks.
pub(crate) const PO_RANK: u8 = 127;

/// The most bytes that a link adds to a name: a `+` and its word.
pub(crate) const MAX_LINK: usize = 12;

fn pick_rank(pick: Pick) -> u8
    ensures { result ≡ pick_rank pick }
{
    match pick {
        Pick::R => 0,
        Pick::RW => 1,
        Pick::W => 2,
    }
}

/// The rank of a fence's word without letters.
fn fence_word_rank(fence: FenceKind) -> u8
    ensures { result ≡ fence_word_rank fence }
{
    match fence {
        FenceKind::Dmb => 54,
        FenceKind::DmbLd => 55,
        FenceKind::DmbSt => 64,
        FenceKind::DmbSy => 73,
        FenceKind::Eieio => 82,
        FenceKind::Fence { pred, succ } => 91 + 3 * pick_rank(pred) + pick_rank(succ),
        FenceKind::ISync => 100,
        FenceKind::LwSync => 109,
        FenceKind::MFence => 118,
        FenceKind::Sync => 136,
    }
}

/// The rank of a dependency's word with the letters of this rank.
fn dependency_word_rank(dep: DepKind, letters: u8) -> u8
    requires { letters ≤ 8 }
    ensures { result ≡ dependency_word_rank dep letters }
{
    match dep {
        DepKind::Addr => 9 + letters,
        DepKind::Ctrl => {
            if letters < 7 {
                18 + letters
            } else {
                36 + letters
            }
        }
        DepKind::CtrlIsb => 27 + letters,
        DepKind::CtrlIsync => 36 + letters,
    }
}

/// The rank of the letters of two marks in byte order, 0 for none.
fn letters_rank(from: Mark, to: Mark) -> u8
    ensures value { result ≡ letters_rank from to }
    ensures small { result ≤ 8 }
{
    match (from, to) {
        (Mark::Plain, Mark::Plain) => 0,
        (Mark::Acquire, Mark::Acquire) => 1,
        (Mark::Acquire, Mark::Release) => 2,
        (Mark::Acquire, Mark::Plain) => 3,
        (Mark::Release, Mark::Acquire) => 4,
        (Mark::Release, Mark::Release) => 5,
        (Mark::Release, Mark::Plain) => 6,
        (Mark::Plain, Mark::Acquire) => 7,
        (Mark::Plain, Mark::Release) => 8,
    }
}

/// The rank of the word of a link of a kind with the letters of this rank; 0 for a kind that is no
/// link.
fn kind_word_rank(kind: Kind, letters: u8) -> u8
    requires { letters ≤ 8 }
    ensures { result ≡ kind_word_rank kind letters }
{
    match kind {
        Kind::Po { sd: Sd::Diff, .. } => PO_RANK + letters,
        Kind::Fenced {
            fence,
            sd: Sd::Diff,
            ..
        } => fence_word_rank(fence) + letters,
        Kind::Dep {
            dep,
            sd: Sd::Diff,
            ..
        } => dependency_word_rank(dep, letters),
        Kind::Data { sd: Sd::Diff } => DATA_RANK + letters,
        _ => 0,
    }
}

/// The rank of a link's word; 0 for an edge that is no link.
pub(crate) fn word_rank(edge: &Edge) -> u8
    ensures { result ≡ word_rank edge.now }
{
    match edge {
        Edge::Marked(_) => marked_word_rank(edge),
        _ => kind_word_rank(edge.kind(), 0),
    }
}

/// The same as `word_rank`, for an edge with marks. A separate function keeps `word_rank` short for edges
/// without marks, which are the most frequent.
#[inline(never)]
fn marked_word_rank(edge: &Edge) -> u8
    ensures { result ≡ word_rank edge.now }
{
    kind_word_rank(
        edge.kind(),
        letters_rank(edge.source_mark(), edge.target_mark()),
    )
}

fn riscv_fence_word(pred: Pick, succ: Pick) -> &'static str
    ensures { result.now ≡ fence_link (FenceKind.Fence pred succ) }
{
    match (pred, succ) {
        (Pick::R, Pick::R) => "fence.r.r",
        (Pick::R, Pick::W) => "fence.r.w",
        (Pick::R, Pick::RW) => "fence.r.rw",
        (Pick::W, Pick::R) => "fence.w.r",
        (Pick::W, Pick::W) => "fence.w.w",
        (Pick::W, Pick::RW) => "fence.w.rw",
        (Pick::RW, Pick::R) => "fence.rw.r",
        (Pick::RW, Pick::W) => "fence.rw.w",
        (Pick::RW, Pick::RW) => "fence.rw.rw",
    }
}

fn fence_word(fence: FenceKind) -> &'static str
    ensures { result.now ≡ fence_link fence }
{
    match fence {
        FenceKind::MFence => "mfence",
        FenceKind::Sync => "sync",
        FenceKind::LwSync => "lwsync",
        FenceKind::Eieio => "eieio",
        FenceKind::ISync => "isync",
        FenceKind::DmbSy => "dmb.sy",
        FenceKind::DmbLd => "dmb.ld",
        FenceKind::DmbSt => "dmb.st",
        FenceKind::Dmb => "dmb",
        FenceKind::Fence { pred, succ } => riscv_fence_word(pred, succ),
    }
}

fn dependency_word(dep: DepKind) -> &'static str
    ensures { result.now ≡ dependency_link dep }
{
    match dep {
        DepKind::Addr => "addr",
        DepKind::Ctrl => "ctrl",
        DepKind::CtrlIsync => "ctrlisync",
        DepKind::CtrlIsb => "ctrlisb",
    }
}

/// The letters of two marks; none if both are plain.
fn mark_letters(from: Mark, to: Mark) -> &'static str
    ensures { result.now ≡ mark_letters from to }
{
    match (from, to) {
        (Mark::Plain, Mark::Plain) => "",
        (Mark::Acquire, Mark::Acquire) => "aa",
        (Mark::Acquire, Mark::Release) => "al",
        (Mark::Acquire, Mark::Plain) => "ap",
        (Mark::Release, Mark::Acquire) => "la",
        (Mark::Release, Mark::Release) => "ll",
        (Mark::Release, Mark::Plain) => "lp",
        (Mark::Plain, Mark::Acquire) => "pa",
        (Mark::Plain, Mark::Release) => "pl",
    }
}

/// The word of a link of a kind, without letters; empty for a kind that is no link.
#[inline]
fn kind_link(kind: Kind) -> &'static str
    ensures { result.now ≡ kind_link_text kind [] }
{
    match kind {
        Kind::Po { sd: Sd::Diff, .. } => "po",
        Kind::Fenced {
            fence,
            sd: Sd::Diff,
            ..
        } => fence_word(fence),
        Kind::Dep {
            dep,
            sd: Sd::Diff,
            ..
        } => dependency_word(dep),
        Kind::Data { sd: Sd::Diff } => "data",
        _ => "",
    }
}

/// Whether a text is the word of a link.
pub(crate) fn is_spelled(edge: Edge, text: &[u8]) -> bool
    requires { is_diff edge ≡ true }
    ensures { result ≡ bytes_eq (link_word edge) text.now }
{
    let mut word: ArrayString<16> = ArrayString::new();
    word.push_str(kind_link(edge.kind()));
    word.push_str(mark_letters(edge.source_mark(), edge.target_mark()));
    word.as_str().as_bytes() == text
}

/// Adds a `+` and the word of a link to a name, and nothing for another edge.
#[tactic(auto, using(crate::proofs::Tables::link_parts_short, crate::proofs::Tables::link_is_empty))]
#[inline(always)]
pub(crate) fn push_link<const N: usize>(edge: &Edge, name: &mut ArrayString<N>)
    requires { length name.old.bytes + MAX_LINK ≤ N }
    ensures text { name.new.bytes ≡ name.old.bytes ++ link_text edge.now }
    ensures short { length name.new.bytes ≤ length name.old.bytes + MAX_LINK }
{
    let word = kind_link(edge.kind());
    if !word.is_empty() {
        name.push_str("+");
        name.push_str(word);
        match edge {
            Edge::Marked(_) => push_letters(edge, name),
            _ => {}
        }
    }
}

/// Adds the letters of an edge's marks. In a separate function, since most edges have none.
#[inline(never)]
fn push_letters<const N: usize>(edge: &Edge, name: &mut ArrayString<N>)
    requires { length name.old.bytes + length (mark_letters (source_mark edge.now) (target_mark edge.now)) ≤ N }
    ensures { name.new.bytes ≡ name.old.bytes ++ mark_letters (source_mark edge.now) (target_mark edge.now) }
{
    name.push_str(mark_letters(edge.source_mark(), edge.target_mark()));
}
