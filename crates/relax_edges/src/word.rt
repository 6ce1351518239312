ghost use Rattle.std.specs.{Prelude.{◌≡◌, ◌≤◌, ◌<◌, length, map}, Str.{IsAscii}};
ghost use Rattle.relax_edges.specs.{WordParts.{word_of}, AllEdges.{edges_in_order}};

use crate::edge::Edge;
use crate::order::EDGES;
use arrayvec::ArrayString;

/// The names of all edges, in byte order and row by row, so that the index of each is the rank of its edge.
const WORDS: [[&str; 2]; 166] = [
    ["DMB.LDdRR", "DMB.LDdRRAA"],
    ["DMB.LDdRRAP", "DMB.LDdRRPA"],
    ["DMB.LDdRW", "DMB.LDdRWAL"],
    ["DMB.LDdRWAP", "DMB.LDdRWPL"],
    ["DMB.LDdWR", "DMB.LDdWRLA"],
    ["DMB.LDdWRLP", "DMB.LDdWRPA"],
    ["DMB.LDdWW", "DMB.LDdWWLL"],
    ["DMB.LDdWWLP", "DMB.LDdWWPL"],
    ["DMB.LDsRR", "DMB.LDsRRAA"],
    ["DMB.LDsRRAP", "DMB.LDsRRPA"],
    ["DMB.LDsRW", "DMB.LDsRWAL"],
    ["DMB.LDsRWAP", "DMB.LDsRWPL"],
    ["DMB.LDsWR", "DMB.LDsWRLA"],
    ["DMB.LDsWRLP", "DMB.LDsWRPA"],
    ["DMB.LDsWW", "DMB.LDsWWLL"],
    ["DMB.LDsWWLP", "DMB.LDsWWPL"],
    ["DMB.STdRR", "DMB.STdRRAA"],
    ["DMB.STdRRAP", "DMB.STdRRPA"],
    ["DMB.STdRW", "DMB.STdRWAL"],
    ["DMB.STdRWAP", "DMB.STdRWPL"],
    ["DMB.STdWR", "DMB.STdWRLA"],
    ["DMB.STdWRLP", "DMB.STdWRPA"],
    ["DMB.STdWW", "DMB.STdWWLL"],
    ["DMB.STdWWLP", "DMB.STdWWPL"],
    ["DMB.STsRR", "DMB.STsRRAA"],
    ["DMB.STsRRAP", "DMB.STsRRPA"],
    ["DMB.STsRW", "DMB.STsRWAL"],
    ["DMB.STsRWAP", "DMB.STsRWPL"],
    ["DMB.STsWR", "DMB.STsWRLA"],
    ["DMB.STsWRLP", "DMB.STsWRPA"],
    ["DMB.STsWW", "DMB.STsWWLL"],
    ["DMB.STsWWLP", "DMB.STsWWPL"],
    ["DMB.SYdRR", "DMB.SYdRRAA"],
    ["DMB.SYdRRAP", "DMB.SYdRRPA"],
    ["DMB.SYdRW", "DMB.SYdRWAL"],
    ["DMB.SYdRWAP", "DMB.SYdRWPL"],
    ["DMB.SYdWR", "DMB.SYdWRLA"],
    ["DMB.SYdWRLP", "DMB.SYdWRPA"],
    ["DMB.SYdWW", "DMB.SYdWWLL"],
    ["DMB.SYdWWLP", "DMB.SYdWWPL"],
    ["DMB.SYsRR", "DMB.SYsRRAA"],
    ["DMB.SYsRRAP", "DMB.SYsRRPA"],
    ["DMB.SYsRW", "DMB.SYsRWAL"],
    ["DMB.SYsRWAP", "DMB.SYsRWPL"],
    ["DMB.SYsWR", "DMB.SYsWRLA"],
    ["DMB.SYsWRLP", "DMB.SYsWRPA"],
    ["DMB.SYsWW", "DMB.SYsWWLL"],
    ["DMB.SYsWWLP", "DMB.SYsWWPL"],
    ["DMBdRR", "DMBdRW"],
    ["DMBdWR", "DMBdWW"],
    ["DMBsRR", "DMBsRW"],
    ["DMBsWR", "DMBsWW"],
    ["DpAddrdR", "DpAddrdRAA"],
    ["DpAddrdRAP", "DpAddrdRPA"],
    ["DpAddrdW", "DpAddrdWAL"],
    ["DpAddrdWAP", "DpAddrdWPL"],
    ["DpAddrsR", "DpAddrsRAA"],
    ["DpAddrsRAP", "DpAddrsRPA"],
    ["DpAddrsW", "DpAddrsWAL"],
    ["DpAddrsWAP", "DpAddrsWPL"],
    ["DpCtrlIsbdR", "DpCtrlIsbdRAA"],
    ["DpCtrlIsbdRAP", "DpCtrlIsbdRPA"],
    ["DpCtrlIsbdW", "DpCtrlIsbdWAL"],
    ["DpCtrlIsbdWAP", "DpCtrlIsbdWPL"],
    ["DpCtrlIsbsR", "DpCtrlIsbsRAA"],
    ["DpCtrlIsbsRAP", "DpCtrlIsbsRPA"],
    ["DpCtrlIsbsW", "DpCtrlIsbsWAL"],
    ["DpCtrlIsbsWAP", "DpCtrlIsbsWPL"],
    ["DpCtrlIsyncdR", "DpCtrlIsyncdW"],
    ["DpCtrlIsyncsR", "DpCtrlIsyncsW"],
    ["DpCtrldR", "DpCtrldRAA"],
    ["DpCtrldRAP", "DpCtrldRPA"],
    ["DpCtrldW", "DpCtrldWAL"],
    ["DpCtrldWAP", "DpCtrldWPL"],
    ["DpCtrlsR", "DpCtrlsRAA"],
    ["DpCtrlsRAP", "DpCtrlsRPA"],
    ["DpCtrlsW", "DpCtrlsWAL"],
    ["DpCtrlsWAP", "DpCtrlsWPL"],
    ["DpDatadW", "DpDatadWAL"],
    ["DpDatadWAP", "DpDatadWPL"],
    ["DpDatasW", "DpDatasWAL"],
    ["DpDatasWAP", "DpDatasWPL"],
    ["EieiodRR", "EieiodRW"],
    ["EieiodWR", "EieiodWW"],
    ["EieiosRR", "EieiosRW"],
    ["EieiosWR", "EieiosWW"],
    ["Fence.r.rdRR", "Fence.r.rdRW"],
    ["Fence.r.rdWR", "Fence.r.rdWW"],
    ["Fence.r.rsRR", "Fence.r.rsRW"],
    ["Fence.r.rsWR", "Fence.r.rsWW"],
    ["Fence.r.rwdRR", "Fence.r.rwdRW"],
    ["Fence.r.rwdWR", "Fence.r.rwdWW"],
    ["Fence.r.rwsRR", "Fence.r.rwsRW"],
    ["Fence.r.rwsWR", "Fence.r.rwsWW"],
    ["Fence.r.wdRR", "Fence.r.wdRW"],
    ["Fence.r.wdWR", "Fence.r.wdWW"],
    ["Fence.r.wsRR", "Fence.r.wsRW"],
    ["Fence.r.wsWR", "Fence.r.wsWW"],
    ["Fence.rw.rdRR", "Fence.rw.rdRW"],
    ["Fence.rw.rdWR", "Fence.rw.rdWW"],
    ["Fence.rw.rsRR", "Fence.rw.rsRW"],
    ["Fence.rw.rsWR", "Fence.rw.rsWW"],
    ["Fence.rw.rwdRR", "Fence.rw.rwdRW"],
    ["Fence.rw.rwdWR", "Fence.rw.rwdWW"],
    ["Fence.rw.rwsRR", "Fence.rw.rwsRW"],
    ["Fence.rw.rwsWR", "Fence.rw.rwsWW"],
    ["Fence.rw.wdRR", "Fence.rw.wdRW"],
    ["Fence.rw.wdWR", "Fence.rw.wdWW"],
    ["Fence.rw.wsRR", "Fence.rw.wsRW"],
    ["Fence.rw.wsWR", "Fence.rw.wsWW"],
    ["Fence.w.rdRR", "Fence.w.rdRW"],
    ["Fence.w.rdWR", "Fence.w.rdWW"],
    ["Fence.w.rsRR", "Fence.w.rsRW"],
    ["Fence.w.rsWR", "Fence.w.rsWW"],
    ["Fence.w.rwdRR", "Fence.w.rwdRW"],
    ["Fence.w.rwdWR", "Fence.w.rwdWW"],
    ["Fence.w.rwsRR", "Fence.w.rwsRW"],
    ["Fence.w.rwsWR", "Fence.w.rwsWW"],
    ["Fence.w.wdRR", "Fence.w.wdRW"],
    ["Fence.w.wdWR", "Fence.w.wdWW"],
    ["Fence.w.wsRR", "Fence.w.wsRW"],
    ["Fence.w.wsWR", "Fence.w.wsWW"],
    ["Fre", "FreAL"],
    ["FreAP", "FrePL"],
    ["Fri", "FriAL"],
    ["FriAP", "FriPL"],
    ["ISyncdRR", "ISyncdRW"],
    ["ISyncdWR", "ISyncdWW"],
    ["ISyncsRR", "ISyncsRW"],
    ["ISyncsWR", "ISyncsWW"],
    ["LwSyncdRR", "LwSyncdRW"],
    ["LwSyncdWR", "LwSyncdWW"],
    ["LwSyncsRR", "LwSyncsRW"],
    ["LwSyncsWR", "LwSyncsWW"],
    ["MFencedRR", "MFencedRW"],
    ["MFencedWR", "MFencedWW"],
    ["MFencesRR", "MFencesRW"],
    ["MFencesWR", "MFencesWW"],
    ["PodRR", "PodRRAA"],
    ["PodRRAP", "PodRRPA"],
    ["PodRW", "PodRWAL"],
    ["PodRWAP", "PodRWPL"],
    ["PodWR", "PodWRLA"],
    ["PodWRLP", "PodWRPA"],
    ["PodWW", "PodWWLL"],
    ["PodWWLP", "PodWWPL"],
    ["PosRR", "PosRRAA"],
    ["PosRRAP", "PosRRPA"],
    ["PosRW", "PosRWAL"],
    ["PosRWAP", "PosRWPL"],
    ["PosWR", "PosWRLA"],
    ["PosWRLP", "PosWRPA"],
    ["PosWW", "PosWWLL"],
    ["PosWWLP", "PosWWPL"],
    ["Rfe", "RfeLA"],
    ["RfeLP", "RfePA"],
    ["Rfi", "RfiLA"],
    ["RfiLP", "RfiPA"],
    ["SyncdRR", "SyncdRW"],
    ["SyncdWR", "SyncdWW"],
    ["SyncsRR", "SyncsRW"],
    ["SyncsWR", "SyncsWW"],
    ["Wse", "WseLL"],
    ["WseLP", "WsePL"],
    ["Wsi", "WsiLL"],
    ["WsiLP", "WsiPL"],
];

pub(crate) fn words() -> &'static [&'static str]
    ensures words { map (λ word. word.now) result.now ≡ map word_of edges_in_order }
    ensures count { length result.now ≡ EDGES }
{
    WORDS.as_flattened()
}

impl Edge {
    /// The printed name of the edge: ASCII, 3 to 14 bytes long.
    ///
    /// The names are those of the diy part of the herdtools manual, "Candidate relaxations", except
    /// those with `DpCtrlIsb`, `ISync` and the RISC-V fences, which are own.
    pub fn text(self) -> &'static str
        ensures word { result.now ≡ word_of self }
        ensures not_short { 3 ≤ length result.now }
        ensures short { length result.now ≤ 14 }
        ensures ascii { IsAscii result.now }
    {
        words()[usize::from(self.rank())]
    }

    /// Replaces what `out` holds by the printed name of the edge, as `text` gives it.
    pub fn word(self, out: &mut ArrayString<16>)
        ensures word { out.new.bytes ≡ word_of self }
        ensures not_short { 3 ≤ length out.new.bytes }
        ensures short { length out.new.bytes ≤ 14 }
        ensures ascii { IsAscii out.new.bytes }
    {
        out.clear();
        out.push_str(self.text());
    }
}
