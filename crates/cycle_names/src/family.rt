ghost use Rattle.std.specs.{Prelude.{◌≡◌, map}, List.{find}, Str.{bytes_eq}};
ghost use Rattle.cycle_names.specs.{Families.{family_word, family_edges, all_families}, Fitting.{slot_edge}};

use crate::slot::Slot;

const RR: Slot = Slot::RR;

const RW: Slot = Slot::RW;

const WR: Slot = Slot::WR;

const WW: Slot = Slot::WW;

const RFE: Slot = Slot::Rfe;

const FRE: Slot = Slot::Fre;

const WSE: Slot = Slot::Wse;

const SB: [Slot; 4] = [WR, FRE, WR, FRE];

const MP: [Slot; 4] = [WW, RFE, RR, FRE];

const LB: [Slot; 4] = [RW, RFE, RW, RFE];

const R: [Slot; 4] = [WW, WSE, WR, FRE];

const S: [Slot; 4] = [WW, RFE, RW, WSE];

const W2: [Slot; 4] = [WW, WSE, WW, WSE];

const WRC: [Slot; 5] = [RFE, RW, RFE, RR, FRE];

const RWC: [Slot; 5] = [RFE, RR, FRE, WR, FRE];

const ISA2: [Slot; 6] = [WW, RFE, RW, RFE, RR, FRE];

const IRIW: [Slot; 6] = [RFE, RR, FRE, RFE, RR, FRE];

const WRWC: [Slot; 6] = [WW, RFE, RR, FRE, WR, FRE];

const SB3: [Slot; 6] = [WR, FRE, WR, FRE, WR, FRE];

const LB3: [Slot; 6] = [RW, RFE, RW, RFE, RW, RFE];

const W3: [Slot; 6] = [WW, WSE, WW, WSE, WW, WSE];

/// The most edges of a family's cycle.
pub(crate) const LONGEST: usize = 6;

/// The families of the table, in its order.
pub const FAMILIES: [Family; 14] = [
    Family::SB,
    Family::MP,
    Family::LB,
    Family::R,
    Family::S,
    Family::W2,
    Family::WRC,
    Family::RWC,
    Family::ISA2,
    Family::IRIW,
    Family::WRWC,
    Family::SB3,
    Family::LB3,
    Family::W3,
];

/// The families of cycles that have names of their own, after the litmus tests of the herdtools
/// manual, and `Other` for the cycles that belong to none.
#[derive(Clone, Copy)]
pub enum Family {
    /// Store buffering.
    SB,
    /// Message passing.
    MP,
    /// Load buffering.
    LB,
    R,
    S,
    /// `2+2W`.
    W2,
    /// Write to read causality.
    WRC,
    /// Read to write causality.
    RWC,
    ISA2,
    /// Independent reads of independent writes.
    IRIW,
    /// `W+RWC`.
    WRWC,
    /// `3.SB`.
    SB3,
    /// `3.LB`.
    LB3,
    /// `3.2W`.
    W3,
    /// No family of the table.
    Other,
}

impl Family {
    /// The name of the family; `OTHER` for `Other`.
    pub fn word(self) -> &'static str
        ensures { result.now ≡ family_word self }
    {
        match self {
            Family::SB => "SB",
            Family::MP => "MP",
            Family::LB => "LB",
            Family::R => "R",
            Family::S => "S",
            Family::W2 => "2+2W",
            Family::WRC => "WRC",
            Family::RWC => "RWC",
            Family::ISA2 => "ISA2",
            Family::IRIW => "IRIW",
            Family::WRWC => "W+RWC",
            Family::SB3 => "3.SB",
            Family::LB3 => "3.LB",
            Family::W3 => "3.2W",
            Family::Other => "OTHER",
        }
    }

    /// What the edges of the family's cycle join; nothing for `Other`.
    pub(crate) fn slots(self) -> &'static [Slot]
        ensures { map slot_edge result.now ≡ family_edges self }
    {
        match self {
            Family::SB => &SB,
            Family::MP => &MP,
            Family::LB => &LB,
            Family::R => &R,
            Family::S => &S,
            Family::W2 => &W2,
            Family::WRC => &WRC,
            Family::RWC => &RWC,
            Family::ISA2 => &ISA2,
            Family::IRIW => &IRIW,
            Family::WRWC => &WRWC,
            Family::SB3 => &SB3,
            Family::LB3 => &LB3,
            Family::W3 => &W3,
            Family::Other => &[],
        }
    }
}
