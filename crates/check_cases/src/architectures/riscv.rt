use super::{Cases, READ_X, Thread, WRITE_X, pairs, reads_of, threads};
use arch_trait::{Link, Step};
use micro_ops::Micro;
use relax_edges::{FenceKind, Pick};

const READ_Y: Step = Step { place: 1, ..READ_X };

const WRITE_Y: Step = Step {
    place: 1,
    ..WRITE_X
};

const WRITE_X_TWO: Step = Step {
    value: 2,
    ..WRITE_X
};

/// An access after a fence between accesses of these kinds.
macro_rules! after {
    ($pred:ident, $succ:ident, $step:expr) => {
        Step {
            link: Link::Fence(FenceKind::Fence { pred: Pick::$pred, succ: Pick::$succ }),
            ..$step
        }
    };
}

pub const CASES: Cases = Cases {
    threads: threads! {
        [READ_X, after!(RW, RW, WRITE_Y)] => "lw x5,0(x6); fence rw,rw; ori x7,x0,1; sw x7,0(x8)", [(1, 0), (3, 1)];
        [READ_X, Step { link: Link::Data, ..WRITE_Y }] => "lw x5,0(x6); xor x7,x5,x5; ori x7,x7,1; sw x7,0(x8)", [(1, 0), (3, 1)];
        [READ_Y, Step { link: Link::Addr, ..READ_X }] => "lw x5,0(x6); xor x7,x5,x5; add x7,x7,x9; lw x8,0(x7)", [(1, 1), (4, 0)];
        [READ_Y, Step { link: Link::Addr, ..WRITE_X }] =>
            "lw x5,0(x6); xor x7,x5,x5; ori x8,x0,1; add x7,x7,x9; sw x8,0(x7)", [(1, 1), (4, 0)];
        [READ_Y, Step { link: Link::Ctrl, ..WRITE_X }] =>
            "lw x5,0(x6); bne x5,x0,LC00; LC00:; ori x7,x0,1; sw x7,0(x8)", [(1, 1), (3, 0)];
        [WRITE_X, after!(W, W, WRITE_X_TWO), after!(W, R, READ_X)] =>
            "ori x5,x0,1; sw x5,0(x6); fence w,w; ori x7,x0,2; sw x7,0(x6); fence w,r; lw x8,0(x6)", [(1, 0)];
        [READ_X, after!(R, R, READ_X), after!(R, W, READ_X), after!(R, RW, READ_X)] =>
            "lw x5,0(x6); fence r,r; lw x7,0(x6); fence r,w; lw x8,0(x6); fence r,rw; lw x9,0(x6)", [(1, 0)];
        [READ_X, after!(W, R, READ_X), after!(W, W, READ_X), after!(W, RW, READ_X)] =>
            "lw x5,0(x6); fence w,r; lw x7,0(x6); fence w,w; lw x8,0(x6); fence w,rw; lw x9,0(x6)", [(1, 0)];
        [READ_X, after!(RW, R, READ_X), after!(RW, W, READ_X), after!(RW, RW, READ_X)] =>
            "lw x5,0(x6); fence rw,r; lw x7,0(x6); fence rw,w; lw x8,0(x6); fence rw,rw; lw x9,0(x6)", [(1, 0)];
    },
    enough: &[WRITE_X; 26],
    too_many: reads_of!(0 1 2 3 4 5 6 7 8 9 10 11 12 13),
    spellings: pairs! {
        "lw x5,0(x31)" => Micro::Load { dst: 0, base: 26, index: None };
        " lw\tx5 , 0(x31) " => Micro::Load { dst: 0, base: 26, index: None };
        "sw x14,0(x9)" => Micro::Store { src: 9, base: 4, index: None };
        "ori x5,x0,2047" => Micro::Imm { dst: 0, n: 2047 };
        "ori x5 , x0 , 0" => Micro::Imm { dst: 0, n: 0 };
        "ori x5,x6,7" => Micro::OrImm { dst: 0, a: 1, n: 7 };
        "add x5,x6,x7" => Micro::Add { dst: 0, a: 1, b: 2 };
        "bne x8,x0,there" => Micro::BranchNz { a: 3, label: 0 };
        "bne x8, x0 ,LC00" => Micro::BranchNz { a: 3, label: 1 };
        " there: " => Micro::Label { label: 0 };
        "fence:" => Micro::Label { label: 2 };
    },
    named: (2, 3),
    faults: &[
        "|ori|ori x4,x0,1|ori x32,x0,1|ori x05,x0,1|ori X5,x0,1|ori x5,x0,2048|ori x5,x0,01|ori x5,x0,-1",
        "ori x5,x4,1|ori x5,x00,1|ori x5,x6,x7|li x5,1|xor x5,x6|xor x5,x6,x0|add x5,x6,1",
        "lw x5,4(x6)|lw x5,0( x6)|lw x5,(x6)|lw x5,0(x0)",
        "bne x5,x6,LC00|bne x0,x5,LC00|bne x5,x0|bne x5,x0,1|bne x5,x0,Seventeen0bytes00|beq x5,x0,LC00",
        "fence|fence r|fence r,|fence wr,rw|fence r,w,r|fence.tso|LC00|LC00: x|:",
    ],
};
