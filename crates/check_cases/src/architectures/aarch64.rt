use super::{Cases, READ_X, Thread, WRITE_X, pairs, reads_of, threads};
use arch_trait::{Link, Step};
use micro_ops::Micro;
use relax_edges::{FenceKind, Mark};

const READ_Y: Step = Step { place: 1, ..READ_X };

const ACQUIRE_Y: Step = Step {
    mark: Mark::Acquire,
    ..READ_Y
};

const ACQUIRE_X_BY_ADDRESS: Step = Step {
    mark: Mark::Acquire,
    link: Link::Addr,
    ..READ_X
};

const RELEASE_X: Step = Step {
    mark: Mark::Release,
    ..WRITE_X
};

/// An access with a barrier before it.
macro_rules! after {
    ($kind:ident, $place:literal, $value:literal, $step:expr) => {
        Step { place: $place, value: $value, link: Link::Fence(FenceKind::$kind), ..$step }
    };
}

pub const CASES: Cases = Cases {
    threads: threads! {
        [WRITE_X, after!(DmbSy, 1, 1, WRITE_X)] => "MOV W0,#1; STR W0,[X1]; DMB SY; MOV W2,#1; STR W2,[X3]", [(1, 0), (3, 1)];
        [READ_Y, Step { link: Link::CtrlIsb, ..READ_X }] => "LDR W0,[X1]; CBNZ W0,LC00; LC00:; ISB; LDR W2,[X3]", [(1, 1), (3, 0)];
        [READ_Y, Step { link: Link::Addr, ..READ_X }] => "LDR W0,[X1]; EOR W2,W0,W0; LDR W3,[X4,W2,SXTW]", [(1, 1), (4, 0)];
        [READ_Y, Step { link: Link::Addr, ..WRITE_X }] =>
            "LDR W0,[X1]; EOR W2,W0,W0; MOV W3,#1; STR W3,[X4,W2,SXTW]", [(1, 1), (4, 0)];
        [READ_Y, Step { link: Link::Data, ..WRITE_X }] => "LDR W0,[X1]; EOR W2,W0,W0; ADD W2,W2,#1; STR W2,[X3]", [(1, 1), (3, 0)];
        [READ_Y, Step { link: Link::Ctrl, ..WRITE_X }] => "LDR W0,[X1]; CBNZ W0,LC00; LC00:; MOV W2,#1; STR W2,[X3]", [(1, 1), (3, 0)];
        [READ_Y, after!(DmbLd, 0, 0, READ_X), after!(DmbSt, 0, 2, WRITE_X)] =>
            "LDR W0,[X1]; DMB LD; LDR W2,[X3]; DMB ST; MOV W4,#2; STR W4,[X3]", [(1, 1), (3, 0)];
        [WRITE_X, Step { place: 1, ..RELEASE_X }] => "MOV W0,#1; STR W0,[X1]; MOV W2,#1; STLR W2,[X3]", [(1, 0), (3, 1)];
        [ACQUIRE_Y, READ_X] => "LDAR W0,[X1]; LDR W2,[X3]", [(1, 1), (3, 0)];
        [ACQUIRE_Y, ACQUIRE_X_BY_ADDRESS] => "LDAR W0,[X1]; EOR W2,W0,W0; ADD X2,X4,W2,SXTW; LDAR W3,[X2]", [(1, 1), (4, 0)];
        [READ_Y, Step { link: Link::Addr, ..RELEASE_X }] =>
            "LDR W0,[X1]; EOR W2,W0,W0; MOV W3,#1; ADD X2,X4,W2,SXTW; STLR W3,[X2]", [(1, 1), (4, 0)];
        [READ_Y, Step { link: Link::Data, ..RELEASE_X }] => "LDR W0,[X1]; EOR W2,W0,W0; ADD W2,W2,#1; STLR W2,[X3]", [(1, 1), (3, 0)];
    },
    enough: reads_of!(0 1 2 3 4 5 6 7 8 9 10 11 12 13),
    too_many: &[WRITE_X; 28],
    spellings: pairs! {
        "LDR W0,[X27]" => Micro::Load { dst: 0, base: 27, index: None };
        " LDR\tW0 , [X27] " => Micro::Load { dst: 0, base: 27, index: None };
        "STR W9,[X4,W2,SXTW]" => Micro::Store { src: 9, base: 4, index: Some(2) };
        "STR  W9 ,\t[X4 , W2,\tSXTW] " => Micro::Store { src: 9, base: 4, index: Some(2) };
        "MOV W0,#2047" => Micro::Imm { dst: 0, n: 2047 };
        "MOV W0,#0" => Micro::Imm { dst: 0, n: 0 };
        "CBNZ W3,there" => Micro::BranchNz { a: 3, label: 0 };
        "CBNZ W3 , LC00" => Micro::BranchNz { a: 3, label: 1 };
        "LDAR W0,[X27]" => Micro::LoadAcq { dst: 0, base: 27 };
        " LDAR\tW0 , [X27] " => Micro::LoadAcq { dst: 0, base: 27 };
        "STLR W9,[X4]" => Micro::StoreRel { src: 9, base: 4 };
        "ADD X2,X4,W3,SXTW" => Micro::Add { dst: 2, a: 4, b: 3 };
        "ADD X2, X4 ,W3 , SXTW" => Micro::Add { dst: 2, a: 4, b: 3 };
        " there: " => Micro::Label { label: 0 };
        "ISB:" => Micro::Label { label: 2 };
    },
    named: (2, 3),
    faults: &[
        "|MOV|MOV W28,#1|MOV W00,#1|MOV w0,#1|MOV X0,#1|MOV W0,1|MOV W0,#2048|MOV W0,#01|MOV W0,#-1|MOV W0,# 1",
        "MOV W0,W1|EOR W0,W1|EOR W0,W1,X2|ADD W0,W1,W2|ADD X0,X1,#1|ADD X0,X1,W2|ADD X0,X1,X2,SXTW",
        "ADD X0,W1,W2,SXTW|ADD W0,X1,W2,SXTW|ADD X0,X1,W2,SXTW]|ADD X0,X1,W2,SXTX",
        "LDAR X0,[X1]|LDAR W0,[X1|LDAR W0,[X1,W2,SXTW]|STLR W28,[X1]|STLR W0,[X1,W2,SXTW]|ldar W0,[X1]",
        "LDR X0,[X1]|LDR W0,[W1]|LDR W0,[ X1]|LDR W0,[X1|LDR W0,[X1,W2]|LDR W0,[X1,X2,SXTW]",
        "LDR W0,[X1,W2,SXTX]|LDR W0,[X1,W2,SXTW],W3|LDR W0,X1,W2,SXTW]",
        "CBNZ W0|CBNZ X0,LC00|CBNZ W0,1|CBNZ W0,Seventeen0bytes00|CBZ W0,LC00|LC00|LC00: x|:",
        "DMB|DMB ISH|DMB SY,LD|ISB SY|dmb sy",
    ],
};
