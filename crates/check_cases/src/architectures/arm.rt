use super::{Cases, WRITE_X, pairs};
use micro_ops::Micro;

pub const CASES: Cases = Cases {
    threads: &[],
    enough: &[WRITE_X; 12],
    too_many: &[WRITE_X; 13],
    spellings: pairs! {
        "LDR R0,[R12]" => Micro::Load { dst: 0, base: 12, index: None };
        " LDR\tR0 , [R12] " => Micro::Load { dst: 0, base: 12, index: None };
        "LDR R3,[R4,R2]" => Micro::Load { dst: 3, base: 4, index: Some(2) };
        "STR  R9 ,\t[R4 , R2] " => Micro::Store { src: 9, base: 4, index: Some(2) };
        "MOV R0,#2047" => Micro::Imm { dst: 0, n: 2047 };
        "CMP R3,R5" => Micro::Cmp { a: 3, b: 5 };
        "BEQ there" => Micro::BranchEq { label: 0 };
        "BEQ  LC00" => Micro::BranchEq { label: 1 };
        " there: " => Micro::Label { label: 0 };
        "DMB:" => Micro::Label { label: 2 };
    },
    named: (2, 3),
    faults: &[
        "|MOV R13,#1|MOV r0,#1|MOV R0,1|MOV R0,R1|ADD R0,R1,R2|LDR R0,R1|LDR R0,[R1,R13]|LDR R0,[R1,#0]",
        "LDR R0,[R1],R2|LDR R0,[R1,R2|CMP R0,#1|BEQ|BNE LC00|DMB SY|DMB LD|DMB ST,ST|ISB SY|dmb",
    ],
};
