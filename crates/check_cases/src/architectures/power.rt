use super::{Cases, READ_X, Thread, WRITE_X, pairs, threads};
use arch_trait::{Link, Step};
use micro_ops::Micro;
use relax_edges::FenceKind;

const READ_Y: Step = Step { place: 1, ..READ_X };

const WRITE_Y_LWSYNC: Step = Step {
    place: 1,
    link: Link::Fence(FenceKind::LwSync),
    ..WRITE_X
};

const WRITE_X_EIEIO: Step = Step {
    value: 2,
    link: Link::Fence(FenceKind::Eieio),
    ..WRITE_X
};

/// `READ_X` with a fence before it.
macro_rules! fenced {
    ($kind:ident) => {
        Step { link: Link::Fence(FenceKind::$kind), ..READ_X }
    };
}

pub const CASES: Cases = Cases {
    threads: threads! {
        [WRITE_X, WRITE_Y_LWSYNC] => "li r1,1; stw r1,0(r2); lwsync; li r3,1; stw r3,0(r4)", [(1, 0), (3, 1)];
        [READ_Y, Step { link: Link::Addr, ..READ_X }] => "lwz r1,0(r2); xor r3,r1,r1; lwzx r4,r3,r5", [(1, 1), (4, 0)];
        [READ_Y, Step { link: Link::Addr, ..WRITE_X }] => "lwz r1,0(r2); xor r3,r1,r1; li r4,1; stwx r4,r3,r5", [(1, 1), (4, 0)];
        [READ_Y, Step { link: Link::Data, ..WRITE_X }] => "lwz r1,0(r2); xor r3,r1,r1; addi r3,r3,1; stw r3,0(r4)", [(1, 1), (3, 0)];
        [READ_Y, Step { link: Link::Ctrl, ..WRITE_X }] =>
            "lwz r1,0(r2); cmpw r1,r1; beq LC00; LC00:; li r3,1; stw r3,0(r4)", [(1, 1), (3, 0)];
        [READ_Y, Step { link: Link::CtrlIsync, ..READ_X }, Step { link: Link::Ctrl, ..WRITE_X }] =>
            "lwz r1,0(r2); cmpw r1,r1; beq LC00; LC00:; isync; lwz r3,0(r4); cmpw r3,r3; beq LC01; LC01:; li r5,1; stw r5,0(r4)",
            [(1, 1), (3, 0)];
        [READ_Y, fenced!(Sync), WRITE_X_EIEIO, fenced!(ISync)] =>
            "lwz r1,0(r2); sync; lwz r3,0(r4); eieio; li r5,2; stw r5,0(r4); isync; lwz r6,0(r4)", [(1, 1), (3, 0)];
    },
    enough: &[WRITE_X; 27],
    too_many: &[WRITE_X; 28],
    spellings: pairs! {
        "lwz r1,0(r28)" => Micro::Load { dst: 0, base: 27, index: None };
        " lwz\tr1 , 0(r28) " => Micro::Load { dst: 0, base: 27, index: None };
        "stwx r10,r3,r5" => Micro::Store { src: 9, base: 4, index: Some(2) };
        "stwx  r10 ,\tr3, r5" => Micro::Store { src: 9, base: 4, index: Some(2) };
        "li r1,2047" => Micro::Imm { dst: 0, n: 2047 };
        "li r1,0" => Micro::Imm { dst: 0, n: 0 };
        "beq there" => Micro::BranchEq { label: 0 };
        "beq LC00" => Micro::BranchEq { label: 1 };
        " there: " => Micro::Label { label: 0 };
        "li:" => Micro::Label { label: 2 };
    },
    named: (2, 3),
    faults: &[
        "|li|li r0,1|li r29,1|li r01,1|li R1,1|li 1,1|li r1,2048|li r1,01|li r1,-1|li r1 1|lis r1,1",
        "lwz r1,4(r2)|lwz r1,0( r2)|lwz r1,0(r2|lwz r1,(r2)|lwz r1,0(r0)|lwzx r1,r2|lwzx r1,r2,r3,r4",
        "xor r1,r2,3|addi r1,r2,r3|cmpw r1|cmpw r1,r2,r3|sync r1|SYNC",
        "beq|beq 1|beq LC_0|beq Seventeen0bytes00|bne LC00|LC00|LC00: x|:|_:",
    ],
};
