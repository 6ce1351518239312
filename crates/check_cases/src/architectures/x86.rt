use super::{Cases, READ_X, Thread, WRITE_X, pairs, reads_of, threads};
use arch_trait::{Link, Step};
use micro_ops::{Barrier, Micro};
use relax_edges::FenceKind;

const READ_Y: Step = Step { place: 1, ..READ_X };

const FENCE: Micro = Micro::Barrier {
    kind: Barrier::Fence(FenceKind::MFence),
};

const LOAD: Micro = Micro::LoadAt { dst: 1, place: 0 };

const STORE: Micro = Micro::StoreAt { place: 1, n: 20 };

pub const CASES: Cases = Cases {
    threads: threads! {
        [WRITE_X, READ_Y] => "MOV [x],$1; MOV EAX,[y]", [];
        [Step { value: 2, ..WRITE_X }, Step { place: 1, ..WRITE_X }] => "MOV [x],$2; MOV [y],$1", [];
        [WRITE_X, Step { place: 1, ..WRITE_X }, Step { place: 1, value: 2, ..WRITE_X }] => "MOV [x],$1; MOV [y],$1; MOV [y],$2", [];
        [Step { place: 1, value: 3, ..WRITE_X }, READ_X] => "MOV [y],$3; MOV EAX,[x]", [];
        [READ_Y, READ_Y, READ_Y] => "MOV EAX,[y]; MOV EBX,[y]; MOV ECX,[y]", [];
        [WRITE_X, Step { link: Link::Fence(FenceKind::MFence), ..READ_Y }] => "MOV [x],$1; MFENCE; MOV EAX,[y]", [];
        [READ_Y, READ_X, READ_Y, READ_X, READ_Y, READ_X] =>
            "MOV EAX,[y]; MOV EBX,[x]; MOV ECX,[y]; MOV EDX,[x]; MOV ESI,[y]; MOV EDI,[x]", [];
    },
    enough: reads_of!(1 0 1 0 1 0),
    too_many: reads_of!(1 0 1 0 1 0 1),
    spellings: pairs! {
        "MFENCE" => FENCE;
        " MFENCE " => FENCE;
        "\tMFENCE\t " => FENCE;
        "MOV EBX,[x]" => LOAD;
        "MOV  EBX,[x]" => LOAD;
        "MOV\tEBX,[x]" => LOAD;
        " MOV EBX , [x] " => LOAD;
        "MOV EBX,\t[x]" => LOAD;
        "MOV [y],$20" => STORE;
        "MOV [y] , $20" => STORE;
        "  MOV \t [y]\t,  $20\t" => STORE;
        "MOV EDI,[_1]" => Micro::LoadAt { dst: 5, place: 2 };
        "MOV [Sixteen_bytes_xx],$0" => Micro::StoreAt { place: 3, n: 0 };
        "MOV [y],$2047" => Micro::StoreAt { place: 1, n: 2047 };
        "MFENCE\t" => FENCE;
        "MOV EAX,[x]" => Micro::LoadAt { dst: 0, place: 0 };
        "MOV ESI,[y]" => Micro::LoadAt { dst: 4, place: 1 };
        "\t MOV EDX ,[y]" => Micro::LoadAt { dst: 3, place: 1 };
        "MOV [x],$1" => Micro::StoreAt { place: 0, n: 1 };
        "MOV\t[x],$1" => Micro::StoreAt { place: 0, n: 1 };
    },
    named: (4, 0),
    faults: &[
        "| |XCHG EAX,[x]|mov EAX,[x]|MOV|MOV EAX|MOV EAX,[x],[y]|MOV EAX,EBX|MOV R8,[x]",
        "MOV[x],$1|MOV [ x ],$1|MOV [x],1|MOV [x],$|MOV [x],$01|MOV [x],$2048|MOV [x],$-1|MOV [1x],$1",
        "MOV [Seventeen_bytes_x],$1|MOV [],$1|MOV ,|MOV EAX,[x]y|MOV EAX,[x;]",
        "MFENCE,|MFENCE x|MFENCE MFENCE|LC00:",
    ],
};
