use micro_ops::Micro;
use relax_edges::Value;
use std::marker::Model;

/// A thread of a test that was read. It can be run.
#[derive(Drop)]
pub(crate) struct Thread {
    pub(crate) init: Vec<(u8, Value)>,
    pub(crate) code: Vec<Micro>,
}

impl Model for Thread {
    ghost use Rattle.litmus_text.specs.{TestReading.{ThreadRead}, Runnable.{CanRun}};

    ghost Value = { ThreadRead };

    ghost view = { λ t. record { init = t.init.items; code = t.code.items } };

    ghost invariant = { λ t. CanRun t.init.items t.code.items };
}
