//! The laws of runs: each function does nothing, and its contract is the law.
ghost use Rattle.std.specs.Prelude.{◌≡◌, ℕ, ◌++◌, List, Option, false, true};
ghost use Rattle.relax_edges.specs.declared.kinds.Value.{Value};
ghost use Rattle.micro_ops.specs.{declared.operation.Micro.{Micro}, declared.held.Held.{Held}};
ghost use Rattle.micro_ops.specs.Running.{Run, Point, At, go, exec, lands, is_past, is_written, beginning, OnRun, RunNamesLoads, JumpLands, KeepsHeld, MadeAtMostOne};
ghost use Rattle.micro_ops.specs.RunThreads.{StopsAt, goes_on};

/// A run of one list of operations and then another is a run of the second from where the first
/// led.
#[tactic(auto, using(crate::specs::RunLaws::exec_append))]
pub fn runs_append()
    ensures { (code after : List Micro) → (p : Point) → exec (code ++ after) p ≡ exec after (exec code p) }
{}

/// A jump goes on after the first occurrence of its label.
#[tactic(auto, using(crate::proofs::Laws::jump_lands))]
pub fn jumps_land()
    ensures { (before after : List Micro) → (label : ℕ) → (r : Run) → JumpLands before label after r }
{}

/// If each branch's label comes later, no run of the code ends on the way to a label.
#[tactic(auto, using(crate::proofs::Laws::never_past))]
pub fn no_jump_is_open()
    ensures { (code : List Micro) → (r : Run) → lands code ≡ true → is_past (exec code (At r)) ≡ false }
{}

/// A register that no operation writes keeps what it holds.
#[tactic(auto, using(crate::proofs::Laws::unwritten_kept))]
pub fn unwritten_registers_stay()
    ensures { (code : List Micro) (register : ℕ) (held : Held) (p : Point) → is_written register code ≡ false → KeepsHeld code register held p }
{}

/// An operation makes at most one item.
#[tactic(auto, using(crate::proofs::Laws::one_item))]
pub fn one_item_an_operation()
    ensures { (op : Micro) → (r : Run) → OnRun (MadeAtMostOne r) (go op (At r)) }
{}

/// Each mask of a thread's run names only loads that were stepped, and as many were stepped as its items have reads.
#[tactic(auto, using(crate::proofs::Laws::runs_name_loads))]
pub fn masks_name_stepped_loads()
    ensures { (code : List Micro) → (init : List (ℕ × Value)) → (reads : List ℕ) → OnRun RunNamesLoads (exec code (At (beginning init reads))) }
{}

/// A run that stops at an operation doesn't go on after it.
#[tactic(auto, using(crate::specs::RunLaws::stops_for_good))]
pub fn stopped_runs_stay_stopped()
    ensures { (code : List Micro) → (start : Point) → (op : ℕ) → StopsAt code start op → goes_on (exec code start) ≡ false }
{}
