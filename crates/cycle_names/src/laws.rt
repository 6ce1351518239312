ghost use Rattle.cycle_names.specs.Laws.{NamesDecide, NamesReadBack, FamiliesApart, NamesAreNames};

/// Two cycles have the same name exactly when they are the same cycle, each a rotation of the other.
pub fn names_decide()
    ensures { NamesDecide }
{}

/// The name of a cycle is read back as the rotation that the cycle is named from, and as no other,
/// on each architecture that has its edges.
#[tactic(auto, using(crate::proofs::NameLaws::read_names_back))]
pub fn names_read_back()
    ensures { NamesReadBack }
{}

/// No cycle belongs to two families.
#[tactic(auto, using(crate::proofs::NameLaws::keep_families_apart))]
pub fn families_apart()
    ensures { FamiliesApart }
{}

/// A name has 1 to 800 bytes, each an ASCII letter or digit, or one of `+`, `-`, `.` and `_`.
pub fn names_are_names()
    ensures { NamesAreNames }
{}
