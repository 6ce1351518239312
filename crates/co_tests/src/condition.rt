ghost use Rattle.std.specs.Prelude.{◌≡◌, map};
ghost use Rattle.final_cond.specs.{declared.cond.Quantifier.TheVariants.{Exists}, Conditions.{term_view}};
ghost use Rattle.arch_trait.specs.PlaceNames.{letters};
ghost use Rattle.co_tests.specs.Terms.{last_of_writes};

use arch_trait::Places;
use final_cond::{Cond, Left, PlaceName, Quantifier, Term};

/// Makes the condition ask for a state, with the last value of the one location if it has two writes.
pub fn put_last_term(writes: u8, places: &Places, cond: &mut Cond)
    requires { places.now ≡ letters 1 }
    ensures quantifier { cond.new.quantifier ≡ Exists }
    ensures terms { map term_view cond.new.terms.items ≡ last_of_writes writes }
{
    cond.quantifier = Quantifier::Exists;
    cond.terms.clear();
    if writes == 2 {
        let mut name = PlaceName::new();
        name.push_str(places.get(0).as_str());
        cond.terms.push(Term {
            left: Left::Place { name },
            value: 2,
        });
    }
}
