ghost use Rattle.std.specs.Prelude.{◌≡◌, ◌<◌, ◌≤◌, ◌+◌, ◌++◌, ◌∷◌, [], length, map};
ghost use Rattle.arrayvec.specs.ArrayVec.{array_vec_len};
ghost use Rattle.final_cond.specs.{declared.cond.Quantifier.TheVariants.{Exists}, Conditions.{term_view}};
ghost use Rattle.cycle_events.specs.Resolution.{move_count};
ghost use Rattle.arch_trait.specs.{PlaceNames.{letters}, Writing.{name_in}, Codes.{AllBelow}};
ghost use Rattle.tests_force_cycles.specs.{CycleSteps.{numbers_read}, TestOf.{is_named_location, last_terms, load_term}};
ghost use Rattle.test_maker.specs.ConditionTerms.{place_term, terms_of_loads};

use arch_trait::{Arch, Places, Step};
use arrayvec::ArrayVec;
use coherence_values::Valued;
use final_cond::{Cond, Left, MAX_TERMS, PlaceName, Quantifier, RegName, Term};
use relax_edges::Dir;

/// The terms of a condition.
pub type Terms = ArrayVec<Term, MAX_TERMS>;

/// Makes the condition say that there is a state with the last values of the locations that it names.
pub fn put_last_terms(valued: &Valued, places: &Places, cond: &mut Cond)
    requires { places.now ≡ letters (move_count valued.now.edges) }
    ensures quantifier { cond.new.quantifier ≡ Exists }
    ensures terms { map term_view cond.new.terms.items ≡ last_terms valued.now.edges valued.now.mode }
{
    cond.quantifier = Quantifier::Exists;
    fill_last_terms(valued, places, &mut cond.terms);
}

fn fill_last_terms(valued: &Valued, places: &Places, terms: &mut Terms)
    requires { places.now ≡ letters (move_count valued.now.edges) }
    ensures { map term_view terms.new.items ≡ last_terms valued.now.edges valued.now.mode }
{
    terms.clear();
    for location in 0..valued.resolved().locations() {
        if is_named(valued, location) {
            push_last_term(places, location, valued.writes(location), terms);
        }
    }
}

/// Whether the condition names the last value of the location.
fn is_named(valued: &Valued, location: u8) -> bool
    requires { location < move_count valued.now.edges }
    ensures { result ≡ is_named_location valued.now.edges valued.now.mode location }
{
    valued.writes(location) >= 2 && !valued.observed(location)
}

fn push_last_term(places: &Places, location: u8, writes: u8, terms: &mut Terms)
    requires place { location < length places.now }
    requires room { array_vec_len terms.old < MAX_TERMS }
    ensures { map term_view terms.new.items ≡ map term_view terms.old.items ++ place_term places.now location writes ∷ [] }
{
    let mut name = PlaceName::new();
    name.push_str(places.get(location).as_str());
    terms.push(Term {
        left: Left::Place { name },
        value: u32::from(writes),
    });
}

/// Appends what the loads of a thread are to read into these registers.
pub fn put_load_terms<A: Arch>(thread: u8, steps: &[Step], loads: &[u8], terms: &mut Terms)
    requires loads { length loads.now ≡ length (numbers_read steps.now) }
    requires registers { AllBelow A.puts.registers loads.now }
    requires room { array_vec_len terms.old + length loads.now ≤ MAX_TERMS }
    ensures { map term_view terms.new.items ≡ map term_view terms.old.items ++ terms_of_loads (name_in A.writing.registers) thread loads.now steps.now }
{
    let mut left = loads;
    for step in steps {
        if let Dir::R = step.dir {
            if let [register, rest @ ..] = left {
                push_load_term::<A>(thread, *register, step.value, terms);
                left = rest;
            }
        }
    }
}

fn push_load_term<A: Arch>(thread: u8, register: u8, value: u8, terms: &mut Terms)
    requires register { register < A.puts.registers }
    requires room { array_vec_len terms.old < MAX_TERMS }
    ensures { map term_view terms.new.items ≡ map term_view terms.old.items ++ load_term (name_in A.writing.registers) thread (register, value) ∷ [] }
{
    let mut name = RegName::new();
    A::register_name(register, &mut name);
    terms.push(Term {
        left: Left::Register { thread, name },
        value: u32::from(value),
    });
}
