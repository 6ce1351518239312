ghost use Rattle.std.specs.Prelude.{◌≡◌, ◌<◌, ◌≤◌, ◌++◌, ◌∷◌, ◌==◌, [], List, ℕ, map, length, slice_index_or, true, None};
ghost use Rattle.text_parts.specs.Names.{is_place_name};
ghost use Rattle.arch_trait.specs.PlaceNames.{IsTable, letters, location_name, number_in, number_added, names_added};

use crate::push::push_ascii;
use crate::step::MAX_STEPS;
use arrayvec::ArrayVec;
use final_cond::{PlaceName, place_name};
use std::marker::Model;

/// The most names that a table can have.
pub const MAX_PLACES: usize = 64;

const LETTERS: &[u8; 26] = b"xyzabcdefghijklmnopqrstuvw";

/// A table of the names of locations or of labels. Each has the form of a location's name and is in
/// it once. The number of a name is its position in the table, from 0.
#[derive(Drop)]
pub struct Places {
    names: ArrayVec<PlaceName, MAX_PLACES>,
}

impl Model for Places {
    ghost Value = { List (List ℕ) };

    ghost view = { λ p. map (λ name. name.bytes) p.names.items };

    ghost invariant = { λ p. IsTable (map (λ name. name.bytes) p.names.items) };
}

impl Places {
    /// A table without names.
    #[tactic(auto, using(crate::proofs::Tables::no_names))]
    pub fn new() -> Places
        ensures { result ≡ [] }
    {
        Places {
            names: ArrayVec::new(),
        }
    }

    /// The names of `n` locations: x, y, z, a, b and so on to w, then x_1 and so on.
    pub fn letters(n: u8) -> Places
        requires { n ≤ MAX_STEPS }
        ensures { result ≡ letters n }
    {
        let mut places = Places::new();
        places.set_letters(n);
        places
    }

    /// Makes the table the names of `n` locations, as `letters` does.
    #[tactic(auto, using(crate::proofs::Tables::location_new, crate::proofs::Tables::letters_more))]
    pub fn set_letters(&mut self, n: u8)
        requires { n ≤ MAX_STEPS }
        ensures { self.new ≡ letters n }
    {
        self.clear();
        for i in 0..n {
            self.push(location_name(i));
        }
    }

    /// How many names there are.
    pub fn len(&self) -> u8
        ensures { result ≡ length self.now }
    {
        self.names.len() as u8
    }

    /// Whether there are no names.
    pub fn is_empty(&self) -> bool
        ensures { result ≡ (length self.now == 0) }
    {
        self.names.is_empty()
    }

    /// The name with this number.
    pub fn get(&self, i: u8) -> &PlaceName
        requires { i < length self.now }
        ensures { result.now.bytes ≡ slice_index_or self.now i [] }
    {
        &self.names.as_slice()[usize::from(i)]
    }

    /// The number of a name of a location's form, which is added last if it is new. `None`, with the
    /// table as it was, if it is new and there are `MAX_PLACES` names.
    pub fn add(&mut self, name: &str) -> Option<u8>
        requires { is_place_name name.now ≡ true }
        ensures number { result ≡ number_added self.old name.now }
        ensures names { self.new ≡ names_added self.old name.now }
    {
        self.add_bytes(name.as_bytes())
    }

    /// The number of the name that these bytes are, as `add` returns it.
    pub fn add_bytes(&mut self, name: &[u8]) -> Option<u8>
        requires { is_place_name name.now ≡ true }
        ensures number { result ≡ number_added self.old name.now }
        ensures names { self.new ≡ names_added self.old name.now }
    {
        if let Some(number) = number_in(self.names.as_slice(), name) {
            return Some(number);
        }
        if self.names.is_full() {
            return None;
        }
        let number = self.len();
        match place_name(name) {
            Some(name) => self.push(name),
            None => unreachable!(),
        }
        Some(number)
    }

    #[tactic(auto, using(crate::proofs::Tables::no_names))]
    fn clear(&mut self)
        ensures { self.new ≡ [] }
    {
        self.names.clear();
    }

    #[tactic(auto, using(crate::proofs::Tables::one_name))]
    fn push(&mut self, name: PlaceName)
        requires formed { is_place_name name.bytes ≡ true }
        requires new { number_in self.old name.bytes ≡ None }
        requires room { length self.old < MAX_PLACES }
        ensures { self.new ≡ self.old ++ name.bytes ∷ [] }
    {
        self.names.push(name);
    }
}

fn number_in(names: &[PlaceName], name: &[u8]) -> Option<u8>
    requires { length names.now ≤ MAX_PLACES }
    ensures { result ≡ number_in (map (λ x. x.bytes) names.now) name.now }
{
    for (i, known) in names.iter().enumerate() {
        if known.as_str().as_bytes() == name {
            return Some(i as u8);
        }
    }
    None
}

#[tactic(auto, using(crate::proofs::Tables::name_plain, crate::proofs::Tables::name_marked, crate::proofs::Tables::letter_ascii))]
fn location_name(i: u8) -> PlaceName
    requires { i ≤ MAX_STEPS }
    ensures { result.bytes ≡ location_name i }
{
    let mut name = PlaceName::new();
    push_ascii(LETTERS[usize::from(i % 26)], &mut name);
    let lap = i / 26;
    if lap > 0 {
        push_ascii(b'_', &mut name);
        push_ascii(b'0' + lap, &mut name);
    }
    name
}
