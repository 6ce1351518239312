ghost use Rattle.std.specs.Prelude.{◌≡◌, ◌-◌, [], length, take, IfOk, OnErr};
ghost use Rattle.std.proofs.Props.{props};
ghost use Rattle.log_sum.specs.TextPlaces.{AreApart, ArePlaced, IsIndexOrLast, IsSeenAt, index_among};

use diy_io::NoMemory;
use std::alloc::Global;
use std::collections::BTreeMap;

/// Values by texts, in the order in which each text was first seen.
#[derive(Drop)]
pub(crate) struct FirstSeen<V> {
    /// The texts with their values.
    pub(crate) entries: Vec<(Vec<u8>, V)>,
    /// The index of each text, in byte order. A search compares texts, so no choice of texts makes it slow.
    pub(crate) places: BTreeMap<Vec<u8>, usize>,
    ghost are_apart: { AreApart entries.items } by { Prim.hlevel props },
    ghost are_placed: { ArePlaced entries.items places.entries },
}

/// The index that a map has for a text, which is put with the index `last` if the map has none.
fn index_or_last(
    places: &mut BTreeMap<Vec<u8>, usize>,
    key: Vec<u8>,
    text: &[u8],
    last: usize,
) -> Result<usize, NoMemory>
    requires { key.items ≡ text.now }
    ensures { IsIndexOrLast places.old.entries places.new.entries text.now last result }
{
    match places.insert(key, last)? {
        Some(known) => match places.get_mut(text) {
            Some(place) => {
                *place = known;
                Ok(known)
            }
            None => Ok(known),
        },
        None => Ok(last),
    }
}

impl<V: Drop> FirstSeen<V> {
    /// No texts.
    pub(crate) fn new(alloc: Global) -> FirstSeen<V>
        ensures { result.entries.items ≡ [] }
    {
        FirstSeen {
            entries: Vec::new(alloc),
            places: BTreeMap::new(alloc),
        }
    }

    /// The index of a text, if it was seen.
    pub(crate) fn index_of(&self, text: &[u8]) -> Option<usize>
        ensures { result ≡ index_among text.now self.now.entries.items }
    {
        self.places.get(text).copied()
    }

    /// The index of a text. A text that wasn't seen is put last, with this value; the search that finds it missing puts it.
    pub(crate) fn index_or_put(
        &mut self,
        alloc: Global,
        text: &[u8],
        value: V,
    ) -> Result<usize, NoMemory>
        ensures seen { IfOk result (IsSeenAt self.old.entries.items self.new.entries.items text.now value (index_among text.now self.old.entries.items)) }
        ensures err { OnErr result (self.new.entries.items ≡ self.old.entries.items) }
    {
        let last = self.entries.len();
        let key = Vec::from_slice(alloc, text)?;
        let entry = (Vec::from_slice(alloc, text)?, value);
        self.entries.reserve(1)?;
        let i = index_or_last(&mut self.places, key, text, last)?;
        if i < last {
            return Ok(i);
        }
        self.entries.push_reserved(entry);
        Ok(i)
    }

    /// Takes out the texts from this index on, so that they weren't seen.
    pub(crate) fn forget_from(&mut self, len: usize)
        ensures { self.new.entries.items ≡ take len self.old.entries.items }
    {
        while self.entries.len() > len {
            self.forget_last();
        }
    }

    /// Takes out the text that was seen last.
    fn forget_last(&mut self)
        ensures { self.new.entries.items ≡ take (length self.old.entries.items - 1) self.old.entries.items }
    {
        if let Some((text, _)) = self.entries.pop() {
            self.places.remove(text.as_slice());
        }
    }
}
