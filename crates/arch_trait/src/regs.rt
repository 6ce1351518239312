ghost use Rattle.std.specs.Prelude.{◌≡◌, ◌<◌, ◌≤◌, ◌-◌};
ghost use Rattle.arrayvec.specs.ArrayVec.{array_vec_len};
ghost use Rattle.arch_trait.specs.{Taking.{Taken, untaken, take_next, address_in, address_of, with_address}, Registers.{AreWithin}};

use crate::step::MAX_STEPS;
use arrayvec::ArrayVec;
use std::marker::Model;

/// The most registers that an architecture can have for a thread of a test.
pub const MAX_REGISTERS: u8 = 32;

/// Address registers with their locations, in the order of taking. A thread has at most one for each
/// access.
pub type Links = ArrayVec<(u8, u8), MAX_STEPS>;

/// The registers of a thread, numbered from 0: how many are taken, and which hold the address of a
/// location.
#[derive(Drop)]
pub struct Regs {
    count: u8,
    next: u8,
    links: Links,
}

impl Model for Regs {
    ghost Value = { Taken };

    ghost view = { λ r. record { count = r.count; next = r.next; links = r.links.items } };

    ghost invariant = { λ r. AreWithin r.count r.next r.links.items };
}

impl Regs {
    /// `count` registers, at most `MAX_REGISTERS`, of which none is taken.
    pub fn new(count: u8) -> Regs
        requires { count ≤ MAX_REGISTERS }
        ensures { result ≡ untaken count }
    {
        Regs {
            count,
            next: 0,
            links: ArrayVec::new(),
        }
    }

    /// How many registers aren't taken.
    pub fn left(&self) -> u8
        ensures left { result ≡ self.now.count - self.now.next }
        ensures within { self.now.next ≤ self.now.count }
    {
        self.count - self.next
    }

    /// Takes the next register. There must be one left.
    pub fn take(&mut self) -> u8
        requires { self.old.next < self.old.count }
        ensures register { result ≡ self.old.next }
        ensures taken { self.new ≡ take_next self.old }
    {
        let register = self.next;
        self.next += 1;
        register
    }

    /// The address register of a location, taken now if it has none.
    pub fn address(&mut self, place: u8) -> u8
        requires { (with_address self.old place).next ≤ self.old.count }
        ensures register { result ≡ address_of self.old place }
        ensures taken { self.new ≡ with_address self.old place }
    {
        match address_in(self.links.as_slice(), place) {
            Some(register) => register,
            None => {
                let register = self.next;
                self.next += 1;
                self.links.push((register, place));
                register
            }
        }
    }

    /// The address registers with their locations, in the order of taking.
    pub fn links(&self) -> &[(u8, u8)]
        ensures { result.now ≡ self.now.links }
    {
        self.links.as_slice()
    }

    /// The address registers with their locations, in the order of taking, when no more registers
    /// are needed.
    pub fn into_links(self) -> Links
        ensures { result.items ≡ self.links }
    {
        self.links
    }
}

fn address_in(links: &[(u8, u8)], place: u8) -> Option<u8>
    ensures { result ≡ address_in links.now place }
{
    for (register, at) in links {
        if *at == place {
            return Some(*register);
        }
    }
    None
}
