ghost use Rattle.std.specs.Prelude.{◌≡◌, ◌≤◌, ◌+◌};
ghost use Rattle.arch_trait.specs.{Links.{is_addr, is_data, source_if}, Taking.{took, address_of, with_address}};

use crate::link::Link;
use crate::regs::Regs;
use relax_edges::Mark;

/// What is asked of the code of an access, besides the value of a store.
#[derive(Clone, Copy)]
pub struct AskedAccess {
    pub link: Link,
    pub mark: Mark,
    /// The register that a dependency is on.
    pub source: Option<u8>,
    pub place: u8,
}

/// The registers of an access without an address dependency: the one that is loaded or stored, and
/// the one that holds the address.
#[derive(Clone, Copy)]
pub struct PlainAccess {
    pub value: u8,
    pub address: u8,
}

/// The registers of an access whose address depends on a load, one of them for the dependency.
#[derive(Clone, Copy)]
pub struct DependentAccess {
    pub dependency: u8,
    pub value: u8,
    pub address: u8,
}

impl Regs {
    /// Takes the registers of an access to a location without an address dependency, in their order.
    #[tactic(auto, using(crate::proofs::Taking::address_next))]
    pub fn take_plain(&mut self, place: u8) -> PlainAccess
        requires { (with_address (took self.old 1) place).next ≤ self.old.count }
        ensures value { result.value ≡ self.old.next }
        ensures address { result.address ≡ address_of (took self.old 1) place }
        ensures taken { self.new ≡ with_address (took self.old 1) place }
    {
        let value = self.take();
        let address = self.address(place);
        PlainAccess { value, address }
    }

    /// Takes the registers of an access to a location whose address depends on a load, in their order.
    #[tactic(auto, using(crate::proofs::Taking::address_next))]
    pub fn take_dependent(&mut self, place: u8) -> DependentAccess
        requires { (with_address (took self.old 2) place).next ≤ self.old.count }
        ensures dependency { result.dependency ≡ self.old.next }
        ensures value { result.value ≡ self.old.next + 1 }
        ensures address { result.address ≡ address_of (took self.old 2) place }
        ensures taken { self.new ≡ with_address (took self.old 2) place }
    {
        let dependency = self.take();
        let value = self.take();
        let address = self.address(place);
        DependentAccess {
            dependency,
            value,
            address,
        }
    }
}

impl AskedAccess {
    /// The register that the address of the access depends on, if there is such a dependency.
    pub fn address_source(self) -> Option<u8>
        ensures { result ≡ source_if (is_addr self.link) self.source }
    {
        if matches!(self.link, Link::Addr) {
            self.source
        } else {
            None
        }
    }

    /// The register that the value of a store depends on, if there is such a dependency.
    pub fn data_source(self) -> Option<u8>
        ensures { result ≡ source_if (is_data self.link) self.source }
    {
        if matches!(self.link, Link::Data) {
            self.source
        } else {
            None
        }
    }
}
