ghost use Rattle.std.specs.Prelude.{◌≡◌, ◌≤◌, ◌+◌, ◌++◌, ◌∷◌, [], Some, None, cond, is_some, false};
ghost use Rattle.arrayvec.specs.ArrayVec.{array_vec_len};
ghost use Rattle.micro_ops.specs.declared.operation.Micro.TheVariants as ops;
ghost use Rattle.arch_trait.specs.{Addressed.{link_code, puts_of, store_on, load_op, store_op, load_through, store_through}, Laws.{link_room, access_room}};
ghost use Rattle.arch_trait.specs.{Links.{is_data}, Taking.{took, with_address}};

use crate::own::OwnInstructions;
use arch_trait::{AskedAccess, DependentAccess, Instrs, Link, MAX_INSTRS, Regs, Shape};
use micro_ops::{Barrier, Micro};
use relax_edges::{FenceKind, Mark};

/// How many registers a thread of this shape takes: one for each load, store, address dependency and location.
pub fn registers_needed(shape: &Shape) -> u32
    ensures { result ≡ shape.now.loads + shape.now.stores + shape.now.addr + shape.now.places }
{
    u32::from(shape.loads)
        + u32::from(shape.stores)
        + u32::from(shape.addr)
        + u32::from(shape.places)
}

/// Appends the code of a link: its fence; or, if it is a control dependency, a branch on register `from` to the
/// label right after it, then the barrier of the link, if it has one. Other links have no code.
pub fn put_link<I: OwnInstructions>(link: Link, from: Option<u8>, label: u8, out: &mut Instrs)
    requires { array_vec_len out.old + link_room link ≤ MAX_INSTRS }
    ensures { out.new.items ≡ out.old.items ++ link_code I.own link from label }
{
    match (link, from) {
        (Link::Fence(kind), _) => out.push(fence(kind)),
        (Link::Ctrl, Some(source)) => put_branch_code::<I>(source, label, out),
        (Link::CtrlIsync, Some(source)) => {
            put_branch_code::<I>(source, label, out);
            out.push(fence(FenceKind::ISync));
        }
        (Link::CtrlIsb, Some(source)) => {
            put_branch_code::<I>(source, label, out);
            out.push(Micro::Barrier { kind: Barrier::Isb });
        }
        _ => {}
    }
}

fn fence(kind: FenceKind) -> Micro
    ensures { result ≡ ops.Barrier (Barrier.Fence kind) }
{
    Micro::Barrier {
        kind: Barrier::Fence(kind),
    }
}

/// Appends a branch on a register, and the label that it goes to.
fn put_branch_code<I: OwnInstructions>(source: u8, label: u8, out: &mut Instrs)
    requires { array_vec_len out.old + 3 ≤ MAX_INSTRS }
    ensures code { out.new.items ≡ out.old.items ++ (I.own.branch source label ++ ops.Label label ∷ []) }
    ensures few { array_vec_len out.new ≤ array_vec_len out.old + 3 }
{
    I::put_branch(source, label, out);
    out.push(Micro::Label { label });
}

/// Appends the code of a load with the mark, and returns the register that it loads into.
pub fn put_load<I: OwnInstructions>(regs: &mut Regs, access: AskedAccess, out: &mut Instrs) -> u8
    requires to_load { is_data access.link ≡ false }
    requires left { ((puts_of I.own).load regs.old access.link access.mark access.source access.place).regs.next ≤ regs.old.count }
    requires room { array_vec_len out.old + access_room access.link ≤ MAX_INSTRS }
    ensures register { result ≡ (puts_of I.own).filled regs.old access.link access.source access.place }
    ensures taken { regs.new ≡ ((puts_of I.own).load regs.old access.link access.mark access.source access.place).regs }
    ensures code { out.new.items ≡ out.old.items ++ ((puts_of I.own).load regs.old access.link access.mark access.source access.place).code }
{
    match access.address_source() {
        Some(source) => {
            let taken = regs.take_dependent(access.place);
            out.push(zero_from(source, taken.dependency));
            put_load_through::<I>(access.mark, taken, out);
            taken.value
        }
        None => {
            let taken = regs.take_plain(access.place);
            out.push(load(access.mark, taken.value, taken.address));
            taken.value
        }
    }
}

/// Appends the code of a store of the value, with the mark.
pub fn put_store<I: OwnInstructions>(
    regs: &mut Regs,
    access: AskedAccess,
    value: u8,
    out: &mut Instrs,
)
    requires left { ((puts_of I.own).store regs.old access.link access.mark access.source access.place value).regs.next ≤ regs.old.count }
    requires room { array_vec_len out.old + access_room access.link ≤ MAX_INSTRS }
    ensures taken { regs.new ≡ ((puts_of I.own).store regs.old access.link access.mark access.source access.place value).regs }
    ensures code { out.new.items ≡ out.old.items ++ ((puts_of I.own).store regs.old access.link access.mark access.source access.place value).code }
{
    match access.address_source() {
        Some(source) => put_store_dependent::<I>(regs, access, source, value, out),
        None => put_store_plain::<I>(regs, access, access.data_source(), value, out),
    }
}

/// Appends the code of a store whose address depends on register `source`.
fn put_store_dependent<I: OwnInstructions>(
    regs: &mut Regs,
    access: AskedAccess,
    source: u8,
    value: u8,
    out: &mut Instrs,
)
    requires left { (with_address (took regs.old 2) access.place).next ≤ regs.old.count }
    requires room { array_vec_len out.old + 4 ≤ MAX_INSTRS }
    ensures taken { regs.new ≡ (store_on I.own regs.old access.mark (Some source) None access.place value).regs }
    ensures code { out.new.items ≡ out.old.items ++ (store_on I.own regs.old access.mark (Some source) None access.place value).code }
{
    let taken = regs.take_dependent(access.place);
    out.push(zero_from(source, taken.dependency));
    out.push(Micro::Imm {
        dst: taken.value,
        n: u32::from(value),
    });
    put_store_through::<I>(access.mark, taken, out);
}

/// Appends the code of a store whose address depends on no load; its value depends on register `source`, if
/// there is one.
fn put_store_plain<I: OwnInstructions>(
    regs: &mut Regs,
    access: AskedAccess,
    source: Option<u8>,
    value: u8,
    out: &mut Instrs,
)
    requires left { (with_address (took regs.old 1) access.place).next ≤ regs.old.count }
    requires room { array_vec_len out.old + cond (is_some source) 3 2 ≤ MAX_INSTRS }
    ensures taken { regs.new ≡ (store_on I.own regs.old access.mark None source access.place value).regs }
    ensures code { out.new.items ≡ out.old.items ++ (store_on I.own regs.old access.mark None source access.place value).code }
{
    let taken = regs.take_plain(access.place);
    match source {
        Some(source) => {
            out.push(zero_from(source, taken.value));
            out.push(I::join_number(taken.value, value));
        }
        None => out.push(Micro::Imm {
            dst: taken.value,
            n: u32::from(value),
        }),
    }
    out.push(store(access.mark, taken.value, taken.address));
}

/// A load with the mark from the address in register `base`.
fn load(mark: Mark, dst: u8, base: u8) -> Micro
    ensures { result ≡ load_op mark dst base }
{
    match mark {
        Mark::Acquire => Micro::LoadAcq { dst, base },
        _ => Micro::Load {
            dst,
            base,
            index: None,
        },
    }
}

/// A store with the mark to the address in register `base`.
fn store(mark: Mark, src: u8, base: u8) -> Micro
    ensures { result ≡ store_op mark src base }
{
    match mark {
        Mark::Release => Micro::StoreRel { src, base },
        _ => Micro::Store {
            src,
            base,
            index: None,
        },
    }
}

/// Appends a load with the mark into the register `value` of `taken`, from the address in its register `address`,
/// so that the address depends on its register `dependency`, which holds 0.
fn put_load_through<I: OwnInstructions>(mark: Mark, taken: DependentAccess, out: &mut Instrs)
    requires { array_vec_len out.old + 2 ≤ MAX_INSTRS }
    ensures { out.new.items ≡ out.old.items ++ load_through I.own mark taken.dependency taken.value taken.address }
{
    match mark {
        Mark::Acquire => {
            out.push(address_in(taken.dependency, taken.address));
            out.push(load(mark, taken.value, taken.dependency));
        }
        _ => I::put_dependent_load(taken.dependency, taken.value, taken.address, out),
    }
}

/// Appends a store with the mark of the register `value` of `taken`, to the address in its register `address`,
/// so that the address depends on its register `dependency`, which holds 0.
fn put_store_through<I: OwnInstructions>(mark: Mark, taken: DependentAccess, out: &mut Instrs)
    requires { array_vec_len out.old + 2 ≤ MAX_INSTRS }
    ensures { out.new.items ≡ out.old.items ++ store_through I.own mark taken.dependency taken.value taken.address }
{
    match mark {
        Mark::Release => {
            out.push(address_in(taken.dependency, taken.address));
            out.push(store(mark, taken.value, taken.dependency));
        }
        _ => I::put_dependent_store(taken.dependency, taken.value, taken.address, out),
    }
}

/// Adds the address in register `address` to register `dependency`, which holds 0.
fn address_in(dependency: u8, address: u8) -> Micro
    ensures { result ≡ ops.Add dependency address dependency }
{
    Micro::Add {
        dst: dependency,
        a: address,
        b: dependency,
    }
}

/// Makes `dst` the number 0, which depends on `source`.
fn zero_from(source: u8, dst: u8) -> Micro
    ensures { result ≡ ops.Xor dst source source }
{
    Micro::Xor {
        dst,
        a: source,
        b: source,
    }
}
