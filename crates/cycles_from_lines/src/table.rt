ghost use Rattle.std.specs.{Prelude.{◌≡◌, ◌<◌, [], ◌++◌, codes, length, map, IfOk, OnOk}, List.{flat_map}};
ghost use Rattle.diy_io.specs.{Page.{Sends}, Wrote.{Wrote}};
ghost use Rattle.cycle_names.specs.Families.{family_word};
ghost use Rattle.cycles_from_lines.specs.{Classified.{name_entry}, KeptNames.{names_in_set}};
ghost use Rattle.cycles_from_lines.specs.FamilyTables.{place_of_family, family_view, entry_text, HoldsCycles, AddsCycle, name_entered};

use crate::names::FamilyNames;
use arrayvec::ArrayString;
use cycle_names::{FAMILIES, Family, MAX_CYCLE_NAME, name_and_family};
use diy_io::{Failed, NoMemory, Page, Sink};
use edge_algebra::Cycle;
use std::alloc::Global;
use std::collections::BTreeSet;

/// The index of a family in the table.
fn place_of(family: Family) -> usize
    ensures place { result ≡ place_of_family family }
    ensures within { result < 15 }
{
    match family {
        Family::SB => 0,
        Family::MP => 1,
        Family::LB => 2,
        Family::R => 3,
        Family::S => 4,
        Family::W2 => 5,
        Family::WRC => 6,
        Family::RWC => 7,
        Family::ISA2 => 8,
        Family::IRIW => 9,
        Family::WRWC => 10,
        Family::SB3 => 11,
        Family::LB3 => 12,
        Family::W3 => 13,
        Family::Other => 14,
    }
}

/// The table without any names.
pub(crate) fn no_names(alloc: Global) -> Result<Vec<FamilyNames>, NoMemory>
    ensures holds { IfOk result (λ table. HoldsCycles (map family_view table.items) []) }
    ensures whole { IfOk result (λ table. length table.items ≡ 15) }
{
    let mut table = Vec::new(alloc);
    for family in &FAMILIES {
        table.push(FamilyNames::new(alloc, *family))?;
    }
    table.push(FamilyNames::new(alloc, Family::Other))?;
    Ok(table)
}

/// Keeps the name of a cycle, which is made in `text`. What that held doesn't matter.
pub(crate) fn put_cycle(
    table: &mut Vec<FamilyNames>,
    cycle: &Cycle,
    text: &mut ArrayString<MAX_CYCLE_NAME>,
) -> Result<(), NoMemory>
    requires { length table.old.items ≡ 15 }
    ensures adds { OnOk result (AddsCycle (map family_view table.old.items) (map family_view table.new.items) cycle.now) }
    ensures whole { length table.new.items ≡ 15 }
{
    let family = name_and_family(cycle, text);
    let alloc = *table.allocator();
    put_name(table, place_of(family), alloc, text.as_str())
}

fn put_name(
    table: &mut Vec<FamilyNames>,
    place: usize,
    alloc: Global,
    name: &str,
) -> Result<(), NoMemory>
    requires { place < length table.old.items }
    ensures put { OnOk result (map family_view table.new.items ≡ name_entered place name.now (map family_view table.old.items)) }
    ensures whole { length table.new.items ≡ length table.old.items }
{
    table[place].put(alloc, name)
}

/// Writes the lines of the families that have a name. If the sink fails, it has taken a prefix of them.
pub(crate) fn write_families<O: Sink>(table: &[FamilyNames], out: &mut O) -> Result<(), Failed>
    ensures { Wrote (O.seen out.old) (O.seen out.new) (flat_map (λ entry. entry_text (family_view entry)) table.now) result }
{
    let mut page = Page::new();
    send_families(table, &mut page, out)?;
    page.flush(out)
}

fn send_families<O: Sink>(table: &[FamilyNames], page: &mut Page, out: &mut O) -> Result<(), Failed>
    ensures { Sends (O.seen out.old) page.old (O.seen out.new) page.new (flat_map (λ entry. entry_text (family_view entry)) table.now) result }
{
    for entry in table {
        send_family(entry, page, out)?;
    }
    Ok(())
}

fn send_family<O: Sink>(entry: &FamilyNames, page: &mut Page, out: &mut O) -> Result<(), Failed>
    ensures { Sends (O.seen out.old) page.old (O.seen out.new) page.new (entry_text (family_view entry.now)) result }
{
    if entry.names.is_empty() {
        return Ok(());
    }
    send_title(entry.family, page, out)?;
    send_names(&entry.names, page, out)
}

fn send_title<O: Sink>(family: Family, page: &mut Page, out: &mut O) -> Result<(), Failed>
    ensures { Sends (O.seen out.old) page.old (O.seen out.new) page.new (family_word family ++ codes ":\n") result }
{
    page.send_pieces(&[family.word().as_bytes(), b":\n"], out)
}

fn send_names<O: Sink>(names: &BTreeSet<String>, page: &mut Page, out: &mut O) -> Result<(), Failed>
    ensures { Sends (O.seen out.old) page.old (O.seen out.new) page.new (flat_map name_entry (names_in_set names.now)) result }
{
    for name in names {
        send_name(name.as_str(), page, out)?;
    }
    Ok(())
}

fn send_name<O: Sink>(name: &str, page: &mut Page, out: &mut O) -> Result<(), Failed>
    ensures { Sends (O.seen out.old) page.old (O.seen out.new) page.new (name_entry name.now) result }
{
    page.send_pieces(&[b"  ", name.as_bytes(), b"\n"], out)
}
