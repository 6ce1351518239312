ghost use Rattle.std.specs.{Prelude.{◌<◌, ◌≤◌, ◌≡◌, ◌*◌, ◌++◌, List, map, length, codes, true, nat_lt}, Fmt.{decimal}};
ghost use Rattle.std.specs.List.{All, list_all, flat_map, join_by, enumerate_from};
ghost use Rattle.diy_io.specs.Page.{page_after, Sends};
ghost use Rattle.arch_trait.specs.Codes.{thread_code_of};
ghost use Rattle.litmus_text.specs.{TestText.{item_text, items_lines, initial_lines, with_line_feed}, Tests.{IsPrintable}, Separators.{separator_at}};

use crate::separators::put_separator;
use arch_trait::{Arch, Code, MAX_STEPS, Places};
use diy_io::Page;
use final_cond::RegName;
use itoa::Buffer;

/// The most bytes that an item with a blank before it can have.
const ITEM_ROOM: usize = 56;

/// The most bytes that the line of a thread's items can have.
pub(crate) const ITEMS_ROOM: usize = ITEM_ROOM * MAX_STEPS + 1;

/// Appends the line of the items of a thread, if it has any.
pub(crate) fn print_item_line<A: Arch>(thread: usize, code: &Code, places: &Places, page: &mut Page)
    requires { IsPrintable A.puts.has A.REGISTERS (length places.now) code.now }
    ensures text { page.new ≡ page_after page.old (flat_map with_line_feed (items_lines A.writing places.now thread code.now.links.items)) }
    ensures short { length (flat_map with_line_feed (items_lines A.writing places.now thread code.now.links.items)) ≤ ITEMS_ROOM }
{
    let links = code.links.as_slice();
    if links.is_empty() {
        return;
    }
    print_items::<A>(thread, links, places, page);
    page.put_fixed(b"\n");
}

fn print_items<A: Arch>(thread: usize, links: &[(u8, u8)], places: &Places, page: &mut Page)
    requires registers { list_all (λ link. nat_lt link.0 A.REGISTERS) links.now ≡ true }
    requires places { list_all (λ link. nat_lt link.1 (length places.now)) links.now ≡ true }
    ensures text { page.new ≡ page_after page.old (join_by (item_text A.writing places.now thread) (codes " ") links.now) }
    ensures short { length (join_by (item_text A.writing places.now thread) (codes " ") links.now) ≤ ITEM_ROOM * length links.now }
{
    for (i, link) in links.iter().enumerate() {
        print_item::<A>(i, thread, *link, places, page);
    }
}

#[tactic(auto, using(diy_io::specs::PageLaws::page_more, std::proofs::Common::append_assoc), unfolding(crate::specs::TestText::item_text))]
fn print_item<A: Arch>(i: usize, thread: usize, link: (u8, u8), places: &Places, page: &mut Page)
    requires register { link.0 < A.REGISTERS }
    requires place { link.1 < length places.now }
    ensures text { page.new ≡ page_after page.old (separator_at (codes " ") i ++ item_text A.writing places.now thread link) }
    ensures short { length (separator_at (codes " ") i ++ item_text A.writing places.now thread link) ≤ ITEM_ROOM }
{
    let (register, place) = link;
    let mut name = RegName::new();
    A::register_name(register, &mut name);
    put_separator(i, b" ", page);
    put_link(
        thread,
        name.as_str().as_bytes(),
        places.get(place).as_str().as_bytes(),
        page,
    );
}

/// Appends the item of a register and a location by their names; one of the usual length goes in as
/// one piece.
#[inline(always)]
#[tactic(auto, using(std::proofs::lemmas::Fmt::decimal_digit))]
fn put_link(thread: usize, register: &[u8], place: &[u8], page: &mut Page)
    ensures { page.new ≡ page_after page.old (decimal thread ++ codes ":" ++ register.now ++ codes "=" ++ place.now ++ codes ";") }
{
    if let [letter] = place {
        if let [first, second] = register {
            if thread < 10 {
                let digit = b'0' + thread as u8;
                page.put_fixed(&[digit, b':', *first, *second, b'=', *letter, b';']);
                return;
            }
        }
    }
    put_long_link(thread, register, place, page);
}

/// Appends the item of a register and a location by their names, piece by piece.
#[tactic(auto, using(diy_io::specs::PageLaws::page_more, std::proofs::Common::append_assoc))]
fn put_long_link(thread: usize, register: &[u8], place: &[u8], page: &mut Page)
    ensures { page.new ≡ page_after page.old (decimal thread ++ codes ":" ++ register.now ++ codes "=" ++ place.now ++ codes ";") }
{
    page.put(Buffer::new().format(thread).as_bytes());
    page.put_fixed(b":");
    page.put(register);
    page.put_fixed(b"=");
    page.put(place);
    page.put_fixed(b";");
}
