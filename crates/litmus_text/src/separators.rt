ghost use Rattle.std.specs.Prelude.{◌≡◌};
ghost use Rattle.diy_io.specs.Page.{page_after};
ghost use Rattle.litmus_text.specs.Separators.{separator_at};

use diy_io::Page;

/// Appends what comes before element number `i` of a list that is printed with separators: nothing
/// before the first.
#[tactic(auto, using(crate::proofs::JoinLaws::separator_later, crate::proofs::JoinLaws::separator_first, diy_io::specs::PageLaws::page_nothing))]
pub(crate) fn put_separator<const N: usize>(i: usize, text: &[u8; N], page: &mut Page)
    ensures { page.new ≡ page_after page.old (separator_at text.now i) }
{
    if i > 0 {
        page.put_fixed(text);
    }
}
