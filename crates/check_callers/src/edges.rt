ghost use Rattle.std.specs.Prelude.{◌≡◌, MatchResult, None, OnErr, Some, option_map};
ghost use Rattle.relax_edges.specs.{Spelling.{edge_of}, WordParts.{word_of}};

use arrayvec::ArrayString;
use edges_from_text::{UnknownEdge, read_edge};

/// Replaces what `name` holds by the printed name of the edge that a text spells, such as `Wse` for `Coe`. If the text spells no
/// edge, `name` stays as it is.
pub fn printed_name(text: &str, name: &mut ArrayString<16>) -> Result<(), UnknownEdge>
    ensures named { MatchResult result (λ _. option_map word_of (edge_of text.now) ≡ Some name.new.bytes) (λ _. edge_of text.now ≡ None) }
    ensures kept { OnErr result (name.new ≡ name.old) }
{
    let edge = read_edge(text)?;
    edge.word(name);
    Ok(())
}
