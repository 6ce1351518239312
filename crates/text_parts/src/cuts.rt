ghost use Rattle.std.specs.Prelude.{◌≡◌, ◌<◌, true, length, option_map, IfSome, MatchOption};
ghost use Rattle.text_parts.specs.Cuts.{cut_at, is_without, CutParts};

use memchr::memchr;

/// The text before the first `sign`, and the text after it; `None` if the text has no `sign`.
pub fn cut(sign: u8, text: &[u8]) -> Option<(&[u8], &[u8])>
    ensures cut { option_map (λ parts. (parts.0.now, parts.1.now)) result ≡ cut_at sign text.now }

    // The same, by the parts themselves.
    ensures parts { MatchOption result (is_without sign text.now ≡ true) (λ parts. CutParts sign text.now parts.0.now parts.1.now) }
    ensures less { IfSome result (λ parts. length parts.1.now < length text.now) }
{
    match memchr(sign, text) {
        Some(i) => Some((&text[..i], &text[i + 1..])),
        None => None,
    }
}
