ghost use Rattle.std.specs.Prelude.{◌≡◌, ◌<◌};
ghost use Rattle.relax_edges.specs.{AllEdges.edges_in_order, NamedKinds.kind_named_by, WordParts.word_of};
ghost use Rattle.relax_edges.specs.HashedWords.{hashed, hash_with, rank_by};

use crate::edge::Edge;
use crate::order::EDGES;
use crate::table::edges;
use crate::word::words;

/// By the lowest seven bits of a hash: how far the place of a name in `RANKS` is moved, so that no two
/// names share a place.
///
/// Whoever changes a name makes both tables anew, by a search: for one set of names with the same seven
/// bits after another, the largest first, the least step that moves all of the set to free places.
/// Tables in which a name isn't found are refused.
const STEPS: [u8; 128] = [
    3, 16, 9, 12, 5, 1, 0, 15, 5, 31, 18, 13, 28, 38, 21, 1, 11, 9, 10, 84, 53, 64, 7, 98, 0, 4,
    30, 47, 0, 14, 9, 0, 35, 16, 75, 1, 27, 4, 0, 10, 29, 28, 12, 39, 8, 37, 22, 14, 3, 0, 12, 0,
    95, 11, 0, 29, 0, 55, 1, 54, 48, 11, 0, 1, 85, 1, 5, 5, 2, 5, 26, 0, 34, 0, 36, 8, 97, 33, 5,
    33, 24, 0, 1, 0, 57, 21, 3, 14, 3, 22, 0, 0, 31, 10, 9, 1, 46, 0, 13, 14, 6, 29, 20, 0, 1, 20,
    42, 26, 12, 2, 17, 13, 15, 0, 1, 66, 0, 13, 1, 54, 21, 1, 3, 4, 1, 16, 8, 11,
];

/// By the place of a name, the rank of its edge; 0 where no name has the place.
const RANKS: [u16; 512] = [
    145, 55, 24, 20, 146, 28, 50, 221, 223, 243, 70, 53, 141, 0, 0, 229, 0, 71, 0, 0, 67, 252, 254,
    73, 253, 59, 143, 79, 62, 63, 259, 257, 58, 0, 147, 75, 77, 57, 78, 74, 61, 256, 0, 258, 0, 0,
    0, 0, 0, 0, 255, 0, 0, 0, 0, 0, 0, 0, 0, 312, 0, 308, 248, 0, 325, 326, 330, 328, 261, 327,
    260, 0, 0, 168, 169, 0, 267, 264, 265, 263, 329, 150, 331, 151, 149, 154, 0, 0, 266, 170, 0,
    244, 0, 0, 0, 0, 155, 167, 166, 165, 0, 0, 171, 0, 262, 153, 0, 0, 0, 0, 0, 164, 0, 0, 0, 0, 0,
    324, 0, 0, 0, 0, 0, 0, 0, 0, 0, 196, 0, 0, 0, 0, 198, 0, 0, 121, 0, 106, 125, 122, 109, 197,
    202, 0, 293, 0, 111, 105, 110, 299, 200, 126, 297, 0, 2, 213, 3, 295, 127, 7, 107, 123, 1, 199,
    0, 214, 218, 201, 203, 217, 6, 215, 317, 180, 181, 298, 212, 172, 301, 322, 319, 303, 316, 5,
    306, 11, 10, 177, 14, 176, 185, 219, 184, 174, 288, 276, 280, 294, 179, 323, 13, 15, 173, 183,
    187, 305, 284, 304, 191, 9, 246, 292, 188, 249, 140, 250, 296, 189, 216, 193, 129, 130, 245,
    178, 114, 192, 144, 195, 119, 251, 133, 113, 148, 117, 321, 118, 131, 182, 135, 186, 156, 205,
    175, 300, 190, 318, 310, 33, 35, 315, 208, 211, 115, 134, 86, 39, 194, 38, 85, 314, 37, 82, 83,
    34, 210, 160, 247, 311, 206, 207, 313, 302, 81, 307, 320, 87, 43, 0, 0, 46, 91, 152, 47, 94,
    89, 0, 41, 309, 0, 90, 0, 45, 42, 95, 204, 0, 0, 0, 0, 93, 0, 0, 0, 0, 209, 0, 0, 0, 0, 0, 0,
    157, 0, 0, 0, 0, 158, 159, 0, 0, 0, 0, 0, 0, 0, 0, 0, 0, 0, 0, 0, 132, 0, 0, 120, 0, 0, 0, 0,
    128, 0, 0, 124, 0, 0, 0, 0, 0, 0, 0, 0, 0, 0, 0, 0, 0, 0, 0, 0, 0, 0, 0, 0, 0, 0, 0, 138, 0, 0,
    136, 0, 0, 137, 0, 0, 0, 0, 0, 0, 0, 139, 0, 0, 0, 0, 0, 0, 0, 0, 0, 0, 0, 0, 0, 0, 0, 0, 162,
    163, 277, 0, 0, 0, 279, 278, 0, 281, 0, 0, 161, 0, 18, 17, 19, 21, 23, 282, 0, 0, 0, 0, 0, 0,
    22, 0, 0, 273, 0, 274, 0, 0, 0, 285, 32, 36, 0, 275, 268, 283, 287, 25, 291, 290, 100, 101,
    225, 29, 226, 27, 116, 52, 30, 48, 31, 108, 227, 220, 286, 272, 102, 26, 233, 72, 44, 60, 64,
    228, 99, 98, 97, 270, 236, 103, 68, 241, 76, 80, 224, 92, 239, 88, 96, 104, 235, 238, 231, 289,
    237, 230, 222, 84, 240, 232, 234, 0, 4, 12, 40, 112, 56, 269, 271, 242, 49, 8, 51, 65, 16, 54,
    69, 66, 142,
];

/// The hash of the bytes of a word, or of its first ones, while it is read.
#[derive(Clone, Copy)]
pub struct WordHash {
    hash: u32,
}

impl WordHash {
    /// The hash of no bytes.
    pub fn new() -> WordHash
        ensures { result.hash ≡ 0 }
    {
        WordHash { hash: 0 }
    }

    /// The hash of the same bytes and one more.
    pub fn with(self, byte: u8) -> WordHash
        ensures { result.hash ≡ hash_with self.hash byte }
    {
        WordHash {
            hash: self.hash.wrapping_mul(9).wrapping_add(u32::from(byte)),
        }
    }

    fn of_word(word: &[u8]) -> WordHash
        ensures { result.hash ≡ hashed 0 word.now }
    {
        let mut hash = WordHash::new();
        let mut rest = word;
        while let [byte, remainder @ ..] = rest {
            hash = hash.with(*byte);
            rest = remainder;
        }
        hash
    }

    /// The rank of the one edge whose printed name can have this hash.
    #[tactic(auto, using(crate::proofs::HashedNames::rank_by_below), unfolding(crate::specs::HashedWords::rank_by))]
    fn rank(self) -> u16
        ensures value { result ≡ rank_by self.hash }
        ensures below { result < EDGES }
    {
        let step = STEPS[(self.hash % 128) as usize];
        RANKS[((self.hash / 128 + u32::from(step)) % 512) as usize]
    }
}

impl Edge {
    /// The edge with this printed name, if there is one.
    pub fn named(word: &[u8]) -> Option<Edge>
        ensures { result ≡ kind_named_by word_of edges_in_order word.now }
    {
        Edge::named_by_hash(word, WordHash::of_word(word))
    }

    /// The same, by the hash of the word: for a caller who makes it while it looks for the word's end.
    pub fn named_by_hash(word: &[u8], hash: WordHash) -> Option<Edge>
        requires { hash.hash ≡ hashed 0 word.now }
        ensures { result ≡ kind_named_by word_of edges_in_order word.now }
    {
        let rank = usize::from(hash.rank());
        if words()[rank].as_bytes() == word {
            Some(edges()[rank])
        } else {
            None
        }
    }
}
