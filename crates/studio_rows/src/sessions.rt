//! An ordinary session, with an image of 400 by 600 pixels as its opening.

use crate::files::joined;
use std::alloc::{AllocError, Global};

/// The text of the session.
pub(crate) const ORDINARY: &str = r#"format = 1
looms = 4
[design]
columns = 400
picks = 600
hooks = 408
cast_out = [50, 101, 152, 203, 254, 305, 356, 407]
weft_limit = 15
warp_limit = 15
raise = "satin 8 3 weft"
sink = "satin 8 3 weft"
opening = "blocks"
[[colour]]
weave = "plain"
[[colour]]
weave = "satin 8 3 weft"
[[colour]]
weave = "satin 8 3 warp"
[[colour]]
weave = "twill 2 2 right"
[[tie]]
kind = "pointed"
from = 0
to = 399
[[motif]]
name = "diamond"
rows = [". . 0 . .", ". 0 0 0 .", "0 0 0 0 0", ". 0 0 0 .", ". . 0 . ."]
[[shift]]
repeats = [2, 2, 2, 2]
acts = [["rect 3 100 100 139 139", "commit"], ["rect 0 200 200 239 239", "commit"]]
[[shift]]
repeats = [1, 1, 1, 1]
acts = [["stamp diamond 300 300", "commit"]]
[[shift]]
repeats = [1, 1, 1, 1]
"#;

// The head of a palette image of 400 by 600 pixels of 8 bits in one strip. Its colour map follows.
const HEAD: [u8; 122] = [
    0x49, 0x49, 0x2A, 0, 8, 0, 0, 0, 9, 0, 0, 1, 3, 0, 1, 0, 0, 0, 0x90, 1, 0, 0, 1, 1, 3, 0, 1, 0,
    0, 0, 0x58, 2, 0, 0, 2, 1, 3, 0, 1, 0, 0, 0, 8, 0, 0, 0, 3, 1, 3, 0, 1, 0, 0, 0, 1, 0, 0, 0, 6,
    1, 3, 0, 1, 0, 0, 0, 3, 0, 0, 0, 0x11, 1, 4, 0, 1, 0, 0, 0, 0x7A, 6, 0, 0, 0x16, 1, 3, 0, 1, 0,
    0, 0, 0x58, 2, 0, 0, 0x17, 1, 4, 0, 1, 0, 0, 0, 0x80, 0xA9, 3, 0, 0x40, 1, 3, 0, 0, 3, 0, 0,
    0x7A, 0, 0, 0, 0, 0, 0, 0,
];

/// The image: blocks of 50 by 50 pixels, and in column c and image row r the colour (c div 50 + r div 50) mod 4.
pub(crate) fn ordinary_image(alloc: Global) -> Result<Vec<u8>, AllocError> {
    let mut bytes = joined(alloc, &[&HEAD, &[0; 1536]])?;
    for row in 0..600_u32 {
        for column in 0..400_u32 {
            bytes.push((column / 50 + row / 50) as u8 % 4)?;
        }
    }
    Ok(bytes)
}
