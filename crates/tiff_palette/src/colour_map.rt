//! The colour map of a file.
ghost use Rattle.std.specs.Prelude.{◌≡◌, ◌≤◌, ◌<◌, ◌+◌, ◌*◌, ℕ, length, slice_index, IfOk};
ghost use Rattle.tiff_palette.specs.Pixels.{shade_of};

use crate::layout::colours_of;
use crate::palette::Palette;
use mill_base::limits::MAX_COLOURS;
use mill_base::memory::OutOfMemory;
use std::alloc::Global;

/// The numbers of a map: red, green and blue of each colour.
const MAP_LENGTH: usize = 3 * MAX_COLOURS as usize;

/// The colour map of 256 colours, filled up with 0.
pub fn read_map(alloc: Global, palette: &Palette<'_>) -> Result<Vec<u16>, OutOfMemory>
    ensures length { IfOk result (λ v. length v.items ≡ 3 * MAX_COLOURS) }
    ensures colours { IfOk result (λ v. (part k : ℕ) → part < 3 → k < MAX_COLOURS
        → slice_index v.items (part * MAX_COLOURS + k) ≡ shade_of palette.now.strips.layout.bits palette.now.strips.offsets.bytes.now part k) }
{
    let mut colours = Vec::with_capacity(alloc, MAP_LENGTH)?;
    for i in 0..MAP_LENGTH {
        let part = i / MAX_COLOURS as usize;
        let colour = i % MAX_COLOURS as usize;
        colours.push(shade(palette, part, colour))?;
    }
    Ok(colours)
}

// One number of the map: part 0 is the red of a colour, 1 the green and 2 the blue.
#[tactic(auto, unfolding(crate::specs::Pixels::shade_of), using(crate::proofs::Places::value_is))]
fn shade(palette: &Palette<'_>, part: usize, colour: usize) -> u16
    requires part { part < 3 }
    requires colour { colour < MAX_COLOURS }
    ensures { result ≡ shade_of palette.now.strips.layout.bits palette.now.strips.offsets.bytes.now part colour }
{
    let colours = colours_of(palette.strips.layout.bits) as usize;
    if colours <= colour {
        return 0;
    }
    palette.colour_map.get_short(part * colours + colour)
}
