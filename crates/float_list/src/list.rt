//! The list of all floats over their limit.
ghost use Rattle.std.specs.Prelude.{◌≡◌, length, slice_get, is_some, All, IfOk, OnOk};
ghost use Rattle.std.specs.Option.{option_map};
ghost use Rattle.draft_model.specs.Designs.{Fits, IsBitsOf};
ghost use Rattle.draft_model.specs.Floats.{keeps, first_float};
ghost use Rattle.float_list.specs.Lists.{list_of, told, IsFloatOf};

use crate::laws;
use crate::lines::{add_warp, add_weft};
use crate::long_float::LongFloat;
use draft_model::design::Design;
use mill_base::listed::Listed;
use mill_base::memory::OutOfMemory;
use point_paper::bit_paper::BitPaper;
use std::alloc::Global;

/// The most floats that are listed one by one (a limit of this project's own).
pub const MAX_LISTED: u32 = 100_000;

/// The floats of a cloth that are over their limit: pick by pick, on each by its start, and after all picks end by end.
#[derive(Drop)]
pub struct FloatList {
    /// All of them, or the first where there are more than are listed.
    pub listed: Listed<LongFloat>,
    /// How many there are along picks.
    pub weft: u32,
    /// How many there are along ends.
    pub warp: u32,
}

/// All floats of a cloth that are over their limit. A line is followed cell by cell only where some cell of it is long.
pub fn list_floats(
    alloc: Global,
    design: &Design,
    bits: &BitPaper,
) -> Result<FloatList, OutOfMemory>
    requires fits { Fits design.now }
    requires bits { IsBitsOf design.now bits.now }
    ensures list { IfOk result (λ list. list ≡ list_of design.now bits.now) }
    ensures each { IfOk result (λ list. All (IsFloatOf design.now) list.listed) }
    ensures first { IfOk result (λ list. option_map told (slice_get list.listed 0) ≡ first_float design.now bits.now) }
    ensures none { IfOk result (λ list. is_some (slice_get list.listed 0) ≡ keeps design.now bits.now) }
{
    laws::the_first_is_the_first_float();
    cloth_floats::laws::every_float_is_on_the_line();
    let mut listed = Vec::new(alloc);
    let weft = add_weft(alloc, design, bits, &mut listed)?;
    let warp = add_warp(alloc, design, bits, &mut listed)?;
    Ok(FloatList {
        listed: Listed::of(listed),
        weft,
        warp,
    })
}
