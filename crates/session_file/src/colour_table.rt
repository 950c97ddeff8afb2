//! A table of `colour`.
ghost use Rattle.std.specs.Prelude.{◌≡◌, length, IfOk};
ghost use Rattle.session_file.specs.Rules.{colour_keys, colour_rules};
ghost use Rattle.session_file.specs.Values.{colour_of, grey as grey_of};
ghost use Rattle.session_file.specs.inner.Drafts.{FitsColour};

use crate::draft::Colour;
use crate::trade_forms::{Shade, WeaveForm};
use mill_base::limits::MAX_COLOURS;
use mill_base::listed::Listed;
use mill_base::memory::OutOfMemory;
use session_rules::fault::SessionRefusal;
use session_rules::lists::ListOf;
use session_rules::path::Path;
use session_rules::tables::{Keys, KnownKeys, KnownOf, TableOf, no_other_keys, optional, required};
use std::alloc::Global;
use toml::{Table, Value};

/// The keys of a table of `colour`.
#[derive(Clone, Copy)]
pub(crate) struct ColourKeys;

pub(crate) const COLOURS: ListOf<TableOf<ColourKeys>> = ListOf {
    least: 1,
    greatest: MAX_COLOURS,
    item: TableOf { keys: ColourKeys },
};

pub(crate) const KNOWN_COLOURS: ListOf<KnownOf<ColourKeys>> = ListOf {
    least: 1,
    greatest: MAX_COLOURS,
    item: KnownOf { keys: ColourKeys },
};

const RGB: ListOf<Shade> = ListOf {
    least: 3,
    greatest: 3,
    item: Shade,
};

impl Keys for ColourKeys {
    type Out = Colour;

    ghost rules = { λ s earlier. colour_rules };

    ghost members = { λ s earlier. colour_of (length earlier) };

    ghost holds = { λ s. FitsColour };

    #[tactic(auto, unfolding(crate::specs::Rules::colour_rules, crate::specs::Values::colour_of), using(session_rules::proofs::lemmas::Told::told_here, session_rules::proofs::lemmas::Told::told_later))]
    fn read_keys(
        &self,
        alloc: Global,
        path: &Path<'_>,
        earlier: &[Value],
        table: &Table,
    ) -> Result<Colour, SessionRefusal> {
        let weave = required(alloc, path, table, "weave", &WeaveForm)?;
        let rgb = optional(alloc, path, table, "rgb", &RGB, grey(alloc, earlier.len())?)?;
        Ok(Colour { weave, rgb })
    }
}

impl KnownKeys for ColourKeys {
    ghost known = { λ s. colour_keys };

    #[tactic(auto, unfolding(crate::specs::Rules::colour_keys))]
    fn read_known(
        &self,
        alloc: Global,
        path: &Path<'_>,
        table: &Table,
    ) -> Result<(), SessionRefusal> {
        no_other_keys(alloc, path, table, &["weave", "rgb"])
    }
}

// The default of the colour at a place of the list.
pub(crate) fn grey(alloc: Global, place: usize) -> Result<Listed<u16>, OutOfMemory>
    ensures { IfOk result (λ rgb. rgb ≡ grey_of place) }
{
    let level = 257 * place.min(255) as u16;
    let mut rgb = Listed::new(alloc);
    rgb.push(level)?;
    rgb.push(level)?;
    rgb.push(level)?;
    Ok(rgb)
}
