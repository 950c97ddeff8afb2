//! How motifs are spelled. The spelling is this project's own.
ghost use Rattle.std.specs.Prelude.{◌≡◌, ◌≢◌, ◌+◌, ◌*◌, ◌≤◌, [], ◌∷◌, ◌++◌, length, map, slice_index_or, slice_get, Some, None, min, ◌-◌, ◌^◌, MatchResult, IfErr, IfOk, OnOk, OnErr};
ghost use Rattle.std.specs.List.{flat_map};
ghost use Rattle.std.specs.String.{string_bytes};
ghost use Rattle.mill_base.specs.Words.{number_of, words_of};
ghost use Rattle.mill_base.specs.declared.limits.TheConstants.{MAX_COLOURS};
ghost use Rattle.strokes.specs.Motifs.{motif_of, motif_fault, motif_faults, rows_faults, row_cells, words_faults, word_faults, first_width, told as told_of};

use crate::fault::MotifFault;
use crate::motif::Motif;
use mill_base::memory::OutOfMemory;
use mill_base::size::Size;
use mill_base::words::{Words, number};
use std::alloc::Global;

/// The motif that rows spell, or the first rule that they break.
pub(crate) fn motif_of_rows(
    alloc: Global,
    rows: &[String],
    colours: u32,
    size: Size,
) -> Result<Motif, MotifFault>
    requires { colours ≤ MAX_COLOURS }
    ensures ok { IfOk result (λ m. m ≡ motif_of (map string_bytes rows.now)) }
    ensures sound { OnOk result (motif_fault (map string_bytes rows.now) colours size ≡ None) }
    ensures fault { IfErr result (λ f. f ≢ MotifFault.OutOfMemory → motif_fault (map string_bytes rows.now) colours size ≡ Some f) }
{
    let mut cells = Vec::new(alloc);
    let width = push_rows(&mut cells, rows, colours)?;
    if width > size.columns as usize || rows.len() > size.picks as usize {
        return Err(MotifFault::TooLarge);
    }
    let size = Size {
        columns: width as u32,
        picks: rows.len() as u32,
    };
    Ok(Motif::of(size, cells))
}

/// Adds the cells of all rows, and answers how many each of them has.
fn push_rows(
    cells: &mut Vec<Option<u8>>,
    rows: &[String],
    colours: u32,
) -> Result<usize, MotifFault>
    requires colours { colours ≤ MAX_COLOURS }
    requires empty { cells.old.items ≡ [] }
    ensures width { IfOk result (λ width. width ≡ first_width (map string_bytes rows.now)) }
    ensures cells { OnOk result (cells.new.items ≡ flat_map row_cells (map string_bytes rows.now)) }
    ensures whole { OnOk result (length cells.new.items ≡ length rows.now * first_width (map string_bytes rows.now)) }
    ensures sound { OnOk result (rows_faults colours (first_width (map string_bytes rows.now)) 0 (map string_bytes rows.now) ≡ []) }
    ensures fault { IfErr result (λ f. f ≢ MotifFault.OutOfMemory
        → slice_get (rows_faults colours (first_width (map string_bytes rows.now)) 0 (map string_bytes rows.now)) 0 ≡ Some f) }
{
    let mut width = 0;
    for row in 0..rows.len() {
        let found = push_words(cells, &mut Words::of(rows[row].as_str()), colours, row)?;
        if row == 0 {
            width = found;
        }
        if found == 0 || found != width {
            return Err(MotifFault::Ragged { row: told(row) });
        }
    }
    Ok(width)
}

/// Adds the cells that words spell, and answers how many they are.
fn push_words(
    cells: &mut Vec<Option<u8>>,
    words: &mut Words,
    colours: u32,
    row: usize,
) -> Result<usize, MotifFault>
    requires { colours ≤ MAX_COLOURS }
    ensures count { IfOk result (λ count. count ≡ length words.old) }
    ensures cells { OnOk result (cells.new.items ≡ cells.old.items ++ map number_of words.old) }
    ensures sound { OnOk result (words_faults colours row 0 words.old ≡ []) }
    ensures fault { IfErr result (λ f. f ≢ MotifFault.OutOfMemory → slice_get (words_faults colours row 0 words.old) 0 ≡ Some f) }
{
    let before = cells.len();
    while let Some(word) = words.next() {
        let cell = cell(word, colours, row, cells.len() - before)?;
        push_cell(cells, cell)?;
    }
    Ok(cells.len() - before)
}

fn push_cell(cells: &mut Vec<Option<u8>>, cell: Option<u8>) -> Result<(), OutOfMemory>
    ensures ok { OnOk result (cells.new.items ≡ cells.old.items ++ cell ∷ []) }
    ensures err { OnErr result (cells.new.items ≡ cells.old.items) }
{
    cells.push(cell)?;
    Ok(())
}

// the cell that a word spells
fn cell(word: &[u8], colours: u32, row: usize, place: usize) -> Result<Option<u8>, MotifFault>
    requires { colours ≤ MAX_COLOURS }
    ensures { MatchResult result (λ cell. (word_faults colours row place word.now ≡ []) × (cell ≡ number_of word.now)) (λ f. word_faults colours row place word.now ≡ f ∷ []) }
{
    if word == b".".as_slice() {
        return Ok(None);
    }
    let Some(colour) = number(word) else {
        return Err(MotifFault::Token {
            row: told(row),
            word: told(place),
        });
    };
    if colour >= colours {
        return Err(MotifFault::Colour {
            row: told(row),
            word: told(place),
        });
    }
    Ok(Some(colour as u8))
}

// a place in 32 bits
fn told(place: usize) -> u32
    ensures { result ≡ told_of place }
{
    place.min(u32::MAX as usize) as u32
}
