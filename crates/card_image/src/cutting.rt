//! How the cards of a paper are cut, and how cards are turned.
ghost use Rattle.std.specs.Prelude.{◌≡◌, [], length, slice_index_or, map, IfOk};
ghost use Rattle.mill_base.specs.declared.face.Face.{Face};
ghost use Rattle.casting_out.specs.Cards.{on_hooks};
ghost use Rattle.card_image.specs.Chains.{Chain};
ghost use Rattle.card_image.specs.Sets.{cards_up, design_by, other_face, turned_card};

use crate::card_set::CardSet;
use crate::writing::{push_card, push_head, whole_length};
use casting_out::casting::Casting;
use mill_base::bit_row::BitRow;
use mill_base::face::Face;
use mill_base::memory::OutOfMemory;
use point_paper::bit_paper::BitPaper;
use std::alloc::Global;

/// How many picks a bit paper has.
pub fn picks_of(bits: &BitPaper) -> u32
    ensures { result ≡ length bits.now.rows }
{
    bits.size().picks
}

// Puts the cells of a pick on the hooks. Where each hook has a column the row is copied as it is.
fn put_on_hooks(casting: &Casting, row: &BitRow, card: &mut BitRow)
    requires row { length row.now ≡ length casting.now.columns }
    requires card { length card.old ≡ casting.now.hooks }
    ensures len { length card.new ≡ casting.now.hooks }
    ensures row { card.new ≡ on_hooks casting.now.hooks casting.now.columns row.now }
{
    casting_out::laws::a_row_comes_back_from_the_hooks();
    if casting.columns() == casting.hooks() {
        card.copy_from(row);
        return;
    }
    casting.to_hooks(row, card);
}

/// The chain of the face-up cards of a bit paper.
pub fn cut_chain(alloc: Global, bits: &BitPaper, casting: &Casting) -> Result<Vec<u8>, OutOfMemory>
    requires { bits.now.columns ≡ length casting.now.columns }
    ensures { IfOk result
        (λ v. Chain (design_by casting.now (length bits.now.rows)) v.items Face.Up (cards_up casting.now bits.now)) }
{
    casting_out::laws::a_card_is_a_row_on_the_hooks();
    casting_out::laws::columns_and_hooks_match();
    casting_out::laws::holes_are_cells();
    let hooks = casting.hooks();
    let picks = picks_of(bits);
    let mut chain = Vec::with_capacity(alloc, whole_length(hooks, picks))?;
    push_head(&mut chain, hooks, picks, Face::Up)?;
    let mut card = BitRow::new(alloc, hooks)?;
    for pick in 0..picks {
        put_on_hooks(casting, bits.row(pick), &mut card);
        push_card(&mut chain, pick, &card)?;
    }
    Ok(chain)
}

fn other(face: Face) -> Face
    ensures { result ≡ other_face face }
{
    match face {
        Face::Up => Face::Down,
        Face::Down => Face::Up,
    }
}

/// The chain of the turned cards of a set.
pub fn turn_chain(alloc: Global, set: &CardSet, casting: &Casting) -> Result<Vec<u8>, OutOfMemory>
    requires { casting.now.hooks ≡ set.now.design.hooks }
    ensures { IfOk result (λ v. Chain (design_by casting.now set.now.design.picks) v.items (other_face set.now.face)
        (map (turned_card casting.now.hooks casting.now.columns) set.now.holes)) }
{
    let hooks = casting.hooks();
    let picks = set.picks();
    let mut chain = Vec::with_capacity(alloc, whole_length(hooks, picks))?;
    push_head(&mut chain, hooks, picks, other(set.face()))?;
    let mut card = BitRow::new(alloc, hooks)?;
    let mut cells = BitRow::new(alloc, casting.columns())?;
    for pick in 0..picks {
        card.unpack(set.card(pick));
        casting.to_columns(&card, &mut cells);
        cells.negate();
        casting.to_hooks(&cells, &mut card);
        push_card(&mut chain, pick, &card)?;
    }
    Ok(chain)
}
