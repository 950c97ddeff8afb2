//! A set of cards.
ghost use Rattle.std.specs.Prelude.{List, Bool, ◌≡◌, ◌↔◌, ◌+◌, ◌/◌, ◌^◌, ◌<◌, ◌≤◌, ℕ, take, drop, None, [], length, slice_index, slice_index_or, IsTrue, IfOk};
ghost use Rattle.mill_base.specs.Bits.{packed};
ghost use Rattle.mill_base.specs.declared.face.Face.{Face};
ghost use Rattle.card_image.specs.Faults.{chain_fault};
ghost use Rattle.card_image.specs.Places.{card_place, hole_bytes};
ghost use Rattle.card_image.specs.Chains.{Chain, IsCardSet};
ghost use Rattle.card_image.specs.Sets.{cards_up, design_by, turned_card, turned_set};
ghost use Rattle.card_image.specs.inner.Kept.{face_of, holes_in};

use crate::cutting::{cut_chain, picks_of, turn_chain};
use crate::holes::{clear_holes, mark_hooks};
use casting_out::casting::Casting;
use mill_base::face::Face;
use mill_base::memory::OutOfMemory;
use point_paper::bit_paper::BitPaper;
use std::alloc::Global;
use std::marker::Model;

/// The cards of a cloth, one for each pick, counted from 0. They are kept as their chain, so that a set is compared,
/// copied and written by one run over its bytes. Cards and chain are formats of this project's own.
#[derive(Drop)]
pub struct CardSet {
    hooks: u32,
    picks: u32,
    columns: Vec<u32>,
    chain: Vec<u8>,
}

impl Model for CardSet {
    ghost use Rattle.card_image.specs.Sets.{CardsValue};
    ghost use Rattle.card_image.specs.Chains.{Chain};
    ghost use Rattle.card_image.specs.inner.Kept.{face_of, holes_in};

    ghost Value = { CardsValue };

    ghost view = { λ c. record {
      design = record { hooks = c.hooks; picks = c.picks; columns = c.columns.items };
      face = face_of c.chain.items;
      holes = holes_in (record { hooks = c.hooks; picks = c.picks; columns = c.columns.items }) c.chain.items;
    } };

    ghost invariant = { λ c. Chain (record { hooks = c.hooks; picks = c.picks; columns = c.columns.items }) c.chain.items
        (face_of c.chain.items)
        (holes_in (record { hooks = c.hooks; picks = c.picks; columns = c.columns.items }) c.chain.items) };
}

fn face_byte(chain: &[u8]) -> Face
    requires { 3 < length chain.now }
    ensures { result ≡ face_of chain.now }
{
    if chain[3] == 0x32 {
        return Face::Down;
    }
    Face::Up
}

// Tells a proof that each item is a byte.
fn know_bytes(bytes: &[u8])
    ensures { (i : ℕ) → slice_index bytes.now i < 256 }
{
    let _ = bytes.len();
}

fn same_bytes(one: &[u8], other: &[u8]) -> bool
    ensures { IsTrue result ↔ (one.now ≡ other.now) }
{
    one == other
}

fn part(bytes: &[u8], at: usize, len: usize) -> &[u8]
    requires low { at < 2 ^ 63 }
    requires small { len < 2 ^ 32 }
    requires there { at + len ≤ length bytes.now }
    ensures { result.now ≡ take len (drop at bytes.now) }
{
    &bytes[at..at + len]
}

impl CardSet {
    /// The cards of a bit paper, for a cloth that lies face up, one for each pick: a hole for each lifted cell, at the
    /// hook of its column.
    pub fn cut(alloc: Global, bits: &BitPaper, casting: &Casting) -> Result<CardSet, OutOfMemory>
        requires { bits.now.columns ≡ length casting.now.columns }
        ensures { IfOk result (λ set. set
            ≡ record {
              design = design_by casting.now (length bits.now.rows);
              face = Face.Up;
              holes = cards_up casting.now bits.now;
            }) }
    {
        let chain = cut_chain(alloc, bits, casting)?;
        let columns = Vec::from_slice(alloc, casting.hooks_of_columns())?;
        Ok(CardSet::of_chain(casting.hooks(), picks_of(bits), columns, chain))
    }

    /// The set whose chain this is.
    pub(crate) fn of_chain(hooks: u32, picks: u32, columns: Vec<u32>, chain: Vec<u8>) -> CardSet
        requires whole { length chain.items ≡ card_place hooks picks }
        requires clean { chain_fault (record { hooks = hooks; picks = picks; columns = columns.items }) chain.items ≡ None }
        ensures design { result.design ≡ record { hooks = hooks; picks = picks; columns = columns.items } }
        ensures chain { Chain (record { hooks = hooks; picks = picks; columns = columns.items }) chain.items
            result.face result.holes }
    {
        know_bytes(&chain);
        CardSet {
            hooks,
            picks,
            columns,
            chain,
        }
    }

    /// Which side of the cloth lies upwards.
    pub fn face(&self) -> Face
        ensures { result ≡ self.now.face }
    {
        face_byte(&self.chain)
    }

    /// The one chain of the set.
    pub fn encode(&self) -> Result<Vec<u8>, OutOfMemory>
        ensures { IfOk result (λ v. Chain self.now.design v.items self.now.face self.now.holes) }
    {
        Ok(Vec::from_slice(*self.chain.allocator(), &self.chain)?)
    }

    /// The packed holes of a card: hook h stands in bit 7 - h mod 8 of byte h div 8.
    pub fn card(&self, pick: u32) -> &[u8]
        requires { pick < self.now.design.picks }
        ensures holes { result.now ≡ packed (slice_index_or self.now.holes pick []) }
        ensures len { length result.now ≡ hole_bytes self.now.design.hooks }
        ensures whole { IsCardSet self.now }
    {
        let size = (self.hooks as usize + 7) / 8;
        part(&self.chain, 12 + pick as usize * (8 + size) + 8, size)
    }

    /// How many hooks the machine has.
    pub fn hooks(&self) -> u32
        ensures count { result ≡ self.now.design.hooks }
        ensures whole { IsCardSet self.now }
    {
        self.hooks
    }

    /// How many cards there are, one for each pick.
    pub fn picks(&self) -> u32
        ensures count { result ≡ self.now.design.picks }
        ensures whole { IsCardSet self.now }
    {
        self.picks
    }

    /// Puts the turned card of a pick into bytes: it has a hole exactly at the hooks of the casting's columns where
    /// this card has none. It takes no memory.
    pub fn turn_card(&self, pick: u32, casting: &Casting, out: &mut [u8])
        requires pick { pick < self.now.design.picks }
        requires hooks { casting.now.hooks ≡ self.now.design.hooks }
        requires room { length out.old ≡ hole_bytes self.now.design.hooks }
        ensures { out.new
            ≡ packed (turned_card casting.now.hooks casting.now.columns (slice_index_or self.now.holes pick [])) }
    {
        turn(self.card(pick), casting, out);
    }

    /// The set of all turned cards, for a cloth that lies on its other face.
    pub fn turned(&self, casting: &Casting) -> Result<CardSet, OutOfMemory>
        requires { casting.now.hooks ≡ self.now.design.hooks }
        ensures { IfOk result (λ set. set ≡ turned_set casting.now self.now) }
    {
        let alloc = *self.chain.allocator();
        let chain = turn_chain(alloc, self, casting)?;
        let columns = Vec::from_slice(alloc, casting.hooks_of_columns())?;
        Ok(CardSet::of_chain(casting.hooks(), self.picks(), columns, chain))
    }

    /// Whether two sets have equal designs: as many hooks and picks, and the same hook for each column.
    pub fn is_alike(&self, other: &CardSet) -> bool
        ensures { IsTrue result ↔ (self.now.design ≡ other.now.design) }
    {
        self.hooks == other.hooks && self.picks == other.picks && self.columns == other.columns
    }

    /// Whether two sets are the same: of one design and one face, with the same holes.
    pub fn equals(&self, other: &CardSet) -> bool
        ensures { IsTrue result ↔ (self.now ≡ other.now) }
    {
        self.is_alike(other) && same_bytes(&self.chain, &other.chain)
    }

    /// The same set in memory of its own.
    pub fn copy(&self) -> Result<CardSet, OutOfMemory>
        ensures { IfOk result (λ set. set ≡ self.now) }
    {
        let columns = self.columns.clone()?;
        let chain = self.chain.clone()?;
        Ok(CardSet {
            hooks: self.hooks,
            picks: self.picks,
            columns,
            chain,
        })
    }
}

// Puts the turned card into bytes of its own.
fn turn(card: &[u8], casting: &Casting, out: &mut [u8])
    requires card { length card.now ≡ hole_bytes casting.now.hooks }
    requires room { length out.old ≡ hole_bytes casting.now.hooks }
    ensures { (row : List Bool) → length row ≡ casting.now.hooks → card.now ≡ packed row
        → out.new ≡ packed (turned_card casting.now.hooks casting.now.columns row) }
{
    mark_hooks(casting.hooks(), casting.hooks_of_columns(), out);
    clear_holes(out, card);
}
