//! Cloths that are lifted from cards.
ghost use Rattle.std.specs.Prelude.{◌≡◌, ◌+◌, ◌/◌, ◌<◌, ◌++◌, ℕ, List, [], length, slice_set, slice_index_or, IfOk};
ghost use Rattle.sha2.specs.Hashers.{Holds256};
ghost use Rattle.mill_base.specs.Bits.{packed as packed_row};
ghost use Rattle.casting_out.specs.Castings.{IsCasting};
ghost use Rattle.card_image.specs.Sets.{turned_card};
ghost use Rattle.loom_threads.specs.Lifts.{cloth_from, row_from};
ghost use Rattle.loom_threads.specs.Woven.{digest_of};

use crate::digest::{hash_cloth, hash_row};
use card_image::card_set::CardSet;
use casting_out::casting::Casting;
use draft_model::cloth::Cloth;
use harness_ties::tie::Tie;
use loom_machine::machine::Machine;
use mill_base::bit_row::BitRow;
use mill_base::face::Face;
use mill_base::memory::OutOfMemory;
use sha2::{Digest, Sha256};
use std::alloc::Global;
use std::marker::Model;

/// Lifts cloths from face-up cards, for a cloth that lies on one face: a loom whose cloth lies face down turns each card first. It
/// keeps the bytes of a turned card, and a row with its packed bytes, so that it lifts without taking memory.
#[derive(Drop)]
pub struct Lifter {
    machine: Machine,
    casting: Casting,
    face: Face,
    turned: Vec<u8>,
    row: BitRow,
    packed: Vec<u8>,
}

impl Model for Lifter {
    ghost use Rattle.loom_threads.specs.inner.Lifters.{HasRoom, LifterValue};

    ghost Value = { LifterValue };

    ghost view = { λ l. record { machine = l.machine; face = l.face } };

    ghost invariant = { λ l. HasRoom l.machine l.casting l.turned.items l.row l.packed.items };
}

impl Lifter {
    /// A lifter for a tie and a casting that were built for the same columns.
    pub fn new(
        alloc: Global,
        tie: &Tie,
        casting: &Casting,
        face: Face,
    ) -> Result<Lifter, OutOfMemory>
        requires { length casting.now.columns ≡ tie.now.columns }
        ensures lifter { IfOk result (λ lifter. lifter ≡ record { machine = record { tie = tie.now; casting = casting.now }; face = face }) }
        ensures casting { IfOk result (λ _. IsCasting casting.now) }
    {
        let machine = Machine::new(alloc, tie, casting)?;
        let row = BitRow::new(alloc, tie.ends())?;
        let packed = Vec::from_elem(alloc, 0u8, (tie.ends() as usize + 7) / 8)?;
        let turned = Vec::from_elem(alloc, 0u8, (casting.hooks() as usize + 7) / 8)?;
        Ok(Lifter {
            machine,
            casting: casting.copy()?,
            face,
            turned,
            row,
            packed,
        })
    }

    /// The digest of the cloth that is lifted from the cards, whose rows are not kept.
    pub fn digest(&mut self, cards: &CardSet) -> [u8; 32]
        requires { cards.now.design.hooks ≡ self.old.machine.casting.hooks }
        ensures same { self.new ≡ self.old }
        ensures digest { result ≡ digest_of (cloth_from self.old.machine self.old.face cards.now) }
    {
        let mut hasher = Sha256::new();
        for pick in 0..cards.picks() {
            self.hash_pick(cards, pick, &mut hasher);
        }
        hasher.finalize()
    }

    /// Lifts the cloth of the cards into one of its size, and tells its digest.
    pub fn lift(&mut self, cards: &CardSet, cloth: &mut Cloth) -> [u8; 32]
        requires hooks { cards.now.design.hooks ≡ self.old.machine.casting.hooks }
        requires ends { cloth.old.ends ≡ length self.old.machine.tie.ends }
        requires picks { length cloth.old.rows ≡ cards.now.design.picks }
        ensures same { self.new ≡ self.old }
        ensures cloth { cloth.new ≡ cloth_from self.old.machine self.old.face cards.now }
        ensures digest { result ≡ digest_of (cloth_from self.old.machine self.old.face cards.now) }
    {
        self.lift_rows(cards, cloth);
        hash_cloth(cloth, &mut self.packed)
    }

    // Lifts all rows into the cloth.
    fn lift_rows(&mut self, cards: &CardSet, cloth: &mut Cloth)
        requires hooks { cards.now.design.hooks ≡ self.old.machine.casting.hooks }
        requires ends { cloth.old.ends ≡ length self.old.machine.tie.ends }
        requires picks { length cloth.old.rows ≡ cards.now.design.picks }
        ensures same { self.new ≡ self.old }
        ensures cloth { cloth.new ≡ cloth_from self.old.machine self.old.face cards.now }
    {
        for pick in 0..cards.picks() {
            self.lift_row(cards, pick, cloth);
        }
    }

    // Lifts the row of a pick into the cloth.
    fn lift_row(&mut self, cards: &CardSet, pick: u32, cloth: &mut Cloth)
        requires hooks { cards.now.design.hooks ≡ self.old.machine.casting.hooks }
        requires pick { pick < cards.now.design.picks }
        requires ends { cloth.old.ends ≡ length self.old.machine.tie.ends }
        requires picks { pick < length cloth.old.rows }
        ensures same { self.new ≡ self.old }
        ensures cloth { cloth.new ≡ record cloth.old { rows = slice_set cloth.old.rows pick (row_from self.old.machine self.old.face cards.now.holes pick) } }
    {
        lift_pick(
            &mut self.machine,
            &self.casting,
            self.face,
            cards,
            pick,
            &mut self.turned,
            &mut self.row,
        );
        cloth.set_row(pick, &self.row);
    }

    // Feeds the packed row of a pick to the hasher.
    fn hash_pick(&mut self, cards: &CardSet, pick: u32, hasher: &mut Sha256)
        requires hooks { cards.now.design.hooks ≡ self.old.machine.casting.hooks }
        requires pick { pick < cards.now.design.picks }
        ensures same { self.new ≡ self.old }
        ensures hashed { (message : List ℕ) → Holds256 hasher.old message
            → Holds256 hasher.new (message ++ packed_row (row_from self.old.machine self.old.face cards.now.holes pick)) }
    {
        lift_pick(
            &mut self.machine,
            &self.casting,
            self.face,
            cards,
            pick,
            &mut self.turned,
            &mut self.row,
        );
        hash_row(&self.row, &mut self.packed, hasher);
    }
}

/// The row of the card of a pick. For a cloth that lies face down the card is turned into the bytes.
pub fn lift_pick(
    machine: &mut Machine,
    casting: &Casting,
    face: Face,
    cards: &CardSet,
    pick: u32,
    turned: &mut Vec<u8>,
    row: &mut BitRow,
)
    requires casting { casting.now ≡ machine.old.casting }
    requires hooks { cards.now.design.hooks ≡ machine.old.casting.hooks }
    requires pick { pick < cards.now.design.picks }
    requires turned { length turned.old.items ≡ (machine.old.casting.hooks + 7) / 8 }
    requires row { length row.old ≡ length machine.old.tie.ends }
    ensures machine { machine.new ≡ machine.old }
    ensures turned { length turned.new.items ≡ length turned.old.items }
    ensures len { length row.new ≡ length machine.old.tie.ends }
    ensures row { row.new ≡ row_from machine.old face cards.now.holes pick }
{
    match face {
        Face::Up => machine.pick(cards.card(pick), row),
        Face::Down => {
            turn_into(cards, pick, casting, turned);
            machine.pick(turned.as_slice(), row);
        }
    }
}

// Turns the card of a pick into bytes that have room for it.
fn turn_into(cards: &CardSet, pick: u32, casting: &Casting, turned: &mut Vec<u8>)
    requires pick { pick < cards.now.design.picks }
    requires hooks { casting.now.hooks ≡ cards.now.design.hooks }
    requires room { length turned.old.items ≡ (casting.now.hooks + 7) / 8 }
    ensures room { length turned.new.items ≡ length turned.old.items }
    ensures card { turned.new.items ≡ packed_row (turned_card casting.now.hooks casting.now.columns (slice_index_or cards.now.holes pick [])) }
{
    cards.turn_card(pick, casting, turned);
}
