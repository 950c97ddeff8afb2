//! The digest of a cloth.
ghost use Rattle.std.specs.Prelude.{◌≡◌, ◌+◌, ◌/◌, ◌++◌, ℕ, List, length, IfOk};
ghost use Rattle.sha2.specs.Hashers.{Holds256};
ghost use Rattle.mill_base.specs.Bits.{packed};
ghost use Rattle.mill_base.specs.declared.face.Face.TheVariants.{Up};
ghost use Rattle.point_paper.specs.Papers.{PaperCells};
ghost use Rattle.draft_model.specs.Designs.{Fits, IsPaperOf};
ghost use Rattle.draft_model.specs.Drawdowns.{drawdown as drawdown_of};
ghost use Rattle.card_image.specs.Sets.{cards_of};
ghost use Rattle.loom_threads.specs.Cuts.{machine_of};
ghost use Rattle.loom_threads.specs.Lifts.{cloth_from};
ghost use Rattle.loom_threads.specs.Woven.{digest_of};

use crate::laws::{cut_cards_lift_the_cloth, lifted_rows_are_the_drawdown};
use crate::lifter::Lifter;
use card_image::card_set::CardSet;
use draft_model::cloth::Cloth;
use draft_model::design::Design;
use draft_model::drawdown::drawdown;
use mill_base::bit_row::BitRow;
use mill_base::face::Face;
use mill_base::memory::OutOfMemory;
use point_paper::paper::Paper;
use sha2::{Digest, Sha256};
use std::alloc::Global;

/// The digest of the drawdown of a paper: what a repeat of it has on a loom whose cloth lies face up.
pub fn cloth_digest(alloc: Global, design: &Design, paper: &Paper) -> Result<[u8; 32], OutOfMemory>
    requires fits { Fits design.now }
    requires paper { IsPaperOf design.now paper.now }
    ensures { IfOk result (λ digest. digest ≡ digest_of (drawdown_of design.now paper.now)) }
{
    let cloth = drawdown(alloc, design, paper)?;
    digest_of_cloth(alloc, &cloth)
}

/// The digest of the cloth that a loom lifts from face-up cards where its cloth lies face up. Of cards that were cut of a paper it is that of
/// the paper's drawdown.
pub fn cards_digest(
    alloc: Global,
    design: &Design,
    cards: &CardSet,
) -> Result<[u8; 32], OutOfMemory>
    requires fits { Fits design.now }
    requires hooks { cards.now.design.hooks ≡ design.now.casting.hooks }
    ensures cards { IfOk result (λ digest. digest ≡ digest_of (cloth_from (machine_of design.now) Up cards.now)) }
    ensures paper { (paper : PaperCells) → cards.now ≡ cards_of design.now paper → IfOk result (λ digest. digest ≡ digest_of (drawdown_of design.now paper)) }
{
    lifted_rows_are_the_drawdown();
    cut_cards_lift_the_cloth();
    let mut lifter = Lifter::new(alloc, &design.tie, &design.casting, Face::Up)?;
    Ok(lifter.digest(cards))
}

/// The digest of a cloth: SHA-256 (FIPS 180-4) of its rows from pick 0 on, each packed into bytes.
pub fn digest_of_cloth(alloc: Global, cloth: &Cloth) -> Result<[u8; 32], OutOfMemory>
    ensures { IfOk result (λ digest. digest ≡ digest_of cloth.now) }
{
    let mut bytes = Vec::from_elem(alloc, 0u8, (cloth.ends() as usize + 7) / 8)?;
    Ok(hash_cloth(cloth, &mut bytes))
}

// The same, with bytes that have room for a packed row. It takes no memory.
pub(crate) fn hash_cloth(cloth: &Cloth, bytes: &mut Vec<u8>) -> [u8; 32]
    requires { length bytes.old.items ≡ (cloth.now.ends + 7) / 8 }
    ensures room { length bytes.new.items ≡ length bytes.old.items }
    ensures digest { result ≡ digest_of cloth.now }
{
    let mut hasher = Sha256::new();
    for pick in 0..cloth.picks() {
        hash_row(cloth.row(pick), bytes, &mut hasher);
    }
    hasher.finalize()
}

// Feeds the packed row to the hasher, through the bytes.
pub(crate) fn hash_row(row: &BitRow, bytes: &mut Vec<u8>, hasher: &mut Sha256)
    requires { length bytes.old.items ≡ (length row.now + 7) / 8 }
    ensures room { length bytes.new.items ≡ length bytes.old.items }
    ensures hashed { (message : List ℕ) → Holds256 hasher.old message → Holds256 hasher.new (message ++ packed row.now) }
{
    row.pack(bytes);
    hasher.update(bytes.as_slice());
}
