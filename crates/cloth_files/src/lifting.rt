//! Cloths that are lifted from a chain of cards.
ghost use Rattle.std.specs.Prelude.{◌≡◌, List, Bool, None, Some, IfOk, IfErr};
ghost use Rattle.mill_base.specs.declared.face.Face.{Face};
ghost use Rattle.tiff_palette.specs.Written.{tiff_of};
ghost use Rattle.card_image.specs.Chains.{Chain as IsChain};
ghost use Rattle.card_image.specs.Faults.{end_fault};
ghost use Rattle.card_image.specs.Sets.{design_by};
ghost use Rattle.draft_model.specs.Cards.{woven};
ghost use Rattle.draft_model.specs.Designs.{Fits};
ghost use Rattle.cloth_files.specs.Cards.{cloth_of_cards};
ghost use Rattle.cloth_files.specs.Images.{cloth_image};
ghost use Rattle.cloth_files.specs.Refusals.{TellsFault, lift_text};

use crate::drawings::cloth_file;
use card_image::card_set::CardSet;
use card_image::decoder::Decoder;
use card_image::fault::ChainFault;
use card_image::laws::chains_have_no_fault;
use draft_model::cloth::Cloth;
use draft_model::design::Design;
use loom_machine::machine::Machine;
use mill_base::bit_row::BitRow;
use mill_base::face::Face;
use mill_base::memory::OutOfMemory;
use std::alloc::Global;
use std::error::Error;
use std::fmt;

/// Why a chain was not lifted.
#[derive(Clone, Copy, Debug, PartialEq, Eq)]
pub enum LiftRefusal {
    /// The bytes are no chain of the design. The fault is the first.
    Chain(ChainFault),
    /// Memory was refused, which says nothing of the bytes.
    OutOfMemory,
}

impl fmt::Display for LiftRefusal {
    ghost output = { λ refusal. Some (lift_text refusal) };

    fn fmt<W: fmt::Write>(&self, f: &mut fmt::Formatter<W>) -> fmt::Result {
        match self {
            LiftRefusal::Chain(broken) => write!(f, "{broken}"),
            LiftRefusal::OutOfMemory => {
                let phrase = OutOfMemory.phrase();
                write!(f, "{phrase}")
            }
        }
    }
}

impl Error for LiftRefusal {}

impl From<OutOfMemory> for LiftRefusal {
    ghost use Rattle.std.specs.Prelude.{◌≡◌};
    ghost use Rattle.cloth_files.specs.declared.lifting.LiftRefusal.TheVariants.{OutOfMemory};

    ghost from_gives = { λ _ refusal. refusal ≡ OutOfMemory };

    fn from(_error: OutOfMemory) -> LiftRefusal {
        LiftRefusal::OutOfMemory
    }
}

impl From<ChainFault> for LiftRefusal {
    ghost use Rattle.std.specs.Prelude.{◌≡◌};
    ghost use Rattle.cloth_files.specs.declared.lifting.LiftRefusal.TheVariants.{Chain};

    ghost from_gives = { λ fault refusal. refusal ≡ Chain fault };

    fn from(fault: ChainFault) -> LiftRefusal {
        LiftRefusal::Chain(fault)
    }
}

/// The file of the image of the cloth that the machine lifts from a chain, card by card, each row read on the face that the chain says.
pub fn lifted_file(alloc: Global, design: &Design, chain: &[u8]) -> Result<Vec<u8>, LiftRefusal>
    requires fits { Fits design.now }
    ensures file { IfOk result (λ bytes. (face : Face) × (cards : List (List Bool)) × IsChain (design_by design.now.casting design.now.size.picks) chain.now face cards
        × (bytes.items ≡ tiff_of (cloth_image (cloth_of_cards design.now face cards)))) }
    ensures sound { IfOk result (λ _. end_fault (design_by design.now.casting design.now.size.picks) chain.now ≡ None) }
    ensures fault { IfErr result (TellsFault (design_by design.now.casting design.now.size.picks) chain.now) }
{
    let cards = decode(alloc, design, chain)?;
    let cloth = lift_cards(alloc, design, &cards)?;
    Ok(cloth_file(alloc, &cloth)?)
}

// The cards of a chain of the design.
fn decode(alloc: Global, design: &Design, chain: &[u8]) -> Result<CardSet, LiftRefusal>
    requires { Fits design.now }
    ensures design { IfOk result (λ set. set.design ≡ design_by design.now.casting design.now.size.picks) }
    ensures chain { IfOk result (λ set. IsChain (design_by design.now.casting design.now.size.picks) chain.now set.face set.holes) }
    ensures sound { IfOk result (λ _. end_fault (design_by design.now.casting design.now.size.picks) chain.now ≡ None) }
    ensures fault { IfErr result (TellsFault (design_by design.now.casting design.now.size.picks) chain.now) }
{
    chains_have_no_fault();
    let mut decoder = Decoder::new(alloc, &design.casting, design.size.picks)?;
    let _ = decoder.feed(chain);
    Ok(decoder.finish()?)
}

// The cloth of the cards of a design.
fn lift_cards(alloc: Global, design: &Design, cards: &CardSet) -> Result<Cloth, OutOfMemory>
    requires fits { Fits design.now }
    requires design { cards.now.design ≡ design_by design.now.casting design.now.size.picks }
    ensures { IfOk result (λ cloth. cloth ≡ cloth_of_cards design.now cards.now.face cards.now.holes) }
{
    let mut machine = Machine::new(alloc, &design.tie, &design.casting)?;
    let mut cloth = Cloth::blank(alloc, design.tie.ends(), cards.picks())?;
    let mut row = BitRow::new(alloc, design.tie.ends())?;
    let face = cards.face();
    for pick in 0..cards.picks() {
        machine.pick(cards.card(pick), &mut row);
        read_on(face, &mut row);
        cloth.set_row(pick, &row);
    }
    Ok(cloth)
}

// Reads a lifted row on a face: a cloth that lies face down shows each cell the other way round.
fn read_on(face: Face, row: &mut BitRow)
    ensures { row.new ≡ woven face row.old }
{
    if face == Face::Down {
        row.negate();
    }
}
