//! Cards that are cut, told as a chain, read back and lifted.
ghost use Rattle.std.specs.Prelude.{◌≡◌, ◌≤◌, length, IfSome, IfOk};
ghost use Rattle.mill_base.specs.declared.limits.TheConstants.{MAX_COLUMNS};

use crate::random;
use crate::tied::Form;
use card_image::card_set::CardSet;
use card_image::decoder::Decoder;
use casting_out::casting::Casting;
use harness_ties::tie::Tie;
use loom_machine::machine::Machine;
use mill_base::bit_row::BitRow;
use mill_base::limits::MAX_COLUMNS;
use mill_base::memory::OutOfMemory;
use mill_base::size::Size;
use point_paper::bit_paper::BitPaper;
use std::alloc::Global;

/// A tie, and whether every ninth hook is cast out.
#[derive(Clone, Copy)]
pub struct Mounting {
    form: Form,
    is_cast: bool,
}

/// The picks of the cloth: as many as it has columns.
const PICKS: u32 = MAX_COLUMNS;

impl Mounting {
    /// The mounting of a name.
    pub fn named(name: &str) -> Option<Mounting> {
        match name {
            "straight" => Some(Mounting {
                form: Form::Straight,
                is_cast: false,
            }),
            "pointed" => Some(Mounting {
                form: Form::Pointed,
                is_cast: false,
            }),
            "mixed" => Some(Mounting {
                form: Form::Mixed,
                is_cast: false,
            }),
            "straight-cast" => Some(Mounting {
                form: Form::Straight,
                is_cast: true,
            }),
            "pointed-cast" => Some(Mounting {
                form: Form::Pointed,
                is_cast: true,
            }),
            "mixed-cast" => Some(Mounting {
                form: Form::Mixed,
                is_cast: true,
            }),
            _ => None,
        }
    }
}

/// A machine's tie and casting, a random bit paper, and its cards.
#[derive(Drop)]
pub struct Cards {
    tie: Tie,
    casting: Casting,
    bits: BitPaper,
    set: CardSet,
    ghost tied: { length casting.columns ≡ tie.columns },
    ghost cells: { bits.columns ≡ length casting.columns },
    ghost hooks: { set.design.hooks ≡ casting.hooks },
    ghost picks: { set.design.picks ≡ length bits.rows },
}

impl Cards {
    /// The cards of 4096 picks over 4096 columns; `None` where memory is refused.
    pub fn new(alloc: Global, mounting: Mounting) -> Option<Cards> {
        let tie = mounting.form.tie(alloc)?;
        let casting = casting(alloc, mounting.is_cast)?;
        let bits = random_bits(alloc).ok()?;
        let set = CardSet::cut(alloc, &bits, &casting).ok()?;
        Some(Cards {
            tie,
            casting,
            bits,
            set,
        })
    }

    /// Cuts all cards so many times.
    pub fn cut(&self, alloc: Global, rounds: u32) -> Option<u32> {
        let mut told = 0u32;
        for _ in 0..rounds {
            let set = CardSet::cut(alloc, &self.bits, &self.casting).ok()?;
            told = told.wrapping_add(set.picks());
        }
        Some(told)
    }

    /// Tells the chain so many times.
    pub fn encode(&self, rounds: u32) -> Option<u32> {
        let mut told = 0u32;
        for _ in 0..rounds {
            let chain = self.set.encode().ok()?;
            told = told.wrapping_add(chain.last().copied().unwrap_or(0) as u32);
        }
        Some(told)
    }

    /// Reads the chain in one piece so many times.
    pub fn feed(&self, alloc: Global, rounds: u32) -> Option<u32> {
        let chain = self.set.encode().ok()?;
        let mut told = 0u32;
        for _ in 0..rounds {
            let mut decoder = Decoder::new(alloc, &self.casting, self.set.picks()).ok()?;
            decoder.feed(&chain).ok()?;
            told = told.wrapping_add(decoder.finish().ok()?.picks());
        }
        Some(told)
    }

    /// Lifts by all cards so many times.
    pub fn lift(&self, alloc: Global, rounds: u32) -> Option<u32> {
        lift_rounds(alloc, &self.tie, &self.casting, &self.set, rounds).ok()
    }
}

fn lift_rounds(
    alloc: Global,
    tie: &Tie,
    casting: &Casting,
    set: &CardSet,
    rounds: u32,
) -> Result<u32, OutOfMemory>
    requires tied { length casting.now.columns ≡ tie.now.columns }
    requires hooks { set.now.design.hooks ≡ casting.now.hooks }
{
    let mut machine = Machine::new(alloc, tie, casting)?;
    let mut ends = BitRow::new(alloc, tie.ends())?;
    lift_all(&mut machine, set, rounds, &mut ends);
    Ok(ends.count())
}

// Lifts by all cards in turn, so many times.
fn lift_all(machine: &mut Machine, set: &CardSet, rounds: u32, ends: &mut BitRow)
    requires hooks { set.now.design.hooks ≡ machine.old.casting.hooks }
    requires ends { length ends.old ≡ length machine.old.tie.ends }
    ensures { length ends.new ≡ length machine.old.tie.ends }
{
    let picks = set.picks();
    if picks == 0 {
        return;
    }
    for turn in 0..rounds.saturating_mul(picks) {
        machine.pick(set.card(turn % picks), ends);
    }
}

fn casting(alloc: Global, is_cast: bool) -> Option<Casting>
    ensures { IfSome result (λ casting. length casting.columns ≡ MAX_COLUMNS) }
{
    if is_cast {
        let hooks = MAX_COLUMNS + MAX_COLUMNS / 8;
        let mut cast_out = Vec::new(alloc);
        for hook in 0..hooks {
            if hook % 9 == 0 {
                cast_out.push(hook).ok()?;
            }
        }
        return Casting::build(alloc, hooks, &cast_out, MAX_COLUMNS).ok();
    }
    Casting::build(alloc, MAX_COLUMNS, &[], MAX_COLUMNS).ok()
}

fn random_bits(alloc: Global) -> Result<BitPaper, OutOfMemory>
    ensures columns { IfOk result (λ bits. bits.columns ≡ MAX_COLUMNS) }
    ensures picks { IfOk result (λ bits. length bits.rows ≡ MAX_COLUMNS) }
{
    let size = Size {
        columns: MAX_COLUMNS,
        picks: PICKS,
    };
    let mut bits = BitPaper::new(alloc, size)?;
    let mut row = random::row(alloc, MAX_COLUMNS)?;
    for pick in 0..PICKS {
        row.negate();
        bits.set_row(pick, &row);
    }
    Ok(bits)
}

/// Copies so many bytes so many times; `None` where memory is refused.
pub fn copy_bytes(alloc: Global, bytes: u32, rounds: u32) -> Option<u32> {
    let from = Vec::from_elem(alloc, 7u8, bytes as usize).ok()?;
    let mut told = 0u32;
    for _ in 0..rounds {
        let copy = Vec::from_slice(alloc, &from).ok()?;
        told = told.wrapping_add(copy.last().copied().unwrap_or(0) as u32);
    }
    Some(told)
}
