//! What is left of a desk once it is closed.
ghost use Rattle.std.specs.Prelude.{◌≡◌, ◌<◌, ◌^◌, length, sum_by, IfErr, IfOk, Some};
ghost use Rattle.mill_base.specs.Phrases.{phrase_text};
ghost use Rattle.open_desk.specs.Closings.{IsCloseRefusal, core_of};
ghost use Rattle.open_desk.specs.Histories.{IsHistory, OneHistory};
ghost use Rattle.open_desk.specs.Texts.{close_text};

use crate::comparing::{Difference, first_difference};
use crate::receipt::Receipt;
use mill_base::listed::Listed;
use mill_base::phrase::{Phrase, whole};
use point_paper::paper::Paper;
use std::error::Error;
use std::fmt;
use strokes::prepared::Prepared;
use studio_core::tile_core::Core;

/// A closed desk: the core, the paper that it started from, the act of each entry of the core, and each caller's receipts.
#[derive(Drop)]
pub struct Closed {
    pub core: Core,
    pub opening: Paper,
    pub acts: Listed<Prepared>,
    pub receipts: Listed<Listed<Receipt>>,
}

/// Why a desk is not closed. The core is given back.
#[derive(Drop)]
pub enum CloseRefusal {
    /// A receipt of a caller is not the place, the act and the reply of its entry, which are the kept ones; None is kept where the caller
    /// has no such entry. It is the first by caller, and then in the order of the caller's receipts.
    Differs {
        core: Core,
        caller: u32,
        told: Receipt,
        kept: Option<Receipt>,
    },
}

impl CloseRefusal {
    /// The text of the refusal, which takes no memory.
    pub fn phrase(&self) -> Phrase
        ensures { phrase_text result ≡ close_text self.now }
    {
        match self {
            CloseRefusal::Differs { caller, told, .. } => {
                Phrase::Two(
                    "caller ",
                    whole(*caller),
                    " place ",
                    whole(told.place),
                    " differs",
                )
            }
        }
    }
}

impl fmt::Display for CloseRefusal {
    ghost output = { λ refusal. Some (close_text refusal) };

    fn fmt<W: fmt::Write>(&self, f: &mut fmt::Formatter<W>) -> fmt::Result {
        let phrase = self.phrase();
        write!(f, "{phrase}")
    }
}

impl fmt::Debug for CloseRefusal {
    ghost debug_output = { λ refusal. Some (close_text refusal) };

    fn fmt<W: fmt::Write>(&self, f: &mut fmt::Formatter<W>) -> fmt::Result {
        let phrase = self.phrase();
        write!(f, "{phrase}")
    }
}

impl Error for CloseRefusal {}

/// Compares each receipt with its entry.
pub(crate) fn close(
    core: Core,
    opening: Paper,
    acts: Vec<Prepared>,
    lists: Vec<Listed<Receipt>>,
) -> Result<Closed, CloseRefusal>
    requires history { IsHistory core.design (length lists.items) opening acts.items core.entries }
    requires callers { length lists.items < 2 ^ 32 }
    requires counted { sum_by length lists.items ≡ length core.entries }
    ensures history { IfOk result (λ closed. OneHistory core.design (length lists.items) opening acts.items core.entries lists.items) }
    ensures closed { IfOk result (λ closed. closed ≡ record { core = core; opening = opening; acts = acts.items; receipts = lists.items }) }
    ensures refusal { IfErr result (IsCloseRefusal (length lists.items) lists.items) }
    ensures core { IfErr result (λ refusal. core_of refusal ≡ core) }
{
    let _ = core.design();
    let first = first_difference(&acts, core.entries(), &lists);
    if let Some(difference) = first {
        let Difference { caller, told, kept } = difference;
        return Err(CloseRefusal::Differs {
            core,
            caller,
            told,
            kept,
        });
    }
    Ok(Closed {
        core,
        opening,
        acts: Listed::of(acts),
        receipts: Listed::of(lists),
    })
}
