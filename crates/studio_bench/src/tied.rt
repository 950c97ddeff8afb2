//! Rows of a paper and of the ends that are tied to it.
ghost use Rattle.std.specs.Prelude.{◌≡◌, length, IfSome};
ghost use Rattle.mill_base.specs.declared.limits.TheConstants.{MAX_COLUMNS};

use crate::random;
use harness_ties::section::{Section, SectionKind};
use harness_ties::tie::Tie;
use mill_base::bit_row::BitRow;
use mill_base::limits::MAX_COLUMNS;
use std::alloc::Global;

/// The form of a tie over all columns of the widest paper.
#[derive(Clone, Copy)]
pub enum Form {
    /// Straight four times: 16,384 ends.
    Straight,
    /// Pointed twice: 16,380 ends.
    Pointed,
    /// Pointed once, straight twice and a straight section of two columns: 16,384 ends.
    Mixed,
}

impl Form {
    /// The form of a name.
    pub fn named(name: &str) -> Option<Form> {
        match name {
            "straight" => Some(Form::Straight),
            "pointed" => Some(Form::Pointed),
            "mixed" => Some(Form::Mixed),
            _ => None,
        }
    }

    /// The tie of the form; `None` where memory is refused.
    pub fn tie(self, alloc: Global) -> Option<Tie>
        ensures { IfSome result (λ tie. tie.columns ≡ MAX_COLUMNS) }
    {
        let straight = whole(SectionKind::Straight, 4);
        let pointed = whole(SectionKind::Pointed, 2);
        let first = whole(SectionKind::Pointed, 1);
        let second = whole(SectionKind::Straight, 2);
        let pair = Section {
            kind: SectionKind::Straight,
            from: 0,
            to: 1,
            times: 1,
        };
        match self {
            Form::Straight => Tie::build(alloc, &[straight], MAX_COLUMNS).ok(),
            Form::Pointed => Tie::build(alloc, &[pointed], MAX_COLUMNS).ok(),
            Form::Mixed => Tie::build(alloc, &[first, second, pair], MAX_COLUMNS).ok(),
        }
    }
}

// A section over all columns.
fn whole(kind: SectionKind, times: u32) -> Section {
    Section {
        kind,
        from: 0,
        to: MAX_COLUMNS - 1,
        times,
    }
}

/// A tie, a row of its columns and one of its ends.
#[derive(Drop)]
pub struct Tied {
    tie: Tie,
    columns: BitRow,
    ends: BitRow,
    ghost columns_fit: { length columns ≡ tie.columns },
    ghost ends_fit: { length ends ≡ length tie.ends },
}

impl Tied {
    /// Random rows of the columns and the ends; `None` where memory is refused.
    pub fn new(alloc: Global, form: Form) -> Option<Tied> {
        let tie = form.tie(alloc)?;
        let columns = random::row(alloc, MAX_COLUMNS).ok()?;
        let ends = random::row(alloc, tie.ends()).ok()?;
        Some(Tied { tie, columns, ends })
    }

    /// Lays the columns on the ends so many times.
    pub fn lay(&mut self, rounds: u32) -> u32 {
        for _ in 0..rounds {
            self.tie.lay(&self.columns, &mut self.ends);
        }
        self.ends.count()
    }

    /// The same end by end.
    pub fn lay_by_end(&mut self, rounds: u32) -> u32 {
        for _ in 0..rounds {
            lay_by_end(&self.tie, &self.columns, &mut self.ends);
        }
        self.ends.count()
    }

    /// Gathers the ends into the columns so many times.
    pub fn gather(&mut self, rounds: u32) -> u32 {
        for _ in 0..rounds {
            self.tie.gather(&self.ends, &mut self.columns);
        }
        self.columns.count()
    }

    /// The same end by end.
    pub fn gather_by_end(&mut self, rounds: u32) -> u32 {
        for _ in 0..rounds {
            gather_by_end(&self.tie, &self.ends, &mut self.columns);
        }
        self.columns.count()
    }
}

fn lay_by_end(tie: &Tie, columns: &BitRow, ends: &mut BitRow)
    requires columns { length columns.now ≡ tie.now.columns }
    requires ends { length ends.old ≡ length tie.now.ends }
    ensures { length ends.new ≡ length tie.now.ends }
{
    for end in 0..tie.ends() {
        ends.set(end, columns.get(tie.column(end)));
    }
}

fn gather_by_end(tie: &Tie, ends: &BitRow, columns: &mut BitRow)
    requires ends { length ends.now ≡ length tie.now.ends }
    requires columns { length columns.old ≡ tie.now.columns }
    ensures { length columns.new ≡ tie.now.columns }
{
    columns.fill(false);
    for end in 0..tie.ends() {
        if ends.get(end) {
            columns.set(tie.column(end), true);
        }
    }
}
