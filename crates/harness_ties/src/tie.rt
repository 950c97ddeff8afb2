//! Ties.
ghost use Rattle.std.specs.Prelude.{◌≡◌, ◌≢◌, ◌<◌, ◌≤◌, ◌↔◌, length, slice_index, Some, None, IsTrue, IfOk, IfErr, OnOk};
ghost use Rattle.harness_ties.specs.Ties.{IsTie, tie_of, ends_of_column, gathered, tied};
ghost use Rattle.harness_ties.specs.Faults.{tie_fault};

use crate::fault::TieFault;
use crate::grouping::{Groups, count_ends, first_untied, group_ends, part_of};
use crate::joining::{check_sections, join_sections};
use crate::section::Section;
use crate::stretch::{Stretch, cut, gather, lay};
use mill_base::bit_row::BitRow;
use mill_base::limits::MAX_COLUMNS;
use mill_base::memory::OutOfMemory;
use std::alloc::Global;
use std::marker::Model;

/// Which column each warp end is tied to, with the ends of each column. Ends and columns are counted from 0.
#[derive(Drop)]
pub struct Tie {
    columns: u32,
    columns_of_ends: Vec<u32>,
    groups: Groups,
    stretches: Vec<Stretch>,
}

impl Model for Tie {
    ghost use Rattle.std.specs.Prelude.{◌≡◌, All};
    ghost use Rattle.harness_ties.specs.Ties.{TieValue, IsTie};
    ghost use Rattle.harness_ties.specs.inner.Groups.{Parts};
    ghost use Rattle.harness_ties.specs.inner.Stretches.{IsStretch, written_out};

    ghost Value = { TieValue };

    ghost view = { λ t. record { columns = t.columns; ends = t.columns_of_ends.items } };

    ghost invariant = { λ t. IsTie (record { columns = t.columns; ends = t.columns_of_ends.items })
        × Parts t.columns_of_ends.items t.columns t.groups.starts.items t.groups.ends.items
        × (written_out t.stretches.items ≡ t.columns_of_ends.items)
        × All (λ s. IsStretch t.columns s) t.stretches.items };
}

impl Tie {
    /// The tie that joins the sections in their order, over a paper of 1 to 4096 columns; without sections it is straight, once.
    /// The fault that is told is that of the first section that has one, else the least column without an end.
    pub fn build(alloc: Global, sections: &[Section], columns: u32) -> Result<Tie, TieFault>
        requires some { 1 ≤ columns }
        requires limit { columns ≤ MAX_COLUMNS }
        ensures ok { IfOk result (λ t. t ≡ record { columns = columns; ends = tie_of sections.now columns }) }
        ensures sound { OnOk result (tie_fault sections.now columns ≡ None) }
        ensures fault { IfErr result (λ f. f ≢ TieFault.OutOfMemory → tie_fault sections.now columns ≡ Some f) }
    {
        check_sections(sections, columns)?;
        let columns_of_ends = join_sections(alloc, sections, columns)?;
        let counts = count_ends(alloc, &columns_of_ends, columns)?;
        if let Some(column) = first_untied(&counts) {
            return Err(TieFault::Untied(column));
        }
        let groups = group_ends(alloc, &columns_of_ends, &counts)?;
        let stretches = cut(alloc, &columns_of_ends, columns)?;
        Ok(Tie {
            columns,
            columns_of_ends,
            groups,
            stretches,
        })
    }

    /// How many columns the paper has.
    pub fn columns(&self) -> u32
        ensures { result ≡ self.now.columns }
    {
        self.columns
    }

    /// How many ends the tie has.
    pub fn ends(&self) -> u32
        ensures count { result ≡ length self.now.ends }
        ensures tie { IsTie self.now }
    {
        self.columns_of_ends.len() as u32
    }

    /// The column that an end is tied to.
    pub fn column(&self, end: u32) -> u32
        requires { end < length self.now.ends }
        ensures column { result ≡ slice_index self.now.ends end }
        ensures there { result < self.now.columns }
    {
        self.columns_of_ends[end as usize]
    }

    /// The column of each end, from end 0 on.
    pub fn columns_of_ends(&self) -> &[u32]
        ensures columns { result.now ≡ self.now.ends }
        ensures tie { IsTie self.now }
    {
        &self.columns_of_ends
    }

    /// The ends that are tied to a column, rising.
    pub fn ends_of(&self, column: u32) -> &[u32]
        requires { column < self.now.columns }
        ensures { result.now ≡ ends_of_column self.now.ends column }
    {
        part_of(&self.groups.starts, &self.groups.ends, column)
    }

    /// Puts a row of the columns onto the ends: each end gets the cell of its column. It takes no memory.
    pub fn lay(&self, columns: &BitRow, ends: &mut BitRow)
        requires columns { length columns.now ≡ self.now.columns }
        requires ends { length ends.old ≡ length self.now.ends }
        ensures len { length ends.new ≡ length self.now.ends }
        ensures line { ends.new ≡ tied self.now.ends columns.now }
    {
        lay(&self.stretches, columns, ends);
    }

    /// Draws a line of the ends together: each column becomes true exactly where some end of it is. It takes no memory.
    pub fn gather(&self, ends: &BitRow, columns: &mut BitRow)
        requires ends { length ends.now ≡ length self.now.ends }
        requires columns { length columns.old ≡ self.now.columns }
        ensures len { length columns.new ≡ self.now.columns }
        ensures row { columns.new ≡ gathered self.now.columns self.now.ends ends.now }
    {
        gather(&self.stretches, ends, columns);
    }

    /// Whether two ties are the same: as many columns, and the same column at each end.
    pub fn equals(&self, other: &Tie) -> bool
        ensures { IsTrue result ↔ (self.now ≡ other.now) }
    {
        self.columns == other.columns && self.columns_of_ends == other.columns_of_ends
    }

    /// The same tie in memory of its own.
    pub fn copy(&self) -> Result<Tie, OutOfMemory>
        ensures { IfOk result (λ t. t ≡ self.now) }
    {
        let columns_of_ends = self.columns_of_ends.clone()?;
        let groups = copy_groups(&self.groups)?;
        let stretches = Vec::from_slice(*self.stretches.allocator(), &self.stretches)?;
        Ok(Tie {
            columns: self.columns,
            columns_of_ends,
            groups,
            stretches,
        })
    }
}

fn copy_groups(groups: &Groups) -> Result<Groups, OutOfMemory>
    ensures { IfOk result (λ g. (g.starts.items ≡ groups.now.starts.items) × (g.ends.items ≡ groups.now.ends.items)) }
{
    let starts = groups.starts.clone()?;
    let ends = groups.ends.clone()?;
    Ok(Groups { starts, ends })
}
