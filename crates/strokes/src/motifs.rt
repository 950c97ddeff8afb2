//! The motifs of a session by their numbers and names.
ghost use Rattle.std.specs.Prelude.{◌≡◌, ◌≢◌, ◌-◌, ◌^◌, ◌<◌, ◌≤◌, [], ◌∷◌, ◌++◌, length, map, slice_get, Some, None, IfSome, OnOk, OnErr, IfErr, IsTrue, ◌↔◌};
ghost use Rattle.std.specs.String.{string_bytes};
ghost use Rattle.mill_base.specs.declared.limits.TheConstants.{MAX_COLOURS};
ghost use Rattle.strokes.specs.Places.{cells_of_motif};
ghost use Rattle.strokes.specs.Motifs.{motif_of, motif_fault, motif_number};

use crate::fault::MotifFault;
use crate::motif::Motif;
use crate::motif_rows::motif_of_rows;
use mill_base::memory::OutOfMemory;
use mill_base::name_text::NameText;
use mill_base::size::Size;
use std::alloc::Global;
use std::marker::Model;

/// A motif and its name.
#[derive(Drop)]
pub struct NamedMotif {
    pub name: NameText,
    pub motif: Motif,
}

/// Motifs by number, from 0 on, which contracts see as the list of them.
#[derive(Drop)]
pub struct Motifs {
    motifs: Vec<NamedMotif>,
}

impl Model for Motifs {
    ghost use Rattle.std.specs.Prelude.{List, length, ◌^◌, ◌<◌};
    ghost use Rattle.strokes.specs.declared.motifs.NamedMotif.{NamedMotif};

    ghost Value = { List NamedMotif };

    ghost view = { λ m. m.motifs.items };

    ghost invariant = { λ m. length m.motifs.items < 2 ^ 32 };
}

impl Motifs {
    /// No motif, which takes no memory.
    pub fn new(alloc: Global) -> Motifs
        ensures { result ≡ [] }
    {
        Motifs {
            motifs: Vec::new(alloc),
        }
    }

    /// Adds the motif that the rows spell, from the lowest pick upwards, under a name, for papers of a size and a book
    /// of so many colours. The fault that is told is the first, row by row and in a row word by word; at any fault the
    /// motifs stay as they are.
    pub fn add(
        &mut self,
        name: &str,
        rows: &[String],
        colours: u32,
        size: Size,
    ) -> Result<(), MotifFault>
        requires colours { colours ≤ MAX_COLOURS }
        requires room { length self.old < 2 ^ 32 - 1 }
        ensures ok { OnOk result (self.new ≡ self.old ++ record { name = name.now; motif = motif_of (map string_bytes rows.now) } ∷ []) }
        ensures sound { OnOk result (motif_fault (map string_bytes rows.now) colours size ≡ None) }
        ensures fault { IfErr result (λ f. f ≢ MotifFault.OutOfMemory → motif_fault (map string_bytes rows.now) colours size ≡ Some f) }
        ensures err { OnErr result (self.new ≡ self.old) }
    {
        let alloc = *self.motifs.allocator();
        let motif = motif_of_rows(alloc, rows, colours, size)?;
        let name = NameText::of(alloc, name)?;
        self.push(NamedMotif { name, motif })?;
        Ok(())
    }

    fn push(&mut self, motif: NamedMotif) -> Result<(), OutOfMemory>
        requires { length self.old < 2 ^ 32 - 1 }
        ensures ok { OnOk result (self.new ≡ self.old ++ motif ∷ []) }
        ensures err { OnErr result (self.new ≡ self.old) }
    {
        self.motifs.push(motif)?;
        Ok(())
    }

    /// How many motifs there are.
    pub fn len(&self) -> u32
        ensures { result ≡ length self.now }
    {
        self.motifs.len() as u32
    }

    /// The motif of a number.
    pub fn motif(&self, number: u32) -> &Motif
        requires { number < length self.now }
        ensures { result.now ≡ cells_of_motif (slice_get self.now number) }
    {
        &self.motifs[number as usize].motif
    }

    /// Whether the motif of a number has these cells; of a number that no motif has there is none.
    pub(crate) fn has_cells(&self, number: u32, cells: &Motif) -> bool
        ensures { IsTrue result ↔ (cells.now ≡ cells_of_motif (slice_get self.now number)) }
    {
        match self.motifs.get(number as usize) {
            Some(named) => cells.equals(&named.motif),
            None => cells.is_none(),
        }
    }

    /// The least number of a motif that has the name, and None where no motif has it.
    pub fn find(&self, name: &str) -> Option<u32>
        ensures number { result ≡ motif_number self.now name.now }
        ensures there { IfSome result (λ number. number < length self.now) }
    {
        self.find_bytes(name.as_bytes())
    }

    pub(crate) fn find_bytes(&self, name: &[u8]) -> Option<u32>
        ensures number { result ≡ motif_number self.now name.now }
        ensures there { IfSome result (λ number. number < length self.now) }
    {
        let number = first_named(&self.motifs, name)?;
        Some(number as u32)
    }
}

fn first_named(motifs: &[NamedMotif], name: &[u8]) -> Option<usize>
    ensures number { result ≡ motif_number motifs.now name.now }
    ensures there { IfSome result (λ number. number < length motifs.now) }
{
    motifs.iter().position(|motif| motif.name.bytes() == name)
}
