//! The pieces of work by their names.

use crate::cards::{Cards, Mounting, copy_bytes};
use crate::images::{Pixels, Stored};
use crate::lines::FloatLine;
use crate::marks::Marks;
use crate::tied::{Form, Tied};
use crate::tiles::{Tiles, bind};
use std::alloc::Global;

/// A piece of work. Each whole-line call has a plain one beside it, which does the same cell by cell.
#[derive(Clone, Copy)]
pub enum Workload {
    /// A row of a paper is laid on the ends of a tie.
    Lay(Form),
    LayByEnd(Form),
    /// The ends of a tie are gathered into a row of a paper.
    Gather(Form),
    GatherByEnd(Form),
    /// The marks of a pick, on a paper of eight colours.
    Raw,
    RawByCell,
    /// The long cells of a random line of so many ends.
    Floats(u32),
    /// A palette image is read from its file.
    ImageRead(Pixels),
    /// A palette image is written.
    ImageWrite(Pixels),
    /// The pixels of an image are copied.
    PixelCopy(Pixels),
    /// All cards of a bit paper are cut, told as a chain, read from one, or lifted.
    Cut(Mounting),
    Encode(Mounting),
    Feed(Mounting),
    Lift(Mounting),
    /// So many bytes are copied.
    ByteCopy(u32),
    /// The grid of a paper's tiles is built, or the near tiles of one tile are marked.
    Grid(Tiles),
    Mark(Tiles),
    /// A blank paper is bound from scratch.
    Bind,
}

impl Workload {
    /// The piece of work of a name and a size.
    pub fn named(name: &str, size: &str) -> Option<Workload> {
        match name {
            "lay" => Some(Workload::Lay(Form::named(size)?)),
            "lay-by-end" => Some(Workload::LayByEnd(Form::named(size)?)),
            "gather" => Some(Workload::Gather(Form::named(size)?)),
            "gather-by-end" => Some(Workload::GatherByEnd(Form::named(size)?)),
            "raw" => Some(Workload::Raw),
            "raw-by-cell" => Some(Workload::RawByCell),
            "floats" => Some(Workload::Floats(mill_base::words::number(size.as_bytes())?)),
            "image-read" => Some(Workload::ImageRead(Pixels::named(size)?)),
            "image-write" => Some(Workload::ImageWrite(Pixels::named(size)?)),
            "pixel-copy" => Some(Workload::PixelCopy(Pixels::named(size)?)),
            "cut" => Some(Workload::Cut(Mounting::named(size)?)),
            "encode" => Some(Workload::Encode(Mounting::named(size)?)),
            "feed" => Some(Workload::Feed(Mounting::named(size)?)),
            "lift" => Some(Workload::Lift(Mounting::named(size)?)),
            "byte-copy" => Some(Workload::ByteCopy(mill_base::words::number(size.as_bytes())?)),
            "grid" => Some(Workload::Grid(Tiles::named(size)?)),
            "mark" => Some(Workload::Mark(Tiles::named(size)?)),
            "bind" => Some(Workload::Bind),
            _ => None,
        }
    }

    /// Does the work so many times, and answers a number that depends on it; `None` where memory is refused or the size is none that
    /// the work takes.
    pub fn run(&self, alloc: Global, rounds: u32) -> Option<u32> {
        match *self {
            Workload::Lay(form) => Some(Tied::new(alloc, form)?.lay(rounds)),
            Workload::LayByEnd(form) => Some(Tied::new(alloc, form)?.lay_by_end(rounds)),
            Workload::Gather(form) => Some(Tied::new(alloc, form)?.gather(rounds)),
            Workload::GatherByEnd(form) => Some(Tied::new(alloc, form)?.gather_by_end(rounds)),
            Workload::Raw => Some(Marks::new(alloc)?.raw(rounds)),
            Workload::RawByCell => Some(Marks::new(alloc)?.raw_by_cell(rounds)),
            Workload::Floats(len) => Some(FloatLine::new(alloc, len)?.long_cells(rounds)),
            Workload::ImageRead(pixels) => Stored::new(alloc, pixels)?.read(alloc, rounds),
            Workload::ImageWrite(pixels) => Stored::new(alloc, pixels)?.write(alloc, rounds),
            Workload::PixelCopy(pixels) => Stored::new(alloc, pixels)?.copy(alloc, rounds),
            Workload::Cut(mounting) => Cards::new(alloc, mounting)?.cut(alloc, rounds),
            Workload::Encode(mounting) => Cards::new(alloc, mounting)?.encode(rounds),
            Workload::Feed(mounting) => Cards::new(alloc, mounting)?.feed(alloc, rounds),
            Workload::Lift(mounting) => Cards::new(alloc, mounting)?.lift(alloc, rounds),
            Workload::ByteCopy(bytes) => copy_bytes(alloc, bytes, rounds),
            Workload::Grid(tiles) => tiles.build(alloc, rounds),
            Workload::Mark(tiles) => tiles.mark(alloc, rounds),
            Workload::Bind => bind(alloc, rounds),
        }
    }
}
