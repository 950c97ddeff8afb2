//! The marks of a pick.
ghost use Rattle.std.specs.Prelude.{◌≡◌, ◌<◌, length, All, IfOk};

use crate::random;
use mill_base::bit_row::BitRow;
use mill_base::limits::MAX_COLUMNS;
use mill_base::memory::OutOfMemory;
use std::alloc::Global;
use weave_book::book::Book;
use weave_book::weaves::{Direction, SatinFace, Weave};

/// A pick of the widest paper whose cells have eight colours, and its row of marks.
#[derive(Drop)]
pub struct Marks {
    book: Book,
    colours: Vec<u8>,
    row: BitRow,
    ghost cells_fit: { length colours.items ≡ length row },
    ghost colours_fit: { All (λ colour. colour < length book) colours.items },
}

impl Marks {
    /// A pick of random colours; `None` where memory is refused.
    pub fn new(alloc: Global) -> Option<Marks> {
        let book = eight_weaves(alloc).ok()?;
        let colours = random::bytes(alloc, MAX_COLUMNS, 8).ok()?;
        let row = random::row(alloc, MAX_COLUMNS).ok()?;
        Some(Marks { book, colours, row })
    }

    /// Puts the marks of so many picks, a whole row at a time.
    pub fn raw(&mut self, rounds: u32) -> u32 {
        for pick in 0..rounds {
            self.book.put_raw(&self.colours, pick, &mut self.row);
        }
        self.row.count()
    }

    /// The same cell by cell.
    pub fn raw_by_cell(&mut self, rounds: u32) -> u32 {
        for pick in 0..rounds {
            raw_by_cell(&self.book, &self.colours, pick, &mut self.row);
        }
        self.row.count()
    }
}

fn raw_by_cell(book: &Book, colours: &[u8], pick: u32, row: &mut BitRow)
    requires cells { length colours.now ≡ length row.old }
    requires colours { All (λ colour. colour < length book.now) colours.now }
    ensures { length row.new ≡ length row.old }
{
    for column in 0..row.len() {
        let colour = colours[column as usize];
        row.set(column, book.weave(colour).mark(column, pick));
    }
}

fn eight_weaves(alloc: Global) -> Result<Book, OutOfMemory>
    ensures { IfOk result (λ b. length b ≡ 8) }
{
    let mut book = Book::new(alloc);
    book.add(Weave::Plain)?;
    book.add(twill(2, 2, Direction::Right))?;
    book.add(twill(3, 1, Direction::Left))?;
    book.add(twill(1, 7, Direction::Right))?;
    book.add(satin(8, 3, SatinFace::Weft))?;
    book.add(satin(5, 2, SatinFace::Warp))?;
    book.add(satin(16, 7, SatinFace::Weft))?;
    book.add(Weave::Full)?;
    Ok(book)
}

fn twill(up: u32, down: u32, direction: Direction) -> Weave {
    Weave::Twill {
        up,
        down,
        direction,
    }
}

fn satin(n: u32, s: u32, face: SatinFace) -> Weave {
    Weave::Satin { n, s, face }
}
