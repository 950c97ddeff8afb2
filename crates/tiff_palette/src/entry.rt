//! Entries of a directory (TIFF 6.0, section 2).
ghost use Rattle.std.specs.Prelude.{◌≡◌};
ghost use Rattle.tiff_palette.specs.Directories.{size_of as bytes_of_kind};
ghost use Rattle.tiff_palette.specs.Fields.{is_short as has_shorts, is_whole as has_numbers};

/// The type of numbers of 2 bytes.
pub const SHORT: u16 = 3;
/// The type of numbers of 4 bytes.
pub const LONG: u16 = 4;
/// The type of fractions of two numbers of 4 bytes.
pub const RATIONAL: u16 = 5;

/// An entry: the number of its field, the type of its values, how many there are, and where the first lies in the file.
#[derive(Clone, Copy, Debug, PartialEq, Eq)]
pub struct Entry {
    pub tag: u16,
    pub kind: u16,
    pub count: u32,
    pub values: usize,
}

impl Entry {
    /// Whether the values are numbers of two bytes.
    pub fn is_short(&self) -> bool
        ensures { result ≡ has_shorts self.now }
    {
        self.kind == SHORT
    }

    /// Whether the values are numbers of two or of four bytes.
    pub fn is_whole(&self) -> bool
        ensures { result ≡ has_numbers self.now }
    {
        self.kind == SHORT || self.kind == LONG
    }
}

/// How many bytes a value has, at the types SHORT and LONG.
pub fn size_of(kind: u16) -> usize
    ensures { result ≡ bytes_of_kind kind }
{
    if kind == SHORT { 2 } else { 4 }
}
