//! Why a file is no palette image.
ghost use Rattle.std.specs.Prelude.{◌≡◌, Some};
ghost use Rattle.mill_base.specs.Phrases.{phrase_text};
ghost use Rattle.tiff_palette.specs.Texts.{tiff_text};
ghost use Rattle.tiff_palette.specs.declared.fault.TiffFault.TheVariants.{OutOfMemory};

use mill_base::memory::OutOfMemory;
use mill_base::phrase::{Phrase, whole};
use std::error::Error;
use std::fmt;

/// The first rule that a file breaks. A number without a name is the one that was found; fields go by their numbers in
/// TIFF 6.0.
#[derive(Clone, Copy, Debug, PartialEq, Eq)]
pub enum TiffFault {
    /// The header or the directory does not lie in the file.
    Truncated,
    /// The file does not begin as a TIFF file does.
    NotTiff,
    /// The directory would lie in the header, or has no entry.
    NoDirectory,
    /// A required field is absent.
    Missing(u16),
    /// A field has a wrong type or count, values outside the file, or a forbidden 0.
    BadField(u16),
    Compressed(u16),
    Photometric(u16),
    Bits(u16),
    Samples(u16),
    FillOrder(u16),
    Orientation(u16),
    /// The image is over 4096 columns wide or over 8192 rows high.
    TooLarge,
    ColorMapCount(u32),
    /// The image has `kept` strips, and the field tells of `found`.
    StripCount { tag: u16, kept: u32, found: u32 },
    /// The rows of this strip, counted from 0, do not lie in the file.
    ShortStrip(u32),
    /// Memory was refused, which says nothing of the file.
    OutOfMemory,
}

impl Error for TiffFault {}

impl From<OutOfMemory> for TiffFault {
    ghost from_gives = { λ _ e. e ≡ OutOfMemory };

    fn from(_error: OutOfMemory) -> TiffFault {
        TiffFault::OutOfMemory
    }
}

impl TiffFault {
    /// The text of the fault, which takes no memory.
    pub fn phrase(&self) -> Phrase
        ensures { phrase_text result ≡ tiff_text self.now }
    {
        match self {
            TiffFault::Truncated => Phrase::Plain("truncated"),
            TiffFault::NotTiff => Phrase::Plain("not tiff"),
            TiffFault::NoDirectory => Phrase::Plain("no directory"),
            TiffFault::Missing(tag) => Phrase::One("missing field ", whole(*tag as u32), ""),
            TiffFault::BadField(tag) => Phrase::One("bad field ", whole(*tag as u32), ""),
            TiffFault::Compressed(n) => Phrase::One("compression ", whole(*n as u32), ""),
            TiffFault::Photometric(n) => Phrase::One("photometric ", whole(*n as u32), ""),
            TiffFault::Bits(n) => Phrase::One("bits ", whole(*n as u32), ""),
            TiffFault::Samples(n) => Phrase::One("samples ", whole(*n as u32), ""),
            TiffFault::FillOrder(n) => Phrase::One("fill order ", whole(*n as u32), ""),
            TiffFault::Orientation(n) => Phrase::One("orientation ", whole(*n as u32), ""),
            TiffFault::TooLarge => Phrase::Plain("too large"),
            TiffFault::ColorMapCount(n) => Phrase::One("colour map ", whole(*n), ""),
            TiffFault::StripCount { tag, kept, found } => Phrase::Three(
                "field ",
                whole(*tag as u32),
                " has ",
                whole(*found),
                " strips, not ",
                whole(*kept),
                "",
            ),
            TiffFault::ShortStrip(k) => Phrase::One("short strip ", whole(*k), ""),
            TiffFault::OutOfMemory => Phrase::Plain("out of memory"),
        }
    }
}

impl fmt::Display for TiffFault {
    ghost output = { λ fault. Some (tiff_text fault) };

    fn fmt<W: fmt::Write>(&self, f: &mut fmt::Formatter<W>) -> fmt::Result {
        let phrase = self.phrase();
        write!(f, "{phrase}")
    }
}
