//! The numbers of the fields that are read or written (TIFF 6.0, section 8).

/// Columns of the image.
pub const IMAGE_WIDTH: u16 = 256;
/// Rows of the image.
pub const IMAGE_LENGTH: u16 = 257;

/// Bits of a pixel: 8 or 4.
pub const BITS_PER_SAMPLE: u16 = 258;
/// 1 where the strips are not compressed.
pub const COMPRESSION: u16 = 259;
/// 3 where a pixel is the number of a colour of the map.
pub const PHOTOMETRIC_INTERPRETATION: u16 = 262;
/// 1 where the left pixel stands in the higher bits of a byte.
pub const FILL_ORDER: u16 = 266;

/// Where each strip begins in the file, in bytes.
pub const STRIP_OFFSETS: u16 = 273;
/// 1 where row 0 is the top row and column 0 the left column.
pub const ORIENTATION: u16 = 274;

/// 1, since a pixel is one number.
pub const SAMPLES_PER_PIXEL: u16 = 277;

/// Rows of each strip but for the last.
pub const ROWS_PER_STRIP: u16 = 278;

/// Bytes of each strip.
pub const STRIP_BYTE_COUNTS: u16 = 279;

/// Pixels of a row to a unit.
pub const X_RESOLUTION: u16 = 282;

/// Rows to a unit.
pub const Y_RESOLUTION: u16 = 283;
/// 2 where the resolutions are those of an inch.
pub const RESOLUTION_UNIT: u16 = 296;

/// The red of each colour, then the green, then the blue.
pub const COLOR_MAP: u16 = 320;
