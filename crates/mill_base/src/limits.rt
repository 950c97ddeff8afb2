//! How much the studio takes of each thing. Each limit is this project's own.

/// Columns of a paper; the least is 1.
pub const MAX_COLUMNS: u32 = 4096;

/// Picks of a paper; the least is 1.
pub const MAX_PICKS: u32 = 8192;

/// Warp ends of a tie; the least is 1.
pub const MAX_ENDS: u32 = 16_384;

/// Hooks of a machine; the least is 1.
pub const MAX_HOOKS: u32 = 16_384;

/// Cells of a cloth: its ends times its picks.
pub const MAX_CLOTH_CELLS: u64 = 67_108_864;

/// Colours of a weave book; the least is 1.
pub const MAX_COLOURS: u32 = 256;

/// Columns, and picks, in which a weave repeats itself.
pub const MAX_WEAVE: u32 = 64;

/// Each of the four float limits; the least is 1.
pub const MAX_FLOAT: u32 = 255;

/// Columns and picks of a tile at the least.
pub const MIN_TILE: u32 = 4;

/// Columns and picks of a tile at the most.
pub const MAX_TILE: u32 = 64;

/// Columns and picks of a tile where a session names none.
pub const DEFAULT_TILE: u32 = 32;

/// Looms of a session; the least is 1.
pub const MAX_LOOMS: u32 = 64;

/// Painters of a shift.
pub const MAX_PAINTERS: u32 = 64;

/// Shifts of a session; the least is 1.
pub const MAX_SHIFTS: u32 = 256;

/// Sections of a tie in a session.
pub const MAX_SECTIONS: u32 = 256;

/// Motifs of a session.
pub const MAX_MOTIFS: u32 = 256;

/// Cells of all motifs of a session together.
pub const MAX_MOTIF_CELLS: u64 = 1_048_576;

/// Acts of a session.
pub const MAX_ACTS: u32 = 65_536;

/// Commits of a session.
pub const MAX_COMMITS: u32 = 256;

/// Repeats of a session, over all looms.
pub const MAX_REPEATS: u32 = 65_536;

/// Bytes of holes of the cards of all versions that a session can have together.
pub const MAX_CARD_BYTES: u64 = 1_073_741_824;

/// Cells of all rows that a report shows.
pub const MAX_SHOWN_CELLS: u64 = 67_108_864;

/// Bytes of a file that is read.
pub const MAX_FILE_BYTES: u64 = 67_108_864;
