//! Files of a plain cloth of two columns and two picks, written out by hand.
ghost use Rattle.std.specs.Prelude.{◌≡◌, ◌<◌, ℕ, length, IfOk};
ghost use Rattle.point_paper.specs.Papers.{cell_of};
ghost use Rattle.draft_model.specs.Designs.{Fits};

use card_image::fault::ChainFault;
use casting_out::casting::Casting;
use cloth_files::{LiftRefusal, chain_file, drawdown_file, lifted_file, paper_file};
use draft_model::design::Design;
use harness_ties::tie::Tie;
use mill_base::face::Face;
use mill_base::limits::MAX_CLOTH_CELLS;
use mill_base::size::Size;
use point_paper::paper::Paper;
use std::alloc::Global;
use std::process::Abort;
use std::test::Fail;
use weave_book::book::Book;
use weave_book::weaves::Weave;

/// The cards of the plain cloth: a hole at hook 0, then one at hook 1.
const CHAIN: [u8; 30] = [
    0x4A, 0x43, 0x43, 0x31, 0, 0, 0, 2, 0, 0, 0, 2, 0, 0, 0, 0, 0, 0, 0, 1, 0x80, 0, 0, 0, 1, 0, 0,
    0, 1, 0x40,
];

/// The cards of the same cloth with its face down.
const CHAIN_DOWN: [u8; 30] = [
    0x4A, 0x43, 0x43, 0x32, 0, 0, 0, 2, 0, 0, 0, 2, 0, 0, 0, 0, 0, 0, 0, 1, 0x40, 0, 0, 0, 1, 0, 0,
    0, 1, 0x80,
];

/// Where the colour map of a file stands, and where the reds, the greens and the blues begin in it.
const SHADES: [usize; 3] = [174, 174 + 512, 174 + 1024];

/// Where the pixels of a file of one strip begin.
const PIXELS: usize = 1710;

fn plain_design(rt: &impl Abort, alloc: Global) -> Result<Design, Fail>
    ensures fits { IfOk result (λ d. Fits d) }
    ensures size { IfOk result (λ d. d.size ≡ record { columns = 2; picks = 2 }) }
    ensures colours { IfOk result (λ d. length d.book ≡ 1) }
{
    let tie = Tie::build(alloc, &[], 2)?;
    let mut book = Book::new(alloc);
    book.add(Weave::parse("plain")?)?;
    assert!(rt; 1 <= tie.ends() && tie.ends() as u64 * 2 <= MAX_CLOTH_CELLS);
    Ok(Design {
        size: Size {
            columns: 2,
            picks: 2,
        },
        book,
        tie,
        casting: Casting::build(alloc, 2, &[], 2)?,
        raise: Weave::parse("blank")?,
        sink: Weave::parse("blank")?,
        weft_face: 1,
        weft_back: 1,
        warp_face: 1,
        warp_back: 1,
        tile: 32,
    })
}

fn blank_paper(alloc: Global, size: Size) -> Result<Paper, Fail>
    ensures columns { IfOk result (λ p. p.columns ≡ size.columns) }
    ensures picks { IfOk result (λ p. p.picks ≡ size.picks) }
    ensures colours { IfOk result (λ p. (column pick : ℕ) → column < p.columns → pick < p.picks → cell_of p column pick ≡ 0) }
{
    Ok(Paper::blank(alloc, size, 0)?)
}

fn expect_part(rt: &impl Abort, bytes: &[u8], at: usize, want: &[u8], name: &str) {
    assert!(rt;
        at <= bytes.len() && want.len() <= bytes.len() - at,
        "{name}"
    );
    let part = &bytes[at..at + want.len()];
    assert!(rt; part == want, "{name} at {at}");
}

fn expect_whole(rt: &impl Abort, bytes: &[u8], want: &[u8], name: &str) {
    assert!(rt; bytes == want, "{name}");
}

/// The file has these pixels at its end.
fn expect_pixels(rt: &impl Abort, bytes: &[u8], pixels: &[u8], name: &str) {
    expect_part(rt, bytes, PIXELS, pixels, name);
    assert!(rt; bytes.len() == PIXELS + pixels.len(), "{name}");
}

#[test]
fn a_cloth_is_drawn_lifted_and_cut_alike(rt: HostRuntime) -> Result<(), Fail> {
    let alloc = rt.alloc();
    let design = plain_design(&rt, alloc)?;
    let paper = blank_paper(alloc, design.size)?;
    let drawn = drawdown_file(alloc, &design, &paper)?;
    expect_pixels(&rt, &drawn, &[0, 1, 1, 0], "drawn");
    for at in SHADES {
        expect_part(&rt, &drawn, at, &[0xFF, 0xFF, 0, 0], "white and black");
        expect_part(&rt, &drawn, at + 508, &[0; 4], "black");
    }
    for (face, chain) in [(Face::Up, &CHAIN), (Face::Down, &CHAIN_DOWN)] {
        expect_whole(
            &rt,
            &chain_file(alloc, &design, &paper, face)?,
            chain,
            "cut",
        );
        expect_whole(&rt, &lifted_file(alloc, &design, chain)?, &drawn, "lifted");
    }
    Ok(())
}

#[test]
fn other_cards_lift_another_cloth(rt: HostRuntime) -> Result<(), Fail> {
    let alloc = rt.alloc();
    let design = plain_design(&rt, alloc)?;
    let mut changed = CHAIN;
    changed[19] = 2;
    changed[20] = 0xC0;
    let lifted = lifted_file(alloc, &design, &changed)?;
    expect_pixels(&rt, &lifted, &[0, 1, 1, 1], "lifted");
    Ok(())
}

#[test]
fn chains_of_no_such_design_are_refused(rt: HostRuntime) -> Result<(), Fail> {
    let alloc = rt.alloc();
    let design = plain_design(&rt, alloc)?;
    let mut other = CHAIN;
    other[7] = 3;
    let mut miscounted = CHAIN;
    miscounted[20] = 0xC0;
    let cases: [(&[u8], ChainFault); 3] = [
        (
            &other,
            ChainFault::BadHeader {
                field: 0,
                kept: 2,
                found: 3,
            },
        ),
        (&miscounted, ChainFault::HoleCount { kept: 1, found: 2 }),
        (
            &CHAIN[..29],
            ChainFault::Truncated {
                kept: 30,
                found: 29,
            },
        ),
    ];
    for (chain, fault) in cases {
        let refusal = lifted_file(alloc, &design, chain).err();
        assert_eq!(rt; refusal, Some(LiftRefusal::Chain(fault)));
    }
    Ok(())
}

#[test]
fn a_paper_keeps_its_colours(rt: HostRuntime) -> Result<(), Fail> {
    let alloc = rt.alloc();
    let mut colour_map = [0u16; 768];
    colour_map[1] = 0x0102;
    colour_map[256 + 1] = 0x0304;
    colour_map[512 + 1] = 0x0506;
    let size = Size {
        columns: 3,
        picks: 2,
    };
    let paper = Paper::from_rows(alloc, size, &[1, 2, 0, 0, 1, 2])?;
    let drawn = paper_file(alloc, &paper, &colour_map)?;
    expect_pixels(&rt, &drawn, &[1, 2, 0, 0, 1, 2], "colours");
    for (at, shade) in [(SHADES[0], 1u8), (SHADES[1], 3), (SHADES[2], 5)] {
        expect_part(&rt, &drawn, at, &[0, 0, shade + 1, shade, 0, 0], "colour 1");
    }
    Ok(())
}
