//! Chains written out by hand, in pieces of every size, and cards that are cut, turned and read back.
ghost use Rattle.std.specs.Prelude.{◌≡◌, ◌<◌, ◌≤◌, ℕ, length, IfOk};

use card_image::card_set::CardSet;
use card_image::decoder::Decoder;
use card_image::fault::ChainFault;
use casting_out::casting::Casting;
use mill_base::bit_row::BitRow;
use mill_base::face::Face;
use mill_base::limits::{MAX_COLUMNS, MAX_HOOKS, MAX_PICKS};
use mill_base::size::Size;
use point_paper::bit_paper::BitPaper;
use std::alloc::Global;
use std::process::Abort;
use std::test::Fail;

/// Two hooks and two picks: one hole at hook 0, then one at hook 1.
const CHAIN: [u8; 30] = [
    0x4A, 0x43, 0x43, 0x31, 0, 0, 0, 2, 0, 0, 0, 2, 0, 0, 0, 0, 0, 0, 0, 1, 0x80, 0, 0, 0, 1, 0, 0,
    0, 1, 0x40,
];

/// The same cards turned.
const TURNED: [u8; 30] = [
    0x4A, 0x43, 0x43, 0x32, 0, 0, 0, 2, 0, 0, 0, 2, 0, 0, 0, 0, 0, 0, 0, 1, 0x40, 0, 0, 0, 1, 0, 0,
    0, 1, 0x80,
];

fn casting_for(alloc: Global, hooks: u32, cast_out: &[u32], columns: u32) -> Result<Casting, Fail>
    ensures hooks { IfOk result (λ c. c.hooks ≡ hooks) }
    ensures columns { IfOk result (λ c. length c.columns ≡ columns) }
{
    Ok(Casting::build(alloc, hooks, cast_out, columns)?)
}

/// The fault is told from the byte at a place on, and at the end, where the bytes come one by one.
fn expect_fault_by_bytes(
    rt: &impl Abort,
    alloc: Global,
    casting: &Casting,
    picks: u32,
    bytes: &[u8],
    at: usize,
    want: ChainFault,
) -> Result<(), Fail> {
    let mut decoder = Decoder::new(alloc, casting, picks)?;
    for k in 0..bytes.len() {
        let answer = decoder.feed(&bytes[k..k + 1]);
        let told = if k < at { Ok(()) } else { Err(want) };
        assert_eq!(rt; answer, told, "{want}, byte {k}");
    }
    assert_eq!(rt; decoder.finish().err(), Some(want));
    Ok(())
}

#[test]
fn each_fault_is_told_at_the_byte_that_shows_it(rt: HostRuntime) -> Result<(), Fail> {
    const CASES: [(usize, u8, usize, ChainFault, &str); 11] = [
        (0, 0, 0, ChainFault::BadMagic, "bad magic"),
        (3, 0x33, 3, ChainFault::BadMagic, "bad magic"),
        (
            7,
            3,
            7,
            ChainFault::BadHeader {
                field: 0,
                kept: 2,
                found: 3,
            },
            "hooks 3, not 2",
        ),
        (
            11,
            1,
            11,
            ChainFault::BadHeader {
                field: 1,
                kept: 2,
                found: 1,
            },
            "picks 1, not 2",
        ),
        (
            8,
            1,
            11,
            ChainFault::BadHeader {
                field: 1,
                kept: 2,
                found: 0x0100_0002,
            },
            "picks 16777218, not 2",
        ),
        (
            15,
            1,
            15,
            ChainFault::CardNumber { kept: 0, found: 1 },
            "card 1, not 0",
        ),
        (
            24,
            2,
            24,
            ChainFault::CardNumber { kept: 1, found: 2 },
            "card 2, not 1",
        ),
        (
            19,
            0,
            20,
            ChainFault::HoleCount { kept: 0, found: 1 },
            "1 holes, not 0",
        ),
        (
            20,
            0xC0,
            20,
            ChainFault::HoleCount { kept: 1, found: 2 },
            "2 holes, not 1",
        ),
        (20, 0xA0, 20, ChainFault::PadBit(0), "pad bit in card 0"),
        (29, 0x41, 29, ChainFault::PadBit(1), "pad bit in card 1"),
    ];
    let alloc = rt.alloc();
    let casting = casting_for(alloc, 2, &[], 2)?;
    for (place, byte, at, want, text) in CASES {
        assert!(rt; place < 30);
        let mut bytes = CHAIN;
        bytes[place] = byte;
        expect_fault_by_bytes(&rt, alloc, &casting, 2, &bytes, at, want)?;
        assert_eq!(rt; want.to_string(alloc)?.as_str(), text);
    }
    Ok(())
}

/// One card of which a hook is cast out, one is idle and the last bit is a pad bit: pad bits are told before holes
/// without a column, and these before the count.
#[test]
fn the_faults_of_a_card_have_an_order(rt: HostRuntime) -> Result<(), Fail> {
    const CASES: [(u8, u8, ChainFault, &str); 4] = [
        (0xFF, 0, ChainFault::PadBit(0), "pad bit in card 0"),
        (
            0xFE,
            0,
            ChainFault::IdleHole { card: 0, hook: 3 },
            "card 0 has a hole at hook 3",
        ),
        (
            0xEE,
            6,
            ChainFault::IdleHole { card: 0, hook: 6 },
            "card 0 has a hole at hook 6",
        ),
        (
            0xEC,
            4,
            ChainFault::HoleCount { kept: 4, found: 5 },
            "5 holes, not 4",
        ),
    ];
    let alloc = rt.alloc();
    let casting = casting_for(alloc, 7, &[3], 5)?;
    for (holes, count, want, text) in CASES {
        let bytes = [
            0x4A, 0x43, 0x43, 0x31, 0, 0, 0, 7, 0, 0, 0, 1, 0, 0, 0, 0, 0, 0, 0, count, holes,
        ];
        expect_fault_by_bytes(&rt, alloc, &casting, 1, &bytes, 20, want)?;
        assert_eq!(rt; want.to_string(alloc)?.as_str(), text);
    }
    Ok(())
}

fn decoded(
    alloc: Global,
    casting: &Casting,
    picks: u32,
    first: &[u8],
    second: &[u8],
) -> Result<CardSet, Fail> {
    let mut decoder = Decoder::new(alloc, casting, picks)?;
    decoder.feed(first)?;
    decoder.feed(second)?;
    Ok(decoder.finish()?)
}

#[test]
fn a_chain_ends_at_its_last_byte(rt: HostRuntime) -> Result<(), Fail> {
    let alloc = rt.alloc();
    let casting = casting_for(alloc, 2, &[], 2)?;
    for found in 0..30usize {
        let mut decoder = Decoder::new(alloc, &casting, 2)?;
        decoder.feed(&CHAIN[..found])?;
        let want = ChainFault::Truncated {
            kept: 30,
            found: found as u64,
        };
        assert_eq!(rt; decoder.finish().err(), Some(want));
        let whole = decoded(alloc, &casting, 2, &CHAIN[..found], &CHAIN[found..])?;
        assert_eq!(rt;
            whole.encode()?.as_slice(),
            CHAIN.as_slice(),
            "cut at {found}"
        );
    }
    let mut longer = [0u8; 31];
    longer[..30].copy_from_slice(&CHAIN);
    let excess = ChainFault::Excess { kept: 30 };
    expect_fault_by_bytes(&rt, alloc, &casting, 2, &longer, 30, excess)?;
    assert_eq!(rt; excess.to_string(alloc)?.as_str(), "longer than 30");
    let short = ChainFault::Truncated { kept: 30, found: 0 };
    assert_eq!(rt; short.to_string(alloc)?.as_str(), "ends at 0 of 30");
    Ok(())
}

/// A paper of which one cell in so many is lifted, which look random.
fn marked(alloc: Global, size: Size, share: u32) -> Result<BitPaper, Fail>
    requires { 0 < share }
    ensures columns { IfOk result (λ b. b.columns ≡ size.columns) }
    ensures picks { IfOk result (λ b. length b.rows ≡ size.picks) }
{
    let mut bits = BitPaper::new(alloc, size)?;
    let mut seed: u32 = 1;
    for pick in 0..size.picks {
        seed = seed.wrapping_mul(1_664_525).wrapping_add(1_013_904_223);
        if size.columns > 0 && seed < u32::MAX / share {
            bits.set(seed % size.columns, pick, true);
        }
    }
    Ok(bits)
}

/// Cards that are cut and turned come back from their chains, and turned twice they are the same.
fn expect_back(
    rt: &impl Abort,
    alloc: Global,
    casting: &Casting,
    bits: &BitPaper,
) -> Result<(), Fail>
    requires { bits.now.columns ≡ length casting.now.columns }
{
    let cards = CardSet::cut(alloc, bits, casting)?;
    let chain = cards.encode()?;
    let middle = chain.len() / 2;
    let back = decoded(
        alloc,
        casting,
        cards.picks(),
        &chain[..middle],
        &chain[middle..],
    )?;
    assert!(rt; back.equals(&cards) && back.face() == Face::Up);
    Ok(())
}

#[test]
fn cut_cards_come_back_from_their_chain(rt: HostRuntime) -> Result<(), Fail> {
    const CASES: [(u32, &[u32], u32, u32); 4] = [
        (1, &[], 1, 1),
        (70, &[3, 64], 65, 9),
        (64, &[0, 63], 50, 40),
        (MAX_HOOKS, &[8, 16_000], MAX_COLUMNS, MAX_PICKS),
    ];
    let alloc = rt.alloc();
    for (hooks, cast_out, columns, picks) in CASES {
        let casting = casting_for(alloc, hooks, cast_out, columns)?;
        let bits = marked(alloc, Size { columns, picks }, 2)?;
        expect_back(&rt, alloc, &casting, &bits)?;
    }
    Ok(())
}

#[test]
fn a_small_paper_has_the_chain_that_is_written_out(rt: HostRuntime) -> Result<(), Fail> {
    let alloc = rt.alloc();
    let casting = casting_for(alloc, 2, &[], 2)?;
    let mut bits = BitPaper::new(
        alloc,
        Size {
            columns: 2,
            picks: 2,
        },
    )?;
    bits.set(0, 0, true);
    bits.set(1, 1, true);
    let cards = CardSet::cut(alloc, &bits, &casting)?;
    assert_eq!(rt; cards.encode()?.as_slice(), CHAIN.as_slice());
    let turned = cards.turned(&casting)?;
    assert_eq!(rt; turned.encode()?.as_slice(), TURNED.as_slice());
    let read = decoded(alloc, &casting, 2, &TURNED, &[])?;
    assert!(rt; turned.equals(&read) && read.face() == Face::Down);
    assert!(rt; !turned.equals(&cards) && turned.is_alike(&cards));
    Ok(())
}

#[test]
fn idle_hooks_have_no_hole(rt: HostRuntime) -> Result<(), Fail> {
    let alloc = rt.alloc();
    let casting = casting_for(alloc, 8, &[3], 5)?;
    let mut bits = BitPaper::new(
        alloc,
        Size {
            columns: 5,
            picks: 1,
        },
    )?;
    let mut row = BitRow::new(alloc, 5)?;
    row.fill(true);
    bits.set_row(0, &row);
    let cards = CardSet::cut(alloc, &bits, &casting)?;
    assert_eq!(rt; cards.card(0), [0xEC].as_slice());
    let mut out = [0xFFu8];
    cards.turn_card(0, &casting, &mut out);
    assert_eq!(rt; out, [0x00]);
    cards.turned(&casting)?.turn_card(0, &casting, &mut out);
    assert_eq!(rt; out, [0xEC]);
    Ok(())
}
