//! Card chains that are written, lifted and refused.

use crate::calls::{expect, expect_file, sound_shelf};
use crate::files::{
    CHAIN_DOWN, CHAIN_HEAD, Changes, FIRST_CARD, SECOND_CARD, chain, joined, session,
};
use crate::images::{CLOTH, written};
use crate::sessions::{ORDINARY, ordinary_image};
use std::test::Fail;

#[test]
fn the_cards_of_both_faces_lift_the_cloth_that_is_drawn(rt: HostRuntime) -> Result<(), Fail> {
    let alloc = rt.alloc();
    let mut shelf = sound_shelf(alloc);
    shelf.add("S1", session(&rt, alloc, &[])?.as_bytes())?;
    let drawn = written(alloc, CLOTH, &[0, 1, 1, 0])?;
    let up = chain(alloc)?;
    let cases: [(&[&str], &[u8]); 2] = [
        (&["cards", "S1", "X"], &up),
        (&["cards", "S1", "X", "down"], &CHAIN_DOWN),
    ];
    for (words, cards) in cases {
        expect(&rt, alloc, &mut shelf, words, (0, "", ""))?;
        expect_file(&rt, &shelf, "X", Some(cards));
        expect(
            &rt,
            alloc,
            &mut shelf,
            &["lift", "S1", "X", "Y"],
            (0, "", ""),
        )?;
        expect_file(&rt, &shelf, "Y", Some(&drawn));
    }
    Ok(())
}

#[test]
fn cards_of_another_cloth_of_the_design_lift_that_cloth(rt: HostRuntime) -> Result<(), Fail> {
    let alloc = rt.alloc();
    let mut shelf = sound_shelf(alloc);
    shelf.add("S1", session(&rt, alloc, &[])?.as_bytes())?;
    let both_lifted = [0, 0, 0, 0, 0, 0, 0, 2, 0xC0];
    shelf.add(
        "X",
        &joined(alloc, &[&CHAIN_HEAD, &both_lifted, &SECOND_CARD])?,
    )?;
    expect(
        &rt,
        alloc,
        &mut shelf,
        &["lift", "S1", "X", "Y"],
        (0, "", ""),
    )?;
    let wanted = written(alloc, CLOTH, &[0, 1, 1, 1])?;
    expect_file(&rt, &shelf, "Y", Some(&wanted));
    Ok(())
}

/// The pieces of a chain, and the line on standard error.
type Case = (&'static [&'static [u8]], &'static str);

const REFUSED: [Case; 12] = [
    (&[], "studio: chain: ends at 0 of 30\n"),
    (&[b"J"], "studio: chain: ends at 1 of 30\n"),
    (
        &[&CHAIN_HEAD, &FIRST_CARD, b"\0\0\0\x01\0\0\0\x01"],
        "studio: chain: ends at 29 of 30\n",
    ),
    (
        &[&CHAIN_HEAD, &FIRST_CARD, &SECOND_CARD, b"\0"],
        "studio: chain: longer than 30\n",
    ),
    (&[b"K"], "studio: chain: bad magic\n"),
    (&[b"JCC3\0\0\0\x02\0\0\0\x02"], "studio: chain: bad magic\n"),
    (
        &[b"JCC1\0\0\0\x03\0\0\0\x02"],
        "studio: chain: hooks 3, not 2\n",
    ),
    (
        &[b"JCC2\0\0\0\x02\0\0\0\x03"],
        "studio: chain: picks 3, not 2\n",
    ),
    (
        &[&CHAIN_HEAD, &FIRST_CARD, b"\0\0\0\x02\0\0\0\x01\x40"],
        "studio: chain: card 2, not 1\n",
    ),
    (
        &[&CHAIN_HEAD, b"\0\0\0\0\0\0\0\x01\xA0", &SECOND_CARD],
        "studio: chain: pad bit in card 0\n",
    ),
    (
        &[&CHAIN_HEAD, b"\0\0\0\0\0\0\0\x01\xC0", &SECOND_CARD],
        "studio: chain: 2 holes, not 1\n",
    ),
    // What is told is the first fault, not the last.
    (
        &[&CHAIN_HEAD, b"\0\0\0\0\0\0\0\x01\xC0", b"\0\0\0\x02"],
        "studio: chain: 2 holes, not 1\n",
    ),
];

#[test]
fn a_chain_of_no_cloth_of_the_design_is_refused(rt: HostRuntime) -> Result<(), Fail> {
    let alloc = rt.alloc();
    let mut shelf = sound_shelf(alloc);
    shelf.add("S1", session(&rt, alloc, &[])?.as_bytes())?;
    for (pieces, line) in REFUSED {
        shelf.add("X", &joined(alloc, pieces)?)?;
        expect(
            &rt,
            alloc,
            &mut shelf,
            &["lift", "S1", "X", "Y"],
            (8, "", line),
        )?;
    }
    expect_file(&rt, &shelf, "Y", None);
    Ok(())
}

/// A plain cloth of five columns on eight hooks. Hook 3 is cast out, so the columns have the hooks 0, 1, 2, 4 and 5.
const CAST: Changes = &[
    ("columns = 2", "columns = 5\nhooks = 8\ncast_out = [3]"),
    ("weft_limit = 1", "weft_limit = 2"),
];

const CAST_HEAD: [u8; 12] = *b"JCC1\0\0\0\x08\0\0\0\x02";

#[test]
fn only_hooks_of_columns_have_holes(rt: HostRuntime) -> Result<(), Fail> {
    let alloc = rt.alloc();
    let mut shelf = sound_shelf(alloc);
    shelf.add("S1", session(&rt, alloc, CAST)?.as_bytes())?;
    expect(&rt, alloc, &mut shelf, &["cards", "S1", "X"], (0, "", ""))?;
    let cards = joined(
        alloc,
        &[
            &CAST_HEAD,
            b"\0\0\0\0\0\0\0\x03\xA4",
            b"\0\0\0\x01\0\0\0\x02\x48",
        ],
    )?;
    expect_file(&rt, &shelf, "X", Some(&cards));
    let cases: [(&[u8], &str); 2] = [
        (
            b"\0\0\0\0\0\0\0\x06\xFC",
            "studio: chain: card 0 has a hole at hook 3\n",
        ),
        (
            b"\0\0\0\0\0\0\0\x06\xEE",
            "studio: chain: card 0 has a hole at hook 6\n",
        ),
    ];
    for (card, line) in cases {
        shelf.add("X", &joined(alloc, &[&CAST_HEAD, card])?)?;
        expect(
            &rt,
            alloc,
            &mut shelf,
            &["lift", "S1", "X", "Y"],
            (8, "", line),
        )?;
    }
    Ok(())
}

#[test]
fn a_large_cloth_is_lifted_from_its_cards_as_it_is_drawn(rt: HostRuntime) -> Result<(), Fail> {
    let alloc = rt.alloc();
    let mut shelf = sound_shelf(alloc);
    shelf.add("session", ORDINARY.as_bytes())?;
    shelf.add("blocks", &ordinary_image(alloc)?)?;
    expect(
        &rt,
        alloc,
        &mut shelf,
        &["draw", "session", "drawn"],
        (0, "", ""),
    )?;
    expect(
        &rt,
        alloc,
        &mut shelf,
        &["cards", "session", "up"],
        (0, "", ""),
    )?;
    expect(
        &rt,
        alloc,
        &mut shelf,
        &["cards", "session", "down", "down"],
        (0, "", ""),
    )?;
    for name in ["up", "down"] {
        expect(
            &rt,
            alloc,
            &mut shelf,
            &["lift", "session", name, "lifted"],
            (0, "", ""),
        )?;
        expect_file(&rt, &shelf, "lifted", shelf.content("drawn"));
    }
    Ok(())
}
