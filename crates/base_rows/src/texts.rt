//! Texts, names and lists.

use crate::expect::expect;
use mill_base::listed::Listed;
use mill_base::memory::OutOfMemory;
use mill_base::name_text::NameText;
use mill_base::phrase::{Number, Phrase, whole};
use mill_base::words::{Words, number};
use std::alloc::Global;
use std::test::Fail;

/// Whether these are the next words of a text.
fn has_words(words: &mut Words<'_>, wanted: &[&str]) -> bool {
    for word in wanted {
        if words.next() != Some(word.as_bytes()) {
            return false;
        }
    }
    words.next() == None
}

#[test]
fn a_text_is_cut_at_its_spaces(rt: HostRuntime) {
    let mut words = Words::of("  twill 2  2 right ");
    expect(
        &rt,
        has_words(&mut words, &["twill", "2", "2", "right"]),
        "four words",
    );
    expect(&rt, has_words(&mut Words::of("   "), &[]), "no word");
}

#[test]
fn a_number_has_one_spelling(rt: HostRuntime) {
    const SPELLINGS: [(&str, Option<u32>); 12] = [
        ("0", Some(0)),
        ("10", Some(10)),
        ("4294967295", Some(4294967295)),
        ("4294967296", None),
        ("99999999999999999999999999", None),
        ("", None),
        ("00", None),
        ("01", None),
        ("+1", None),
        ("-1", None),
        ("1.", None),
        ("/:", None),
    ];
    for (word, value) in SPELLINGS {
        expect(&rt, number(word.as_bytes()) == value, word);
    }
}

/// Whether a phrase is told as this text.
fn is_told(alloc: Global, phrase: Phrase, text: &str) -> Result<bool, Fail> {
    Ok(phrase.to_string(alloc)?.as_str() == text)
}

#[test]
fn phrases_are_told_in_words_and_digits(rt: HostRuntime) -> Result<(), Fail> {
    const LOW: Number = Number::Signed(-7);
    const MOST: Number = Number::Whole(u64::MAX);
    let alloc = rt.alloc();
    expect(
        &rt,
        is_told(alloc, Phrase::Plain("no sections"), "no sections")?,
        "plain",
    );
    let one = Phrase::One("hook ", whole(0), " again");
    expect(&rt, is_told(alloc, one, "hook 0 again")?, "one number");
    let two = Phrase::Two("", LOW, " not over ", MOST, "");
    expect(
        &rt,
        is_told(alloc, two, "-7 not over 18446744073709551615")?,
        "two numbers",
    );
    let three = Phrase::Three("", LOW, " not in ", whole(1), " to ", whole(4096), "");
    expect(
        &rt,
        is_told(alloc, three, "-7 not in 1 to 4096")?,
        "three numbers",
    );
    expect(
        &rt,
        OutOfMemory.to_string(alloc)?.as_str() == "out of memory",
        "memory",
    );
    Ok(())
}

/// A list of two numbers, taken apart and made again.
fn listed(alloc: Global) -> Result<Listed<u32>, OutOfMemory> {
    let mut list = Listed::new(alloc);
    list.push(4u32)?;
    list.push(2)?;
    Ok(Listed::of(list.into_vec()))
}

#[test]
fn names_and_lists_keep_what_they_were_given(rt: HostRuntime) -> Result<(), Fail> {
    let name = NameText::of(rt.alloc(), "h\u{e4}user.toml")?;
    expect(&rt, name.as_str() == "h\u{e4}user.toml", "name");
    expect(
        &rt,
        listed(rt.alloc())?.as_slice() == [4, 2].as_slice(),
        "list",
    );
    Ok(())
}
