//! Each word that asks for a page gets it, and a page that could not be put out whole is told.
use help_pages::page::{Page, page_of, put_page};
use mill_io::faults::Fail;
use mill_io::memory_sink::MemorySink;
use mill_io::program::program_of;
use std::alloc::Global;
use std::test;

// The page of words that are parted by spaces.
fn asked(alloc: Global, text: &str) -> Result<Option<Page>, test::Fail> {
    let mut words = Vec::new(alloc);
    for word in text.split(' ') {
        let mut owned = String::new(alloc);
        owned.push_str(word)?;
        words.push(owned)?;
    }
    Ok(page_of(program_of(&words), &words))
}

#[test]
fn each_command_has_its_page(rt: HostRuntime) -> Result<(), test::Fail> {
    const ASKED: [(&str, Option<Page>); 15] = [
        ("help", Some(Page::Commands)),
        ("--help", Some(Page::Commands)),
        ("-h", Some(Page::Commands)),
        ("version", Some(Page::Version)),
        ("--version", Some(Page::Version)),
        ("weave --help", Some(Page::Weave)),
        ("check --help", Some(Page::Check)),
        ("draw --help", Some(Page::Draw)),
        ("paper --help", Some(Page::Paper)),
        ("cards --help", Some(Page::Cards)),
        ("lift --help", Some(Page::Lift)),
        ("trial --help", Some(Page::Trial)),
        ("spin --help", None),
        ("help draw", None),
        ("draw", None),
    ];
    for (text, page) in ASKED {
        assert_eq!(rt; asked(rt.alloc(), text)?, page, "{text}");
    }
    Ok(())
}

#[test]
fn a_page_that_was_cut_off_is_told(rt: HostRuntime) -> Result<(), test::Fail> {
    let alloc = rt.alloc();
    let text = Page::Draw.text().as_bytes();
    for (call, taken, status, line) in [
        (0, &text[..5], 6, "studio: cannot write\n"),
        (1, text, 0, ""),
    ] {
        let fails = Vec::from_array(alloc, [Fail { call, bytes: 5 }])?;
        let mut out = MemorySink::new(alloc, fails);
        let mut err = MemorySink::new(alloc, Vec::new(alloc));
        let cause = put_page(Page::Draw, &mut out, &mut err);
        assert_eq!(rt; cause.status(), status);
        assert_eq!(rt; out.taken(), taken);
        assert_eq!(rt; err.taken(), line.as_bytes());
    }
    Ok(())
}
