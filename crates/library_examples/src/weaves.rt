//! A weave.

use mill_base::bit_row::BitRow;
use std::test::Fail;
use weave_book::fault::WeaveFault;
use weave_book::weaves::Weave;

#[test]
fn a_weave_is_parsed(rt: HostRuntime) -> Result<(), Fail> {
    let weave = Weave::parse("twill 2 2 right")?;
    assert!(rt; weave.mark(0, 0) && weave.mark(1, 1) && !weave.mark(0, 2));

    // the marks of pick 1 in eight columns
    let mut row = BitRow::new(rt.alloc(), 8)?;
    weave.put_row(1, &mut row);
    assert_eq!(rt; row.count(), 4);
    assert_eq!(rt; row.next_true(2), Some(4));

    let fault = Weave::parse("satin 6 5 weft").err();
    assert_eq!(rt; fault, Some(WeaveFault::SatinStep { n: 6, s: 5 }));
    Ok(())
}
