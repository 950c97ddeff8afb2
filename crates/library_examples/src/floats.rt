//! The floats of a line.

use cloth_floats::{first_long, runs};
use mill_base::bit_row::BitRow;
use std::test::Fail;

#[test]
fn the_floats_of_a_line_are_listed(rt: HostRuntime) -> Result<(), Fail> {
    // . . # # . . and round again
    let mut line = BitRow::new(rt.alloc(), 6)?;
    line.set(2, true);
    line.set(3, true);

    let floats = runs(rt.alloc(), &line)?;
    assert_eq!(rt; floats.len(), 2);
    for float in floats.iter() {
        let wanted = if float.lifted { (2, 2) } else { (4, 4) };
        assert_eq!(rt; (float.start, float.length), wanted);
    }

    // a limit of 3 for unlifted cells is too short, one of 4 is not
    assert_eq!(rt; first_long(&line, 3, 3).map(|float| float.start), Some(4));
    assert_eq!(rt; first_long(&line, 4, 4), None);
    Ok(())
}
