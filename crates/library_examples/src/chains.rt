//! A chain of cards.

use card_image::card_set::CardSet;
use card_image::decoder::Decoder;
use card_image::fault::ChainFault;
use casting_out::casting::Casting;
use mill_base::size::Size;
use point_paper::bit_paper::BitPaper;
use std::test::Fail;

#[test]
fn a_chain_is_cut_and_decoded(rt: HostRuntime) -> Result<(), Fail> {
    let alloc = rt.alloc();
    // three columns on a machine of four hooks, of which hook 1 is cast out
    let casting = Casting::build(alloc, 4, &[1], 3)?;
    let size = Size {
        columns: 3,
        picks: 2,
    };
    let mut bits = BitPaper::new(alloc, size)?;
    bits.set(0, 0, true);
    bits.set(2, 0, true);
    bits.set(1, 1, true);

    let cards = CardSet::cut(alloc, &bits, &casting)?;
    // hooks 0 and 3
    assert_eq!(rt; cards.card(0), [0b1001_0000].as_slice());
    let chain = cards.encode()?;

    let mut decoder = Decoder::new(alloc, &casting, 2)?;
    for piece in chain.chunks(7) {
        decoder.feed(piece)?;
    }
    assert!(rt; decoder.finish()?.equals(&cards));

    let mut decoder = Decoder::new(alloc, &casting, 2)?;
    assert_eq!(rt; decoder.feed(b"JCC9"), Err(ChainFault::BadMagic));
    Ok(())
}
