//! A palette image.

use mill_base::listed::Listed;
use std::test::Fail;
use tiff_palette::{PaletteImage, TiffFault, read, write};

#[test]
fn an_image_is_written_and_read(rt: HostRuntime) -> Result<(), Fail> {
    let alloc = rt.alloc();
    let image = PaletteImage {
        width: 3,
        height: 2,
        // the top row first
        pixels: Listed::of(Vec::from_slice(alloc, &[1, 2, 0, 0, 1, 2])?),
        // the red of 256 colours, then the green, then the blue
        colour_map: Listed::of(Vec::from_elem(alloc, 0, 768)?),
    };
    if !image.is_writable() {
        panic!(rt; "six pixels can be written");
    }
    let bytes = write(alloc, &image)?;
    let back = read(alloc, &bytes)?;
    assert_eq!(rt; (back.width, back.height), (3, 2));
    assert_eq!(rt; back.pixels.as_slice(), [1, 2, 0, 0, 1, 2].as_slice());

    let fault = read(alloc, b"GIF89a, not TIFF").err();
    assert_eq!(rt; fault, Some(TiffFault::NotTiff));
    Ok(())
}
