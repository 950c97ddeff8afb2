//! Laws of the definitions: facts about every file and every image, which callers learn by a call.
ghost use Rattle.std.specs.Prelude.{◌≡◌, ◌<◌, ◌≤◌, ◌+◌, ◌*◌, ◌^◌, ℕ, List, length, All, None, Some};
ghost use Rattle.mill_base.specs.declared.limits.TheConstants.{MAX_COLUMNS};
ghost use Rattle.tiff_palette.specs.declared.fault.TiffFault.TheVariants.{TooLarge};
ghost use Rattle.tiff_palette.specs.declared.image.PaletteImage.{PaletteImage};
ghost use Rattle.tiff_palette.specs.Images.{Image};
ghost use Rattle.tiff_palette.specs.Layouts.{strips_of};
ghost use Rattle.tiff_palette.specs.Rules.{image_fault};
ghost use Rattle.tiff_palette.specs.Written.{IsWritable, pixels_place, tiff_of, written_layout};

/// Every file is exactly one image, or has a fault and is none.
pub fn every_file_is_one_image_or_has_a_fault()
    ensures one { (bytes : List ℕ) (a b : PaletteImage) → Image bytes a → Image bytes b → a ≡ b }
    ensures sound { (bytes : List ℕ) (image : PaletteImage) → Image bytes image → image_fault bytes ≡ None }
    ensures decided { (bytes : List ℕ) → image_fault bytes ≡ None → (image : PaletteImage) × Image bytes image }
{}

/// The file that is written for an image of at most 4096 columns is that image and no other. Each number of a map has
/// 16 bits.
pub fn a_written_file_is_its_image_alone()
    ensures same { (image : PaletteImage) → IsWritable image → All (λ n. n < 2 ^ 16) image.colour_map → image.width ≤ MAX_COLUMNS → Image (tiff_of image) image }
    ensures alone { (image other : PaletteImage) → IsWritable image → All (λ n. n < 2 ^ 16) image.colour_map → image.width ≤ MAX_COLUMNS
        → Image (tiff_of image) other → other ≡ image }
{}

/// The file that is written for a wider image is too large to be read.
pub fn a_wider_file_is_too_large()
    ensures { (image : PaletteImage) → IsWritable image → MAX_COLUMNS < image.width → image_fault (tiff_of image) ≡ Some TooLarge }
{}

/// A written file has a byte for each pixel, behind the head, the colour map and the lists of its strips.
pub fn a_written_file_ends_with_its_pixels()
    ensures { (image : PaletteImage) → IsWritable image
        → length (tiff_of image) ≡ pixels_place (strips_of (written_layout image)) + image.width * image.height }
{}
