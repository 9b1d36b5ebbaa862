//! What is read from the dump of an image.
ghost use Rattle.heap_class.specs.declared.IdSize.{IdSize};
ghost use Rattle.hprof_text.specs.Image.{Image, IsDumpable};
ghost use Rattle.hprof_text.specs.Fits.{ShowsWhole};
ghost use Rattle.hprof_reader.specs.Images.{AreRead};

/// States that the sub-records of the dump of an image tell the image: they are the texts of its classes, of their roots, of its
/// objects and of its registers, in order, and each of them is read as such, since its numbers fit.
pub fn sub_records_are_read()
    ensures { (ids : IdSize) (image : Image) → IsDumpable image → ShowsWhole ids image
        → AreRead ids image }
{
    hprof_text::numbers_fit();
}
