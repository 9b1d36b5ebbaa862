//! What the dump of an image tells.
ghost use Rattle.std.specs.Prelude.{ℕ, ◌<◌, ◌^◌};
ghost use Rattle.heap_class.specs.declared.IdSize.{IdSize};
ghost use Rattle.heap_world.specs.State.{HeapState};
ghost use Rattle.hprof_text.specs.Image.{Image};
ghost use Rattle.hprof_reader.specs.Fields.{own_field_text, FitsOwnField, own_field_parts};
ghost use Rattle.hprof_reader.specs.Headers.{header_text, header_parts};
ghost use Rattle.hprof_reader.specs.Reading.{record_parts};
ghost use Rattle.hprof_reader.specs.Records.{record_text, FitsRecord};
ghost use Rattle.hprof_reader.specs.SubParts.{sub_parts};
ghost use Rattle.hprof_reader.specs.SubRecords.{sub_text, FitsSub};
ghost use Rattle.hprof_image.specs.Laws.{IsTold, IsLegalTold, AreShownAlike, ReadsTexts};

/// States that the dump of an image, read, tells the image: the size of identifiers and the time; each class with its name, its
/// super and its own fields; each object with its id, its kind and its words; and each register that isn't null; all in order.
/// A dump tells neither which classes are array classes nor which registers are null.
pub fn dumps_tell_images()
    ensures { (ids : IdSize) (image : Image) (time : ℕ) → IsTold ids image time }
{
    hprof_text::numbers_fit();
    hprof_text::segments_are_cut();
    hprof_reader::sub_records_are_read();
}

/// States that the dump of a legal heap, read, tells the heap's image in the same way. The pieces that a machine's pins give are
/// those of such dumps.
pub fn legal_dumps_tell_images()
    ensures { (ids : IdSize) (w : HeapState) (time : ℕ) → IsLegalTold ids w time }
{
    heap_trail::dump_is_whole();
    dumps_tell_images();
}

/// States that two images have the same dump exactly if they have the same classes, but for which are array classes, the same
/// objects, and the same registers that aren't null, and are dumped with the same size of identifiers at the same time. So a
/// dump tells all this, and no more.
pub fn equal_dumps_show_alike()
    ensures { (ids other : IdSize) (a b : Image) (s t : ℕ) → AreShownAlike ids other a b s t }
{
    dumps_tell_images();
}

/// States what is read at the front of bytes by the definitions of which the image of a dump is made: a header, a record, a
/// sub-record or an own field, by the words in which hprof_reader's functions promise it.
pub fn parts_are_exact()
    ensures headers { ReadsTexts header_text (λ h. h.time < 2 ^ 64) header_parts }
    ensures records { ReadsTexts record_text FitsRecord record_parts }
    ensures sub_records { (ids : IdSize) → ReadsTexts (sub_text ids) (FitsSub ids) (sub_parts ids) }
    ensures fields { (ids : IdSize)
        → ReadsTexts (own_field_text ids) (FitsOwnField ids) (own_field_parts ids) }
{}
