//! The law of texts of reports of parts.

ghost use Rattle.std.specs.Prelude.{◌≡◌, Some};
ghost use Rattle.part_form.specs.PartText.{WrittenPart, part_text};
ghost use Rattle.part_form.specs.Stated.{part_in};
ghost use Rattle.part_form.specs.Written.{IsReadable, part_read};

/// The text of the report of a part is read as that report.
pub fn parts_read_back()
    ensures { (part : WrittenPart) → IsReadable part → part_in (part_text part) ≡ Some (part_read part) }
{}
