//! Laws of the grammar, each a function that does nothing and ensures it. Together they say that what a
//! text is read as is what it says, and nothing else is.
ghost use Rattle.text_form.specs.Laws.{TextsAreRead, FieldsAreRead, BadLinesAreFound, ItemsTellTheFields};

pub fn texts_are_read()
    ensures { TextsAreRead }
{}

pub fn fields_are_read()
    ensures { FieldsAreRead }
{}

pub fn bad_lines_are_found()
    ensures { BadLinesAreFound }
{}

pub fn items_tell_the_fields()
    ensures { ItemsTellTheFields }
{}
