//! What holds of the definitions, said by functions that do nothing.
ghost use Rattle.fluid_texts.specs.Laws.{TextsArePrinted, TextsAreRead, TextsAreWritable};

/// The keys and texts of a value that is read from a text in UTF-8 are UTF-8.
pub fn texts_are_read()
    ensures { TextsAreRead }
{}

/// What is printed of a value whose keys and texts are UTF-8 and whose numbers have 64 bits, as they have in every value as it is
/// kept, is UTF-8.
pub fn texts_are_printed()
    ensures printed { TextsArePrinted }
    ensures kept { TextsAreWritable }
{}
