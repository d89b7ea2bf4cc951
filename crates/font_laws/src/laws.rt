//! What holds of every two files: theorems above the definition of `read_sfnt`.

ghost use Rattle.font_laws.specs.Laws.{BytesBehindChangeNothing};

/// Two files as long as one another that agree on the directory and on the tables of a face have one answer: the same
/// fault, or fonts that differ at most in the bytes they keep.
pub fn bytes_behind_change_nothing()
    ensures { BytesBehindChangeNothing }
{}
