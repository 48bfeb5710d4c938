//! Laws of values in a line. Each is the contract of a function that does nothing.

ghost use Rattle.rld_values.specs.Laws.{ReadsBack, ReadsBackBehindKeys, ReadsHexBack};

/// Any octets that are written as a word, after a key or as hexadecimal digits are read back
/// unchanged.
pub fn read_back()
    ensures word { ReadsBack }
    ensures value { ReadsBackBehindKeys }
    ensures digits { ReadsHexBack }
{}
