//! Laws of numbers as text, each the contract of a function without parameters that does nothing.
ghost use Rattle.lnt_text.specs.Laws.{OneAddress, OneDecimal};

/// A number has one text without leading zeros and with letters in lower case only, so what is written of it is determined.
pub fn one_text()
    ensures decimal { OneDecimal }
    ensures address { OneAddress }
{}
