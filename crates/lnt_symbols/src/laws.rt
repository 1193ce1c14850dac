//! A law of symbol files, and worked examples. Each is the contract of a function that takes nothing and does nothing.
ghost use Rattle.lnt_symbols.specs.Laws.{OneTable};
ghost use Rattle.lnt_symbols.specs.Examples.{ExampleAnswers, ExampleRefused};

/// What a small file answers, and why another isn't one.
pub fn example()
    ensures answers { ExampleAnswers }
    ensures refused { ExampleRefused }
{}

/// Two files that answer alike at each address have the same table.
pub fn one_table()
    ensures { OneTable }
{}
