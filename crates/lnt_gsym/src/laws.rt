//! Worked examples: the contract of a function that takes nothing and does nothing.
ghost use Rattle.lnt_gsym.specs.Examples.{ExampleAnswers, ExampleRefused};

/// What a small file answers, and why others aren't GSYM files.
pub fn example()
    ensures answers { ExampleAnswers }
    ensures refused { ExampleRefused }
{}
