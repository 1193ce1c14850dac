//! Positions, and answers at them.
ghost use Rattle.std.specs.Prelude.{◌≡◌, ◌∷◌, []};
ghost use Rattle.lnt_spans.specs.Spans.{AreInOrder};
ghost use Rattle.lnt_spans.specs.declared.answer.Version.TheVariants as version;
ghost use Rattle.lnt_records.specs.Written.{IsOfVersion};

use lnt_spans::{Answer, More, Position, Span};

pub(crate) fn at(address: u64) -> Position
    ensures { result ≡ record { address = address; op = 0 } }
{
    Position { address, op: 0 }
}

// The answer of unit 0, file 1, column 0, at the beginning of a statement.
fn answer(line: u64, more: Option<More>) -> Answer
    ensures { result.more ≡ more }
{
    Answer {
        unit: 0,
        file: 1,
        line,
        column: 0,
        is_stmt: true,
        more,
    }
}

// The same as version 1 of a table contains it.
pub(crate) fn narrow(line: u64) -> Answer
    ensures { IsOfVersion version.One result }
{
    answer(line, None)
}

// The same with a discriminator.
pub(crate) fn wide(line: u64, discriminator: u64) -> Answer
    ensures { IsOfVersion version.Two result }
{
    let more = More {
        isa: 0,
        discriminator,
    };
    answer(line, Some(more))
}

// The positions from one address up to another.
pub(crate) fn span(low: u64, high: u64, answer: Answer) -> Span
    ensures { result ≡ record {
      low = record { address = low; op = 0 };
      high = record { address = high; op = 0 };
      answer = answer;
    } }
{
    Span {
        low: at(low),
        high: at(high),
        answer,
    }
}

// The spans of `PLAIN`, with these answers.
pub(crate) fn plain_spans(first: Answer, second: Answer) -> [Span; 2]
    ensures order { AreInOrder result }
    ensures spans { result ≡ record {
      low = record { address = 0x1000; op = 0 };
      high = record { address = 0x1004; op = 0 };
      answer = first;
    }
        ∷ record { low = record { address = 0x1004; op = 0 }; high = record { address = 0x1006; op = 0 }; answer = second } ∷ [] }
{
    [span(0x1000, 0x1004, first), span(0x1004, 0x1006, second)]
}
