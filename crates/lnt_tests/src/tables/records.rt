//! Tables compared and written.
ghost use Rattle.std.specs.List.{All};
ghost use Rattle.lnt_spans.specs.declared.answer.Version.TheVariants as version;
ghost use Rattle.lnt_spans.specs.Spans.{AreInOrder};
ghost use Rattle.lnt_records.specs.Written.{IsOfVersion};

use crate::samples::{Narrow, TABLE};
use crate::tables::worked::{narrow, plain_spans, wide};
use lnt_compare::{TableRead, compare_records};
use lnt_records::{WriteStop, write_spans};
use lnt_spans::{Scope, Span, SpanSlice, Version};
use std::alloc::Global;

// Whether the table answers as the spans do at every position.
fn agrees(alloc: Global, table: &[u8]) -> bool {
    let spans = plain_spans(wide(3, 7), wide(4, 0));
    match compare_records(alloc, table, SpanSlice::of(&spans), Scope::All) {
        Ok(TableRead::Table(judged)) => judged.is_ok(),
        _ => false,
    }
}

const QUOTED: &[u8] = b"low,low_op,high,high_op,unit,file,line,column,is_stmt
\"0x1000\",\"0\",0x1004,0,0,1,\"3\",0,\"1\"
0x1004,0,0x1006,0,0,1,4,0,1
";

#[test]
fn tables_compared(rt: HostRuntime) {
    assert!(rt; agrees(rt.alloc(), TABLE));
    assert!(rt; agrees(rt.alloc(), QUOTED));
    assert!(rt; !agrees(rt.alloc(), &TABLE[..82]));
}

// Spans as version 1 contains them.
fn narrow_plain() -> [Span; 2]
    ensures order { AreInOrder result }
    ensures version { All (λ span. IsOfVersion version.One span.answer) result }
{
    plain_spans(narrow(3), narrow(4))
}

#[test]
fn tables_written(rt: HostRuntime) {
    let mut out = Vec::new(rt.alloc());
    let spans = narrow_plain();
    assert!(rt; write_spans(rt.alloc(), &spans, Version::One, &mut out) == Ok(()));
    assert!(rt; out.as_slice() == TABLE);
}

// Whether a writer that takes pieces of this size, and fails after some of them, stops the table.
fn is_refused(alloc: Global, piece: usize, sound: usize) -> bool {
    let mut out = Narrow::new(alloc, piece, sound);
    write_spans(alloc, &narrow_plain(), Version::One, &mut out) == Err(WriteStop::Write)
}

#[test]
fn writers_at_fault(rt: HostRuntime) {
    assert!(rt; is_refused(rt.alloc(), 1, 0));
    assert!(rt; is_refused(rt.alloc(), 1, TABLE.len() - 1));
    assert!(rt; !is_refused(rt.alloc(), 1, TABLE.len()));
    assert!(rt; is_refused(rt.alloc(), 10, 0));
    assert!(rt; is_refused(rt.alloc(), 10, 10));
    assert!(rt; !is_refused(rt.alloc(), 10, 11));
}
