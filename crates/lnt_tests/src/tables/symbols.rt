//! The table of a worked symbol file, and how its printing ends.
use crate::samples::{failing, whole};
use lnt_io::{Counted, IoStop, Status};
use lnt_symbols::print_symbols;
use std::alloc::Global;

// The function `other` has addresses of `main`, so it isn't kept. In `main` the third line record has addresses of the second, and the
// fourth reaches beyond the function. File 2 is named after its use, and the second name of file 1 doesn't count.
const FILE: &[u8] = b"MODULE Linux x86_64 0 a
FILE 1 /a b.c
FUNC 10 10 0 main
10 4 5 1
14 8 6 2
18 8 7 1
1e 8 8 1
FUNC m 1f 8 0 other
24 2 9 1
PUBLIC 30 0 end
FUNC 4 4 0 before
4 4 2 1
FILE 1 /other.c
FILE 2 c,d
";

const TABLE: &[u8] = b"low,high,path,line
0x1004,0x1008,/a b.c,2
0x1010,0x1014,/a b.c,5
0x1014,0x101c,\"c,d\",6
0x101e,0x1020,/a b.c,8
";

// Whether this is printed of a file that is loaded at 0x1000, and the printing ends so.
fn prints(alloc: Global, file: &[u8], text: &[u8], status: Status) -> bool {
    let mut out = Vec::new(alloc);
    match print_symbols(
        alloc,
        &mut Counted::new(whole(file), 1000),
        0x1000,
        &mut out,
    ) {
        Ok(ended) => ended == status && out.as_slice() == text,
        Err(_) => false,
    }
}

// Whether the printing of a file that can't be read to its end, or not within so many bytes, stops so.
fn stops(alloc: Global, limit: u64, fails: bool, stop: IoStop) -> bool {
    let reader = if fails { failing(FILE) } else { whole(FILE) };
    let mut out = Vec::new(alloc);
    match print_symbols(alloc, &mut Counted::new(reader, limit), 0x1000, &mut out) {
        Ok(_) => false,
        Err(found) => found == stop && out.is_empty(),
    }
}

#[test]
fn symbol_files_printed(rt: HostRuntime) {
    let alloc = rt.alloc();
    assert!(rt; prints(alloc, FILE, TABLE, Status::Done));
    assert!(rt;
        prints(
            alloc,
            b"MODULE \rINFO 1\r\n\nFUNC 1 1 0 f\n1 1 1\n",
            b"no 45 symbols line 5: not a record\n",
            Status::No
        )
    );
    assert!(rt;
        prints(
            alloc,
            b"MODULE a\n1 1 1 1",
            b"no 45 symbols line 2: no function\n",
            Status::No
        )
    );
    assert!(rt;
        prints(
            alloc,
            b"FILE 1 a\n",
            b"no 45 symbols line 1: not a symbol file\n",
            Status::No
        )
    );
    assert!(rt; stops(alloc, 1000, true, IoStop::Read));
    assert!(rt; stops(alloc, 100, false, IoStop::TooLong));
}
