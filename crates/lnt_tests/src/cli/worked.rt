//! What is printed of a unit.

// What `dump --ops --rows` prints of `PLAIN`.
pub(crate) const DUMP: &[u8] = b"unit 0x0 32 67
header 8 1 1 1 -5 14 13
dir 0 1=\"/s\"
file 0 1=\"a.c\" 2=0
file 1 1=\"a.c\" 2=0
op 0 set_address 0x1000
op 1 special 20
op 2 special 75
op 3 advance_pc 2
op 4 end_sequence
row 0 0x1000 0 1 3 0 1 - 0 0
row 1 0x1004 0 1 4 0 1 - 0 0
row 2 0x1006 0 1 4 0 1 e 0 0
";
