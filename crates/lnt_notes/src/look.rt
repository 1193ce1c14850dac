//! What a file looks like that isn't a raw section.
use crate::watched::Seen;
use lnt_text::Look;
use lnt_wire::{Cursor, Order};

// What the bytes look like other than a section in this byte order: another kind of file, a compressed section, text, or a
// section in the other order. `None` if they look like none of these.
pub(crate) fn look_of(seen: &Seen, order: Order) -> Option<Look> {
    let head = seen.head();
    if let Some(look) = file_look(head) {
        return Some(look);
    }
    if holds_compressed(head) {
        return Some(Look::CompressedSection);
    }
    if head.len() >= 4 && head.iter().all(|byte| is_of_text(*byte)) {
        return Some(Look::Text);
    }
    let other = match order {
        Order::Little => Order::Big,
        Order::Big => Order::Little,
    };
    if fits(seen, other) && !fits(seen, order) {
        return Some(Look::InOrder(other));
    }
    None
}

// The kind of file that begins with these bytes, if it is a known one.
pub(crate) fn file_look(head: &[u8]) -> Option<Look> {
    match head {
        [0x7f, b'E', b'L', b'F', ..] => Some(Look::Elf),
        [b'M', b'Z', ..] => Some(Look::Pe),
        [0xfe, 0xed, 0xfa, 0xce | 0xcf, ..]
        | [0xce | 0xcf, 0xfa, 0xed, 0xfe, ..]
        | [0xca, 0xfe, 0xba, 0xbe, ..] => Some(Look::MachO),
        [0x1f, 0x8b, ..] => Some(Look::Gzip),
        [0x28, 0xb5, 0x2f, 0xfd, ..] => Some(Look::Zstd),
        [b'M', b'O', b'D', b'U', b'L', b'E', b' ', ..] => Some(Look::Symbols),
        _ => is_gsym(head).then_some(Look::Symbols),
    }
}

// Whether a GSYM file begins with these bytes.
pub(crate) fn is_gsym(head: &[u8]) -> bool {
    matches!(
        head,
        [b'M', b'Y', b'S', b'G', ..] | [b'G', b'S', b'Y', b'M', ..]
    )
}

// Whether the bytes begin with the header of a compressed section: that of ELF, or that of the older `.zdebug_line`. ELF's
// begins with the kind of compression, 1 or 2, in four bytes, and has 12 bytes or 24.
fn holds_compressed(head: &[u8]) -> bool {
    match head {
        [b'Z', b'L', b'I', b'B', ..] => true,
        [1 | 2, 0, 0, 0, ..] | [0, 0, 0, 1 | 2, ..] => {
            head.get(12..).is_some_and(begins_stream) || head.get(24..).is_some_and(begins_stream)
        }
        _ => false,
    }
}

// Whether the bytes begin like a stream of zlib or zstd.
fn begins_stream(bytes: &[u8]) -> bool {
    matches!(
        bytes,
        [0x28, 0xb5, 0x2f, 0xfd, ..] | [0x78, 0x01 | 0x5e | 0x9c | 0xda, ..]
    )
}

fn is_of_text(byte: u8) -> bool {
    matches!(byte, b' '..=b'~' | b'\n' | b'\r' | b'\t')
}

// Whether the first unit, by its length in this byte order, ends within the bytes that were read.
fn fits(seen: &Seen, order: Order) -> bool {
    size_in(seen.head(), order).is_some_and(|size| size <= seen.count())
}

// The number of bytes of the first unit, its length field included, in this byte order (DWARF 5, section 7.4).
fn size_in(head: &[u8], order: Order) -> Option<u64> {
    let mut cursor = Cursor::new(head, 0, order);
    match cursor.u32().ok()? {
        0xffff_ffff => cursor.u64().ok()?.checked_add(12),
        0xffff_fff0..=0xffff_fffe => None,
        length => Some(u64::from(length) + 4),
    }
}
