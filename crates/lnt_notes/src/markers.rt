//! Addresses at which linkers leave discarded code: 0, and the two greatest of an address size.

/// Those other than 0, of 2, 4 and 8 bytes.
pub(crate) const GREATEST: [u64; 6] = [
    0xfffe,
    0xffff,
    0xffff_fffe,
    0xffff_ffff,
    0xffff_ffff_ffff_fffe,
    0xffff_ffff_ffff_ffff,
];

// Whether linkers leave discarded code at this address in a unit with addresses of `address_size` bytes.
pub(crate) fn is_marker(address: u64, address_size: u8) -> bool {
    let greatest = match address_size {
        2 => &GREATEST[..2],
        4 => &GREATEST[2..4],
        _ => &GREATEST[4..],
    };
    address == 0 || greatest.contains(&address)
}

// Whether linkers leave discarded code at this address in a unit with addresses of 2, 4 or 8 bytes.
pub(crate) fn may_be_marker(address: u64) -> bool {
    address == 0 || GREATEST.contains(&address)
}
