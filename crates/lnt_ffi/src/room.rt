//! Bytes put where the caller has room.
ghost use Rattle.std.specs.Prelude.{◌≡◌, length};
ghost use Rattle.lnt_ffi.specs.Returns.{with_prefix};

// Writes the bytes to the beginning of the room if there is room for all of them, and returns how many they are. It writes nothing
// else there.
#[tactic(auto, using(crate::proofs::RoomLemmas::fitting))]
pub(crate) fn put_bytes(bytes: &[u8], room: &mut [u8]) -> usize
    ensures count { result ≡ length bytes.now }
    ensures length { length room.new ≡ length room.old }
    ensures there { room.new ≡ with_prefix bytes.now room.old }
{
    let count = bytes.len();
    if count <= room.len() {
        room[..count].copy_from_slice(bytes);
    }
    count
}
