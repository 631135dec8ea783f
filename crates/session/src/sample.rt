// The store of the session: a short answer, a split one and one whose last sub message is empty.
use octets::Part;
use octets::wire::ANSWER;

// An answer of `len` bytes, 76 and TREP included.
fn put(store: &mut [u8], trep: u8, day: u32, len: usize) {
    let bytes: [u8; 1024] = std::array::from_fn(|i| match i {
        0 => ANSWER,
        1 => trep,
        _ => (i % 256) as u8,
    });
    let answer = Part { start: 0, len }.of(&bytes);
    let _ = append::append(store, answer, day); // what the tool holds in the end is compared with the store
}

pub(crate) fn fill(store: &mut [u8]) {
    put(store, 0x00, 0, 4);
    put(store, 0x31, 0, 902);
    put(store, 0x32, 86400, 504);
}
