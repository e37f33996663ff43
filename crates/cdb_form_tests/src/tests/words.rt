// Hashes and words worked out by hand.
use cdb_form::{
    Header, Narrow, Pointer, Slot, Wide, hash, hash_more, read_head, read_header, read_pointer,
    read_slot, write_head, write_header, write_pointer, write_slot,
};
use std::prelude::*;

#[test]
fn hashes(rt: HostRuntime) {
    let cases: [(&[u8], u32); 6] = [
        (b"", 5381),
        (b"a", 177604),
        (b"one", 193420161),
        (b"two", 193421353),
        (b"bc", 5861060),
        (b"cB", 5861060),
    ];
    for (key, want) in cases {
        assert!(rt; hash(key) == want, "{key:?}");
    }
}

#[test]
fn a_hash_goes_on(rt: HostRuntime) {
    assert!(rt; hash_more(hash(b""), b"one") == 193420161);
    assert!(rt; hash_more(hash(b"tw"), b"o") == 193421353);
    assert!(rt; hash_more(hash_more(hash(b"c"), b""), b"B") == 5861060);
}

#[test]
fn narrow_words(rt: HostRuntime) {
    let mut bytes = [0u8; 8];
    write_header::<Narrow>(Header { klen: 3, vlen: 5 }, &mut bytes);
    assert!(rt; bytes == [3, 0, 0, 0, 5, 0, 0, 0]);
    assert!(rt; read_header::<Narrow>(&bytes) == Header { klen: 3, vlen: 5 });
    let slot = Slot {
        hash: 193420161,
        place: 2048,
    };
    write_slot::<Narrow>(slot, &mut bytes);
    assert!(rt; bytes == [0x81, 0x5b, 0x87, 0x0b, 0, 8, 0, 0]);
    assert!(rt; read_slot::<Narrow>(&bytes) == slot);
}

#[test]
fn wide_words(rt: HostRuntime) {
    let mut bytes = [0u8; 16];
    let pointer = Pointer {
        place: 1 << 40,
        slots: 2,
    };
    write_pointer::<Wide>(pointer, &mut bytes);
    assert!(rt; bytes == [0, 0, 0, 0, 0, 1, 0, 0, 2, 0, 0, 0, 0, 0, 0, 0]);
    assert!(rt; read_pointer::<Wide>(&bytes) == pointer);
}

#[test]
fn a_head_is_read_back(rt: HostRuntime) {
    let mut bytes = [0u8; 2048];
    for (n, byte) in bytes.iter_mut().enumerate() {
        *byte = (n % 251) as u8;
    }
    let head = read_head::<Narrow>(&bytes);
    assert!(rt; head.pointers[1].place == 0x0b0a0908);
    assert!(rt; head.pointers[255].slots == 0x27262524);
    let mut again = [0u8; 2048];
    write_head::<Narrow>(&head, &mut again);
    assert!(rt; again == bytes);
}
