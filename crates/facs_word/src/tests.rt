//! Values of ACPI 6.5, section 5.2.10: the word of the Global Lock, and tables that are read and written.
use crate::laws::law_same_fault;
use crate::{Facs, FacsFault, acquire_of, owned, pending, release_of};
use std::test::Fail;

// A FACS of length 64 in which byte k past the length is k, but for the lock, which is `lock`.
fn table(lock: u8) -> [u8; 64] {
    let mut bytes = [0; 64];
    for (k, byte) in bytes.iter_mut().enumerate() {
        *byte = k as u8;
    }
    bytes[0] = 0x46;
    bytes[1] = 0x41;
    bytes[2] = 0x43;
    bytes[3] = 0x53;
    bytes[4] = 0x40;
    bytes[5] = 0;
    bytes[6] = 0;
    bytes[7] = 0;
    bytes[16] = lock;
    bytes[17] = 0;
    bytes[18] = 0;
    bytes[19] = 0;
    bytes
}

#[test]
fn a_word_is_acquired_and_released(rt: HostRuntime) {
    // The word; what acquiring and releasing leave; whether it is owned, and pending.
    let words = [
        (0, 2, 0, false, false),
        (1, 2, 0, false, true),
        (2, 3, 0, true, false),
        (3, 3, 0, true, true),
    ];
    for (word, acquired, released, is_owned, is_pending) in words {
        assert_eq!(rt; acquire_of(word), acquired, "acquire {word}");
        assert_eq!(rt; release_of(word), released, "release {word}");
        assert_eq!(rt; owned(word), is_owned, "owned {word}");
        assert_eq!(rt; pending(word), is_pending, "pending {word}");
    }
}

#[test]
fn reserved_bits_of_the_lock_stay(rt: HostRuntime) {
    let reserved = [
        0,
        4,
        8,
        0x100,
        0x1234_5678,
        0x7FFF_FFFC,
        0x8000_0000,
        0xFFFF_FFFC,
    ];
    for high in reserved {
        for low in [0, 1, 2, 3] {
            let word: u32 = high | low;
            // ACPI 6.5, section 5.2.10.1.
            let acquired = (word & !1) | 2 | ((word >> 1) & 1);
            assert_eq!(rt; acquire_of(word), acquired, "acquire {word}");
            assert_eq!(rt; release_of(word), word & !3, "release {word}");
            assert_eq!(rt; owned(word), word & 2 == 2, "owned {word}");
            assert_eq!(rt; pending(word), word & 1 == 1, "pending {word}");
        }
    }
}

#[test]
fn bytes_that_are_no_table_are_refused(rt: HostRuntime) {
    // The place of a byte, what it is made, and the fault.
    let refused = [
        (0, 0x47, FacsFault::BadSignature),
        (1, 0x61, FacsFault::BadSignature),
        (2, 0, FacsFault::BadSignature),
        (3, 0x50, FacsFault::BadSignature),
        (4, 0x3F, FacsFault::BadLength),
    ];
    for (place, byte, fault) in refused {
        let mut bytes = table(0);
        bytes[place] = byte;
        assert_eq!(rt; Facs::read(&bytes).err(), Some(fault), "byte {place}");
    }
    let short = [0x46; 63];
    assert_eq!(rt; Facs::read(&short).err(), Some(FacsFault::Short));
    assert_eq!(rt; Facs::read(&[]).err(), Some(FacsFault::Short));
}

#[test]
fn a_table_is_written_as_it_was_read(rt: HostRuntime) -> Result<(), Fail> {
    for lock in [0u8, 1, 2, 3] {
        let bytes = table(lock);
        let facs = Facs::read(&bytes)?;
        assert_eq!(rt; facs.lock(), lock as u32);
        assert_eq!(rt; facs.write(), bytes);
        assert_eq!(rt; Facs::read(&facs.write())?.write(), bytes);
    }
    // The length and the lock have four bytes each, the lowest first.
    let mut wide = table(0x78);
    wide[4] = 0;
    wide[7] = 1;
    wide[17] = 0x56;
    wide[18] = 0x34;
    wide[19] = 0x12;
    assert_eq!(rt; Facs::read(&wide)?.lock(), 0x1234_5678);
    Ok(())
}

#[test]
fn a_fresh_table_has_a_free_lock(rt: HostRuntime) -> Result<(), Fail> {
    let mut bytes = [0; 64];
    bytes[0] = 0x46;
    bytes[1] = 0x41;
    bytes[2] = 0x43;
    bytes[3] = 0x53;
    bytes[4] = 0x40;
    let facs = Facs::fresh();
    facs.law_reads_back();
    assert_eq!(rt; facs.write(), bytes);
    assert_eq!(rt; facs.lock(), 0);
    let read = Facs::read(&bytes)?;
    assert_eq!(rt; read.lock(), 0);
    assert_eq!(rt; read.write(), bytes);
    Ok(())
}

#[test]
fn faults_have_names(rt: HostRuntime) -> Result<(), Fail> {
    let alloc = rt.alloc();
    let names = [
        (FacsFault::Short, "Short"),
        (FacsFault::BadSignature, "BadSignature"),
        (FacsFault::BadLength, "BadLength"),
    ];
    for (fault, name) in names {
        assert_eq!(rt; fault.to_string(alloc)?.as_str(), name);
        for (other, other_name) in names {
            assert_eq!(rt; law_same_fault(fault, other), name == other_name);
        }
    }
    Ok(())
}
