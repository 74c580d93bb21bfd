//! The table itself (ACPI 6.5, section 5.2.10).
ghost use Rattle.std.specs.Prelude.{◌≡◌, Ok};
ghost use Rattle.facs_word.specs.Table.{fresh_table, lock_of, reads};

use std::marker::Model;
use thiserror::Error;

/// Why bytes are not a FACS. It is displayed as the name of its variant.
#[derive(Clone, Copy, Debug, PartialEq, Eq, Error)]
pub enum FacsFault {
    /// There are fewer than 64 bytes.
    #[error("Short")]
    Short,
    /// The first four bytes are not `FACS`.
    #[error("BadSignature")]
    BadSignature,
    /// The length in the table, the 32 bits at byte 4, is below 64.
    #[error("BadLength")]
    BadLength,
}

/// A FACS, by its first 64 bytes (ACPI 6.5, section 5.2.10).
#[derive(Debug, Drop)]
pub struct Facs {
    bytes: [u8; 64],
}

impl Model for Facs {
    ghost use Rattle.std.specs.Prelude.{◌≡◌, List, ℕ, Ok};
    ghost use Rattle.facs_word.specs.Table.{reads};

    ghost Value = { List ℕ };

    ghost view = { λ s. s.bytes };

    ghost invariant = { λ s. reads s.bytes ≡ Ok s.bytes };
}

impl Facs {
    /// A table of length 64 whose lock is free. All other bytes are zero.
    pub fn fresh() -> Facs
        ensures { result ≡ fresh_table }
    {
        let mut bytes = [0; 64];
        bytes[0] = b'F';
        bytes[1] = b'A';
        bytes[2] = b'C';
        bytes[3] = b'S';
        bytes[4] = 64;
        Facs { bytes }
    }

    /// Reads a table from the first 64 of `bytes`. The others are ignored.
    ///
    /// # Errors
    /// The first of these that holds: `Short` if there are fewer than 64 bytes, `BadSignature` if the first four are
    /// not `FACS`, `BadLength` if the length at byte 4 is below 64.
    pub fn read(bytes: &[u8]) -> Result<Facs, FacsFault>
        ensures { result ≡ reads bytes.now }
    {
        if bytes.len() < 64 {
            return Err(FacsFault::Short);
        }
        // The slice has 64 bytes, so it is always an array of them.
        let Ok(table) = <&[u8; 64]>::try_from(&bytes[..64]) else {
            return Err(FacsFault::Short);
        };
        if !(table[0] == b'F' && table[1] == b'A' && table[2] == b'C' && table[3] == b'S') {
            return Err(FacsFault::BadSignature);
        }
        if u32::from_le_bytes([table[4], table[5], table[6], table[7]]) < 64 {
            return Err(FacsFault::BadLength);
        }
        Ok(Facs { bytes: *table })
    }

    /// The 64 bytes of the table, as they were read.
    pub fn write(&self) -> [u8; 64]
        ensures { result ≡ self.now }
    {
        self.bytes
    }

    /// The word of the Global Lock: the 32 bits at byte 16, the lowest byte first.
    pub fn lock(&self) -> u32
        ensures { result ≡ lock_of self.now }
    {
        u32::from_le_bytes([
            self.bytes[16],
            self.bytes[17],
            self.bytes[18],
            self.bytes[19],
        ])
    }

    /// A table that is written reads as that table. The call costs nothing: callers use its contract in their proofs.
    pub fn law_reads_back(&self)
        ensures { reads self.now ≡ Ok self.now }
    {
        let _bytes = &self.bytes;
    }
}
