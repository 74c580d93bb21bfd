ghost use Rattle.std.specs.Prelude.{◌≡◌, None};
ghost use Rattle.acpi_regs.specs.Geometry.{Blocks, bad_field, is_bad_length};

/// Which of the three numbers of two GPE blocks is wrong.
#[derive(Clone, Copy, Debug, PartialEq, Eq)]
pub enum GeometryField {
    /// The length of the first block.
    Gpe0,
    /// The length of the second block.
    Gpe1,
    /// The number of the first event of the second block.
    Base1,
}

/// The description of two GPE blocks is wrong.
#[derive(Clone, Copy, Debug, PartialEq, Eq)]
pub struct BadGeometry {
    /// The first of the three numbers that is wrong.
    pub field: GeometryField,
}

/// Where the status bit of a GPE is (ACPI 6.5, section 4.8.4.1).
#[derive(Clone, Copy, Debug, PartialEq, Eq)]
pub struct GpePlace {
    /// 0 for the first block, 1 for the second.
    pub block: u8,
    /// The byte of the block's status register.
    pub byte: u8,
    /// The bit of that byte, from 0 to 7.
    pub bit: u8,
}

/// The two blocks of general-purpose event registers (ACPI 6.5, section 4.8.4.1).
#[derive(Clone, Copy, Debug)]
pub struct GpeGeometry {
    gpe0_len: u16,
    gpe1_base: u16,
    gpe1_len: u16,
    ghost fits: { bad_field (record { gpe0 = gpe0_len; base1 = gpe1_base; gpe1 = gpe1_len }) ≡ None },
}

impl GpeGeometry {
    ghost use Rattle.std.specs.Prelude.{MatchResult, Some, ◌≤◌};
    ghost use Rattle.acpi_regs.specs.Geometry.{end_of, place_in};
    ghost use Rattle.acpi_regs.specs.GeometryParts.{blocks_of};

    /// The blocks of these lengths in bytes. The first event of the second is `gpe1_base`.
    ///
    /// # Errors
    /// The first number that is wrong: `Gpe0` if `gpe0_len` is odd or above 64; `Gpe1` if `gpe1_len` is; `Base1` if the
    /// second block is not empty and begins before the end of the first or ends after event 255.
    pub fn new(gpe0_len: u16, gpe1_base: u16, gpe1_len: u16) -> Result<GpeGeometry, BadGeometry>
        ensures { MatchResult result
            (λ g. (blocks_of g ≡ record { gpe0 = gpe0_len; base1 = gpe1_base; gpe1 = gpe1_len })
            × (bad_field (record { gpe0 = gpe0_len; base1 = gpe1_base; gpe1 = gpe1_len }) ≡ None))
            (λ bad. bad_field (record { gpe0 = gpe0_len; base1 = gpe1_base; gpe1 = gpe1_len }) ≡ Some bad.field) }
    {
        if is_bad_length(gpe0_len) {
            return Err(BadGeometry {
                field: GeometryField::Gpe0,
            });
        }
        if is_bad_length(gpe1_len) {
            return Err(BadGeometry {
                field: GeometryField::Gpe1,
            });
        }
        let second = u32::from(gpe1_base)..u32::from(gpe1_base) + 4 * u32::from(gpe1_len);
        if gpe1_len > 0 && (second.start < 4 * u32::from(gpe0_len) || second.end > 256) {
            return Err(BadGeometry {
                field: GeometryField::Base1,
            });
        }
        Ok(GpeGeometry {
            gpe0_len,
            gpe1_base,
            gpe1_len,
        })
    }

    /// Where the status bit of this GPE is; `None` exactly if the GPE is in no block.
    pub fn place_of(&self, event: u8) -> Option<GpePlace>
        ensures { result ≡ place_in (blocks_of self.now) event }
    {
        let number = u16::from(event);
        if number < 4 * self.gpe0_len {
            return Some(GpePlace {
                block: 0,
                byte: event / 8,
                bit: event % 8,
            });
        }
        if number < self.gpe1_base || number >= self.gpe1_base + 4 * self.gpe1_len {
            return None;
        }
        let place = event - self.gpe1_base as u8;
        Some(GpePlace {
            block: 1,
            byte: place / 8,
            bit: place % 8,
        })
    }

    /// The greatest GPE of the two blocks plus 1, or 0 if they have no GPE; at most 256.
    pub fn end(&self) -> u16
        ensures value { result ≡ end_of (blocks_of self.now) }
        ensures bound { result ≤ 256 }
    {
        if self.gpe1_len > 0 {
            self.gpe1_base + 4 * self.gpe1_len
        } else {
            4 * self.gpe0_len
        }
    }
}

/// Whether a block's length in bytes is odd or above 64.
fn is_bad_length(len: u16) -> bool
    ensures { result ≡ is_bad_length len }
{
    len % 2 == 1 || len > 64
}
