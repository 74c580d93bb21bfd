//! Laws of an entry's word.
ghost use Rattle.std.specs.Prelude.{◌≡◌, Some};
ghost use Rattle.acpi_regs.specs.Packing.{IsPackable, PacksApart, packing};
ghost use Rattle.acpi_regs.specs.Unpacking.{entry_at};
ghost use Rattle.acpi_regs.specs.declared.entry.Entry.{Entry};

/// Two entries in range with the same word are the same entry, and the word of an entry in range is read as that entry.
pub fn law_packing()
    ensures apart { PacksApart }
    ensures reads_back { (e : Entry) → IsPackable e → entry_at (packing e) ≡ Some e }
{}
