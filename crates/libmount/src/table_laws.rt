//! What a printed table of mounts is read back as.
ghost use Rattle.std.specs.Prelude.{◌≡◌, ◌^◌, ◌<◌, ℕ, List, Ok, bit_and};
ghost use Rattle.std.specs.List.{AllZip};
ghost use Rattle.libmount.specs.Items.{items};
ghost use Rattle.libmount.specs.Lookup.{flags_in};
ghost use Rattle.libmount.specs.MountOptions.{option_names, shown_flags};
ghost use Rattle.libmount.specs.Mounters.{IsGoodRow, IsGoodTable};
ghost use Rattle.libmount.specs.MountTables.{Mount, MountTable, print_row, print_table};
ghost use Rattle.libmount.specs.Options.{flags_of};
ghost use Rattle.libmount.specs.ReadBack.{IsItemOf, IsReadBack, flags_of_last};
ghost use Rattle.libmount.specs.Rows.{row};

/// The options that a row shows name its flags, where these are among those that are shown.
#[tactic(auto, using(crate::proofs::PrintedFlags::flags_of_options))]
pub fn printed_options_name_the_flags()
    ensures { (flags : ℕ) → bit_and flags shown_flags ≡ flags
        → flags_of (option_names flags) ≡ flags }
{}

/// A printed row is read back as the mount that was printed, with all its fields and its flags,
/// wherever it lies. A printed table is read back row for row, in order, and as no other rows.
pub fn printed_tables_are_read_back()
    ensures row { (table : MountTable) (mount : Mount) (place : ℕ) → table.next_id < 2 ^ 64
        → table.next_minor < 2 ^ 64 → IsGoodRow table mount
        → IsReadBack mount (row (place, print_row mount)) }
    ensures table { (table : MountTable) (place : ℕ) → IsGoodTable table
        → AllZip IsItemOf table.rows (items (place, print_table table)) }
{}

/// The flags that a printed table gives a path are those of the last mount there; no line of it is
/// refused.
#[tactic(auto, using(crate::proofs::PrintedLookups::last_flags))]
pub fn printed_flags_are_found()
    ensures { (table : MountTable) (path : List ℕ) → IsGoodTable table
        → flags_in path (print_table table) ≡ Ok (flags_of_last path table.rows) }
{}
