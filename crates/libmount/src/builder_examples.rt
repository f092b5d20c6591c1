//! The texts of builders at examples. Each function makes no call: its contract is the example.
ghost use Rattle.std.specs.Prelude.{◌≡◌, ◌∷◌, [], codes, true, false, None, Some};
ghost use Rattle.std.specs.List.{fold};
ghost use Rattle.libmount.specs.Builders.{apply_to_flags, with_flag};
ghost use Rattle.libmount.specs.BuilderTexts.{bind_text, flag_names, overlay_options};
ghost use Rattle.libmount.specs.BuilderTexts.{overlay_text, relocation_text, remount_text};
ghost use Rattle.libmount.specs.BuilderTexts.{tmpfs_options, tmpfs_text};
ghost use Rattle.libmount.specs.WorkedBuilders.{all_flags, in_memory, no_flags, read_only};
ghost use Rattle.libmount.specs.WorkedBuilders.{two_layers, writable};

/// What builders print.
#[tactic(auto, using(crate::proofs::ComputedTexts::bind_printed, crate::proofs::ComputedTexts::relocation_printed, crate::proofs::ComputedTexts::tmpfs_printed, crate::proofs::ComputedTexts::tmpfs_printed_bare, crate::proofs::ComputedTexts::overlay_printed, crate::proofs::ComputedTexts::remount_printed, crate::proofs::ComputedTexts::remount_printed_bare))]
pub fn texts_of_builders()
    ensures bind { bind_text
        (record { source = codes "/a"; target = codes "/b"; recursive = true; readonly = true })
        ≡ codes "recursive bind mount \"/a\" -> \"/b\"" }
    ensures relocation { relocation_text (record { source = codes "/a"; target = codes "/b" })
        ≡ codes "move \"/a\" -> \"/b\"" }
    ensures tmpfs { tmpfs_text in_memory
        ≡ codes "tmpfs size=1048576,nr_inodes=1024,mode=01777,uid=1000,gid=1000 -> \"/tmp\"" }
    ensures bare_tmpfs { tmpfs_text
        (record {
          target = codes "/tmp";
          size = None;
          nr_inodes = None;
          mode = None;
          uid =
              None;
          gid = None;
        }) ≡ codes "tmpfs  -> \"/tmp\"" }
    ensures overlay { overlay_text writable
        ≡ codes "overlayfs \"/l\",upperdir=\"/w/u\",workdir=\"/w\" -> \"/t\"" }
    ensures remount { remount_text read_only ≡ codes "ro,nodev remount \"/\"" }
    ensures bare_remount { remount_text (no_flags (codes "/")) ≡ codes "remount \"/\"" }
{}

/// The options of an overlay, in whose paths backslashes, colons and commas have a backslash
/// before them.
#[tactic(auto, using(crate::proofs::ComputedTexts::overlay_escaped, crate::proofs::ComputedTexts::overlay_writable))]
pub fn options_of_overlays()
    ensures escaped { overlay_options two_layers ≡ codes "lowerdir=/a\\:b:/c\\,d\\\\" }
    ensures writable { overlay_options writable ≡ codes "lowerdir=/l,upperdir=/w/u,workdir=/w" }
{}

/// All twelve flags set, all cleared, and none named.
#[tactic(auto, using(crate::proofs::ComputedTexts::all_set, crate::proofs::ComputedTexts::all_cleared, crate::proofs::ComputedTexts::none_named))]
pub fn changes_of_flags()
    ensures set { apply_to_flags (all_flags true) 0 ≡ 18881759 }
    ensures cleared { apply_to_flags (all_flags false) 18881759 ≡ 0 }
    ensures kept { apply_to_flags (no_flags []) 18881759 ≡ 18881759 }
{}
