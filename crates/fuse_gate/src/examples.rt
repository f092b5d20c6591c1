//! What a gate and a server stand for, computed: nodes 1 and 2 name the top directory and the file
//! `hello` in it, and handle 3 is that file, open to be read.
ghost use Rattle.std.specs.Prelude.{◌≡◌, ◌+◌, false, [], ◌∷◌, Some, None, Ok, Err, codes};
ghost use Rattle.std.specs.FinMap.{get, insert};
ghost use Rattle.std.specs.Global.{Global};
ghost use Rattle.port_base.specs.declared.errno.TheConstants.{ENFILE};
ghost use Rattle.tree_model.specs.declared.attributes.Kind.TheVariants as kind;
ghost use Rattle.tree_model.specs.declared.attributes.Attr.{Attr};
ghost use Rattle.tree_model.specs.Samples.{born};
ghost use Rattle.tree_machine.specs.Replies.{fuse_attributes};
ghost use Rattle.fid_model.specs.Answers.{attributes_of};
ghost use Rattle.fid_model.specs.Fids.{closed};
ghost use Rattle.fid_model.specs.Fids.OpenState.{Opened};
ghost use Rattle.fid_model.specs.Samples.{server, with_open};
ghost use Rattle.fuse_gate.specs.Attaching.{root_told, refusal};
ghost use Rattle.fuse_gate.specs.Changes.{counted_up, entering_rest};
ghost use Rattle.fuse_gate.specs.Files.{file_at};
ghost use Rattle.fuse_gate.specs.Mapped.{entries_mapped};
ghost use Rattle.fuse_gate.specs.Replies.{file_attributes};
ghost use Rattle.fuse_gate.specs.Samples.{gate};
ghost use Rattle.fuse_gate.specs.Standing.{machine_of, piece_of, fid_at};

/// The root that a session begins at; where there may be no fid, that is told first.
#[tactic(auto, using(crate::proofs::Sampling::root_found))]
fn attaching()
    ensures found { root_told server ≡ Ok 1 }
    ensures no_fid { root_told (record server { settings = record server.settings { limit = 0 } })
        ≡ Err ENFILE }
    ensures told { refusal 1 5 ≡ 5 }
    ensures no_fid_first { refusal 0 5 ≡ ENFILE }
{}

/// Nodes and handles of the machine, the fids that stand for them, and a node that is looked up
/// once more.
fn standing()
    ensures node { (a : Global) →
        get (machine_of (gate a) with_open).nodes 2 ≡ Some (record { ino = 2; count = 4 }) }
    ensures handle { (a : Global) → get (machine_of (gate a) with_open).handles 3
        ≡ Some (record { ino = 2; access = 0; append = false }) }
    ensures mapped { entries_mapped (λ n. n + 1) ((1, 5) ∷ (2, 7) ∷ []) ≡ (1, 6) ∷ (2, 8) ∷ [] }
    ensures fid_of_node { fid_at (Some (record { ino = 2; count = 4; kind = 0 })) None
        ≡ Some (closed 2) }
    ensures fid_of_handle { fid_at None
        (Some (record { ino = 2; access = 0; append = false; kind = 0 }))
        ≡ Some (record { ino = 2; open_state = Opened 0 false }) }
    ensures counted { (a : Global) → counted_up (gate a) 2 ≡ record (gate a) {
      nodes = insert (gate a).nodes 2 (record { ino = 2; count = 5; kind = 0 });
    } }
    ensures not_there { (a : Global) → counted_up (gate a) 3 ≡ gate a }
    ensures new_node { entering_rest None ≡ 1 }
{}

/// The bytes of a file that one message brings, by the greatest size of a message, and the file
/// that a fid names.
#[tactic(auto, using(crate::proofs::Sampling::bytes_of_file, crate::proofs::Sampling::bytes_of_none))]
fn reading()
    ensures small { piece_of (record server { msize = 4352 }) ≡ 4341 }
    ensures large { piece_of (record server { msize = 131072 }) ≡ 65549 }
    ensures file { file_at with_open 8 ≡ codes "world" }
    ensures no_fid { file_at server 9 ≡ [] }
{}

/// Attributes come through 9P as the machine shows them.
#[tactic(auto, using(crate::proofs::Sampling::attributes_kept))]
fn attributes()
    ensures { let a : Attr = record {
      ino = 2;
      kind = kind.File;
      mode = 420;
      uid = 5;
      gid = 6;
      links = 1;
      size = 5;
      atime = born;
      mtime = born;
      ctime = born;
    } in file_attributes (attributes_of a) ≡ fuse_attributes a }
{}
