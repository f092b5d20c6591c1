//! What a server refuses, computed: roots and message sizes, new fids, walks and fids that aren't
//! open. On the small server fid 7 names the top directory; with the open file, fid 8 names
//! `hello`, and there is room for no third.
ghost use Rattle.std.specs.Prelude.{◌≡◌, [], true, false, Ok, Err, Some, None, codes, negsuc};
ghost use Rattle.port_base.specs.declared.errno.TheConstants.{EBADF, EINVAL, EIO, ENFILE, ENOENT};
ghost use Rattle.tree_model.specs.declared.attributes.HostError.TheVariants as host;
ghost use Rattle.p9_wire.specs.declared.error.WireError.TheVariants as wire;
ghost use Rattle.p9_rmsg.specs.Replies.Reply.{lerror};
ghost use Rattle.fid_model.specs.Fids.{closed};
ghost use Rattle.fid_model.specs.Fids.OpenState.{Opened};
ghost use Rattle.fid_model.specs.Samples.{server, with_open};
ghost use Rattle.serde_json.specs.Data.{null, number, unsigned, negative, string, object, member};
ghost use Rattle.serde_json.specs.Data.{no_members};
ghost use Rattle.p9_server.specs.Answering.{reply_told};
ghost use Rattle.p9_server.specs.Configs.{config_refused, standard};
ghost use Rattle.p9_server.specs.ConfigJsons.{config_of, id_of};
ghost use Rattle.p9_server.specs.ConfigSamples.{sample};
ghost use Rattle.p9_server.specs.declared.config_json.ConfigJsonError.TheVariants.{NotObject, Key};
ghost use Rattle.p9_server.specs.declared.config_json.ConfigJsonError.TheVariants.{UnknownKey};
ghost use Rattle.p9_server.specs.ConfigTexts.{casefold_of};
ghost use Rattle.p9_server.specs.declared.config_text.ConfigTextError.TheVariants.{NotKindValue};
ghost use Rattle.p9_server.specs.declared.config_text.ConfigTextError.TheVariants.{UnknownKind};
ghost use Rattle.p9_server.specs.declared.config_text.ConfigTextError.TheVariants.{NotBoolean};
ghost use Rattle.p9_server.specs.Steps.{attach_refused, walk_start, ino_told, readable_told};
ghost use Rattle.p9_server.specs.declared.config.ConfigError.TheVariants.{MsizeTooSmall, BadRoot};

/// The message size is looked at first, then the root: `/`, or names joined by single slashes.
#[tactic(auto, using(crate::proofs::Sampling::good_root, crate::proofs::Sampling::last_slash))]
pub fn setting_up()
    ensures named { config_refused 256 (codes "/hello") ≡ None }
    ensures double { config_refused 256 (codes "//hello") ≡ Some BadRoot }
    ensures last { config_refused 256 (codes "/hello/") ≡ Some BadRoot }
    ensures small { config_refused 255 (codes "hello") ≡ Some MsizeTooSmall }
    ensures bad { config_refused 256 (codes "hello") ≡ Some BadRoot }
    ensures good { config_refused 256 (codes "/") ≡ None }
{}

/// What texts tell of a configuration: the first bad part counts, and of good ones the last.
pub fn reading_texts()
    ensures empty { casefold_of [] ≡ Ok false }
    ensures set { casefold_of (codes "ascii_casefold=true") ≡ Ok true }
    ensures last { casefold_of (codes "ascii_casefold=true:ascii_casefold=false") ≡ Ok false }
    ensures no_boolean { casefold_of (codes "ascii_casefold=yes") ≡ Err NotBoolean }
    ensures two_signs { casefold_of (codes "ascii_casefold=true=") ≡ Err NotBoolean }
    ensures no_sign { casefold_of (codes "x") ≡ Err NotKindValue }
    ensures no_kind { casefold_of (codes "x=1") ≡ Err UnknownKind }
    ensures no_part { casefold_of (codes ":") ≡ Err NotKindValue }
    ensures first { casefold_of (codes "x=1:x:ascii_casefold=yes") ≡ Err UnknownKind }
{}

/// What a JSON value tells of a configuration: refused are what is no object, then the first key of
/// the six that is missing or of another kind, then a further key.
#[tactic(auto, unfolding(crate::specs::ConfigJsons::config_of))]
pub fn reading_json()
    ensures told { config_of (sample (number (unsigned 65560)) no_members) ≡ Ok standard }
    ensures below_zero { config_of (sample (number (negative (negsuc 0))) no_members)
        ≡ Err (Key 2) }
    ensures large { config_of (sample (number (unsigned 4294967296)) no_members) ≡ Err (Key 2) }
    ensures text { config_of (sample (string (codes "256")) no_members) ≡ Err (Key 2) }
    ensures further { config_of (sample (number (unsigned 256))
        (member (codes "x") null no_members)) ≡ Err UnknownKey }
    ensures first { config_of (object (member (codes "x") null no_members)) ≡ Err (Key 1) }
    ensures no_object { config_of null ≡ Err NotObject }
{}

/// Which keys write an owner: plain decimals below 2^32.
#[tactic(auto, using(crate::proofs::JsonSampling::plain, crate::proofs::JsonSampling::padded, crate::proofs::JsonSampling::signed, crate::proofs::JsonSampling::large))]
pub fn reading_owners()
    ensures plain { id_of (codes "1000") ≡ Some 1000 }
    ensures padded { id_of (codes "07") ≡ None }
    ensures signed { id_of (codes "+7") ≡ None }
    ensures large { id_of (codes "4294967296") ≡ None }
{}

/// A new fid isn't one that is there, and there must be room for it.
#[tactic(auto, using(crate::proofs::Sampling::fid_free, crate::proofs::Sampling::fid_used, crate::proofs::Sampling::fids_full))]
pub fn taking_fids()
    ensures free { attach_refused server.fids 2 8 ≡ None }
    ensures used { attach_refused server.fids 2 7 ≡ Some EBADF }
    ensures full { attach_refused with_open.fids 2 9 ≡ Some ENFILE }
{}

/// Where walks begin: at the inode of a fid, to a free fid or to the same; or why they don't, in
/// this order.
#[tactic(auto, using(crate::proofs::Sampling::walk_begins, crate::proofs::Sampling::walk_stays, crate::proofs::Sampling::walk_onto_used, crate::proofs::Sampling::walk_from_none, crate::proofs::Sampling::walk_without_room, crate::proofs::Sampling::walk_of_many))]
pub fn beginning_walks()
    ensures begins { walk_start server.fids 2 7 8 1 ≡ Ok 1 }
    ensures stays { walk_start with_open.fids 2 8 8 16 ≡ Ok 2 }
    ensures onto_used { walk_start with_open.fids 2 9 8 1 ≡ Err EBADF }
    ensures from_none { walk_start server.fids 2 9 8 1 ≡ Err EBADF }
    ensures no_room { walk_start with_open.fids 2 8 9 17 ≡ Err ENFILE }
    ensures too_many { walk_start server.fids 2 7 8 17 ≡ Err EINVAL }
{}

/// What is told of a fid, and the reply to a host's refusal, to its fault and to want of memory.
pub fn answering()
    ensures unknown { ino_told None ≡ Err (host.Errno EBADF) }
    ensures known { ino_told (Some (closed 2)) ≡ Ok 2 }
    ensures shut { readable_told (Some (closed 2)) ≡ Err (host.Errno EBADF) }
    ensures to_read { readable_told (Some (record { ino = 2; open_state = Opened 0 false }))
        ≡ Ok 2 }
    ensures to_write { readable_told (Some (record { ino = 2; open_state = Opened 1 false }))
        ≡ Err (host.Errno EBADF) }
    ensures told { reply_told lerror (Ok 5) ≡ Ok (lerror 5) }
    ensures refused { reply_told lerror (Err (host.Errno ENOENT)) ≡ Ok (lerror ENOENT) }
    ensures fault { reply_told lerror (Err host.Fault) ≡ Ok (lerror EIO) }
    ensures no_memory { reply_told lerror (Err host.NoMemory) ≡ Err wire.NoMemory }
{}
