//! The first example, computed. Each function makes no call: its contract is the example.
ghost use Rattle.std.specs.Prelude.{◌≡◌, true, false, Ok, Err, Some, None, [], codes};
ghost use Rattle.std.specs.FinMap as map;
ghost use Rattle.port_base.specs.declared.errno.TheConstants.{EBADF, EISDIR, ENOTDIR};
ghost use Rattle.port_base.specs.declared.errno.TheConstants.{EACCES, EFBIG, EINVAL, ESTALE};
ghost use Rattle.tree_machine.specs.State.{begun};
ghost use Rattle.fuse_wire.specs.Request.{unlink, open_file, read, opendir, readdir, flush};
ghost use Rattle.fuse_wire.specs.Request.{release, rmdir, rename2, mknod, readlink, statfs};
ghost use Rattle.fuse_wire.specs.Request.{fsync, destroy};
ghost use Rattle.tree_machine.specs.Replies.Reply.{Refused, Opened, Bytes, Written, Sizes, Done};
ghost use Rattle.tree_machine.specs.State.Phase.{Over};
ghost use Rattle.tree_machine.specs.Requests.{answer_of, is_core};
ghost use Rattle.tree_machine.specs.Forgetting.{forgotten};
ghost use Rattle.tree_machine.specs.Setting.{given_handle, is_read_alone, new_attributes};
ghost use Rattle.tree_machine.specs.FileSamples.{asked, emptied_hello, to_empty};
ghost use Rattle.tree_machine.specs.Creating.{create_refusal, created, lacks_two};
ghost use Rattle.tree_machine.specs.Messages.{created_messages, linked_messages};
ghost use Rattle.tree_machine.specs.Messages.{write_messages, write_piece};
ghost use Rattle.tree_machine.specs.Writing.{place_written, write_refusal, wrote};
ghost use Rattle.tree_machine.specs.Naming.{link_refusal, linked};
ghost use Rattle.tree_model.specs.declared.attributes.TimeSet.TheVariants.{Keep, Now, At};
ghost use Rattle.tree_machine.specs.FileSamples.{open_frame, open_reply, with_open, read_frame};
ghost use Rattle.tree_machine.specs.FileSamples.{read_reply, release_frame, release_reply};
ghost use Rattle.tree_machine.specs.FileSamples.{with_closed, forget_frame, with_none};
ghost use Rattle.tree_machine.specs.FileSamples.{thrice_given, batch_frame};
ghost use Rattle.tree_machine.specs.Messages.{messages, pieces, readdir_messages};
ghost use Rattle.tree_machine.specs.Messages.{request_messages};
ghost use Rattle.tree_machine.specs.DirectorySamples.{with_root_open, hello_listed};
ghost use Rattle.tree_machine.specs.DirectorySamples.{hello_without_name};
ghost use Rattle.tree_machine.specs.Step.{step, frame_answer};
ghost use Rattle.tree_machine.specs.Samples.{tree, settings, init_frame, init_reply, started};
ghost use Rattle.tree_machine.specs.Samples.{lookup_frame, entry_reply_bytes, getattr_frame};
ghost use Rattle.tree_machine.specs.Samples.{with_hello, attr_reply_bytes};

/// INIT of minor 31 is granted.
#[tactic(auto, using(crate::proofs::Sampling::init_answered))]
fn init_is_granted()
    ensures { (step settings (begun tree 1) init_frame).0 ≡ init_reply }
{}

/// A look-up of `hello` in the root gives node 2 and the file's attributes.
#[tactic(auto, using(crate::proofs::Sampling::lookup_answered))]
fn hello_is_looked_up()
    ensures { (step settings started lookup_frame).0 ≡ entry_reply_bytes }
{}

/// GETATTR of that node tells the file's attributes.
#[tactic(auto, using(crate::proofs::Sampling::getattr_answered))]
fn attributes_are_told()
    ensures { (step settings with_hello getattr_frame).0 ≡ attr_reply_bytes }
{}

/// OPEN of that node gives handle 3, with two messages.
#[tactic(auto, using(crate::proofs::FileSampling::open_answered, crate::proofs::FileSampling::open_leaves, crate::proofs::FileSampling::open_counted))]
fn hello_is_opened()
    ensures reply { (step settings with_hello open_frame).0 ≡ open_reply }
    ensures state { (frame_answer settings with_hello open_frame).1 ≡ with_open }
    ensures messages { messages 4341 settings with_hello open_frame ≡ 2 }
{}

/// OPEN of that node to write to it, with the flag that empties a file, gives handle 3, with two
/// messages; the file has no bytes then, and was changed at the tree's moment.
#[tactic(auto, using(crate::proofs::FileSampling::emptied_answered, crate::proofs::FileSampling::emptied_leaves, crate::proofs::FileSampling::emptied_open, crate::proofs::FileSampling::emptied_counted))]
fn hello_is_emptied()
    ensures reply { (answer_of settings with_hello 2 (Ok (open_file to_empty))).0 ≡ Opened 3 }
    ensures emptied { map.get
        (answer_of settings with_hello 2 (Ok (open_file to_empty))).1.tree.records 2
        ≡ Some emptied_hello }
    ensures handle { map.get (answer_of settings with_hello 2 (Ok (open_file to_empty))).1.handles 3
        ≡ Some (record { ino = 2; access = 1; append = false }) }
    ensures messages { request_messages 4341 settings with_hello 2 (Ok (open_file to_empty)) ≡ 2 }
{}

/// OPEN's refusals in order: a node that isn't there, a directory; and which is a core request.
#[tactic(auto, using(crate::proofs::FileSampling::open_unknown, crate::proofs::FileSampling::open_directory))]
fn opens_are_refused()
    ensures unknown { (answer_of settings with_hello 9 (Ok (open_file 512))).0 ≡ Refused ESTALE }
    ensures directory { (answer_of settings with_hello 1 (Ok (open_file 512))).0 ≡ Refused EISDIR }
    ensures to_read { is_core (open_file 0) ≡ true }
    ensures to_write { is_core (open_file 2) ≡ false }
    ensures to_empty { is_core (open_file 512) ≡ false }
{}

/// What a handle is asked that isn't open.
#[tactic(auto, using(crate::proofs::FileSampling::read_unknown, crate::proofs::FileSampling::flush_unknown, crate::proofs::FileSampling::release_unknown))]
fn unknown_handles_are_refused()
    ensures read { (answer_of settings with_open 2 (Ok (read 9 0 4 0 None))).0 ≡ Refused EBADF }
    ensures flush { (answer_of settings with_open 2 (Ok (flush 9))).0 ≡ Refused EBADF }
    ensures release { answer_of settings with_open 2 (Ok (release 9)) ≡ (Refused EBADF, with_open) }
{}

/// READ of the handle gives bytes from an offset on, at most so many, and no more than are there.
#[tactic(auto, using(crate::proofs::FileSampling::read_answered, crate::proofs::FileSampling::read_counted, crate::proofs::FileSampling::read_to_end, crate::proofs::FileSampling::read_beyond))]
fn hello_is_read()
    ensures reply { (step settings with_open read_frame).0 ≡ read_reply }
    ensures messages { messages 4341 settings with_open read_frame ≡ 1 }
    ensures end { (answer_of settings with_open 2 (Ok (read 3 4 4294967295 0 None))).0
        ≡ Bytes (codes "o\n") }
    ensures beyond { (answer_of settings with_open 2 (Ok (read 3 6 4 0 None))).0 ≡ Bytes [] }
{}

/// FLUSH of the handle is done, and RELEASE ends it.
#[tactic(auto, using(crate::proofs::FileSampling::flush_done, crate::proofs::FileSampling::release_answered, crate::proofs::FileSampling::release_leaves, crate::proofs::FileSampling::release_counted))]
fn hello_is_closed()
    ensures flush { (answer_of settings with_open 2 (Ok (flush 3))).0 ≡ Done }
    ensures reply { (step settings with_open release_frame).0 ≡ release_reply }
    ensures state { (frame_answer settings with_open release_frame).1 ≡ with_closed }
    ensures messages { messages 4341 settings with_open release_frame ≡ 1 }
{}

/// FORGET takes the node away, and so does a batch, which passes over the root and what isn't
/// there. Neither gets a reply.
#[tactic(auto, using(crate::proofs::FileSampling::forget_silent, crate::proofs::FileSampling::forget_leaves, crate::proofs::FileSampling::forget_counted, crate::proofs::FileSampling::batch_silent, crate::proofs::FileSampling::batch_leaves, crate::proofs::FileSampling::batch_counted))]
fn hello_is_forgotten()
    ensures silent { (step settings with_hello forget_frame).0 ≡ [] }
    ensures state { (frame_answer settings with_hello forget_frame).1 ≡ with_none }
    ensures messages { messages 4341 settings with_hello forget_frame ≡ 1 }
    ensures batch_silent { (step settings with_hello batch_frame).0 ≡ [] }
    ensures batch_state { (frame_answer settings with_hello batch_frame).1 ≡ with_none }
    ensures batch_messages { messages 4341 settings with_hello batch_frame ≡ 1 }
{}

/// OPENDIR of the root gives handle 3; a file isn't opened so.
#[tactic(auto, using(crate::proofs::DirectorySampling::root_opened, crate::proofs::DirectorySampling::file_not_opened))]
fn the_root_is_opened()
    ensures root { answer_of settings with_hello 1 (Ok (opendir 0)) ≡ (Opened 3, with_root_open) }
    ensures file { answer_of settings with_hello 2 (Ok (opendir 0)) ≡ (Refused ENOTDIR, with_hello) }
{}

/// READDIR of the handle gives the entry of `hello`; past its cookie, or with too little room,
/// nothing.
#[tactic(auto, using(crate::proofs::DirectorySampling::root_listed, crate::proofs::DirectorySampling::listed_past_first, crate::proofs::DirectorySampling::listed_without_room))]
fn the_root_is_listed()
    ensures all { (answer_of settings with_root_open 1 (Ok (readdir 3 0 4096 0 None))).0
        ≡ Bytes hello_listed }
    ensures past { (answer_of settings with_root_open 1 (Ok (readdir 3 1 4096 0 None))).0
        ≡ Bytes [] }
    ensures small { (answer_of settings with_root_open 1 (Ok (readdir 3 0 31 0 None))).0
        ≡ Bytes [] }
{}

/// How many messages a listing takes: one for the entry and one that brings nothing; one that
/// brings nothing; one whose entry has no room.
#[tactic(auto, using(crate::proofs::DirectorySampling::two_messages, crate::proofs::DirectorySampling::one_message, crate::proofs::DirectorySampling::one_full_message))]
fn listings_are_counted()
    ensures all { readdir_messages 4341 tree 1 0 4096 ≡ 2 }
    ensures past { readdir_messages 4341 tree 1 1 4096 ≡ 1 }
    ensures small { readdir_messages 4341 tree 1 0 31 ≡ 1 }
{}

/// UNLINK of `hello` is done, and its file stays, which node 2 names; in a file there is no name.
#[tactic(auto, using(crate::proofs::DirectorySampling::hello_unlinked, crate::proofs::DirectorySampling::hello_stays, crate::proofs::DirectorySampling::unlinked_below_file))]
fn hello_is_unlinked()
    ensures reply { (answer_of settings with_hello 1 (Ok (unlink (codes "hello")))).0 ≡ Done }
    ensures stays { map.get
        (answer_of settings with_hello 1 (Ok (unlink (codes "hello")))).1.tree.records 2
        ≡ Some hello_without_name }
    ensures below { answer_of settings with_hello 2 (Ok (unlink (codes "hello")))
        ≡ (Refused ENOTDIR, with_hello) }
{}

/// What is refused of names: RMDIR of a file, RENAME2 by flags, and MKNOD.
#[tactic(auto, using(crate::proofs::NamingSampling::file_stays, crate::proofs::NamingSampling::flags_refused, crate::proofs::NamingSampling::no_special_file))]
fn names_are_refused()
    ensures file { answer_of settings with_hello 1 (Ok (rmdir (codes "hello")))
        ≡ (Refused ENOTDIR, with_hello) }
    ensures flags { answer_of settings with_hello 1 (Ok (rename2 1 1 (codes "a") (codes "b")))
        ≡ (Refused EINVAL, with_hello) }
    ensures special { answer_of settings with_hello 1 (Ok (mknod 4516 0 (codes "hello")))
        ≡ (Refused EACCES, with_hello) }
{}

/// A file is no link, STATFS tells the limits of the tree, FSYNC looks at its handle, and DESTROY
/// ends the session.
#[tactic(auto, using(crate::proofs::NamingSampling::file_is_no_link, crate::proofs::NamingSampling::sizes_told, crate::proofs::NamingSampling::fsync_unknown))]
fn nothing_else_changes()
    ensures link { answer_of settings with_hello 2 (Ok readlink) ≡ (Refused EINVAL, with_hello) }
    ensures sizes { answer_of settings with_hello 2 (Ok statfs) ≡ (Sizes 256 65536, with_hello) }
    ensures fsync { answer_of settings with_hello 0 (Ok (fsync 9 0)) ≡ (Refused EBADF, with_hello) }
    ensures over { answer_of settings with_hello 0 (Ok destroy)
        ≡ (Done, record with_hello { phase = Over }) }
{}

/// A node that was given three times is counted down by two.
#[tactic(auto, using(crate::proofs::FileSampling::counted_down))]
fn nodes_are_counted_down()
    ensures { map.get (forgotten thrice_given 2 2).nodes 2
        ≡ Some (record { ino = 2; count = 1 }) }
{}

/// How many pieces a reading takes: of all that was asked for, of less, of nothing.
fn pieces_are_counted()
    ensures whole { pieces 4341 131072 131072 ≡ 31 }
    ensures even { pieces 4341 8682 8682 ≡ 2 }
    ensures whole_at_two { pieces 65549 131072 131072 ≡ 2 }
    ensures short { pieces 4341 131072 6 ≡ 1 }
    ensures short_third { pieces 4341 131072 10000 ≡ 3 }
    ensures full_and_short { pieces 4341 131072 4341 ≡ 2 }
    ensures none { pieces 4341 0 0 ≡ 1 }
{}

/// What SETATTR sets: a time that is given, the moment in its place, the bit of the moment without
/// its time, and ctime alone or beside a mode.
fn attributes_are_set()
    ensures given { (new_attributes (record asked { valid = 16 })).atime
        ≡ At (record { sec = 8; nsec = 1 }) }
    ensures moment { (new_attributes (record asked { valid = 144 })).atime ≡ Now }
    ensures no_time { (new_attributes (record asked { valid = 128 })).atime ≡ Keep }
    ensures times { (new_attributes (record asked { valid = 128 })).sets_times ≡ false }
    ensures owner { (new_attributes (record asked { valid = 2 })).uid ≡ Some 5 }
    ensures group { (new_attributes (record asked { valid = 2 })).gid ≡ None }
    ensures alone { (new_attributes (record asked { valid = 1024 })).touches_ctime ≡ true }
    ensures beside { (new_attributes (record asked { valid = 1025 })).touches_ctime ≡ false }
    ensures handle { given_handle (record asked { valid = 64 }) ≡ Some 4 }
    ensures node { given_handle asked ≡ None }
    ensures to_read { is_read_alone (Some (record { ino = 2; access = 0; append = false })) ≡ true }
    ensures closed { is_read_alone None ≡ false }
{}

/// Files that are made and names that are given: refusals in order, and what is sent then.
#[tactic(auto, using(crate::proofs::NamingSampling::two_fit, crate::proofs::NamingSampling::two_lack))]
fn files_are_made_and_linked()
    ensures unknown { create_refusal settings with_hello (codes ".") None ≡ Some ESTALE }
    ensures named { create_refusal settings with_hello (codes ".")
        (Some (record { ino = 1; count = 1 })) ≡ Some EINVAL }
    ensures two { lacks_two (record settings { limit = 3 }) (begun tree 1) ≡ false }
    ensures one { lacks_two (record settings { limit = 2 }) (begun tree 1) ≡ true }
    ensures not_made { created settings with_hello 1 (Err EISDIR) ≡ (Refused EISDIR, with_hello) }
    ensures made_by { created_messages (Err EISDIR) ≡ 3 }
    ensures old { link_refusal settings with_hello (codes ".") None None ≡ Some ESTALE }
    ensures dots { link_refusal settings with_hello (codes ".")
        (Some (record { ino = 2; count = 1 })) (Some (record { ino = 1; count = 1 }))
        ≡ Some EINVAL }
    ensures not_linked { linked settings with_hello 2 (Err EISDIR) ≡ (Refused EISDIR, with_hello) }
    ensures linked_by { linked_messages (Err EISDIR) ≡ 1 }
{}

/// What is written: by a handle that is open to be written, piece by piece, and told.
fn files_are_written()
    ensures unknown { write_refusal None ≡ Some EBADF }
    ensures to_read { write_refusal (Some (record { ino = 2; access = 0; append = false }))
        ≡ Some EBADF }
    ensures to_write { write_refusal (Some (record { ino = 2; access = 1; append = false }))
        ≡ None }
    ensures offset { place_written tree (Some (record { ino = 2; access = 1; append = false })) 3
        ≡ 3 }
    ensures piece { write_piece 4341 ≡ 4329 }
    ensures three { write_messages 4329 10000 (Ok (10000, tree)) ≡ 3 }
    ensures short { write_messages 4329 8658 (Ok (8000, tree)) ≡ 2 }
    ensures full { write_messages 4329 4330 (Ok (4329, tree)) ≡ 2 }
    ensures none { write_messages 4329 1 (Err EFBIG) ≡ 1 }
    ensures told { wrote with_hello (Ok (7, tree)) ≡ (Written 7, record with_hello { tree = tree }) }
    ensures refused { wrote with_hello (Err EFBIG) ≡ (Refused EFBIG, with_hello) }
{}
