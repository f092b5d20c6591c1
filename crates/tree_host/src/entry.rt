//! Entries of directories, as a host tells them.
use std::marker::Model;
use tree_model::Attr;

/// An entry of a directory, with what is told of the inode that it names.
#[derive(Drop)]
pub struct Entry {
    /// A number that no other entry of the directory ever has; later entries have greater ones.
    pub cookie: u64,
    /// The name, without a slash or a zero byte.
    pub name: Vec<u8>,
    /// The attributes of the inode.
    pub attr: Attr,
}

impl Model for Entry {
    ghost use Rattle.tree_model.specs.Reading.{Entry};

    ghost Value = { Entry };

    ghost view = { λ a. record { cookie = a.cookie; name = a.name.items; attr = a.attr } };
}
