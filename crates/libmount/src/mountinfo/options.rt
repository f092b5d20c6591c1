// The flags that the options of a mount name.
ghost use Rattle.std.specs.Prelude.{◌≡◌};
ghost use Rattle.port_base.specs.Flags.{bits_of};
ghost use Rattle.libmount.specs.Options.{flag_of, flags_of};
ghost use Rattle.libmount.specs.Rows.{text_bytes};
ghost use Rattle.libmount.specs.Views.{text};

use crate::mountinfo::parts::first_part;
use crate::mountinfo::rows::MountPoint;
use bitflags::Flags;
use port_base::flags::MsFlags;

// The flag of an option, if it names one.
#[tactic(auto, unfolding(crate::specs::Options::flag_of))]
fn flag_of(word: &[u8]) -> MsFlags
    ensures { bits_of result ≡ flag_of word.now }
{
    if word == b"ro".as_slice() {
        MsFlags::MS_RDONLY
    } else if word == b"nosuid".as_slice() {
        MsFlags::MS_NOSUID
    } else if word == b"nodev".as_slice() {
        MsFlags::MS_NODEV
    } else if word == b"noexec".as_slice() {
        MsFlags::MS_NOEXEC
    } else if word == b"mand".as_slice() {
        MsFlags::MS_MANDLOCK
    } else if word == b"sync".as_slice() {
        MsFlags::MS_SYNCHRONOUS
    } else if word == b"dirsync".as_slice() {
        MsFlags::MS_DIRSYNC
    } else if word == b"noatime".as_slice() {
        MsFlags::MS_NOATIME
    } else if word == b"nodiratime".as_slice() {
        MsFlags::MS_NODIRATIME
    } else if word == b"relatime".as_slice() {
        MsFlags::MS_RELATIME
    } else if word == b"strictatime".as_slice() {
        MsFlags::MS_STRICTATIME
    } else {
        Flags::empty()
    }
}

// The flags of options with commas between them.
fn flags_of(options: &[u8]) -> MsFlags
    ensures { bits_of result ≡ flags_of options.now }
{
    let mut flags: MsFlags = Flags::empty();
    let mut rest = Some(options);
    'options: while let Some(text) = rest {
        let (word, after) = first_part(text, b',');
        flags = flags.union(flag_of(word));
        rest = after;
    }
    flags
}

impl MountPoint<'_> {
    /// The flags of the mount's options, as mount(2) takes them. Options that name no flag are
    /// passed over.
    pub fn get_mount_flags(&self) -> MsFlags
        ensures { bits_of result ≡ flags_of (text_bytes (text self.now.mount_options)) }
    {
        flags_of(self.mount_options.as_bytes())
    }

    /// The same flags as a number.
    pub fn get_flags(&self) -> u64
        ensures { result ≡ flags_of (text_bytes (text self.now.mount_options)) }
    {
        self.get_mount_flags().bits()
    }
}
