//! Names that go.
ghost use Rattle.std.specs.Prelude.{◌≡◌, Some};
ghost use Rattle.tree_model.specs.Unlinking.{parted_by, links_left, one_name_less};
ghost use Rattle.tree_model.specs.Unlinking.{is_empty_at};

use super::{Node, Stored};
use tree_model::Stamp;

impl Node {
    /// The entry of a name goes, and the others keep their cookies.
    pub fn part(&mut self, name: &[u8], moment: Stamp)
        ensures { self.new ≡ parted_by name.now moment self.old }
    {
        if let Stored::Names { listing, .. } = &mut self.body {
            listing.remove(name);
        }
        self.mtime = moment;
        self.ctime = moment;
    }

    /// Whether it lists nothing.
    pub fn is_empty(&self) -> bool
        ensures { result ≡ is_empty_at (Some self.now.body) }
    {
        match &self.body {
            Stored::Bytes(_) => true,
            Stored::Names { listing, .. } => listing.len() == 0,
            Stored::Target(_) => true,
        }
    }

    // The links that are left when an entry goes.
    fn links_left(&self) -> u64
        ensures { result ≡ links_left self.now.body self.now.links }
    {
        if self.is_directory() {
            0
        } else {
            self.links.saturating_sub(1)
        }
    }

    /// One entry less names it.
    pub fn name_less(&mut self, moment: Stamp)
        ensures { self.new ≡ one_name_less moment self.old }
    {
        self.links = self.links_left();
        self.ctime = moment;
    }
}
