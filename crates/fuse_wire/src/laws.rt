//! What the readings of requests come to.
ghost use Rattle.std.specs.Prelude.{◌≡◌, List, ℕ, Some};
ghost use Rattle.fuse_wire.specs.Layouts.{only_name, IsName};

/// A body is read as a name exactly where it is that name and a zero byte, and the name has none
/// inside.
pub fn names_end_by_a_zero_byte()
    ensures read { (body name : List ℕ) → only_name body ≡ Some name → IsName name body }
    ensures found { (body name : List ℕ) → IsName name body → only_name body ≡ Some name }
{}
