// The entries that a reference may name.
ghost use Rattle.std.specs.Prelude.{◌≡◌, List, ℕ};
ghost use Rattle.references.specs.References.{class_at, fits};

use crate::Wanted;

// Entries in directory order, which stand in a file or on a sheet.
pub trait Entries {
    // Their types.
    ghost types: { Self → List ℕ };

    // Whether the number wanted names one of them, of the class wanted.
    fn meet(&self, wanted: Wanted) -> bool
        ensures { result ≡ fits wanted.want (class_at (types self.now) wanted.number.0) };
}
