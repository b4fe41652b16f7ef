// What a text tells before its entries, and the lists that its entries name.
ghost use Rattle.std.specs.Prelude.{All};
ghost use Rattle.ml_lists.specs.Ascending.{IsAscending};
ghost use Rattle.ml_refutation_text.specs.private.ReadRows.{prop_rows};

use ml_base::Version;
use ml_refutation::Lists;

/// The sequents and stacks that were read: in version 1 those of the entries so far, in version 2 the tables.
#[derive(Drop)]
pub(crate) struct Tables {
    pub(crate) sequents: Lists,
    pub(crate) stacks: Lists,
    pub(crate) ghost ascend: { All IsAscending stacks } by { prop_rows stacks },
}

/// The number of names, the version, and how many entries there are to be.
#[derive(Clone, Copy)]
pub(crate) struct Known {
    pub(crate) names: u32,
    pub(crate) version: Version,
    pub(crate) wanted: u32,
}
