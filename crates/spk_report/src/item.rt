//! The headings of a snapshot's parts.

ghost use Rattle.std.specs.Prelude.{◌≡◌, ◌≤◌, length};
ghost use Rattle.spk_report.specs.Items.{item_text};

/// A part of a snapshot.
#[derive(Clone, Copy, Debug, PartialEq, Eq)]
pub enum Item {
    Timestep,
    NumberOfAtoms,
    BoxBounds,
    Atoms,
}

impl Item {
    /// Its heading, which for `Atoms` goes on with the names of the fields.
    #[tactic(auto, unfolding(crate::specs::Items::item_text))]
    pub fn text(self) -> &'static [u8]
        ensures text { result.now ≡ item_text self }
        ensures short { length result.now ≤ 32 }
    {
        match self {
            Item::Timestep => b"ITEM: TIMESTEP\n",
            Item::NumberOfAtoms => b"ITEM: NUMBER OF ATOMS\n",
            Item::BoxBounds => b"ITEM: BOX BOUNDS\n",
            Item::Atoms => b"ITEM: ATOMS",
        }
    }
}
