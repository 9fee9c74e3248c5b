ghost use Rattle.std.specs.Prelude.{◌≡◌, map};
ghost use Rattle.std.specs.Arc.{arc_value};

use asc_shape::Shape;
use asc_traj::Entry;
use std::marker::Model;
use std::sync::Arc;

/// The entries of a file, each of which was traced anew, and their shape.
#[derive(Drop)]
pub struct Saved {
    pub(crate) shape: Shape,
    pub(crate) entries: Vec<Arc<Entry>>,
}

impl Model for Saved {
    ghost use Rattle.std.specs.Prelude.{map};
    ghost use Rattle.std.specs.Arc.{arc_value};
    ghost use Rattle.asc_model.specs.EntryFile as model;

    ghost Value = { model.Saved };

    ghost view = { λ s. record { shape = s.shape; entries = map arc_value s.entries.items } };
}

impl Saved {
    /// The shape of the states that they may match.
    pub fn shape(&self) -> Shape
        ensures { result ≡ self.now.shape }
    {
        self.shape
    }

    /// The entries, in the order of the file.
    pub fn entries(&self) -> &[Arc<Entry>]
        ensures { map arc_value result.now ≡ self.now.entries }
    {
        &self.entries
    }

    /// The same, to be kept.
    pub fn into_entries(self) -> Vec<Arc<Entry>>
        ensures { map arc_value result.items ≡ self.entries }
    {
        self.entries
    }
}
