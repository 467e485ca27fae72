// The machine after a history, with the names and the lines of its source.
ghost use Rattle.std.specs.Prelude.{◌≡◌};

use sa_base::Item;
use sa_replay::Replay;
use std::marker::Model;
use toga_source::SpaceNames;

/// The machine after a history of its workload, with the names and the lines of the source.
#[derive(Drop)]
pub struct Scene<'a> {
    pub(crate) replay: &'a Replay,
    pub(crate) items: &'a [Item],
    pub(crate) names: &'a [SpaceNames],
    pub(crate) lines: &'a [u64],
}

impl<'a> Model for Scene<'a> {
    ghost use Rattle.toga_say.specs.Scene.{SceneView};

    ghost Value = { SceneView };

    ghost view = { λ s. record {
      replay = s.replay.now;
      items = s.items.now;
      names = s.names.now;
      lines = s.lines.now;
    } };
}

impl<'a> Scene<'a> {
    /// The machine of this replay, to which these items led. `names` has the names of each of its spaces, and `lines` the line of each
    /// instruction, in the order of the spaces, of their programs and of the places.
    pub fn new(
        replay: &'a Replay,
        items: &'a [Item],
        names: &'a [SpaceNames],
        lines: &'a [u64],
    ) -> Scene<'a>
        ensures { result ≡ record {
          replay = replay.now;
          items = items.now;
          names = names.now;
          lines = lines.now;
        } }
    {
        Scene {
            replay,
            items,
            names,
            lines,
        }
    }
}
