// Where the reading of a log stands.
ghost use Rattle.std.specs.Prelude.{◌≤◌};
ghost use Rattle.convert.specs.Sizes.{longest_old};

// How many bytes are held, at the front of the room, and how many of the log's bytes came before them, all in whole records.
// Stays beside the room: with the room in it the struct could not be passed by value, and each method would lend it.
#[derive(Clone, Copy)]
pub(crate) struct Run {
    pub(crate) held: usize,
    pub(crate) place: u64,
    ghost short: { held ≤ longest_old },
}
