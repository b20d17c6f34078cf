// The frames in the lent work: one for each unjoined subtree, the oldest one first, and behind them one
// for the present node. A frame has a shelf for each state, and a shelf a slot for each flag.
// Frames are of one size and stand one behind the other from the start of the work, and so do the shelves
// of a frame: no two overlap, and what is written in one leaves the others.
ghost use Rattle.std.specs.Prelude.{◌≡◌, ◌+◌, ◌*◌, ◌^◌, ◌≤◌};
ghost use Rattle.building.specs.Bounds.{most_frames, most_places, most_states};

// What all frames of a build have, by its query. A query that was read has no more of either.
#[derive(Clone, Copy, Debug, PartialEq, Eq)]
pub(crate) struct Shape {
    pub(crate) arity: usize,
    pub(crate) states: usize,
    ghost few_places: { arity ≤ most_places },
    ghost few_states: { states ≤ most_states },
}

impl Shape {
    ghost use Rattle.building.specs.Frames.{width};

    // How many flags there are, and so slots of a shelf: a place is in a flag or not.
    pub(crate) fn flags(self) -> usize
        ensures { result ≡ 2 ^ self.arity }
    {
        1usize << self.arity
    }

    // How many numbers a frame has: at most 16 shelves of 16 slots.
    pub(crate) fn frame_width(self) -> usize
        ensures { result ≡ width self.arity self.states }
    {
        self.states * self.flags()
    }

    // Where a frame starts. A tree has at most 4,095 nodes, so that there are at most 4,096 frames: the
    // product stays far below what a usize holds.
    pub(crate) fn frame_at(self, frame: usize) -> usize
        requires { frame ≤ most_frames }
        ensures { result ≡ frame * width self.arity self.states }
    {
        frame * self.frame_width()
    }

    // Where the shelf of a state of a frame starts: behind the frames before, and the shelves before.
    pub(crate) fn shelf_at(self, frame: usize, state: usize) -> usize
        requires { (frame ≤ most_frames) × (state ≤ most_states) }
        ensures { result ≡ frame * width self.arity self.states + state * 2 ^ self.arity }
    {
        self.frame_at(frame) + state * self.flags()
    }
}
