//! The count that a kernel keeps.
ghost use Rattle.std.specs.Prelude.{◌≡◌, ◌^◌, ◌<◌};
ghost use Rattle.tile.specs.Kernels.{raised};

/// How many tiles a kernel has copied.
#[derive(Drop)]
pub(crate) struct Tally {
    pub(crate) count: u64,
    ghost fits: { count < 2 ^ 64 },
}

impl Tally {
    /// One tile more.
    pub(crate) fn raise(&mut self)
        ensures { self.new.count ≡ raised self.old.count 1 }
    {
        self.count = self.count.saturating_add(1);
    }
}
