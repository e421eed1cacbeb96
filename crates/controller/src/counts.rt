// Two counts of those heard, of whom there are at most 64.
ghost use Rattle.std.specs.Prelude.{◌≤◌};
ghost use Rattle.wire.specs.Limits.{max_numbers};

// How many of those heard sent each of the two bits.
#[derive(Clone, Copy)]
pub(crate) struct Counts {
    pub zeros: usize,
    pub ones: usize,
    ghost few_zeros: { zeros ≤ max_numbers },
    ghost few_ones: { ones ≤ max_numbers },
}
