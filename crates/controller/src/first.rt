// When each number was first heard: the record beside heard, which no rule of a step reads.
ghost use Rattle.std.specs.Prelude.{true, ◌≡◌, ◌≤◌, ◌<◌, length};
ghost use Rattle.wire.specs.Limits.{max_numbers};
ghost use Rattle.wire.specs.Numbers.{listed};
ghost use Rattle.controller.specs.Lists.{count_if};
ghost use Rattle.controller.specs.State.{sound_list};
ghost use Rattle.controller.specs.Work.First.{is_zero, timely, RoundsSound, moved_to, Grown};

use crate::lists::find_near;
use wire::frame::Numbers;
use wire::limits::MAX_NUMBERS;

// The last round whose tray can be worked: the one before the last that is sent.
const LAST_WORKED: u8 = 194;

// How many rounds are 0. `zero_places` counts numbers, each in its own width, so that the loop is wide: one function over both would need a
// bound and a law that says what 0 is.
fn zeros(rounds: &[u8]) -> u8
    requires { length rounds.now ≤ max_numbers }
    ensures { result ≡ count_if is_zero rounds.now }
{
    let mut zeros = 0;
    for &round in rounds {
        zeros += (round == 0) as u8;
    }
    zeros
}

// Whether no round is past the last that can be worked: whether the latest is not. The loop has no way out to wait for.
fn all_timely(rounds: &[u8]) -> bool
    ensures { result ≡ timely rounds.now }
{
    let mut last = 0;
    for &round in rounds {
        last = round.max(last);
    }
    last <= LAST_WORKED
}

// Whether the record is sound beside `len` numbers, of which the own one stands at place `own`. One 0 in the used places is the own number's, and as many
// more as there are unused places are theirs: to count costs less than to test place by place.
pub(crate) fn rounds_sound(since: &[u8; MAX_NUMBERS], len: usize, own: usize) -> bool
    requires few { len ≤ max_numbers }
    requires inside { own < len }
    ensures { RoundsSound len own since.now result }
{
    let used = zeros(&since[..len]);
    let all = zeros(since);
    (since[own] == 0) & (used == 1) & (all as usize + len == MAX_NUMBERS + 1) & all_timely(since)
}

// Moves the record from beside the numbers `heard` to beside the numbers `all`, and gives each new number the tray's round.
fn record_rounds(heard: &Numbers, all: &Numbers, round: u8, since: &mut [u8; MAX_NUMBERS])
    requires sound { sound_list heard.now ≡ true }
    requires few { all.now.len ≤ max_numbers }
    ensures { since.new ≡ moved_to (listed heard.now) (listed all.now) round since.old }
{
    let old = *since;
    for j in 0..all.len {
        since[j] = match find_near(heard, all.at[j], j) {
            Ok(place) => old[place],
            Err(_) => round,
        };
    }
}

// Moves the record to beside those heard with a tray. Where nobody is new there is nothing to do.
pub(crate) fn take_over(heard: &Numbers, all: &Numbers, round: u8, since: &mut [u8; MAX_NUMBERS])
    requires { Grown heard.now all.now }
    ensures { since.new ≡ moved_to (listed heard.now) (listed all.now) round since.old }
{
    if heard.len < all.len {
        record_rounds(heard, all, round, since);
    }
}
