// Rising lists of controller numbers, in their stored form. That a list is sound, or has at most 64 numbers, is asked and is no invariant of its type: a
// state may have any lists (`is_sound`), and those heard grow while they are searched.
ghost use Rattle.std.specs.Prelude.{true, [], ◌≡◌, ◌-◌, ◌≤◌, ◌<◌, get_or};
ghost use Rattle.wire.specs.Limits.{max_numbers};
ghost use Rattle.wire.specs.Numbers.{stored, listed};
ghost use Rattle.controller.specs.Lists.{mem};
ghost use Rattle.controller.specs.State.{sound_list};
ghost use Rattle.controller.specs.Work.Lists.{below, found_in, inserted_at, opened};

use wire::frame::Numbers;
use wire::limits::MAX_NUMBERS;

pub(crate) fn no_numbers() -> Numbers
    ensures { result ≡ stored [] }
{
    Numbers {
        len: 0,
        at: [0; MAX_NUMBERS],
    }
}

// How many of a list's numbers are below `x`: the place where `x` stands or belongs.
pub(crate) fn place_in(list: &Numbers, x: u32) -> usize
    requires { sound_list list.now ≡ true }
    ensures { result ≡ below x (listed list.now) }
{
    list.at[..list.len].partition_point(|&number| number < x)
}

// The place of `x`; where it is not in the list, as an error, the place where it belongs. A likely place is looked at first: directories mostly go by
// rising senders.
pub(crate) fn find_near(list: &Numbers, x: u32, guess: usize) -> Result<usize, usize>
    requires { sound_list list.now ≡ true }
    ensures { result ≡ found_in x (listed list.now) }
{
    if guess < list.len && list.at[guess] == x {
        return Ok(guess);
    }
    let place = place_in(list, x);
    if has_at(list, place, x) {
        Ok(place)
    } else {
        Err(place)
    }
}

// Whether `x` stands just before a place.
pub(crate) fn stands_before(list: &Numbers, place: usize, x: u32) -> bool
    requires { place ≤ max_numbers }
    ensures { result ≡ true → (0 < place) × (get_or list.now.at (place - 1) 0 ≡ x) }
{
    0 < place && list.at[place - 1] == x
}

// The place where `x` stands or belongs, searched from a place on that is not behind it, one by one, since it is mostly the first that is looked at.
pub(crate) fn place_from(list: &Numbers, from: usize, x: u32) -> usize
    requires sound { sound_list list.now ≡ true }
    requires place { from ≤ below x (listed list.now) }
    ensures { result ≡ below x (listed list.now) }
{
    for i in from..list.len {
        if x <= list.at[i] {
            return i;
        }
    }
    list.len
}

// Whether `x` stands at its place `i`.
pub(crate) fn has_at(list: &Numbers, i: usize, x: u32) -> bool
    requires sound { sound_list list.now ≡ true }
    requires place { i ≡ below x (listed list.now) }
    ensures { result ≡ mem x (listed list.now) }
{
    i < list.len && list.at[i] == x
}

// Puts `x` in at place `to`, what stands from there on, up to `len`, one place further. Places and notes are opened so, hence no `Numbers`.
pub(crate) fn open_at(at: &mut [u32; MAX_NUMBERS], len: usize, to: usize, x: u32)
    requires inside { to ≤ len }
    requires room { len < max_numbers }
    ensures { at.new ≡ opened to x len at.old }
{
    at.copy_within(to..len, to + 1);
    at[to] = x;
}

// Puts `x` into a list that is not full, at place `to`.
pub(crate) fn insert_at(list: &mut Numbers, to: usize, x: u32)
    requires sound { sound_list list.old ≡ true }
    requires inside { to ≤ list.old.len }
    requires room { list.old.len < max_numbers }
    ensures { list.new ≡ stored (inserted_at to x (listed list.old)) }
{
    open_at(&mut list.at, list.len, to, x);
    list.len += 1;
}
