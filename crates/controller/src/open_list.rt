// The received lists that are open, as the tally goes along them: where each lies, how many numbers it has, and how many controllers sent it.
ghost use Rattle.std.specs.Prelude.{◌≡◌, ◌≤◌, ◌<◌, get_or};
ghost use Rattle.controller.specs.Work.OpenList.{end_mark, starts_of, counts_of, sent_of, Opens};
ghost use Rattle.controller.specs.Laws.Work.OpenList.{opens_prop};

use crate::heads::SLOTS;
use wire::limits::NUMBER_WIDTH;
use wire::read::read_number;

// Above every number: what stands behind a list's last one. It is a number and no `None`, since keys are told apart by their order.
pub(crate) const END: usize = 4294967296;

// The own list, and one for each number heard.
pub(crate) const MAX_LISTS: usize = 65;

// An open list: where it lies in the tray, how many numbers it has, and how many sent it.
#[derive(Clone, Copy)]
pub(crate) struct OpenList {
    pub start: usize,
    pub count: usize,
    pub sent: usize,
}

pub(crate) const NO_LIST: OpenList = OpenList {
    start: 0,
    count: 0,
    sent: 0,
};

// The open lists, `len` of them. They rise, and can be read. They are in an array, since a `Vec` could run out of memory, and no call of the engine can.
#[derive(Clone, Copy)]
pub(crate) struct OpenLists<'a> {
    pub own: &'a [u32],
    pub tray: &'a [u8],
    pub lists: [OpenList; MAX_LISTS],
    pub len: usize,
    ghost opens: { Opens own.now tray.now (starts_of lists) (counts_of lists) (sent_of lists) len } by { opens_prop },
}

impl OpenLists<'_> {
    ghost use Rattle.controller.specs.Work.Opened.{nth_open};
    ghost use Rattle.controller.specs.Work.Heads.{key_of};

    // The number at place `i` of open list `j`; `END` behind its last one.
    fn number_in(&self, j: usize, i: usize) -> usize
        requires { j < self.now.len }
        ensures number { result ≡ get_or (nth_open self.now j) i end_mark }
        ensures bound { result ≤ end_mark }
    {
        let list = self.lists[j];
        if list.count <= i {
            END
        } else if j == 0 {
            self.own[i] as usize
        } else {
            read_number(self.tray, list.start + NUMBER_WIDTH * i) as usize
        }
    }

    // The key of place `i` of list `j`.
    pub(crate) fn key_at(&self, j: usize, i: usize) -> usize
        requires { j < self.now.len }
        ensures { result ≡ key_of j (get_or (nth_open self.now j) i end_mark) }
    {
        self.number_in(j, i) * SLOTS + j
    }
}
