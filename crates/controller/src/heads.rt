// The heads of the open lists, and passing a number in all of them. A list's head with the list's place is one number, its key; the keys are the leaves
// of a tree in which each node is the lesser of the two below it, so that node 1 is the least head and says whose it is. With `len` lists the leaves are
// the nodes from `len` on, and the two nodes below node i are 2i and 2i + 1: an array, since the way goes from a leaf up.
ghost use Rattle.std.specs.Prelude.{◌≡◌, ℕ, ◌*◌, ◌/◌, ◌≤◌, ◌<◌, length, get_or};
ghost use Rattle.controller.specs.Work.OpenList.{max_lists};
ghost use Rattle.controller.specs.Work.Opened.{nth_open};
ghost use Rattle.controller.specs.Work.Heads.{slots, sibling_of, Ordered};

use crate::open_list::{MAX_LISTS, OpenLists};

// Keys are number * SLOTS + list.
pub(crate) const SLOTS: usize = 128;

// The key behind a list's head, and its place in the list. It is read ahead, so that nothing waits for it when the list moves on.
#[derive(Clone, Copy)]
pub(crate) struct Ahead {
    pub key: usize,
    pub at: usize,
}

// The tree, and what comes behind the heads of the lists.
#[derive(Clone, Copy)]
pub(crate) struct Heads {
    pub tree: [usize; 2 * MAX_LISTS],
    pub ahead: [Ahead; MAX_LISTS],
}

// What passing a number tells: how many sent a list with it, and the key of the next one.
#[derive(Clone, Copy)]
pub(crate) struct Passed {
    pub count: usize,
    pub first: usize,
}

fn sibling(i: usize) -> usize
    requires { i < 2 * max_lists }
    ensures { result ≡ sibling_of i }
{
    if i % 2 == 0 { i + 1 } else { i - 1 }
}

// Makes the inner nodes of a tree from its leaves.
fn build(tree: &mut [usize], len: usize)
    requires some { 0 < len }
    requires room { 2 * len ≤ length tree.old }
    ensures ordered { Ordered tree.new len }
    ensures leaves { (p : ℕ) → len ≤ p → get_or tree.new p 0 ≡ get_or tree.old p 0 }
{
    for i in (1..len).rev() {
        tree[i] = tree[2 * i].min(tree[2 * i + 1]);
    }
}

impl Heads {
    ghost use Rattle.controller.specs.Work.Heads.{LinesUp, Movable, MovesIn, Passable, PassesIn};

    // Room for the heads. It is lent to `line_up`, since a value that is returned would stand on the stack twice. Place 1 is behind each head, as when the
    // lists are lined up: where all is 0 it is one fill, which is slow above 2,048 bytes.
    pub(crate) const NONE: Heads = Heads {
        tree: [0; 2 * MAX_LISTS],
        ahead: [Ahead { key: 0, at: 1 }; MAX_LISTS],
    };

    // Moves list `j` on: the key behind its head becomes its leaf, and is returned; the one behind that is read.
    fn move_on(&mut self, opened: &OpenLists, j: usize) -> usize
        requires { Movable opened.now.len j self.old }
        ensures { MovesIn (nth_open opened.now j) opened.now.len j self.old result self.new }
    {
        let Ahead { key, at } = self.ahead[j];
        self.tree[opened.len + j] = key;
        self.ahead[j] = Ahead {
            key: opened.key_at(j, at + 1),
            at: at + 1,
        };
        key
    }

    // Puts the first keys of all lists into the tree, and the second ones behind them.
    pub(crate) fn line_up(&mut self, opened: &OpenLists)
        ensures { LinesUp opened.now self.new }
    {
        for j in 0..opened.len {
            self.tree[opened.len + j] = opened.key_at(j, 0);
            self.ahead[j] = Ahead {
                key: opened.key_at(j, 1),
                at: 1,
            };
        }
        build(&mut self.tree, opened.len);
    }

    // Passes the number of the first key in every list that has it. From the leaf of a list that moved on the way goes up, each node on it made anew; where
    // the node beside it has the number too, a list below that one is next, and the nodes above both wait until it has moved on. The loop counts no index.
    pub(crate) fn pass(&mut self, opened: &OpenLists, first: usize) -> Passed
        requires { Passable opened.now first self.old }
        ensures { PassesIn opened.now (first / slots) result self.new }
    {
        let limit = (first / SLOTS + 1) * SLOTS;
        let mut j = first % SLOTS;
        let mut count = opened.lists[j].sent;
        let mut key = self.move_on(opened, j);
        let mut i = opened.len + j;
        while 1 < i {
            let other = self.tree[sibling(i)];
            if other < limit {
                j = other % SLOTS;
                count += opened.lists[j].sent;
                key = self.move_on(opened, j);
                i = opened.len + j;
            } else {
                key = key.min(other);
                i /= 2;
                self.tree[i] = key;
            }
        }
        Passed { count, first: key }
    }
}
