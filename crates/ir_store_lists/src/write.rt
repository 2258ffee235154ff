//! Writes of the links of nodes.
ghost use Rattle.std.specs.Prelude.{◌≡◌, ◌+◌, ◌<◌, ◌≤◌, ◌∷◌, ◌++◌, [], length, slice_set};
ghost use Rattle.std.specs.Vec.{vec_capacity, vec_len};
ghost use Rattle.ir_store_lists.specs.Ring.{nexts, prevs, homes, at as at_node};
ghost use Rattle.ir_store_lists.specs.Lists.{free};

use crate::link::Link;

pub(crate) const FREE: u32 = u32::MAX;

fn set_next(links: &mut Vec<Link>, node: usize, to: u32)
    requires { node < length links.old.items }
    ensures next { nexts links.new.items ≡ slice_set (nexts links.old.items) node to }
    ensures prev { prevs links.new.items ≡ prevs links.old.items }
    ensures home { homes links.new.items ≡ homes links.old.items }
    ensures capacity { vec_capacity links.new ≡ vec_capacity links.old }
{
    let link = &mut links[node];
    link.next = to;
}

fn set_prev(links: &mut Vec<Link>, node: usize, to: u32)
    requires { node < length links.old.items }
    ensures next { nexts links.new.items ≡ nexts links.old.items }
    ensures prev { prevs links.new.items ≡ slice_set (prevs links.old.items) node to }
    ensures home { homes links.new.items ≡ homes links.old.items }
    ensures capacity { vec_capacity links.new ≡ vec_capacity links.old }
{
    let link = &mut links[node];
    link.prev = to;
}

fn set_home(links: &mut Vec<Link>, node: usize, to: u32)
    requires { node < length links.old.items }
    ensures next { nexts links.new.items ≡ nexts links.old.items }
    ensures prev { prevs links.new.items ≡ prevs links.old.items }
    ensures home { homes links.new.items ≡ slice_set (homes links.old.items) node to }
    ensures capacity { vec_capacity links.new ≡ vec_capacity links.old }
{
    let link = &mut links[node];
    link.home = to;
}

/// Unlinks a node from its neighbours.
pub(crate) fn unlink(links: &mut Vec<Link>, node: usize)
    requires inside { node < length links.old.items }
    requires prev { at_node (prevs links.old.items) node < length links.old.items }
    requires next { at_node (nexts links.old.items) node < length links.old.items }
    ensures next { nexts links.new.items ≡ slice_set (nexts links.old.items) (at_node (prevs links.old.items) node) (at_node (nexts links.old.items) node) }
    ensures prev { prevs links.new.items ≡ slice_set (prevs links.old.items) (at_node (nexts links.old.items) node) (at_node (prevs links.old.items) node) }
    ensures home { homes links.new.items ≡ slice_set (homes links.old.items) node free }
    ensures capacity { vec_capacity links.new ≡ vec_capacity links.old }
{
    let link = links[node];
    set_next(links, link.prev as usize, link.next);
    set_prev(links, link.next as usize, link.prev);
    set_home(links, node, FREE);
}

/// Links a node before `at`, in the list of `home`.
pub(crate) fn link_in(links: &mut Vec<Link>, node: usize, at: usize, home: u32)
    requires few { length links.old.items < free }
    requires inside { node < length links.old.items }
    requires at { at < length links.old.items }
    requires prev { at_node (prevs links.old.items) at < length links.old.items }
    ensures next { nexts links.new.items ≡ slice_set (slice_set (nexts links.old.items) (at_node (prevs links.old.items) at) node) node at }
    ensures prev { prevs links.new.items ≡ slice_set (slice_set (prevs links.old.items) at node) node (at_node (prevs links.old.items) at) }
    ensures home { homes links.new.items ≡ slice_set (homes links.old.items) node home }
    ensures capacity { vec_capacity links.new ≡ vec_capacity links.old }
{
    let prev = links[at].prev;
    set_next(links, prev as usize, node as u32);
    set_prev(links, at, node as u32);
    set_next(links, node, at as u32);
    set_prev(links, node, prev);
    set_home(links, node, home);
}

/// Makes a free node the head of an empty list.
pub(crate) fn close(links: &mut Vec<Link>, node: usize)
    requires few { length links.old.items < free }
    requires inside { node < length links.old.items }
    ensures next { nexts links.new.items ≡ slice_set (nexts links.old.items) node node }
    ensures prev { prevs links.new.items ≡ slice_set (prevs links.old.items) node node }
    ensures home { homes links.new.items ≡ slice_set (homes links.old.items) node node }
    ensures capacity { vec_capacity links.new ≡ vec_capacity links.old }
{
    let own = node as u32;
    set_next(links, node, own);
    set_prev(links, node, own);
    set_home(links, node, own);
}

/// Frees the head of an empty list.
pub(crate) fn open(links: &mut Vec<Link>, node: usize)
    requires { node < length links.old.items }
    ensures next { nexts links.new.items ≡ nexts links.old.items }
    ensures prev { prevs links.new.items ≡ prevs links.old.items }
    ensures home { homes links.new.items ≡ slice_set (homes links.old.items) node free }
    ensures capacity { vec_capacity links.new ≡ vec_capacity links.old }
{
    set_home(links, node, FREE);
}

/// Adds a node with head `home`, to which no other node links. There is spare capacity.
pub(crate) fn grow(links: &mut Vec<Link>, home: u32)
    requires few { length links.old.items < free }
    requires headroom { vec_len links.old < vec_capacity links.old }
    ensures items { links.new.items ≡ links.old.items ++ record { prev = length links.old.items; next = length links.old.items; home = home } ∷ [] }
    ensures capacity { vec_capacity links.old ≤ vec_capacity links.new }
{
    let node = links.len() as u32;
    match links.push(Link {
        prev: node,
        next: node,
        home,
    }) {
        Ok(()) => {}
        Err(_) => unreachable!(),
    }
}
