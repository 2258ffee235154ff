//! Linked lists of nodes.
ghost use Rattle.std.specs.Prelude.{◌≡◌, ◌+◌, ◌<◌, List, [], ◌∷◌, ◌++◌, map, length, max, slice_set, IfOk, OnErr, OnOk, MatchOption, slice_get, None};
ghost use Rattle.ir_store_lists.specs.Lists.{Lists, IsHead, IsItem, IsFree, free, list_at, home_at, without, put_before, after, before, last_of, let_go, with_node, Laws};
ghost use Rattle.ir_store_lists.specs.Ring.{Linked, Linked-prop};

use crate::link::Link;
use crate::write::{FREE, close, grow, link_in, open, unlink};
use std::alloc::{AllocError, Global};
use std::marker::Model;

/// Linked lists of nodes. A node is the head of a list, an item of one list, or free.
#[derive(Drop)]
pub struct LinkedLists {
    links: Vec<Link>,
    headroom: usize,
    ghost linked: { Linked links.items } by { Linked-prop links.items },
}

impl Model for LinkedLists {
    ghost use Rattle.std.specs.Prelude.{length};
    ghost use Rattle.std.specs.Vec.{vec_capacity};
    ghost use Rattle.ir_store_lists.specs.Lists.{Lists, lists_code};
    ghost use Rattle.ir_store_lists.specs.Ring.{homes, HasHeadroom};

    ghost Value = { Lists };

    ghost coded = { lists_code };

    ghost view = { λ c. record { lists = c.linked.0; homes = homes c.links.items; headroom = c.headroom } };

    ghost invariant = { λ c. HasHeadroom (length c.links.items) (vec_capacity c.links) c.headroom };
}

impl LinkedLists {
    /// Returns lists without nodes.
    pub fn new(alloc: Global) -> LinkedLists
        ensures { result ≡ record { lists = []; homes = []; headroom = 0 } }
    {
        LinkedLists {
            links: Vec::new(alloc),
            headroom: 0,
        }
    }

    /// Returns lists without nodes, with capacity for `count` nodes without reallocation. Adding them may still be
    /// refused.
    pub fn with_capacity(alloc: Global, count: usize) -> Result<LinkedLists, AllocError>
        ensures { IfOk result (λ c. c ≡ record { lists = []; homes = []; headroom = 0 }) }
    {
        Ok(LinkedLists {
            links: Vec::with_capacity(alloc, count)?,
            headroom: 0,
        })
    }

    /// Removes a node from its list. The node is then free.
    pub fn remove(&mut self, node: usize)
        requires { IsItem self.old.homes node }
        ensures lists { self.new.lists ≡ map (without node) self.old.lists }
        ensures homes { self.new.homes ≡ slice_set self.old.homes node free }
        ensures headroom { self.new.headroom ≡ self.old.headroom }
    {
        unlink(&mut self.links, node);
    }
}

impl LinkedLists {
    /// Inserts a free node before `at`.
    pub fn insert_before(&mut self, node: usize, at: usize)
        requires free { IsFree self.old.homes node }
        requires at { IsItem self.old.homes at }
        ensures lists { self.new.lists ≡ map (put_before node at) self.old.lists }
        ensures homes { self.new.homes ≡ slice_set self.old.homes node (home_at self.old.homes at) }
        ensures headroom { self.new.headroom ≡ self.old.headroom }
    {
        let home = self.links[at].home;
        link_in(&mut self.links, node, at, home);
    }

    /// Appends a free node to the list of a head.
    pub fn push_back(&mut self, node: usize, head: usize)
        requires free { IsFree self.old.homes node }
        requires head { IsHead self.old.homes head }
        ensures lists { self.new.lists ≡ slice_set self.old.lists head (list_at self.old.lists head ++ node ∷ []) }
        ensures homes { self.new.homes ≡ slice_set self.old.homes node head }
        ensures headroom { self.new.headroom ≡ self.old.headroom }
    {
        link_in(&mut self.links, node, head, head as u32);
    }

    /// Returns the head of a node's list, or the node itself if it is a head, or `None` if it is free.
    pub fn head_of(&self, node: usize) -> Option<usize>
        requires { node < length self.now.homes }
        ensures { MatchOption result (home_at self.now.homes node ≡ free) (λ h. (h ≡ home_at self.now.homes node) × (h ≡ free → ⊥)) }
    {
        let home = self.links[node].home;
        if home == FREE {
            None
        } else {
            Some(home as usize)
        }
    }

    /// Returns the first node of a head's list, or `None` if the list is empty.
    pub fn first(&self, head: usize) -> Option<usize>
        requires { IsHead self.now.homes head }
        ensures { result ≡ slice_get (list_at self.now.lists head) 0 }
    {
        let node = self.links[head].next as usize;
        if node == head { None } else { Some(node) }
    }

    /// Returns the last node of a head's list, or `None` if the list is empty.
    pub fn last(&self, head: usize) -> Option<usize>
        requires { IsHead self.now.homes head }
        ensures { result ≡ last_of None (list_at self.now.lists head) }
    {
        let node = self.links[head].prev as usize;
        if node == head { None } else { Some(node) }
    }

    /// Returns the node after an item, or `None` if the item is the last one.
    pub fn next(&self, node: usize) -> Option<usize>
        requires { IsItem self.now.homes node }
        ensures { result ≡ after node (list_at self.now.lists (home_at self.now.homes node)) }
    {
        let link = self.links[node];
        if link.next == link.home {
            None
        } else {
            Some(link.next as usize)
        }
    }

    /// Returns the node before an item, or `None` if the item is the first one.
    pub fn prev(&self, node: usize) -> Option<usize>
        requires { IsItem self.now.homes node }
        ensures { result ≡ before node None (list_at self.now.lists (home_at self.now.homes node)) }
    {
        let link = self.links[node];
        if link.prev == link.home {
            None
        } else {
            Some(link.prev as usize)
        }
    }
}

impl LinkedLists {
    /// Makes a free node the head of an empty list.
    pub fn make_head(&mut self, node: usize)
        requires { IsFree self.old.homes node }
        ensures { self.new ≡ record self.old { homes = slice_set self.old.homes node node } }
    {
        close(&mut self.links, node);
    }

    /// Frees the head of an empty list.
    pub fn free_head(&mut self, head: usize)
        requires head { IsHead self.old.homes head }
        requires empty { list_at self.old.lists head ≡ [] }
        ensures { self.new ≡ record self.old { homes = slice_set self.old.homes head free } }
    {
        open(&mut self.links, head);
    }

    /// Removes the first node of a head's list and returns it, or `None` if the list is empty. The node is then free,
    /// so a list of unused nodes serves as a free list.
    pub fn pop_front(&mut self, head: usize) -> Option<usize>
        requires { IsHead self.old.homes head }
        ensures first { result ≡ slice_get (list_at self.old.lists head) 0 }
        ensures taken { MatchOption result (self.new ≡ self.old) (λ n. self.new ≡ let_go n self.old) }
    {
        self.laws();
        let Some(node) = self.first(head) else {
            return None;
        };
        self.remove(node);
        Some(node)
    }
}

impl LinkedLists {
    /// Reserves capacity for `count` more nodes. Adding them can't be refused afterwards.
    pub fn reserve(&mut self, count: usize) -> Result<(), AllocError>
        ensures made { OnOk result (self.new ≡ record self.old { headroom = max self.old.headroom count }) }
        ensures refused { OnErr result ((self.new ≡ self.old) × (self.old.headroom < count)) }
    {
        if count <= self.headroom {
            return Ok(());
        }
        if count >= FREE as usize - self.links.len() {
            return Err(AllocError);
        }
        match self.links.reserve(count) {
            Ok(()) => {
                self.headroom = count;
                Ok(())
            }
            Err(e) => Err(e),
        }
    }

    /// Adds a free node, in the reserved capacity, and returns it.
    pub fn new_node(&mut self) -> usize
        requires { 0 < self.old.headroom }
        ensures node { result ≡ length self.old.homes }
        ensures added { self.new ≡ with_node free self.old }
    {
        let node = self.links.len();
        grow(&mut self.links, FREE);
        self.headroom -= 1;
        node
    }

    /// Adds the head of an empty list, in the reserved capacity, and returns it.
    pub fn new_head(&mut self) -> usize
        requires { 0 < self.old.headroom }
        ensures node { result ≡ length self.old.homes }
        ensures added { self.new ≡ with_node result self.old }
    {
        let node = self.links.len();
        grow(&mut self.links, node as u32);
        self.headroom -= 1;
        node
    }

    /// Adds a free node and returns it.
    pub fn add_node(&mut self) -> Result<usize, AllocError>
        ensures added { IfOk result (λ n. (n ≡ length self.old.homes) × (self.new ≡ with_node free self.old)) }
        ensures refused { OnErr result ((self.new ≡ self.old) × (self.old.headroom ≡ 0)) }
    {
        match self.reserve(1) {
            Ok(()) => Ok(self.new_node()),
            Err(e) => Err(e),
        }
    }

    /// Adds the head of an empty list and returns it.
    pub fn add_head(&mut self) -> Result<usize, AllocError>
        ensures added { IfOk result (λ n. (n ≡ length self.old.homes) × (self.new ≡ with_node n self.old)) }
        ensures refused { OnErr result ((self.new ≡ self.old) × (self.old.headroom ≡ 0)) }
    {
        match self.reserve(1) {
            Ok(()) => Ok(self.new_head()),
            Err(e) => Err(e),
        }
    }
}

impl LinkedLists {
    /// Appends the nodes of a head's list to `out`.
    pub fn nodes(&self, head: usize, out: &mut Vec<usize>) -> Result<(), AllocError>
        requires { IsHead self.now.homes head }
        ensures { OnOk result (out.new.items ≡ out.old.items ++ list_at self.now.lists head) }
    {
        let links = &self.links;
        let mut node = links[head].next as usize;
        while node != head {
            out.push(node)?;
            node = links[node].next as usize;
        }
        Ok(())
    }

    /// Returns the number of nodes.
    pub fn len(&self) -> usize
        ensures { result ≡ length self.now.homes }
    {
        self.links.len()
    }

    /// Lemma: each item is in the list of its head, exactly once.
    pub fn laws(&self)
        ensures { Laws self.now.lists self.now.homes }
    {
        let _ = &self.links;
    }
}
