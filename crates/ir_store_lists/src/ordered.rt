//! Linked lists of nodes that give the order of two nodes of one list.
ghost use Rattle.std.specs.Prelude.{◌≡◌, ◌+◌, ◌<◌, [], ◌∷◌, ◌++◌, map, length, max, slice_set, IfOk, OnErr, OnOk, MatchOption, slice_get, None};
ghost use Rattle.ir_store_lists.specs.Lists.{IsHead, IsItem, IsFree, free, list_at, home_at, without, put_before, after, before, last_of, let_go, with_node, Laws};
ghost use Rattle.ir_store_lists.specs.Labels.{goes_before};

use crate::chains::LinkedLists;
use crate::order_labels::{end_label, label_for, push_label};
use std::alloc::{AllocError, Global};
use std::marker::Model;

/// The limit of nodes: labels for all of them, `STEP` apart, fit 64 bits.
const MOST: usize = 0xffff_fffe;

/// Linked lists of nodes with a label for each node. The labels increase along each list.
#[derive(Drop)]
pub struct OrderedLists {
    chains: LinkedLists,
    labels: Vec<u64>,
}

impl Model for OrderedLists {
    ghost use Rattle.std.specs.Prelude.{length};
    ghost use Rattle.std.specs.Vec.{vec_capacity};
    ghost use Rattle.ir_store_lists.specs.Lists.{Lists, lists_code};
    ghost use Rattle.ir_store_lists.specs.Labels.{Rising, HasHeadroom};

    ghost Value = { Lists };

    ghost coded = { lists_code };

    ghost view = { λ c. c.chains };

    ghost invariant = { λ c. Rising c.chains c.labels.items × HasHeadroom (length c.labels.items) (vec_capacity c.labels) c.chains.headroom };
}

impl OrderedLists {
    /// Returns lists without nodes.
    pub fn new(alloc: Global) -> OrderedLists
        ensures { result ≡ record { lists = []; homes = []; headroom = 0 } }
    {
        OrderedLists {
            chains: LinkedLists::new(alloc),
            labels: Vec::new(alloc),
        }
    }

    /// Returns lists without nodes, with capacity for `count` nodes, as `LinkedLists::with_capacity` does.
    pub fn with_capacity(alloc: Global, count: usize) -> Result<OrderedLists, AllocError>
        ensures { IfOk result (λ c. c ≡ record { lists = []; homes = []; headroom = 0 }) }
    {
        Ok(OrderedLists {
            chains: LinkedLists::with_capacity(alloc, count)?,
            labels: Vec::with_capacity(alloc, count)?,
        })
    }

    /// Returns whether `a` is before `b` in their list.
    pub fn is_before(&self, a: usize, b: usize) -> bool
        requires a { IsItem self.now.homes a }
        requires b { IsItem self.now.homes b }
        requires same { home_at self.now.homes b ≡ home_at self.now.homes a }
        ensures { result ≡ goes_before a b (list_at self.now.lists (home_at self.now.homes a)) }
    {
        self.chains.laws();
        self.labels[a] < self.labels[b]
    }

    /// Removes a node from its list. The node is then free.
    pub fn remove(&mut self, node: usize)
        requires { IsItem self.old.homes node }
        ensures lists { self.new.lists ≡ map (without node) self.old.lists }
        ensures homes { self.new.homes ≡ slice_set self.old.homes node free }
        ensures headroom { self.new.headroom ≡ self.old.headroom }
    {
        self.chains.remove(node);
    }

    /// Inserts a free node before `at`.
    pub fn insert_before(&mut self, node: usize, at: usize)
        requires free { IsFree self.old.homes node }
        requires at { IsItem self.old.homes at }
        ensures lists { self.new.lists ≡ map (put_before node at) self.old.lists }
        ensures homes { self.new.homes ≡ slice_set self.old.homes node (home_at self.old.homes at) }
        ensures headroom { self.new.headroom ≡ self.old.headroom }
    {
        self.chains.laws();
        let label = label_for(&self.chains, &mut self.labels, at);
        self.labels[node] = label;
        self.chains.insert_before(node, at);
    }

    /// Appends a free node to the list of a head.
    pub fn push_back(&mut self, node: usize, head: usize)
        requires free { IsFree self.old.homes node }
        requires head { IsHead self.old.homes head }
        ensures lists { self.new.lists ≡ slice_set self.old.lists head (list_at self.old.lists head ++ node ∷ []) }
        ensures homes { self.new.homes ≡ slice_set self.old.homes node head }
        ensures headroom { self.new.headroom ≡ self.old.headroom }
    {
        self.chains.laws();
        let label = end_label(&self.chains, &mut self.labels, head);
        self.labels[node] = label;
        self.chains.push_back(node, head);
    }
}

impl OrderedLists {
    /// Returns the head of a node's list, or the node itself if it is a head, or `None` if it is free.
    pub fn home(&self, node: usize) -> Option<usize>
        requires { node < length self.now.homes }
        ensures { MatchOption result (home_at self.now.homes node ≡ free) (λ h. (h ≡ home_at self.now.homes node) × (h ≡ free → ⊥)) }
    {
        self.chains.head_of(node)
    }

    /// Returns the first node of a head's list, or `None` if the list is empty.
    pub fn first(&self, head: usize) -> Option<usize>
        requires { IsHead self.now.homes head }
        ensures { result ≡ slice_get (list_at self.now.lists head) 0 }
    {
        self.chains.first(head)
    }

    /// Returns the last node of a head's list, or `None` if the list is empty.
    pub fn last(&self, head: usize) -> Option<usize>
        requires { IsHead self.now.homes head }
        ensures { result ≡ last_of None (list_at self.now.lists head) }
    {
        self.chains.last(head)
    }

    /// Returns the node after an item, or `None` if the item is the last one.
    pub fn next(&self, node: usize) -> Option<usize>
        requires { IsItem self.now.homes node }
        ensures { result ≡ after node (list_at self.now.lists (home_at self.now.homes node)) }
    {
        self.chains.next(node)
    }

    /// Returns the node before an item, or `None` if the item is the first one.
    pub fn prev(&self, node: usize) -> Option<usize>
        requires { IsItem self.now.homes node }
        ensures { result ≡ before node None (list_at self.now.lists (home_at self.now.homes node)) }
    {
        self.chains.prev(node)
    }

    /// Returns the number of nodes.
    pub fn len(&self) -> usize
        ensures { result ≡ length self.now.homes }
    {
        self.chains.len()
    }

    /// Lemma: each item is in the list of its head, exactly once.
    pub fn laws(&self)
        ensures { Laws self.now.lists self.now.homes }
    {
        self.chains.laws();
    }
}

impl OrderedLists {
    /// Makes a free node the head of an empty list.
    pub fn make_head(&mut self, node: usize)
        requires { IsFree self.old.homes node }
        ensures { self.new ≡ record self.old { homes = slice_set self.old.homes node node } }
    {
        self.chains.make_head(node);
    }

    /// Frees the head of an empty list.
    pub fn free_head(&mut self, head: usize)
        requires head { IsHead self.old.homes head }
        requires empty { list_at self.old.lists head ≡ [] }
        ensures { self.new ≡ record self.old { homes = slice_set self.old.homes head free } }
    {
        self.chains.free_head(head);
    }

    /// Removes the first node of a head's list and returns it, as `LinkedLists::pop_front` does.
    pub fn pop_front(&mut self, head: usize) -> Option<usize>
        requires { IsHead self.old.homes head }
        ensures first { result ≡ slice_get (list_at self.old.lists head) 0 }
        ensures taken { MatchOption result (self.new ≡ self.old) (λ n. self.new ≡ let_go n self.old) }
    {
        self.chains.pop_front(head)
    }
}

impl OrderedLists {
    /// Reserves capacity for `count` more nodes. Adding them can't be refused afterwards.
    pub fn reserve(&mut self, count: usize) -> Result<(), AllocError>
        ensures made { OnOk result (self.new ≡ record self.old { headroom = max self.old.headroom count }) }
        ensures refused { OnErr result ((self.new ≡ self.old) × (self.old.headroom < count)) }
    {
        let len = self.labels.len();
        if count > MOST - len {
            return Err(AllocError);
        }
        match self.labels.reserve(count) {
            Ok(()) => self.chains.reserve(count),
            Err(e) => Err(e),
        }
    }

    /// Adds a free node, in the reserved capacity, and returns it.
    pub fn new_node(&mut self) -> usize
        requires { 0 < self.old.headroom }
        ensures node { result ≡ length self.old.homes }
        ensures added { self.new ≡ with_node free self.old }
    {
        push_label(&mut self.labels);
        self.chains.new_node()
    }

    /// Adds the head of an empty list, in the reserved capacity, and returns it.
    pub fn new_head(&mut self) -> usize
        requires { 0 < self.old.headroom }
        ensures node { result ≡ length self.old.homes }
        ensures added { self.new ≡ with_node result self.old }
    {
        push_label(&mut self.labels);
        self.chains.new_head()
    }

    /// Adds a free node and returns it.
    pub fn add_node(&mut self) -> Result<usize, AllocError>
        ensures added { IfOk result (λ n. (n ≡ length self.old.homes) × (self.new ≡ with_node free self.old)) }
        ensures refused { OnErr result ((self.new ≡ self.old) × (self.old.headroom ≡ 0)) }
    {
        match self.reserve(1) {
            Ok(()) => Ok(self.new_node()),
            Err(e) => Err(e),
        }
    }

    /// Adds the head of an empty list and returns it.
    pub fn add_head(&mut self) -> Result<usize, AllocError>
        ensures added { IfOk result (λ n. (n ≡ length self.old.homes) × (self.new ≡ with_node n self.old)) }
        ensures refused { OnErr result ((self.new ≡ self.old) × (self.old.headroom ≡ 0)) }
    {
        match self.reserve(1) {
            Ok(()) => Ok(self.new_head()),
            Err(e) => Err(e),
        }
    }
}

impl OrderedLists {
    /// Appends the nodes of a head's list to `out`.
    pub fn nodes(&self, head: usize, out: &mut Vec<usize>) -> Result<(), AllocError>
        requires { IsHead self.now.homes head }
        ensures { OnOk result (out.new.items ≡ out.old.items ++ list_at self.now.lists head) }
    {
        self.chains.nodes(head, out)
    }
}
