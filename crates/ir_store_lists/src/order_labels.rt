//! The labels of nodes, which increase along each list.
ghost use Rattle.std.specs.Prelude.{◌≡◌, ◌<◌, ◌≤◌, ◌+◌, ◌∷◌, ◌++◌, [], take, IfSome};
ghost use Rattle.std.specs.Vec.{vec_capacity, vec_len};
ghost use Rattle.ir_store_lists.specs.Lists.{IsHead, IsItem, home_at, list_at};
ghost use Rattle.ir_store_lists.specs.Labels.{IsHeadroom, Rising, from, label_at, label_before, last_label, spread, spread_end, step};

use crate::chains::LinkedLists;

/// The distance of labels when a list is relabelled, or grows at its end.
const STEP: u64 = 1 << 32;

/// The number of nodes to relabel, and the distance of their new labels.
#[derive(Clone, Copy, Drop)]
struct LabelGap {
    count: u64,
    gap: u64,
}

/// Returns the label of the node before `node`, or 0 if `node` is the first of its list.
fn low_label(chains: &LinkedLists, labels: &[u64], node: usize) -> u64
    requires node { IsItem chains.now.homes node }
    requires rising { Rising chains.now labels.now }
    ensures { result ≡ label_before labels.now 0 node (list_at chains.now.lists (home_at chains.now.homes node)) }
{
    chains.laws();
    match chains.prev(node) {
        Some(prev) => labels[prev],
        None => 0,
    }
}

/// Returns the label of the last node of a list, or 0 if the list is empty.
fn high_label(chains: &LinkedLists, labels: &[u64], head: usize) -> u64
    requires head { IsHead chains.now.homes head }
    requires rising { Rising chains.now labels.now }
    ensures { result ≡ last_label labels.now 0 (list_at chains.now.lists head) }
{
    chains.laws();
    match chains.last(head) {
        Some(node) => labels[node],
        None => 0,
    }
}

/// Returns the nodes to relabel so that a label before `node` becomes free; the previous node has the label `low`. The
/// nodes from `node` on are relabelled, as few as leave gaps wider than their number. Returns `None` if even the whole
/// list leaves no such gaps.
fn find_headroom(chains: &LinkedLists, labels: &[u64], node: usize, low: u64) -> Option<LabelGap>
    requires node { IsItem chains.now.homes node }
    requires rising { Rising chains.now labels.now }
    requires low { low ≡ label_before labels.now 0 node (list_at chains.now.lists (home_at chains.now.homes node)) }
    ensures { IfSome result (λ headroom. IsHeadroom labels.now low headroom.count headroom.gap (from node (list_at chains.now.lists (home_at chains.now.homes node)))) }
{
    chains.laws();
    let mut count = 0;
    let mut next = Some(node);
    'nodes: while let Some(at) = next {
        let gap = (labels[at] - low) / (count + 2);
        if gap > count {
            return Some(LabelGap { count, gap });
        }
        count += 1;
        next = chains.next(at);
    }
    let gap = ((u64::MAX - low) / (count + 2)).min(STEP);
    if gap <= count {
        return None;
    }
    Some(LabelGap { count, gap })
}

/// Relabels the given number of nodes from `node` on, or as many as there are. Each label is a gap above the previous
/// one, and the first is above `low`. Returns the last label.
fn relabel(
    chains: &LinkedLists,
    labels: &mut [u64],
    node: usize,
    low: u64,
    headroom: &LabelGap,
) -> u64
    requires node { IsItem chains.now.homes node }
    requires rising { Rising chains.now labels.old }
    requires fits { spread_end headroom.now.gap low (take headroom.now.count (from node (list_at chains.now.lists (home_at chains.now.homes node)))) < 18446744073709551616 }
    ensures labels { labels.new ≡ spread headroom.now.gap low (take headroom.now.count (from node (list_at chains.now.lists (home_at chains.now.homes node)))) labels.old }
    ensures last { result ≡ spread_end headroom.now.gap low (take headroom.now.count (from node (list_at chains.now.lists (home_at chains.now.homes node)))) }
{
    chains.laws();
    let gap = headroom.gap;
    let mut left = headroom.count;
    let mut label = low;
    let mut next = Some(node);
    'nodes: while let Some(at) = next {
        if left == 0 {
            return label;
        }
        left -= 1;
        label += gap;
        labels[at] = label;
        next = chains.next(at);
    }
    label
}

/// Relabels the list of `head`, with labels `STEP` apart, and returns the last label.
fn relabel_all(chains: &LinkedLists, labels: &mut [u64], head: usize) -> u64
    requires head { IsHead chains.now.homes head }
    requires rising { Rising chains.now labels.old }
    ensures labels { labels.new ≡ spread step 0 (list_at chains.now.lists head) labels.old }
    ensures last { result ≡ spread_end step 0 (list_at chains.now.lists head) }
{
    chains.laws();
    let Some(first) = chains.first(head) else {
        return 0;
    };
    let headroom = LabelGap {
        count: u64::MAX,
        gap: STEP,
    };
    relabel(chains, labels, first, 0, &headroom)
}

/// Returns a label for a node to be inserted before `node`. If there is none between its neighbours, some nodes are
/// relabelled.
pub(crate) fn label_for(chains: &LinkedLists, labels: &mut [u64], node: usize) -> u64
    requires node { IsItem chains.now.homes node }
    requires rising { Rising chains.now labels.old }
    ensures rising { Rising chains.now labels.new }
    ensures low { label_before labels.new 0 node (list_at chains.now.lists (home_at chains.now.homes node)) < result }
    ensures high { result < label_at labels.new node }
{
    chains.laws();
    let low = low_label(chains, labels, node);
    if let Some(headroom) = find_headroom(chains, labels, node, low) {
        let label = low + headroom.gap;
        let _last = relabel(chains, labels, node, label, &headroom);
        return label;
    }
    let Some(head) = chains.head_of(node) else {
        unreachable!()
    };
    let _last = relabel_all(chains, labels, head);
    labels[node] - STEP / 2
}

/// Returns a label for a node to be appended to the list of `head`. If the labels are used up, the list is relabelled.
pub(crate) fn end_label(chains: &LinkedLists, labels: &mut [u64], head: usize) -> u64
    requires head { IsHead chains.now.homes head }
    requires rising { Rising chains.now labels.old }
    ensures rising { Rising chains.now labels.new }
    ensures above { last_label labels.new 0 (list_at chains.now.lists head) < result }
{
    chains.laws();
    let last = high_label(chains, labels, head);
    if last <= u64::MAX - STEP {
        return last + STEP;
    }
    relabel_all(chains, labels, head) + STEP
}

/// Adds the label of a node in no list. There is spare capacity.
pub(crate) fn push_label(labels: &mut Vec<u64>)
    requires { vec_len labels.old < vec_capacity labels.old }
    ensures items { labels.new.items ≡ labels.old.items ++ 0 ∷ [] }
    ensures capacity { vec_capacity labels.old ≤ vec_capacity labels.new }
{
    match labels.push(0) {
        Ok(()) => {}
        Err(_) => unreachable!(),
    }
}
