ghost use Rattle.std.specs.Prelude.{◌≡◌, ◌+◌, ◌<◌, ◌≤◌, List, MatchOption, length, vec_capacity, vec_len};
ghost use Rattle.lead_index.specs.declared.lead.Lead.{Lead};
ghost use Rattle.lead_index.specs.Leads.{IsFirstReducer, IsFree, IsIndex};
ghost use Rattle.lead_index.specs.Tree.{HasPath, IsAttached, IsMissed, IsOnPath, IsRising, IsTree, Meets};

use crate::index::Place;

/// A node of the prefix tree: a letter, the first node for the next letter, the next node for another letter in
/// its place, and the element of the word that ends with it.
#[derive(Debug, Clone, Copy)]
pub(crate) struct Node {
    pub(crate) letter: u8,
    pub(crate) child: Option<u32>,
    pub(crate) sibling: Option<u32>,
    pub(crate) element: Option<u32>,
}

/// The element of the first word of the tree that the letters begin with.
pub(crate) fn first_element(nodes: &[Node], letters: &[u8]) -> Option<u32>
    requires { IsRising nodes.now }
    ensures { MatchOption result (IsMissed nodes.now 0 letters.now) (λ element. Meets nodes.now letters.now element) }
{
    if nodes.is_empty() {
        return None;
    }
    let mut node = 0;
    let mut place = 0;
    while place < letters.len() {
        let here = nodes[node];
        if here.letter != letters[place] {
            let Some(sibling) = here.sibling else {
                return None;
            };
            node = sibling as usize;
            continue;
        }
        if let Some(element) = here.element {
            return Some(element);
        }
        let Some(child) = here.child else {
            return None;
        };
        node = child as usize;
        place += 1;
    }
    None
}

/// The leftmost place where a word of the tree stands, place after place.
pub(crate) fn first_place(nodes: &[Node], word: &[u8]) -> Option<Place>
    requires small { length word.now ≤ 64 }
    requires rising { IsRising nodes.now }
    ensures { (leads : List Lead) → IsIndex leads → IsTree nodes.now leads →
        MatchOption result (IsFree leads word.now) (λ place. IsFirstReducer leads word.now place.at place.element) }
{
    for at in 0..word.len() {
        if let Some(element) = first_element(nodes, &word[at..]) {
            return Some(Place {
                at: at as u32,
                element,
            });
        }
    }
    None
}

/// Gives the number of letters along which the tree has a path, and links the end of this path to the next node
/// that will be pushed, whose number has 32 bits.
pub(crate) fn attach(nodes: &mut Vec<Node>, letters: &[u8]) -> usize
    requires rising { IsRising nodes.old.items }
    requires few { vec_len nodes.old < 4294967296 }
    ensures attached { IsAttached nodes.old.items nodes.new.items letters.now result }
    ensures within { result ≤ length letters.now }
    ensures count { vec_len nodes.new ≡ vec_len nodes.old }
    ensures capacity { vec_capacity nodes.new ≡ vec_capacity nodes.old }
{
    let next = nodes.len();
    if next == 0 {
        return 0;
    }
    let mut node = 0;
    let mut place = 0;
    while place < letters.len() {
        let here = nodes[node];
        if here.letter != letters[place] {
            let Some(sibling) = here.sibling else {
                nodes[node].sibling = Some(next as u32);
                return place;
            };
            node = sibling as usize;
            continue;
        }
        place += 1;
        let Some(child) = here.child else {
            nodes[node].child = Some(next as u32);
            return place;
        };
        node = child as usize;
    }
    place
}

/// Pushes a node for each letter, each the child of the one before, with the element at the last.
pub(crate) fn push_path(nodes: &mut Vec<Node>, letters: &[u8], element: u32)
    requires room { vec_len nodes.old + length letters.now ≤ vec_capacity nodes.old }
    requires few { vec_len nodes.old + length letters.now < 4294967296 }
    ensures { HasPath nodes.old.items nodes.new.items letters.now element }
{
    for i in 0..letters.len() {
        let node = path_node(letters, i, nodes.len() as u32 + 1, element);
        match nodes.push(node) {
            Ok(()) => {}
            Err(_) => unreachable!(),
        }
    }
}

fn path_node(letters: &[u8], i: usize, next: u32, element: u32) -> Node
    requires { i < length letters.now }
    ensures { IsOnPath next letters.now element i result }
{
    let letter = letters[i];
    if i + 1 == letters.len() {
        return Node {
            letter,
            child: None,
            sibling: None,
            element: Some(element),
        };
    }
    Node {
        letter,
        child: Some(next),
        sibling: None,
        element: None,
    }
}
