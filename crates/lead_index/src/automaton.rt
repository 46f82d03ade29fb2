ghost use Rattle.std.specs.Prelude.{◌≡◌, ◌+◌, ◌<◌, ◌≤◌, ℕ, List, All, IfOk, MatchOption, OnOk, Some};
ghost use Rattle.std.specs.Prelude.{false, length};
ghost use Rattle.std.specs.Bool.{OnTrue};
ghost use Rattle.std.specs.List.{slice_get};
ghost use Rattle.lead_index.specs.declared.lead.Lead.{Lead};
ghost use Rattle.lead_index.specs.declared.tree.Node.{Node};
ghost use Rattle.lead_index.specs.Automaton.{IsAutomaton, IsBehind, IsMove, IsState, MayRun};
ghost use Rattle.lead_index.specs.Leads.{IsFirstReducer, IsFree, IsIndex};
ghost use Rattle.lead_index.specs.Tree.{IsMissed, IsRising, IsTree, Meets};

use crate::index::Place;
use crate::steps::{Step, step_at};
use crate::tree::{Node, first_element, first_place};
use std::alloc::Global;
use words::NoMemory;

/// The most steps of a table, which then has 8 MiB. A larger tree is walked along its links.
const MOST_STEPS: usize = 1_048_576;

/// What a move does: it comes to a state, or finds the end of a word. One that is not set is not known.
#[derive(Debug, Clone, Copy)]
pub(crate) enum Kind {
    Unset,
    Moves,
    Finds,
}

/// A move by a letter to a state, or to the element of the word that ends, which has so many letters. It falls where
/// no word of the tree goes on with the letter, so that only an end of the letters before serves.
#[derive(Debug, Clone, Copy)]
pub(crate) struct Move {
    to: u32,
    len: u8,
    kind: Kind,
    falls: bool,
}

/// The automaton of Aho and Corasick 1975: a state is a node, and stands for the longest end of the letters read that
/// begins a word. The table has a move for each node and each letter up to the greatest in the tree.
#[derive(Debug, Drop)]
pub(crate) struct Automaton {
    letters: usize,
    moves: Vec<Move>,
}

/// A state, so many letters below the first, with the one for the longest proper end of its letters.
#[derive(Debug, Clone, Copy)]
pub(crate) struct State {
    node: u32,
    fall: u32,
    depth: u8,
}

impl Automaton {
    /// The automaton of a tree, or none where it would be too large. Its states are filled by rising depth, so that
    /// the state to which one falls is filled before it; that this is so only makes it faster.
    pub(crate) fn of(alloc: Global, nodes: &[Node]) -> Result<Option<Automaton>, NoMemory>
        requires { IsRising nodes.now }
        ensures { IfOk result (MayRun nodes.now) }
    {
        let letters = letters_of(nodes);
        let count = nodes.len().saturating_mul(letters);
        if count > MOST_STEPS || nodes.is_empty() {
            return Ok(None);
        }
        let unset = Move {
            to: 0,
            len: 0,
            kind: Kind::Unset,
            falls: false,
        };
        let mut moves = vec![in alloc; unset; count]?;
        let mut states = Vec::new(alloc);
        states.push(State {
            node: 0,
            fall: 0,
            depth: 0,
        })?;
        for next in 0..nodes.len() {
            if next >= states.len() {
                break;
            }
            let state = states[next];
            fill(nodes, letters, &mut moves, &mut states, state)?;
        }
        Ok(Some(Automaton { letters, moves }))
    }

    /// The element of the first word of the tree that the letters begin with.
    pub(crate) fn element(&self, nodes: &[Node], letters: &[u8]) -> Option<u32>
        requires rising { IsRising nodes.now }
        requires moves { IsAutomaton nodes.now self.now.letters self.now.moves.items }
        ensures { MatchOption result (IsMissed nodes.now 0 letters.now)
            (λ element. Meets nodes.now letters.now element) }
    {
        let mut node = 0;
        let mut place = 0;
        while place < letters.len() {
            let letter = usize::from(letters[place]);
            // No word of the tree has it: the walk along the links says so.
            if letter >= self.letters {
                return first_element(nodes, letters);
            }
            let here = self.moves[node * self.letters + letter];
            if here.falls {
                return None;
            }
            match here.kind {
                Kind::Unset => return first_element(nodes, letters),
                Kind::Moves => node = here.to as usize,
                Kind::Finds => return Some(here.to),
            }
            place += 1;
        }
        None
    }

    /// The leftmost place where a word of the tree stands: the first that ends, since none is a factor of another.
    pub(crate) fn first_place(&self, nodes: &[Node], word: &[u8]) -> Option<Place>
        requires small { length word.now ≤ 64 }
        requires rising { IsRising nodes.now }
        requires moves { IsAutomaton nodes.now self.now.letters self.now.moves.items }
        ensures { (leads : List Lead) → IsIndex leads → IsTree nodes.now leads →
            MatchOption result (IsFree leads word.now)
            (λ place. IsFirstReducer leads word.now place.at place.element) }
    {
        let mut state = 0;
        for i in 0..word.len() {
            let letter = usize::from(word[i]);
            if letter >= self.letters {
                state = 0;
                continue;
            }
            let here = self.moves[state * self.letters + letter];
            match here.kind {
                Kind::Unset => return first_place(nodes, word),
                Kind::Moves => state = here.to as usize,
                Kind::Finds => {
                    let at = (i + 1).saturating_sub(usize::from(here.len));
                    return Some(Place {
                        at: at as u32,
                        element: here.to,
                    });
                },
            }
        }
        None
    }
}

/// Sets the moves of a state, and puts the states below it into the queue.
fn fill(
    nodes: &[Node],
    letters: usize,
    moves: &mut Vec<Move>,
    states: &mut Vec<State>,
    state: State,
) -> Result<(), NoMemory>
    requires rising { IsRising nodes.now }
    requires narrow { letters ≤ 256 }
    requires moves { IsAutomaton nodes.now letters moves.old.items }
    requires state { IsState nodes.now state }
    requires states { All (IsState nodes.now) states.old.items }
    ensures moves { OnOk result (IsAutomaton nodes.now letters moves.new.items) }
    ensures states { OnOk result (All (IsState nodes.now) states.new.items) }
{
    // No word has so many letters.
    let Some(depth) = state.depth.checked_add(1) else {
        return Ok(());
    };
    for letter in 0..letters {
        let behind = behind(state, moves[state.fall as usize * letters + letter]);
        let here = move_of(nodes, state, letter as u8, behind, depth);
        moves[state.node as usize * letters + letter] = here;
        if !has_state(here, behind) {
            continue;
        }
        states.push(State {
            node: here.to,
            fall: behind.to,
            depth,
        })?;
    }
    Ok(())
}

/// The move of the longest proper end of a state's letters, given that of the state where it falls.
fn behind(state: State, fall: Move) -> Move
    ensures first { state.depth ≡ 0 → (result.kind ≡ Kind.Moves) × (result.to ≡ 0) }
    ensures below { (state.depth ≡ 0 → ⊥) → result ≡ fall }
{
    if state.depth == 0 {
        return Move {
            to: 0,
            len: 0,
            kind: Kind::Moves,
            falls: true,
        };
    }
    fall
}

/// The move of a state: along the tree, or else as the longest proper end moves.
fn move_of(nodes: &[Node], state: State, letter: u8, behind: Move, depth: u8) -> Move
    requires rising { IsRising nodes.now }
    requires state { IsState nodes.now state }
    requires depth { depth ≡ state.depth + 1 }
    requires behind { IsBehind nodes.now state.node letter behind }
    ensures { IsMove nodes.now state.node letter result }
{
    match step_at(nodes, state.node as usize, letter) {
        Step::Stops => Move {
            to: behind.to,
            len: behind.len,
            kind: behind.kind,
            falls: true,
        },
        Step::Goes(child) => Move {
            to: child,
            len: 0,
            kind: Kind::Moves,
            falls: false,
        },
        Step::Ends(element) => Move {
            to: element,
            len: depth,
            kind: Kind::Finds,
            falls: false,
        },
    }
}

/// Whether the move goes down the tree to a state whose longest proper end is known.
fn has_state(here: Move, behind: Move) -> bool
    ensures { OnTrue result ((here.falls ≡ false) × (here.kind ≡ Kind.Moves) × (behind.kind ≡ Kind.Moves)) }
{
    match (here.falls, here.kind, behind.kind) {
        (false, Kind::Moves, Kind::Moves) => true,
        _ => false,
    }
}

/// How many letters there are up to the greatest of the tree.
fn letters_of(nodes: &[Node]) -> usize
    ensures narrow { result ≤ 256 }
    ensures above { (n : ℕ) (node : Node) → slice_get nodes.now n ≡ Some node → node.letter < result }
{
    let mut letters = 0;
    for node in nodes {
        letters = letters.max(usize::from(node.letter) + 1);
    }
    letters
}
