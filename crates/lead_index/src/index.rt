ghost use Rattle.std.specs.Prelude.{◌≡◌, ◌++◌, ◌∷◌, ◌<◌, ◌≤◌, [], MatchOption, OnErr, OnOk, length};
ghost use Rattle.lead_index.specs.Leads.{IsFirstReducer, IsFree, IsFresh, IsFreeAt, IsIndex, Starts};

use crate::automaton::Automaton;
use crate::lead::Lead;
use crate::tree::{Node, attach, first_element, first_place, push_path};
use std::alloc::{AllocError, Global};
use std::marker::Model;
use words::{NoMemory, Word};

/// Leading words with their elements, which contracts see as the list of these pairs in the order of their adding.
/// Where the list is whole, an automaton takes the place of the links between the nodes.
#[derive(Debug, Drop)]
pub struct LeadIndex {
    alloc: Global,
    leads: Vec<Lead>,
    nodes: Vec<Node>,
    automaton: Option<Automaton>,
}

impl Model for LeadIndex {
    ghost use Rattle.std.specs.Prelude.{List};
    ghost use Rattle.lead_index.specs.declared.lead.Lead.{Lead};
    ghost use Rattle.lead_index.specs.Leads.{IsIndex};
    ghost use Rattle.lead_index.specs.Automaton.{MayRun};
    ghost use Rattle.lead_index.specs.Tree.{IsTree};

    ghost Value = { List Lead };

    ghost view = { λ x. x.leads.items };

    ghost invariant = { λ x. IsIndex x.leads.items × IsTree x.nodes.items x.leads.items
        × MayRun x.nodes.items x.automaton };
}

/// Where a leading word stands, counted from 0, and its element.
#[derive(Debug, Clone, Copy, PartialEq, Eq)]
pub struct Place {
    pub at: u32,
    pub element: u32,
}

impl LeadIndex {
    /// The index keeps the allocator.
    pub fn new(alloc: Global) -> LeadIndex
        ensures { result ≡ [] }
    {
        LeadIndex {
            alloc,
            leads: Vec::new(alloc),
            nodes: Vec::new(alloc),
            automaton: None,
        }
    }

    /// Nodes have numbers of 32 bits, and to want more is want of memory.
    pub fn add(&mut self, lead: &[u8], element: u32) -> Result<(), NoMemory>
        requires { IsFresh self.old lead.now }
        ensures added { OnOk result (self.new ≡ self.old ++ record { word = lead.now; element = element } ∷ []) }
        ensures unchanged { OnErr result (self.new ≡ self.old) }
    {
        if self.nodes.len() + lead.len() > u32::MAX as usize {
            return Err(AllocError);
        }
        let word = Word::from_letters(self.alloc, lead)?;
        self.automaton = None;
        self.nodes.reserve(lead.len())?;
        self.leads.push(Lead { word, element })?;
        let place = attach(&mut self.nodes, lead);
        push_path(&mut self.nodes, &lead[place..], element);
        Ok(())
    }

    /// Makes the automaton for a list that is whole, where it is not too large.
    pub(crate) fn make_automaton(&mut self) -> Result<(), NoMemory>
        ensures { self.new ≡ self.old }
    {
        self.automaton = Automaton::of(self.alloc, self.nodes.as_slice())?;
        Ok(())
    }

    /// The leftmost place where a word of the index stands.
    pub fn first_reducer(&self, word: &[u8]) -> Option<Place>
        requires { length word.now ≤ 64 }
        ensures index { IsIndex self.now }
        ensures place { MatchOption result (IsFree self.now word.now)
            (λ place. IsFirstReducer self.now word.now place.at place.element) }
    {
        let nodes = self.nodes.as_slice();
        match &self.automaton {
            Some(automaton) => automaton.first_place(nodes, word),
            None => first_place(nodes, word),
        }
    }

    /// The element whose leading word stands in the word from this place.
    pub fn starts(&self, word: &[u8], at: usize) -> Option<u32>
        requires small { length word.now ≤ 64 }
        requires within { at ≤ length word.now }
        ensures index { IsIndex self.now }
        ensures element { MatchOption result (IsFreeAt self.now word.now at)
            (λ element. Starts self.now word.now at element) }
    {
        let letters = &word[at..];
        match &self.automaton {
            Some(automaton) => automaton.element(self.nodes.as_slice(), letters),
            None => first_element(self.nodes.as_slice(), letters),
        }
    }

    pub(crate) fn leads(&self) -> &[Lead]
        ensures value { result.now ≡ self.now }
        ensures index { IsIndex self.now }
    {
        self.leads.as_slice()
    }
}
