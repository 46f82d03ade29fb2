ghost use Rattle.std.specs.Prelude.{◌≡◌, ◌<◌, length};
ghost use Rattle.lead_index.specs.Steps.{IsStep, step_to};
ghost use Rattle.lead_index.specs.Tree.{IsRising};

use crate::tree::Node;

/// Where a letter leads from a node: nowhere, to the first node for the next letter, or to the end of a word.
#[derive(Debug, Clone, Copy)]
pub(crate) enum Step {
    Stops,
    Goes(u32),
    Ends(u32),
}

/// The step from a node, or from the sibling after it that has the letter.
pub(crate) fn step_at(nodes: &[Node], node: usize, letter: u8) -> Step
    requires rising { IsRising nodes.now }
    requires within { node < length nodes.now }
    ensures { IsStep nodes.now node letter result }
{
    let mut sibling = node;
    while sibling < nodes.len() {
        let here = nodes[sibling];
        if here.letter == letter {
            return step_of(here);
        }
        let Some(next) = here.sibling else {
            return Step::Stops;
        };
        sibling = next as usize;
    }
    Step::Stops
}

fn step_of(node: Node) -> Step
    ensures { result ≡ step_to node.element node.child }
{
    match node.element {
        Some(element) => Step::Ends(element),
        None => match node.child {
            Some(child) => Step::Goes(child),
            None => Step::Stops,
        },
    }
}
