// Which arm of a block is taken.
ghost use Rattle.std.specs.Prelude.{◌≡◌, ℕ, ◌+◌, ◌≤◌, ◌&&◌, nat_lt, nat_le, List, map, length, Some, Ok};
ghost use Rattle.std.specs.List.{slice_get};
ghost use Rattle.drawers.specs.Shown.{shows};
ghost use Rattle.frames.specs.declared.item.Item.{Item};
ghost use Rattle.held.specs.Records.{held_in};
ghost use Rattle.held.specs.Scenes.{pool_of};
ghost use Rattle.nodes.specs.declared.table.Node.TheVariants.{Arm as arm_node};
ghost use Rattle.tree.specs.Elements.{Arms};
ghost use Rattle.meaning.specs.Things.{Held, nil};
ghost use Rattle.meaning.specs.Hosts.{Host};
ghost use Rattle.meaning.specs.Blocks.{is_filled};
ghost use Rattle.renderer.specs.Openings.{Counted, opening_of};
ghost use Rattle.renderer.specs.Guards.{Sees, Judged, Passed, IsFirst, Comes, else_at, otherwise_in, from, Stands, Taken};

use crate::openings::Opened;
use crate::stdlib::blocks::case_block::one_equal;
use crate::stdlib::blocks::if_block::judge;
use drawers::things::Drawers;
use frames::stack::Frames;
use held::faults::Fault;
use held::scenes::Scene;
use held::value::Value;
use nodes::table::{Arm, Guard, Next, Node};

/// What a guard asks of an opening: the target of a `case`, and whether the window of a loop has an item.
#[derive(Clone, Copy)]
pub(crate) struct Seen<'a> {
    pub(crate) target: Value<&'a [u8]>,
    pub(crate) filled: bool,
}

impl<'a> Seen<'a> {
    // A window with so many items.
    fn counted(times: u16) -> Seen<'a>
        ensures { (f : Item → Held) (xs : List Item) → times ≡ length xs → (held_in result.target ≡ nil) × (result.filled ≡ is_filled (map f xs)) }
    {
        Seen {
            target: Value::Nil,
            filled: times > 0,
        }
    }

    /// What is seen of an opening.
    pub(crate) fn of(opened: Opened<'a>) -> Seen<'a>
        ensures { (h : Host) → Counted opened.entry → Sees result (opening_of h opened.entry) }
    {
        match opened {
            Opened::Bare => Seen {
                target: Value::Nil,
                filled: false,
            },
            Opened::Target(target) => Seen {
                target,
                filled: false,
            },
            Opened::Loop { times, .. } => Seen::counted(times),
            Opened::Table { times, .. } => Seen::counted(times),
        }
    }
}

// Whether the condition holds whose nodes stand behind `node`, up to `body`.
fn holds(
    scene: Scene,
    frames: &Frames,
    drawers: &Drawers,
    node: usize,
    body: usize,
) -> Result<bool, Fault>
    ensures { Judged scene.entry frames.now (shows drawers.now) (node + 1) body result }
{
    judge(scene, frames, drawers, node.saturating_add(1), body)
}

/// Whether the guard of the arm passes whose node stands at `node`.
pub(crate) fn passes(
    scene: Scene,
    frames: &Frames,
    drawers: &Drawers,
    arm: Arm,
    node: usize,
    seen: Seen,
) -> Result<bool, Fault>
    ensures { Passed scene.entry frames.now (shows drawers.now) arm node seen.entry result }
{
    match arm.guard {
        Guard::Holds => holds(scene, frames, drawers, node, arm.body),
        Guard::Fails => {
            let holds = holds(scene, frames, drawers, node, arm.body)?;
            Ok(!holds)
        }
        Guard::Equals(values) => one_equal(scene, frames, drawers, values, seen.target),
        Guard::HasItems => Ok(seen.filled),
        Guard::Always => Ok(true),
    }
}

/// Where the arms of a block begin: at an arm, by its node, or at what stands behind an arm or behind the node of a `case`.
#[derive(Clone, Copy)]
pub(crate) enum First {
    Arm(usize, Arm),
    Behind(Next, usize),
}

/// An arm that is taken: its elements are the nodes from `body` up to `end`.
#[derive(Clone, Copy)]
pub(crate) struct Chosen {
    pub(crate) guard: Guard,
    pub(crate) body: usize,
    pub(crate) end: usize,
}

// The arm that the node at `i` is.
fn arm_at(nodes: &[Node], i: usize) -> Option<Arm>
    ensures found { (a : Arm) → result ≡ Some a → slice_get nodes.now i ≡ Some (arm_node a) }
    ensures there { (a : Arm) → slice_get nodes.now i ≡ Some (arm_node a) → result ≡ Some a }
{
    match *nodes.get(i)? {
        Node::Arm(arm) => Some(arm),
        _ => None,
    }
}

// Whether the elements of an arm stand behind its node and before `end`.
fn is_within(arm: Arm, node: usize, end: usize) -> bool
    ensures { result ≡ (nat_lt node arm.body && (nat_le arm.body arm.next && nat_le arm.next end)) }
{
    node < arm.body && arm.body <= arm.next && arm.next <= end
}

// The elements of an `else` that begins at `i`.
fn else_from(i: usize, end: usize) -> Option<Chosen>
    ensures { result ≡ else_at i end }
{
    if i <= end {
        Some(Chosen {
            guard: Guard::Always,
            body: i,
            end,
        })
    } else {
        None
    }
}

impl First {
    // An arm, and its node.
    fn arm(self, nodes: &[Node]) -> Option<(usize, Arm)>
        ensures found { (i : ℕ) (a : Arm) → result ≡ Some (i, a) → IsFirst nodes.now self i a }
        ensures there { (i : ℕ) (a : Arm) → IsFirst nodes.now self i a → result ≡ Some (i, a) }
    {
        match self {
            First::Arm(node, arm) => Some((node, arm)),
            First::Behind(next, i) => match next {
                Next::Arm => Some((i, arm_at(nodes, i)?)),
                _ => None,
            },
        }
    }

    // An arm whose elements stand before `end`, and its node.
    fn arm_before(self, nodes: &[Node], end: usize) -> Option<(usize, Arm)>
        ensures found { (i : ℕ) (a : Arm) → result ≡ Some (i, a) → Comes nodes.now end self i a }
        ensures there { (i : ℕ) (a : Arm) → Comes nodes.now end self i a → result ≡ Some (i, a) }
    {
        let (node, arm) = self.arm(nodes)?;
        if is_within(arm, node, end) {
            Some((node, arm))
        } else {
            None
        }
    }

    // The elements of an `else`.
    fn otherwise(self, end: usize) -> Option<Chosen>
        ensures { result ≡ otherwise_in end self }
    {
        match self {
            First::Arm(..) => None,
            First::Behind(next, i) => match next {
                Next::Else => else_from(i, end),
                _ => None,
            },
        }
    }
}

/// The first arm whose guard passes, in a block that ends at `end`.
pub(crate) fn choose(
    scene: Scene,
    frames: &Frames,
    drawers: &Drawers,
    first: First,
    end: usize,
    seen: Seen,
) -> Result<Option<Chosen>, Fault>
    ensures within { (c : Chosen) → result ≡ Ok (Some c) → (from first ≤ c.body) × (c.body ≤ c.end) × (c.end ≤ end) }
    ensures taken { (room : ℕ) (r : Arms) → Stands (pool_of scene.entry) scene.entry.book.nodes.now room end first r → Taken scene.entry frames.now (shows drawers.now) room seen.entry r result }
{
    let mut left = first;
    while let Some((node, arm)) = left.arm_before(scene.book.nodes, end) {
        if passes(scene, frames, drawers, arm, node, seen)? {
            return Ok(Some(Chosen {
                guard: arm.guard,
                body: arm.body,
                end: arm.next,
            }));
        }
        left = First::Behind(arm.then, arm.next);
    }
    Ok(left.otherwise(end))
}
