//! Stacks of kinds that share what lies below. Each stack is there once, so that two are the same just where their places are.

ghost use Rattle.std.specs.Prelude.{◌≡◌, ◌∷◌, [], ◌++◌, ◌↔◌, ◌<◌, IsTrue, length, slice_get, Some, IfOk, OnErr, OnOk, MatchOption};
ghost use Rattle.code_verify.specs.Stacks as spec;
ghost use Rattle.code_verify.specs.Stacks.{stack_at, stack_of, stacks_of, IsTree, Keeps};

use bytecode::Ty;
use cal_terms::NoMemory;
use sqlite_items::Items;
use std::alloc::Global;
use std::marker::Model;

/// How many stacks there are at most.
const MOST_STACKS: usize = 0xffff_ffff;

/// A stack: the kind on top, or none at the root, the place of the stack below it, and how many kinds it has.
/// The places of the stacks with one kind more are 0 where there are none.
#[derive(Clone, Copy, Debug)]
struct Node {
    top: Option<Ty>,
    below: u32,
    height: u32,
    ints: u32,
    truths: u32,
}

/// The place that the node names for the stack with this kind on its own.
fn above(node: Node, kind: Ty) -> u32
    ensures { result ≡ spec.above node kind }
{
    match kind {
        Ty::Int => node.ints,
        Ty::Bool => node.truths,
    }
}

/// The node that names this place for it.
fn linked(node: Node, kind: Ty, place: u32) -> Node
    ensures { result ≡ spec.linked node kind place }
{
    let mut later = node;
    match kind {
        Ty::Int => later.ints = place,
        Ty::Bool => later.truths = place,
    }
    later
}

/// Adds the stack with this kind on that of the node, which stands at this place and knows of none. Its place is given.
fn grow(nodes: &mut Items<Node>, at: u32, node: Node, kind: Ty) -> Result<u32, NoMemory>
    requires tree { IsTree nodes.old }
    requires there { slice_get nodes.old at ≡ Some node }
    requires none { spec.above node kind ≡ 0 }
    ensures tree { IsTree nodes.new }
    ensures stacks { OnOk result (stacks_of nodes.new ≡ stacks_of nodes.old ++ (kind ∷ stack_of (stacks_of nodes.old) node) ∷ []) }
    ensures place { IfOk result (λ p. p ≡ length nodes.old) }
    ensures full { OnErr result (nodes.new ≡ nodes.old) }
{
    let place = nodes.len();
    if place >= MOST_STACKS {
        return Err(NoMemory);
    }
    let place = place as u32;
    nodes.push(Node {
        top: Some(kind),
        below: at,
        height: node.height + 1,
        ints: 0,
        truths: 0,
    })?;
    nodes.set(at as usize, linked(node, kind, place));
    Ok(place)
}

/// Stacks, each at its place. The first is the empty one.
#[derive(Drop)]
pub struct Stacks {
    nodes: Items<Node>,
}

impl Model for Stacks {
    ghost use Rattle.std.specs.Prelude.{List};
    ghost use Rattle.cal_terms.specs.declared.types.Ty.{Ty};

    ghost Value = { List (List Ty) };

    ghost use Rattle.code_verify.specs.Stacks.{stacks_of, IsTree};

    ghost view = { λ s. stacks_of s.nodes };

    ghost invariant = { λ s. IsTree s.nodes };
}

impl Stacks {
    /// The empty stack alone.
    pub fn new(alloc: Global) -> Result<Stacks, NoMemory>
        ensures { IfOk result (λ s. s ≡ [] ∷ []) }
    {
        let mut nodes = Items::new(alloc);
        nodes.push(Node {
            top: None,
            below: 0,
            height: 0,
            ints: 0,
            truths: 0,
        })?;
        Ok(Stacks { nodes })
    }

    /// The place of the empty stack.
    pub fn empty(&self) -> u32
        ensures within { result < length self.now }
        ensures is { stack_at self.now result ≡ [] }
    {
        let _nodes = &self.nodes;
        0
    }

    /// How many kinds the stack at this place has.
    pub fn height(&self, at: u32) -> u32
        ensures { result ≡ length (stack_at self.now at) }
    {
        match self.nodes.get(at as usize) {
            None => 0,
            Some(node) => node.height,
        }
    }

    /// The kind on top of the stack at this place, and the place of the stack below it.
    pub fn split(&self, at: u32) -> Option<(Ty, u32)>
        ensures { MatchOption result (stack_at self.now at ≡ [])
            (λ r. (r.1 < length self.now) × (stack_at self.now at ≡ r.0 ∷ stack_at self.now r.1)) }
    {
        match self.nodes.get(at as usize) {
            None => None,
            Some(node) => match node.top {
                None => None,
                Some(kind) => Some((kind, node.below)),
            },
        }
    }

    /// The place of the stack with this kind on that at this place. It is added where it is not there.
    pub fn push(&mut self, at: u32, kind: Ty) -> Result<u32, NoMemory>
        requires { at < length self.old }
        ensures keeps { Keeps self.old self.new }
        ensures place { IfOk result (λ p. (p < length self.new) × (stack_at self.new p ≡ kind ∷ stack_at self.old at)) }
    {
        let node = self.nodes.as_slice()[at as usize];
        let known = above(node, kind);
        if known != 0 {
            return Ok(known);
        }
        grow(&mut self.nodes, at, node, kind)
    }

    /// Whether the stacks at both places are the same.
    pub fn is_same(&self, one: u32, other: u32) -> bool
        requires { (one < length self.now) × (other < length self.now) }
        ensures { IsTrue result ↔ (stack_at self.now one ≡ stack_at self.now other) }
    {
        let _nodes = &self.nodes;
        one == other
    }
}
