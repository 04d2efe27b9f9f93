//! Processes laid flat, so that where a controller stands is a number.

ghost use Rattle.std.specs.Prelude.{◌≡◌, ◌<◌, [], ◌∷◌, ◌++◌, length, slice_get, Some, IfOk, OnOk, OnErr};
ghost use Rattle.cb_code.specs.Nodes.{tree_of, PartsBelow, Extends};

use crate::copies::{copy_event, copy_terms};
use cb_spec::event::Event;
use cb_spec::process::{Process, ProcessNode};
use cb_term::Memory;
use cb_term::tree::{Formula, Terms};
use std::alloc::{AllocError, Global};
use std::marker::Model;

/// One process, its parts told by their places.
#[derive(Drop)]
pub enum Node {
    Stop,
    Skip,
    Call {
        definition: u32,
        args: Terms,
    },
    Prefix {
        event: Event,
        then: u32,
    },
    Choice(u32, u32),
    Internal(u32, u32),
    If {
        test: Formula,
        then: u32,
        other: u32,
    },
}

/// Processes, each told by its place. Contracts see them as plain trees.
#[derive(Drop)]
pub struct Code {
    nodes: Vec<Node>,
}

impl Model for Code {
    ghost use Rattle.std.specs.Prelude.{List};
    ghost use Rattle.std.specs.Coded.{coded_list};
    ghost use Rattle.cb_spec.specs.ProcessTree.{ProcessTree};
    ghost use Rattle.cb_spec.specs.ProcessCodes.{coded_process};

    ghost Value = { List ProcessTree };

    ghost coded = { coded_list coded_process };

    ghost use Rattle.cb_code.specs.Nodes.{trees, Falls};

    ghost view = { λ c. trees c.nodes.items };

    ghost invariant = { λ c. Falls 0 c.nodes.items };
}

impl Code {
    /// No processes.
    pub fn new(alloc: Global) -> Code
        ensures { result ≡ [] }
    {
        Code {
            nodes: Vec::new(alloc),
        }
    }

    /// How many processes there are.
    pub fn len(&self) -> usize
        ensures { result ≡ length self.now }
    {
        self.nodes.len()
    }

    /// The node at the place.
    pub fn node(&self, place: u32) -> &Node
        requires { place < length self.now }
        ensures tree { slice_get self.now place ≡ Some (tree_of self.now result.now) }
        ensures below { PartsBelow place result.now }
    {
        &self.nodes[place as usize]
    }

    // Adds a node, and tells its place. After want of memory nothing is added.
    fn push(&mut self, node: Node) -> Result<u32, Memory>
        requires { PartsBelow (length self.old) node }
        ensures place { IfOk result (λ k. slice_get self.new k ≡ Some (tree_of self.old node)) }
        ensures added { OnOk result (self.new ≡ self.old ++ tree_of self.old node ∷ []) }
        ensures err { OnErr result (self.new ≡ self.old) }
    {
        if self.nodes.len() > u32::MAX as usize {
            return Err(AllocError);
        }
        let place = self.nodes.len() as u32;
        self.nodes.push(node)?;
        Ok(place)
    }

    // Adds the process after its parts, and tells its place. After want of memory some parts may have been added.
    fn add(&mut self, alloc: Global, process: &Process) -> Result<u32, Memory>
        ensures place { IfOk result (λ k. slice_get self.new k ≡ Some process.now) }
        ensures more { Extends self.old self.new }
    {
        match &process.node {
            ProcessNode::Stop => self.push(Node::Stop),
            ProcessNode::Skip => self.push(Node::Skip),
            ProcessNode::Call { definition, args } => {
                let args = copy_terms(alloc, args)?;
                self.push(Node::Call {
                    definition: *definition,
                    args,
                })
            }
            ProcessNode::Prefix { event, then } => {
                let event = copy_event(alloc, event)?;
                let then = self.add(alloc, then)?;
                self.push(Node::Prefix { event, then })
            }
            ProcessNode::Choice(left, right) => {
                let left = self.add(alloc, left)?;
                let right = self.add(alloc, right)?;
                self.push(Node::Choice(left, right))
            }
            ProcessNode::Internal(left, right) => {
                let left = self.add(alloc, left)?;
                let right = self.add(alloc, right)?;
                self.push(Node::Internal(left, right))
            }
            ProcessNode::If { test, then, other } => {
                let test = test.copy(alloc)?;
                let then = self.add(alloc, then)?;
                let other = self.add(alloc, other)?;
                self.push(Node::If { test, then, other })
            }
        }
    }

    /// Lays the process down after those that are there, and tells its place. After want of memory the code is as before.
    pub fn lay(&mut self, alloc: Global, process: &Process) -> Result<u32, Memory>
        ensures place { IfOk result (λ k. slice_get self.new k ≡ Some process.now) }
        ensures more { OnOk result (Extends self.old self.new) }
        ensures err { OnErr result (self.new ≡ self.old) }
    {
        let before = self.nodes.len();
        match self.add(alloc, process) {
            Ok(place) => Ok(place),
            Err(error) => {
                self.nodes.truncate(before);
                Err(error)
            }
        }
    }
}
