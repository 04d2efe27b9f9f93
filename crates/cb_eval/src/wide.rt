//! Values with numbers of 128 bits.

ghost use Rattle.std.specs.Prelude.{◌≡◌};
ghost use Rattle.cb_term.specs.declared.value.Value.TheVariants as value;
ghost use Rattle.cb_term.specs.Sets.{IsAscending};

use sqlite_items::Items;
use std::marker::Model;

/// What a wide value is.
#[derive(Debug, Drop)]
pub enum WideNode {
    Int(i128),
    Truth(bool),
    /// An element, by its place in its set.
    Elem(u32),
    /// A finite set: its items in ascending order, each once.
    Set(Items<i128>),
}

/// A value whose numbers have 128 bits. Contracts see it as the value, and its set ascends.
#[derive(Debug, Drop)]
pub struct Wide {
    pub node: WideNode,
}

impl Model for Wide {
    ghost use Rattle.cb_term.specs.declared.value.Value as value_type;

    ghost Value = { value_type.Value };

    ghost use Rattle.cb_eval.specs.WideView.{value_of_node, IsInOrder};

    ghost view = { λ w. value_of_node w.node };

    ghost invariant = { λ w. IsInOrder w.node };
}

impl Wide {
    /// The number.
    pub fn int(n: i128) -> Wide
        ensures { result ≡ value.Int n }
    {
        Wide {
            node: WideNode::Int(n),
        }
    }

    /// The truth value.
    pub fn truth(b: bool) -> Wide
        ensures { result ≡ value.Truth b }
    {
        Wide {
            node: WideNode::Truth(b),
        }
    }

    /// The element with this place.
    pub fn elem(index: u32) -> Wide
        ensures { result ≡ value.Elem index }
    {
        Wide {
            node: WideNode::Elem(index),
        }
    }

    /// The set of these items.
    pub fn set(items: Vec<i128>) -> Wide
        requires { IsAscending items.items }
        ensures { result ≡ value.Set items.items }
    {
        Wide {
            node: WideNode::Set(Items::from_vec(items)),
        }
    }
}
