ghost use Rattle.std.specs.Prelude.{◌≡◌, ◌≢◌, ℕ, List, option_map};
ghost use Rattle.std.specs.Option.{option_or};
ghost use Rattle.fluid_json.specs.Tree.{Tree, null, boolean, whole, text, list, object, trees, members, find, is_null, as_boolean, as_whole, as_text, as_trees, as_members, IsCanonical};

use crate::collections::{Items, Pairs};
use crate::owned::Text;
use std::marker::Model;

/// The largest whole number that all readers of JSON keep as it is, 2^53 - 1 (RFC 8259, section 6).
pub const LARGEST: u64 = 9_007_199_254_740_991;

/// A JSON value whose numbers are all whole. An object's members stand in byte order of their keys, each key once.
#[cycle(json)]
#[derive(Drop)]
pub struct Json {
    pub(crate) node: Node,
}

#[cycle(json)]
#[derive(Drop)]
pub(crate) enum Node {
    Null,
    Bool(bool),
    Whole(i64),
    Text(Text),
    List(Vec<Json>),
    Object(Vec<(Text, Json)>),
}

impl Model for Json {
    ghost use Rattle.fluid_json.specs.Tree.{Tree, depth, IsCanonical};

    ghost Value = { Tree };

    ghost use Rattle.fluid_json.specs.Code.{tree_code};

    ghost coded = { tree_code };

    ghost use Rattle.fluid_json.specs.View.{tree_of};

    ghost view = { λ j. tree_of j.node };

    ghost invariant = { λ j. IsCanonical (tree_of j.node) };

    ghost size = { depth };

    ghost use Rattle.std.proofs.Common.{arith};
    ghost use Rattle.fluid_json.specs.Falls.{deep_le-depth};

    ghost size_decreases = { λ j _. omega (arith, deep_le-depth j.node) };
}

impl Json {
    pub fn null() -> Json
        ensures { result ≡ null }
    {
        Json { node: Node::Null }
    }

    pub fn boolean(truth: bool) -> Json
        ensures { result ≡ boolean truth }
    {
        Json {
            node: Node::Bool(truth),
        }
    }

    pub fn whole(number: i64) -> Json
        ensures { result ≡ whole number }
    {
        Json {
            node: Node::Whole(number),
        }
    }

    pub fn text(string: Text) -> Json
        ensures { result ≡ text string }
    {
        Json {
            node: Node::Text(string),
        }
    }

    pub fn list(items: Items) -> Json
        ensures { result ≡ list (trees items) }
    {
        let Items { vec } = items;
        Json {
            node: Node::List(vec),
        }
    }

    pub fn object(pairs: Pairs) -> Json
        ensures { result ≡ object (members pairs) }
    {
        let Pairs { vec } = pairs;
        Json {
            node: Node::Object(vec),
        }
    }

    /// Tells a proof what holds of every value: its numbers have 64 bits, and its keys are in order at each level. It does nothing else.
    pub fn canonical(&self)
        ensures { IsCanonical self.now }
    {
        let _ = &self.node;
    }

    /// The value at this key, where this is an object that has it.
    pub fn member(&self, key: &str) -> Option<&Json>
        ensures { option_map (λ found. found.now) result ≡ find key.now self.now }
    {
        let Node::Object(pairs) = &self.node else {
            return None;
        };
        for (name, value) in pairs {
            if name.as_str() == key {
                return Some(value);
            }
        }
        None
    }

    pub fn is_null(&self) -> bool
        ensures { result ≡ is_null self.now }
    {
        matches!(self.node, Node::Null)
    }

    pub fn as_bool(&self) -> Option<bool>
        ensures { result ≡ as_boolean self.now }
    {
        match &self.node {
            Node::Bool(truth) => Some(*truth),
            _ => None,
        }
    }

    pub fn as_whole(&self) -> Option<i64>
        ensures { result ≡ as_whole self.now }
    {
        match &self.node {
            Node::Whole(number) => Some(*number),
            _ => None,
        }
    }

    pub fn as_text(&self) -> Option<&str>
        ensures { option_map (λ s. s.now) result ≡ as_text self.now }
    {
        match &self.node {
            Node::Text(string) => Some(string.as_str()),
            _ => None,
        }
    }

    pub fn as_list(&self) -> Option<&[Json]>
        ensures { option_map (λ items. trees items.now) result ≡ as_trees self.now }
    {
        match &self.node {
            Node::List(items) => Some(items.as_slice()),
            _ => None,
        }
    }

    pub fn as_pairs(&self) -> Option<&[(Text, Json)]>
        ensures { option_map (λ pairs. members pairs.now) result ≡ as_members self.now }
    {
        match &self.node {
            Node::Object(pairs) => Some(pairs.as_slice()),
            _ => None,
        }
    }

    /// Moves the value at this key out, where this is an object that has it.
    pub fn into_member(self, key: &str) -> Option<Json>
        ensures { result ≡ find key.now self }
    {
        let Node::Object(pairs) = self.node else {
            return None;
        };
        for (held, value) in pairs {
            if held.as_str() == key {
                return Some(value);
            }
        }
        None
    }

    /// Moves the values at two keys out, in one pass.
    pub fn into_members(self, first: &str, second: &str) -> (Option<Json>, Option<Json>)
        requires { first.now ≢ second.now }
        ensures { result ≡ (find first.now self, find second.now self) }
    {
        let Node::Object(pairs) = self.node else {
            return (None, None);
        };
        let mut one = None;
        let mut other = None;
        for (name, value) in pairs {
            if name.as_str() == first {
                keep_first(&mut one, value);
            } else if name.as_str() == second {
                keep_first(&mut other, value);
            } else {
                drop(value);
            }
        }
        (one, other)
    }

    pub fn into_text(self) -> Option<Text>
        ensures { result ≡ as_text self }
    {
        match self.node {
            Node::Text(string) => Some(string),
            _ => None,
        }
    }

    pub fn into_list(self) -> Option<Items>
        ensures { option_map trees result ≡ as_trees self }
    {
        match self.node {
            Node::List(vec) => Some(Items { vec }),
            _ => None,
        }
    }

    pub fn into_pairs(self) -> Option<Pairs>
        ensures { option_map members result ≡ as_members self }
    {
        match self.node {
            Node::Object(vec) => Some(Pairs { vec }),
            _ => None,
        }
    }
}

// Keeps the value, unless one is kept already.
fn keep_first(kept: &mut Option<Json>, value: Json)
    ensures { kept.new ≡ option_or kept.old (Some value) }
{
    if kept.is_none() {
        *kept = Some(value);
    }
}
