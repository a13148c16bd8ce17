//! Summary trees as Git's objects: their bytes, their ids, and their JSON form.
//! `node` has the trees, `object` what one object says, `id` ids and their text, `names` which names are refused, `fault` why.
//! `writing` has the bytes of an object, `identity` the id of a tree, `reading` the object that bytes are, `json_form` the tree
//! that a JSON value spells.
//! Contracts see a node as plain data (`specs/Summary.antt`); the bytes are a definition over entries (`specs/Object.antt`), and
//! `laws` says that exactly the bytes of objects are read.
#![tactic(auto)]

mod fault;
mod id;
mod identity;
mod json_form;
pub mod laws;
mod names;
mod node;
mod object;
mod reading;
mod writing;

pub use fault::TreeFault;
pub use id::{Id, SummaryRef};
pub use identity::{MOST_TREES, id_of};
pub use json_form::from_json;
pub use node::{Entries, Node, Path};
pub use object::{Object, ObjectEntries, ObjectEntry};
pub use reading::read_object;
pub use writing::{blob_bytes, object_bytes, sort_key, tree_bytes};
