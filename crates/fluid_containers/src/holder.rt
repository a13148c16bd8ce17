//! A container of a script.
use fluid_loader::Container;
use fluid_types::{ClientId, DocName};

/// A container with its document, and the client as which it joined that.
#[derive(Drop)]
pub struct Holder {
    pub document: DocName,
    pub client: ClientId,
    pub container: Container,
}
