//! What may cross threads, said by functions that do nothing.
use fluid_doors::{Door, Pass};
use fluid_lane::Lane;
use fluid_log::{Keeper, Shelves};
use fluid_service::{Key, Service, Visit};

fn sent<T: Send>() {}

fn shared<T: Sync>() {}

/// What a document is may be sent to another thread, and its door may be shared, where its keeper may be sent.
pub fn documents_cross<K: Keeper + Send>() {
    sent::<Lane<K>>();
    sent::<Door<K>>();
    shared::<Door<K>>();
    sent::<Pass<K>>();
    sent::<Visit<K>>();
}

/// A service may be sent and shared, and a key to it sent, where its shelves and their keepers may be sent.
pub fn services_cross<B>()
where
    B: Shelves + Send,
    B::K: Send,
{
    sent::<Service<B>>();
    shared::<Service<B>>();
    sent::<Key<B>>();
}
