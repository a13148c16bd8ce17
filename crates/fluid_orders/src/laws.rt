//! What holds of the definitions, said by functions that do nothing.

ghost use Rattle.fluid_orders.specs.Laws.{OrdersAreTold};

use fluid_texts::{texts_are_printed, texts_are_read};

/// The messages of a legal ledger whose entries a log takes are numbered one by one from 1, each is read back from its text, which
/// is UTF-8, as itself, and none refers to one behind it.
pub fn orders_are_told()
    ensures { OrdersAreTold }
{
    texts_are_read();
    texts_are_printed();
}
