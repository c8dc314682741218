// A sheet over lent memory: a store that some calls led to.
ghost use Rattle.sheet.specs.View.{Reached};
ghost use Rattle.sheet.specs.Stores.{view};

use crate::store::Store;

// The calls.
pub mod calls;

#[derive(Drop)]
pub struct Sheet<'a> {
    store: Store<'a>,
    // Some calls led here from a new sheet.
    ghost reached: { Reached (view store) },
}
