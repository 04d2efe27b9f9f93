//! The order that SYSTEM gives the controllers.

ghost use Rattle.std.specs.Prelude.{◌≡◌, [], IfOk, OnOk};
ghost use Rattle.cb_text_laws.specs.NormalTexts.{order_in, position, user_or};
ghost use Rattle.cb_text_laws.specs.TextNames.{order_from};
ghost use Rattle.cb_types.specs.Declares.{with_owner};

use cb_flow::ends::Users;
use cb_flow::lists::controller_of;
use cb_forms::table::Table;
use cb_judge::names::Entry;
use cb_lex::Memory;
use cb_lex::raw::name::RawName;
use indexmap::IndexSet;
use sqlite_items::Items;
use std::alloc::{AllocError, Global};
use std::marker::Model;

/// The places of controllers in the text, in the order in which SYSTEM lists them, each once. Contracts see the list.
#[derive(Drop)]
pub(crate) struct Order {
    places: IndexSet<u32>,
}

impl Model for Order {
    ghost use Rattle.std.specs.Prelude.{List, ℕ};

    ghost Value = { List ℕ };

    ghost view = { λ o. o.places.keys };
}

fn counted(number: usize) -> Result<u32, Memory>
    ensures { IfOk result (λ n. n ≡ number) }
{
    match u32::try_from(number) {
        Ok(n) => Ok(n),
        Err(_) => Err(AllocError),
    }
}

impl Order {
    fn new(alloc: Global) -> Order
        ensures { result ≡ [] }
    {
        Order {
            places: IndexSet::new(alloc),
        }
    }

    fn add(&mut self, place: Option<u32>) -> Result<(), Memory>
        ensures { OnOk result (self.new ≡ with_owner place self.old) }
    {
        match place {
            None => Ok(()),
            Some(k) => {
                self.places.insert(k)?;
                Ok(())
            }
        }
    }

    // The controller's number: where it stands in the order.
    fn number_of(&self, place: u32) -> Result<u32, Memory>
        ensures { IfOk result (λ n. n ≡ position place self.now) }
    {
        match self.places.get_index_of(&place) {
            Some(index) => counted(index),
            None => counted(self.places.len()),
        }
    }

    /// The number of the controller that uses an end of a channel. Where there is none it is the number of controllers.
    pub(crate) fn user(&self, controllers: usize, users: &Users) -> Result<u32, Memory>
        ensures { IfOk result (λ n. n ≡ user_or controllers self.now users.now.user) }
    {
        match users.user {
            None => counted(controllers),
            Some(place) => self.number_of(place),
        }
    }

    /// The places in order.
    pub(crate) fn places(&self, alloc: Global) -> Result<Items<u32>, Memory>
        ensures { IfOk result (λ ks. ks ≡ self.now) }
    {
        Items::from_slice(alloc, self.places.as_slice())
    }
}

// The order of the controllers with these names.
fn order_of_names(alloc: Global, names: &Table<Entry>, list: &[RawName]) -> Result<Order, Memory>
    ensures { IfOk result (λ o. o ≡ order_from names.now [] list.now) }
{
    let mut order = Order::new(alloc);
    for name in list {
        order.add(controller_of(names.find(name.text.as_slice())))?;
    }
    Ok(order)
}

/// The order of the controllers that SYSTEM lists.
pub(crate) fn order_of(
    alloc: Global,
    names: &Table<Entry>,
    list: &Option<Items<RawName>>,
) -> Result<Order, Memory>
    ensures { IfOk result (λ o. o ≡ order_in names.now list.now) }
{
    match list {
        None => Ok(Order::new(alloc)),
        Some(list) => order_of_names(alloc, names, list.as_slice()),
    }
}
