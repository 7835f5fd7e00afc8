//! Laws of orders and walks.
ghost use Rattle.lab_orders.specs.Laws.{OrdersAreWalked, RotationsAreOrders, WalksAreOrders, WalksAreScripts};

use laws_of_states::laws_of_places::facts_hold_along;
use laws_of_states::laws_of_tables::states_stay_sound;

/// Each order without its turns without effect is a walk, and what is sent and the tables at the end are the same.
pub fn orders_are_walked()
    ensures { OrdersAreWalked }
{
    facts_hold_along();
    states_stay_sound();
}

/// Each walk is an order without its turns without effect.
pub fn walks_are_orders()
    ensures { WalksAreOrders }
{}

/// The script that a walk stands for names what the generation has, so that it can be performed.
pub fn walks_are_scripts()
    ensures { WalksAreScripts }
{}

/// The rotation of the tasks, by which `utm` performs a script, is an order: some order has the very steps of the script.
pub fn rotations_are_orders()
    ensures { RotationsAreOrders }
{
    facts_hold_along();
    states_stay_sound();
}
