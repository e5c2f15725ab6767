// What follows of a legal history.
ghost use Rattle.std.specs.Prelude.{List};
ghost use Rattle.turn_lock.specs.declared.view.Entry.{Entry};
ghost use Rattle.turn_lock.specs.History.{IsStep, Legal, EachCall};

use crate::thing::Thing;

/// Each call of a legal history may be asked of objects with the fixed part that the object had at the opening.
pub fn each_call_may_be_asked<T: Thing>()
    ensures { (opening : T) (log : List (Entry T.Call T.Reply T)) → Legal (IsStep T.fixed T.may_ask T.turned) opening log → EachCall (T.may_ask (T.fixed opening)) log }
{}
