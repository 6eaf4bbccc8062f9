//! Pairs go, and a value stays.

ghost use Rattle.std.specs.Prelude.{◌≡◌, ◌≤◌, ◌<◌, ◌∷◌, [], length, unwrap_or};
ghost use Rattle.edb_lang.specs.Terms.{nil};
ghost use Rattle.edb_variables.specs.PairStacks.{oldest, value_at};
ghost use Rattle.edb_stack.specs.Marks.{AllBelow};
ghost use Rattle.edb_stack.specs.Views.{item_of};
ghost use Rattle.edb_stack.specs.Redexes.{value_in};

use edb_lang::Term;
use edb_stack::Item;
use edb_variables::Variables;

/// The newest pairs go, down to this many; the item, with the same value under those that are left. Takes no memory.
pub(crate) fn cut_keeping<'a>(variables: &mut Variables, mark: usize, item: Item<'a>) -> Item<'a>
    requires below { AllBelow (length variables.old.pairs) (item_of item ∷ []) }
    requires mark { mark ≤ length variables.old.pairs }
    ensures pairs { variables.new.pairs ≡ oldest mark variables.old.pairs }
    ensures room { variables.old.room ≤ variables.new.room }
    ensures value { value_in variables.new.pairs result ≡ value_in variables.old.pairs item.entry }
    ensures below { AllBelow mark (item_of result ∷ []) }
{
    match item {
        Item::Placed(place) if place >= mark => Item::Value(take_out(variables, place, mark)),
        other => {
            variables.cut(mark);
            other
        }
    }
}

/// The value of the pair at a place; the newest pairs go, down to this many, and that pair with them.
fn take_out(variables: &mut Variables, place: usize, mark: usize) -> Term
    requires below { place < length variables.old.pairs }
    requires mark { mark ≤ place }
    ensures pairs { variables.new.pairs ≡ oldest mark variables.old.pairs }
    ensures room { variables.old.room ≤ variables.new.room }
    ensures value { result ≡ unwrap_or (value_at place variables.old.pairs) nil }
{
    if place >= variables.len() {
        unreachable!();
    }
    variables.cut(place + 1);
    let Some(pair) = variables.pop() else {
        unreachable!();
    };
    variables.cut(mark);
    pair.value
}
