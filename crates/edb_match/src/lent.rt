//! What a pattern binds while it is being matched: names and terms that are only lent.

ghost use Rattle.std.specs.Prelude.{◌≡◌, IfOk};
ghost use Rattle.std.specs.Option.{option_copied};
ghost use Rattle.edb_lang.specs.Pairs.{bound};
ghost use Rattle.edb_lang.specs.TermViews.{pairs_of};
ghost use Rattle.edb_match.specs.Views.{known_pairs, with_lent};

use crate::known::Known;
use edb_lang::{Name, Term};

/// A variable and the term that it is bound to.
#[derive(Clone, Copy)]
pub(crate) struct Lent<'a> {
    pub(crate) name: &'a Name,
    pub(crate) value: &'a Term,
}

/// The value of a variable, by the newest pair of its name.
pub(crate) fn find<'b>(lent: &'b [Lent], known: &'b Known, name: &Name) -> Option<&'b Term>
    ensures { option_copied result ≡ bound name.now (with_lent lent.now (known_pairs known.now)) }
{
    let mut end = lent.len();
    while end > 0 {
        end -= 1;
        let last = &lent[end];
        if name.cmp(last.name).is_eq() {
            return Some(last.value);
        }
    }
    known.get(name)
}
