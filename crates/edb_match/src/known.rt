//! Bindings that are only looked at.

ghost use Rattle.std.specs.Prelude.{◌≡◌, []};
ghost use Rattle.std.specs.Option.{option_copied};
ghost use Rattle.edb_lang.specs.Pairs.{Pairs, bound};
ghost use Rattle.edb_match.specs.Newest.{newest_first};
ghost use Rattle.edb_match.specs.Views.{known_pairs};

use edb_lang::{Bindings, Captured, Name, Term};

/// Bindings that are only looked at: sorted ones, or a stack and what stands behind it.
#[derive(Clone, Copy)]
pub(crate) enum Known<'a> {
    Sorted(&'a Bindings),
    Stack(&'a [Captured], &'a [Captured]),
}

impl<'a> Known<'a> {
    /// The value of a variable.
    #[tactic(auto, using(crate::proofs::Lists::bound_stack))]
    pub(crate) fn get(&self, name: &Name) -> Option<&Term>
        ensures { option_copied result ≡ bound name.now (known_pairs self.now) }
    {
        match self {
            Known::Sorted(bindings) => bindings.get(name),
            Known::Stack(sees, hidden) => match newest_value(sees, name) {
                Some(value) => Some(value),
                None => newest_value(hidden, name),
            },
        }
    }
}

/// The value of a variable in pairs of which the last is the newest: that of the last pair with its name. Copies nothing.
pub fn newest_value<'b>(pairs: &'b [Captured], name: &Name) -> Option<&'b Term>
    ensures { option_copied result ≡ bound name.now (newest_first pairs.now []) }
{
    let mut end = pairs.len();
    while end > 0 {
        end -= 1;
        let last = &pairs[end];
        if name.cmp(&last.name).is_eq() {
            return Some(&last.value);
        }
    }
    None
}
