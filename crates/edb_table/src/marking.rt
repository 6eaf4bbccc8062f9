//! The marks of each built-in, as the Erlang manual has them: which are imported, and which are
//! guard tests.

ghost use Rattle.std.specs.Prelude.{◌≡◌, ◌<◌, IfSome, slice_get};
ghost use Rattle.edb_table.specs.BuiltIns.{built_ins};
ghost use Rattle.edb_table.specs.Marking.{is_auto, is_guard, is_shared};

use crate::built_ins::find_built_in;
use crate::kinds::Marks;

/// A choice by place: each place that the index can have, with what it gives. The places are written
/// out, since a macro can't count; the caller shows that the index is one of them.
#[macro_export]
macro_rules! arms {
    ($index:expr; $($place:literal => $value:expr),* $(,)?) => {
        match $index {
            $($place => $value,)*
            _ => unreachable!(),
        }
    };
}

/// Imported: a call needs no module.
const AUTO: Marks = Marks {
    auto: true,
    guard: false,
    shared: false,
};

/// That, and allowed in guards.
const GUARD: Marks = Marks {
    auto: true,
    guard: true,
    shared: false,
};

/// Imported, and a shared act.
const ACT: Marks = Marks {
    auto: true,
    guard: false,
    shared: true,
};

/// Called with its module.
const NAMED: Marks = Marks {
    auto: false,
    guard: false,
    shared: false,
};

/// That, and a shared act.
const NAMED_ACT: Marks = Marks {
    auto: false,
    guard: false,
    shared: true,
};

/// The marks of the built-in with this index, as `find_built_in` counts them.
#[tactic(auto, unfolding(crate::specs::BuiltIns::erlang_keys, crate::specs::BuiltIns::int_keys, crate::specs::BuiltIns::io_keys, crate::specs::BuiltIns::lists_keys, crate::specs::Marking::named_keys, crate::specs::Marking::guard_keys, crate::specs::Marking::act_keys))]
pub fn marks(index: usize) -> Marks
    requires { index < 79 }
    ensures auto { IfSome (slice_get built_ins index) (λ built_in. result.auto ≡ is_auto built_in) }
    ensures guard { IfSome (slice_get built_ins index) (λ built_in. result.guard ≡ is_guard built_in) }
    ensures shared { IfSome (slice_get built_ins index) (λ built_in. result.shared ≡ is_shared built_in) }
{
    arms!(index;
        // erlang: abs/1, append_element/2, apply/2, apply/3, atom_to_list/1
        0 => GUARD, 1 => NAMED, 2 => AUTO, 3 => AUTO, 4 => AUTO,
        // demonitor/1, demonitor/2, display/1, element/2, error/1
        5 => ACT, 6 => ACT, 7 => NAMED_ACT, 8 => GUARD, 9 => AUTO,
        // exit/1, exit/2, hd/1, integer_to_list/1, is_atom/1
        10 => AUTO, 11 => ACT, 12 => GUARD, 13 => AUTO, 14 => GUARD,
        // is_boolean/1, is_function/1, is_function/2, is_integer/1, is_list/1
        15 => GUARD, 16 => GUARD, 17 => GUARD, 18 => GUARD, 19 => GUARD,
        // is_number/1, is_pid/1, is_process_alive/1, is_reference/1, is_tuple/1
        20 => GUARD, 21 => GUARD, 22 => ACT, 23 => GUARD, 24 => GUARD,
        // length/1, link/1, list_to_atom/1, list_to_integer/1, list_to_tuple/1
        25 => GUARD, 26 => ACT, 27 => AUTO, 28 => AUTO, 29 => AUTO,
        // make_ref/0, max/2, min/2, monitor/2, process_flag/2
        30 => ACT, 31 => GUARD, 32 => GUARD, 33 => ACT, 34 => ACT,
        // register/2, self/0, send/2, setelement/3, spawn/1
        35 => ACT, 36 => GUARD, 37 => NAMED_ACT, 38 => AUTO, 39 => ACT,
        // spawn/3, spawn_link/1, spawn_link/3, throw/1, tl/1
        40 => ACT, 41 => ACT, 42 => ACT, 43 => AUTO, 44 => GUARD,
        // tuple_size/1, tuple_to_list/1, unlink/1, unregister/1, whereis/1
        45 => GUARD, 46 => AUTO, 47 => ACT, 48 => ACT, 49 => ACT,
        // int:get_binding/2, io:format/1, io:format/2
        50 => NAMED, 51 => NAMED_ACT, 52 => NAMED_ACT,
        // lists: append/1, append/2, delete/2, duplicate/2, flatten/1
        53 => NAMED, 54 => NAMED, 55 => NAMED, 56 => NAMED, 57 => NAMED,
        // keydelete/3, keyfind/3, keymember/3, keyreplace/4, keysort/2
        58 => NAMED, 59 => NAMED, 60 => NAMED, 61 => NAMED, 62 => NAMED,
        // keystore/4, last/1, max/1, member/2, min/1
        63 => NAMED, 64 => NAMED, 65 => NAMED, 66 => NAMED, 67 => NAMED,
        // nth/2, nthtail/2, reverse/1, reverse/2, seq/2
        68 => NAMED, 69 => NAMED, 70 => NAMED, 71 => NAMED, 72 => NAMED,
        // sort/1, sublist/2, sum/1, unzip/1, usort/1
        73 => NAMED, 74 => NAMED, 75 => NAMED, 76 => NAMED, 77 => NAMED,
        // zip/2
        78 => NAMED,
    )
}

/// The marks of the built-in with this module, name and arity; what is no built-in has none of them.
pub fn marks_of(module: &str, name: &str, arity: u8) -> Marks
    ensures auto { result.auto ≡ is_auto («module».now, (name.now, arity)) }
    ensures guard { result.guard ≡ is_guard («module».now, (name.now, arity)) }
    ensures shared { result.shared ≡ is_shared («module».now, (name.now, arity)) }
{
    match find_built_in(module, name, arity) {
        Some(index) => marks(index),
        None => NAMED,
    }
}
