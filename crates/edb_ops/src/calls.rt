//! The built-ins by their index, as `find_built_in` of edb_table counts them: each place with its function.

ghost use Rattle.std.specs.Prelude.{◌≡◌, ◌<◌, true, IfOk, IfSome, length, map, slice_get};
ghost use Rattle.edb_pure.specs.Table as table;
ghost use Rattle.edb_table.specs.BuiltIns.{built_ins};

use crate::arguments::{four, one, three, two};
use edb_lang::Term;
use edb_pure::Raise;
use edb_table::arms;
use std::alloc::{AllocError, Global};

// A call of a function that takes so many arguments.
macro_rules! call {
    (1, $function:path, $alloc:expr, $args:expr) => {
        $function($alloc, one($args))
    };
    (2, $function:path, $alloc:expr, $args:expr) => {{
        let (first, second) = two($args);
        $function($alloc, first, second)
    }};
    (3, $function:path, $alloc:expr, $args:expr) => {{
        let (first, second, third) = three($args);
        $function($alloc, first, second, third)
    }};
    (4, $function:path, $alloc:expr, $args:expr) => {{
        let (first, second, third, fourth) = four($args);
        $function($alloc, first, second, third, fourth)
    }};
}

/// What the built-in with this index answers to the process `me` and these arguments: a value, or the exception that it
/// raises. The index is one of the 57 for which `is_pure` is true: the others act on what processes share, or are `apply`.
/// There are as many arguments as the built-in takes. The number `me` is read by `self/0` alone. The arguments are only
/// read, and what the answer holds of them is copied. The time is that of the built-in: linear in the sizes of the arguments
/// and the answer, but for a sort. `AllocError` only if out of memory.
#[tactic(auto, unfolding(edb_table::specs::BuiltIns::erlang_keys, edb_table::specs::BuiltIns::int_keys, edb_table::specs::BuiltIns::io_keys, edb_table::specs::BuiltIns::lists_keys, edb_pure::specs::Table::rows))]
pub fn call_refs(
    alloc: Global,
    index: usize,
    args: &[&Term],
    me: u32,
) -> Result<Result<Term, Raise>, AllocError>
    requires below { index < 79 }
    requires row { IfSome (slice_get built_ins index) (λ b. table.is_pure b ≡ true) }
    requires arity { IfSome (slice_get built_ins index) (λ b. length args.now ≡ b.1.1) }
    ensures { IfOk result (λ r. IfSome (slice_get built_ins index) (λ b. r ≡ table.pure b me (map (λ a. a.now) args.now))) }
{
    arms!(index;
        // erlang
        0 => call!(1, edb_values::abs, alloc, args),
        1 => call!(2, edb_values::append_element, alloc, args),
        // apply/2, apply/3
        2 => unreachable!(), 3 => unreachable!(),
        4 => call!(1, edb_values::atom_to_list, alloc, args),
        // demonitor/1, demonitor/2, display/1
        5 => unreachable!(), 6 => unreachable!(), 7 => unreachable!(),
        8 => call!(2, edb_values::element, alloc, args),
        9 => call!(1, edb_values::error, alloc, args),
        10 => call!(1, edb_values::exit, alloc, args),
        // exit/2
        11 => unreachable!(),
        12 => call!(1, edb_values::head, alloc, args),
        13 => call!(1, edb_values::integer_to_list, alloc, args),
        14 => call!(1, edb_values::is_atom, alloc, args),
        15 => call!(1, edb_values::is_boolean, alloc, args),
        16 => call!(1, edb_values::is_function, alloc, args),
        17 => call!(2, edb_values::is_function_of, alloc, args),
        18 => call!(1, edb_values::is_integer, alloc, args),
        19 => call!(1, edb_values::is_list, alloc, args),
        20 => call!(1, edb_values::is_number, alloc, args),
        21 => call!(1, edb_values::is_pid, alloc, args),
        // is_process_alive/1
        22 => unreachable!(),
        23 => call!(1, edb_values::is_reference, alloc, args),
        24 => call!(1, edb_values::is_tuple, alloc, args),
        25 => call!(1, edb_values::length, alloc, args),
        // link/1
        26 => unreachable!(),
        27 => call!(1, edb_values::list_to_atom, alloc, args),
        28 => call!(1, edb_values::list_to_integer, alloc, args),
        29 => call!(1, edb_values::list_to_tuple, alloc, args),
        // make_ref/0
        30 => unreachable!(),
        31 => call!(2, edb_values::max, alloc, args),
        32 => call!(2, edb_values::min, alloc, args),
        // monitor/2, process_flag/2, register/2
        33 => unreachable!(), 34 => unreachable!(), 35 => unreachable!(),
        36 => Ok(edb_values::own_pid(me)),
        // send/2
        37 => unreachable!(),
        38 => call!(3, edb_values::set_element, alloc, args),
        // spawn/1, spawn/3, spawn_link/1, spawn_link/3
        39 => unreachable!(), 40 => unreachable!(), 41 => unreachable!(), 42 => unreachable!(),
        43 => call!(1, edb_values::throw, alloc, args),
        44 => call!(1, edb_values::tail, alloc, args),
        45 => call!(1, edb_values::tuple_size, alloc, args),
        46 => call!(1, edb_values::tuple_to_list, alloc, args),
        // unlink/1, unregister/1, whereis/1
        47 => unreachable!(), 48 => unreachable!(), 49 => unreachable!(),
        // int
        50 => call!(2, edb_values::get_binding, alloc, args),
        // io
        // format/1, format/2
        51 => unreachable!(), 52 => unreachable!(),
        // lists
        53 => call!(1, edb_lists::append_all, alloc, args),
        54 => call!(2, edb_lists::append_two, alloc, args),
        55 => call!(2, edb_lists::delete, alloc, args),
        56 => call!(2, edb_lists::duplicate, alloc, args),
        57 => call!(1, edb_lists::flatten, alloc, args),
        58 => call!(3, edb_lists::keydelete, alloc, args),
        59 => call!(3, edb_lists::keyfind, alloc, args),
        60 => call!(3, edb_lists::keymember, alloc, args),
        61 => call!(4, edb_lists::keyreplace, alloc, args),
        62 => call!(2, edb_lists::keysort, alloc, args),
        63 => call!(4, edb_lists::keystore, alloc, args),
        64 => call!(1, edb_lists::last, alloc, args),
        65 => call!(1, edb_lists::greatest, alloc, args),
        66 => call!(2, edb_lists::member, alloc, args),
        67 => call!(1, edb_lists::least, alloc, args),
        68 => call!(2, edb_lists::nth, alloc, args),
        69 => call!(2, edb_lists::nthtail, alloc, args),
        70 => call!(1, edb_lists::reverse_one, alloc, args),
        71 => call!(2, edb_lists::reverse_onto, alloc, args),
        72 => call!(2, edb_lists::seq, alloc, args),
        73 => call!(1, edb_lists::sort, alloc, args),
        74 => call!(2, edb_lists::sublist, alloc, args),
        75 => call!(1, edb_lists::sum, alloc, args),
        76 => call!(1, edb_lists::unzip, alloc, args),
        77 => call!(1, edb_lists::usort, alloc, args),
        78 => call!(2, edb_lists::zip_lists, alloc, args),
    )
}

/// As `call_refs`, with the arguments themselves in place of references to them. `AllocError` only if out of memory.
pub fn call_bif(
    alloc: Global,
    index: usize,
    args: &[Term],
    me: u32,
) -> Result<Result<Term, Raise>, AllocError>
    requires below { index < 79 }
    requires row { IfSome (slice_get built_ins index) (λ b. table.is_pure b ≡ true) }
    requires arity { IfSome (slice_get built_ins index) (λ b. length args.now ≡ b.1.1) }
    ensures { IfOk result (λ r. IfSome (slice_get built_ins index) (λ b. r ≡ table.pure b me args.now)) }
{
    match args.len() {
        0 => call_refs(alloc, index, &[], me),
        1 => call_refs(alloc, index, &[&args[0]], me),
        2 => call_refs(alloc, index, &[&args[0], &args[1]], me),
        3 => call_refs(alloc, index, &[&args[0], &args[1], &args[2]], me),
        4 => call_refs(alloc, index, &[&args[0], &args[1], &args[2], &args[3]], me),
        _ => unreachable!(),
    }
}

/// Whether the built-in with this index has an answer of its own, and so may be called by `call_bif` and `call_refs`. It has
/// none if it acts on what processes share, or if it is `apply`.
#[tactic(auto, unfolding(edb_table::specs::BuiltIns::erlang_keys, edb_table::specs::BuiltIns::int_keys, edb_table::specs::BuiltIns::io_keys, edb_table::specs::BuiltIns::lists_keys, edb_pure::specs::Table::rows))]
pub fn is_pure(index: usize) -> bool
    requires { index < 79 }
    ensures { IfSome (slice_get built_ins index) (λ b. result ≡ table.is_pure b) }
{
    arms!(index;
        0 => true, 1 => true, 2 => false, 3 => false, 4 => true,
        5 => false, 6 => false, 7 => false, 8 => true, 9 => true,
        10 => true, 11 => false, 12 => true, 13 => true, 14 => true,
        15 => true, 16 => true, 17 => true, 18 => true, 19 => true,
        20 => true, 21 => true, 22 => false, 23 => true, 24 => true,
        25 => true, 26 => false, 27 => true, 28 => true, 29 => true,
        30 => false, 31 => true, 32 => true, 33 => false, 34 => false,
        35 => false, 36 => true, 37 => false, 38 => true, 39 => false,
        40 => false, 41 => false, 42 => false, 43 => true, 44 => true,
        45 => true, 46 => true, 47 => false, 48 => false, 49 => false,
        50 => true, 51 => false, 52 => false, 53 => true, 54 => true,
        55 => true, 56 => true, 57 => true, 58 => true, 59 => true,
        60 => true, 61 => true, 62 => true, 63 => true, 64 => true,
        65 => true, 66 => true, 67 => true, 68 => true, 69 => true,
        70 => true, 71 => true, 72 => true, 73 => true, 74 => true,
        75 => true, 76 => true, 77 => true, 78 => true,
    )
}
