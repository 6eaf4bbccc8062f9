//! Chosen built-ins: their places are counted by hand in the sorted list of names, and their marks are
//! those of the Erlang manual. Chosen entries of a journal's text, whose places are counted likewise.

use edb_table::{
    LISTS, Marks, find, find_built_in, find_entry, find_erlang, find_int, find_io, find_lists,
    marks, marks_of,
};

// Whether it is imported, a guard test, a shared act.
type Said = (bool, bool, bool);

const PLAIN: Said = (false, false, false);

const AUTO: Said = (true, false, false);

const GUARD: Said = (true, true, false);

const ACT: Said = (true, false, true);

const NAMED_ACT: Said = (false, false, true);

// Module, name and arity, the index of the built-in, and what is said of it.
type Case = (&'static str, &'static str, u8, Option<usize>, Said);

static CASES: [Case; 40] = [
    ("erlang", "abs", 1, Some(0), GUARD),
    ("erlang", "append_element", 2, Some(1), PLAIN),
    ("erlang", "apply", 2, Some(2), AUTO),
    ("erlang", "apply", 3, Some(3), AUTO),
    ("erlang", "apply", 4, None, PLAIN),
    ("erlang", "demonitor", 1, Some(5), ACT),
    ("erlang", "demonitor", 2, Some(6), ACT),
    ("erlang", "display", 1, Some(7), NAMED_ACT),
    ("erlang", "exit", 1, Some(10), AUTO),
    ("erlang", "exit", 2, Some(11), ACT),
    ("erlang", "is_function", 1, Some(16), GUARD),
    ("erlang", "is_function", 2, Some(17), GUARD),
    ("erlang", "is_process_alive", 1, Some(22), ACT),
    ("erlang", "make_ref", 0, Some(30), ACT),
    ("erlang", "self", 0, Some(36), GUARD),
    ("erlang", "self", 1, None, PLAIN),
    ("erlang", "send", 2, Some(37), NAMED_ACT),
    ("erlang", "setelement", 3, Some(38), AUTO),
    ("erlang", "spawn", 1, Some(39), ACT),
    ("erlang", "spawn", 2, None, PLAIN),
    ("erlang", "spawn", 3, Some(40), ACT),
    ("erlang", "whereis", 1, Some(49), ACT),
    ("erlang", "reverse", 1, None, PLAIN),
    ("erlang", "!", 2, None, PLAIN),
    ("erlang", "", 0, None, PLAIN),
    ("erlang", "zzz", 1, None, PLAIN),
    ("int", "get_binding", 2, Some(50), PLAIN),
    ("int", "get_binding", 1, None, PLAIN),
    ("io", "format", 0, None, PLAIN),
    ("io", "format", 1, Some(51), NAMED_ACT),
    ("io", "format", 2, Some(52), NAMED_ACT),
    ("lists", "append", 1, Some(53), PLAIN),
    ("lists", "append", 2, Some(54), PLAIN),
    ("lists", "max", 1, Some(65), PLAIN),
    ("lists", "max", 2, None, PLAIN),
    ("lists", "seq", 2, Some(72), PLAIN),
    ("lists", "zip", 2, Some(78), PLAIN),
    ("lists", "abs", 1, None, PLAIN),
    ("", "abs", 1, None, PLAIN),
    ("Erlang", "abs", 1, None, PLAIN),
];

// The word of an entry, a number of fields, and the place of their row.
static ENTRY_CASES: [(&'static str, u8, Option<usize>); 15] = [
    ("advance", 1, Some(0)),
    ("ask", 2, Some(1)),
    ("did", 4, Some(2)),
    ("forward", 1, Some(5)),
    ("load", 3, Some(9)),
    ("served", 0, Some(11)),
    ("served", 3, None),
    ("signal", 1, Some(12)),
    ("signal", 2, Some(13)),
    ("signal", 3, None),
    ("start", 0, Some(15)),
    ("stop", 5, Some(16)),
    ("stop", 6, Some(17)),
    ("trigger", 6, Some(19)),
    ("edb", 1, None),
];

fn said(marks: Marks) -> Said {
    (marks.auto, marks.guard, marks.shared)
}

#[test]
fn chosen_built_ins(rt: HostRuntime) {
    for (module, name, arity, index, want) in &CASES {
        assert_eq!(rt;
            find_built_in(module, name, *arity),
            *index,
            "{module}:{name}/{arity}"
        );
        assert_eq!(rt;
            said(marks_of(module, name, *arity)),
            *want,
            "{module}:{name}/{arity}"
        );
    }
    assert_eq!(rt; find_erlang("whereis", 1), Some(49));
    assert_eq!(rt; find_int("get_binding", 2), Some(0));
    assert_eq!(rt; find_io("format", 2), Some(1));
    assert_eq!(rt; find_lists("zip", 2), Some(25));
    assert_eq!(rt; find(&LISTS, "seq", 2), Some(19));
    assert_eq!(rt; find(&[], "seq", 2), None);
    assert_eq!(rt; said(marks(36)), GUARD);
    assert_eq!(rt; said(marks(78)), PLAIN);
}

#[test]
fn chosen_entries(rt: HostRuntime) {
    for (word, fields, place) in &ENTRY_CASES {
        assert_eq!(rt; find_entry(word, *fields), *place, "{word} {fields}");
    }
}
